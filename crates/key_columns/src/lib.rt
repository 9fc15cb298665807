//! Key columns: the conditions that are sent with a call, whether keys are met, and which are missing.
//!
//! `sent` and `canonical` give new lists; `is_met` and `fan_of` take no memory. What counts as a condition where keys are looked at is a
//! `Given`: the conditions of a source, those by `=` alone, or either with the `in` list that is fanned out. Begin there; the meaning is
//! in `specs/Keys.antt` of `sp_model`. Values that are no booleans, integers or texts are accepted, and not told apart.
#![tactic(auto)]

mod given;
mod keys;
mod meeting;
mod sending;

pub use given::Given;
pub use keys::fan_of;
pub use meeting::{is_met, missing_keys};
pub use sending::{canonical, sent};
