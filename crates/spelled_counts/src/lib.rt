//! Counts as they are spelled by a user: from 1 on, in decimal digits, without leading zeros.
//!
//! `count_of` reads one that is within its limit. What a spelling is stands in `specs/Counts.antt`.
#![tactic(auto)]

mod count;

pub use count::count_of;
