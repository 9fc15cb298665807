//! Settings files: the connections, limiters and options of a run, written in TOML.
//!
//! `read_settings` takes a file's bytes and gives `Settings` of `sp_model` with defaults put in, or the first refusal in a fixed order
//! (`SettingsFault`). docs/SETTINGS.md describes the format. The order of refusals stands in `specs/Reading.antt`; begin there, and then at
//! `reading.rt`.
#![tactic(auto)]

mod aggregators;
mod entries;
mod fault;
mod from_toml;
mod limits;
mod reading;
mod refusals;
mod written;

pub use fault::{Entry, SettingsFault};
pub use reading::{read_all_settings, read_settings};
