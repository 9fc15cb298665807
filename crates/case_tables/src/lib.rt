//! Files of tables of cases: their form, what a case is given, and the running of all cases of a file over what a
//! program makes of them (`Outcomes`). docs/TESTING.md describes the files.
#![tactic(auto)]

mod file;
mod given;
mod running;
mod words;

pub use given::{bytes_at, str_at};
pub use running::{Outcomes, run_file};
pub use words::{listed, push_word, word};
