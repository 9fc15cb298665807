//! The words of the command.
//!
//! `read_words` reads them, by `clap`, into `Words`: what to do (`Command`) and the form of answers. Which words are taken stands in
//! `specs/Words.antt`; begin reading at `reading.rt`.
#![tactic(auto)]

mod matching;
mod reading;
mod taken;
mod words;

pub use reading::read_words;
pub use taken::taken_words;
pub use words::{Command, Words, WordsFault};
