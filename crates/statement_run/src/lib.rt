//! One statement over any desk: from its text to its answer.
//!
//! `run_statement` reads a text, asks the connections that it needs for their declarations, binds its names, plans its scans and runs the
//! plan. What it answers, whatever the desk does and in whatever order, stands in `specs/Answers.antt`; begin reading there, and then at
//! `statement.rt`.
#![tactic(auto)]

mod answer;
mod naming;
mod planning;
mod statement;

pub use answer::{Answer, AnswerEnd, BlockFault};
pub use statement::run_statement;
