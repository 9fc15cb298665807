//! A statement's plan, run over any desk.
//!
//! `run_plan` scans the sources of a plan one after another, each once for every request that the rows of the sources before it ask for,
//! joins their rows, and gives those that the statement answers with, and the notes of all scans. What it answers is the statement's course
//! (`Course.antt` of `statement_words`); a plan as such a statement stands in `specs/Statements.antt`. Begin reading at `plan.rt`.
#![tactic(auto)]

mod laws;
mod plan;

pub use laws::planned_sources_are_ready;
pub use plan::{Ran, run_plan};
