//! The lines of an input, answered one after another over the children of the settings' plain connections.
//!
//! `answer_lines` answers lines at any desk, `run_lines` at a `PlainDesk` over children that it makes and gives back; a `Block` is the
//! answer to a line. What the blocks are stands in `specs/Blocks.antt`, and which calls are counted in `specs/Calls.antt`.
#![tactic(auto)]

mod block;
mod children;
mod counting;
mod lines;
mod run;

pub use block::{Block, Ran};
pub use lines::answer_lines;
pub use run::run_lines;
