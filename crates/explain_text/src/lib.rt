//! Which scans a statement would make, in words.
//!
//! `explain` takes a statement's text and a `Catalog` (`sql_bind`), and gives the lines of its plan, one for each source, or the first
//! refusal (`ExplainFault`). `explain_lines` does so for the lines of an input, and `blocks_text` has their bytes. It asks nobody. What a line says stands in `specs/Lines.antt`; begin reading at `explaining.rt`.
#![tactic(auto)]

mod alike;
mod blocks;
mod cells;
mod conditions;
mod explaining;
mod fault;
mod functions;
mod lines;
mod listing;

pub use alike::declared_alike;
pub use blocks::{Block, blocks_text, explain_lines};
pub use explaining::explain;
pub use fault::ExplainFault;
