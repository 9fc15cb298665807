//! One row's functions: which may be called, what they gave, and the row that its columns make of it.
//!
//! What depends on the table and the columns that are asked for alone is a `RowPlan`, which all rows of a scan share; a
//! `RowGraph` is one row: its item, and what its functions gave so far. It lists the functions that may be called (`ready`),
//! takes what they gave in any order (`settle`), and says how the row ends as soon as that is decided (`finished`). Begin with
//! `graph.rt` and `specs/Graphs.antt`; functions go by their numbers here, which count from 0 in declared order
//! (`specs/Numbers.antt`), and what is settled is tied to what calls give by `specs/Following.antt`.
#![tactic(auto)]

mod causes;
mod depends;
mod ends;
mod graph;
mod plan;
mod planning;
mod ready_list;

pub use ends::{CauseRef, RowEnd};
pub use graph::RowGraph;
pub use plan::RowPlan;
pub use ready_list::ReadyList;
