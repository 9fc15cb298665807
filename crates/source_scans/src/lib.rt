//! The scans that a source of a statement asks for, once the rows of the sources before it are there.
//!
//! A `PlanSource` says how the items of a table are asked for, with which conditions, and at which connections. `next_scans` gives the
//! distinct requests of the source, in the order in which its left rows first ask for them, and for each left row the places of its own
//! among them (`Scans`). Begin with `source`; what a left row asks for stands in `specs/Asking.antt`.
#![tactic(auto)]

mod asking;
mod collecting;
mod distinct;
mod laws;
mod scans;
mod source;
mod unit_scan;
mod value;

pub use asking::conditions_of;
pub use distinct::distinct_values;
pub use laws::made_requests_are_asked;
pub use scans::Scans;
pub use source::{Fan, PlanCondition, PlanOperand, PlanSource};
