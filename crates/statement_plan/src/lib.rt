//! Which scans a statement makes: how each of its sources is asked for, and what is made of the rows.
//!
//! `Plan::of` takes a bound statement (`sql_bind`) of any number of sources, and gives its plan, or the keys that its first refused source
//! lacks. What a source asks for once the rows before it are there says `PlanSource` of `source_scans`. Begin with `plan`; what conjuncts say
//! of a source stands in `specs/Reading.antt`.
#![tactic(auto)]

mod columns;
mod conjuncts;
mod finishing;
mod layout;
mod limits;
mod placing;
mod plan;
mod planning;
mod reading;
mod sources;

pub use plan::{Finishing, Heading, Plan, PlanFault};
