//! Calls that are to be made: what passes from a statement to whoever makes its calls.
//!
//! A `Job` is one call with the seat that waits for its answer and the tick before which it isn't sent. `call_job`, `version_job` and
//! `declare_job` make them. Which jobs are lawful stands in `specs/Lawful.antt`. Begin reading at `job.rt`.
#![tactic(auto)]

mod function;
mod job;
mod making;

pub use job::Job;
pub use making::{call_job, declare_job, version_job};
