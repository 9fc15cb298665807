//! Jobs that wait to be made, in one line for each connection.
//!
//! `Queue::push` puts a job into its connection's line, `Queue::pick` takes the first out that is due and that a gate of limiters grants.
//! A job that is due later waits beside the line until its tick. Begin reading at `specs/Lines.antt`, `specs/Picking.antt` and `queue.rt`.
#![tactic(auto)]

mod jobs;
mod line;
mod lines;
mod picked;
mod queue;
mod turns;

pub use picked::Picked;
pub use queue::Queue;
