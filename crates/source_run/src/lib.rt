//! The sources of a statement, scanned and joined over any desk.
//!
//! `join_sources` scans sources one after another, each once for every request that the rows of the sources before it ask for, and joins
//! their rows. How a statement goes on by its sources is its course (`Course.antt` of `statement_words`); a planned source as one of a
//! statement stands in `specs/Sources.antt`, and which sources may be scanned in `specs/Ready.antt`. Begin reading at `sources.rt`.
#![tactic(auto)]

mod laws;
mod scans;
mod sources;

pub use laws::{chosen_sources_are_ready, requests_of_lists_are_asked};
pub use sources::join_sources;
