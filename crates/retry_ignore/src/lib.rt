//! What an error means for its call: it is ignored, the call is asked again after a delay, or the call fails.
//!
//! `rule_of` gives the rules of a call, `judge` chooses by them, `delay` says how long the next attempt waits. Ticks are
//! milliseconds. Begin with `judging.rt`; what an error means is `judged` of `sp_model`, and the delays are in its
//! `specs/Delays.antt`.
#![tactic(auto)]

mod delays;
mod judging;
mod rules;
mod verdict;

pub use delays::delay;
pub use judging::judge;
pub use rules::rule_of;
pub use verdict::Verdict;
