//! Limits on calls: which calls may be made at a tick, and the journal of those that were.
//!
//! A limiter applies to a call by the call's tags (`CallTags`). It has one instance for each list of values of its scope, with a bucket, a
//! greatest number of open grants, or both. `Gate::ask` takes a token and a place of each instance of a call, or of none; a `Permit` is one
//! such grant, and is spent by a send or handed back. The journal has each grant and each return with its tick, and keeps the laws of every
//! limiter (`specs/Limits.antt`, `KeepsLimiters`). Begin reading there.
#![tactic(auto)]

mod call_tags;
mod entry;
mod gate;
mod instance;
mod instances;
mod journal;
mod keys;
mod limited;
mod limits;
mod permit;
mod scope;
mod tag_list;
mod tagging;
mod wait;

pub use call_tags::CallTags;
pub use entry::Entry;
pub use gate::Gate;
pub use journal::Journal;
pub use permit::{Permit, Used};
pub use tag_list::TagList;
pub use wait::Wait;
