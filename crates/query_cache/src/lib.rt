//! Kept scans: which of them serves a request, and the rows that it gives.
//!
//! A `Cache` has kept scans in the order of their last use. `Cache::find` gives the first that serves a request, `Cache::keep` puts one in
//! front. `rows_of` has the rows that a kept scan gives to a request that it covers. Begin reading at `specs/Entries.antt` and `cache.rt`.
#![tactic(auto)]

mod alike;
mod cache;
mod covering;
mod placing;
mod serving;

pub use cache::Cache;
pub use serving::rows_of;
