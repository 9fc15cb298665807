//! One scan: the calls that it wants, what pieces of their replies make of it, and its rows or its failure.
//!
//! A `Scan` is begun at a version, lists each of its calls once (`wanted`), takes the pieces of their replies in any order
//! (`answered`), and gives its result as soon as that follows (`result`, `rows`, `into_kept`). It holds a `Course` of `scan_core`, which
//! says how a scan goes on; here stands what that means where the world tells. Begin with `scan.rt` and `specs/Views.antt`.
#![tactic(auto)]

mod beginning;
mod laws;
mod scan;

pub use laws::run_lists_what_is_used;
pub use scan::{Scan, ScanEnd};
