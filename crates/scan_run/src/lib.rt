//! One scan of a statement: from a kept scan, or by calls at a desk.
//!
//! `run_scan` looks for a kept scan, asks for the version otherwise, hands in the calls that the scan wants, and feeds it what is told of
//! them, until the scan has rows or fails, its connection is gone, or memory is wanting. Which scans may be made of a table stands in
//! `specs/Asked.antt`, what a scan comes to in `Answered.antt` of `statement_words`. Begin reading at `scan.rt`.
#![tactic(auto)]

mod calls;
mod deciding;
mod feeding;
mod fresh;
mod kept;
mod laws;
mod posting;
mod scan;

pub use laws::scans_of_lists_are_asked;
pub use scan::run_scan;
