//! One scan: which calls it wants, what each piece of a reply does, and its rows or its failure.
//!
//! Pieces come in any order, at any window of rows in flight. `specs/Advances.antt` has the rules by which a scan goes on, one step
//! at a time, and `calls.rt` the calls whose items it takes. What rests of a scan after each step is `scan_laws`, and the rows in
//! flight are `row_flight`.
#![tactic(auto)]

mod advance;
mod answering;
mod beginning;
mod calls;
mod course;
mod deciding;
mod dues;
mod hearing;
mod laws;
mod listing;
mod lists;
mod meeting;
mod moves;
mod next;
mod refusing;
mod rows;
mod scope;
mod seat;
mod sources;
mod step;
mod verdicts;

pub use calls::{Entry, ItemsCall, OpenCall, ParentsCall};
pub use course::{Course, CourseEnd};
pub use laws::{parents_piece_is_taken_in, piece_is_taken_in, scan_goes_on, still_scan_is_open};
pub use scope::{CallSource, ScanScope};
pub use seat::SeatOf;
