//! What a statement answers by the versions that its notes record, and why one stops without rows.
//!
//! A statement goes by its sources, one scan after another (`specs/Course.antt`). Rows, a failure, a spent budget or want of memory with
//! notes are tied to that course by `IsAnswer` (`specs/Answered.antt`), and what a part of a statement does to its desk and its notes is
//! `Advances`. The laws, functions that do nothing, take a course on from scan to scan. Begin reading at `specs/Course.antt`.
#![tactic(auto)]

mod laws;
mod stop;

pub use laws::{answers_agree, course_begins, scan_goes_on, source_begins, source_goes_on};
pub use stop::Stop;
