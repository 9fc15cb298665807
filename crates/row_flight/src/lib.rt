//! The rows of a scan that are in flight: their order, the calls of their functions, and what the pieces of these calls make of
//! them.
//!
//! A `Flight` holds the rows of the first undecided items, in order, in a pool whose slots are taken at the beginning. It lists each
//! call once that is ready (`list`), takes the pieces of the calls by their seats, in any order (`awaits`, `hear`), and lends its first row
//! (`first`), of which `hydrate_graph` says how it ends. Begin with `flight.rt` and `specs/Flying.antt`; `specs/Attempts.antt` says
//! what a piece makes of a call, `specs/Laws.antt` what all this means for a scan.
#![tactic(auto)]

mod attempt;
mod attempts;
mod dues;
mod flight;
mod frame;
mod laws;
mod listing;
mod row;

pub use attempt::Attempt;
pub use attempts::Attempts;
pub use dues::sooner;
pub use flight::Flight;
pub use frame::{CallFrame, JobList, Taken, Wanted};
pub use laws::flight_goes_on;
pub use row::RowCalls;
