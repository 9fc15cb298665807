//! One child with many open calls.
//!
//! A `Link` numbers its calls by the child's sends. A job is prepared (`Link::prepare`), which takes all the memory that its call needs,
//! and sent with the permit that it was granted (`Link::send`); each line that comes in is for one open call, and tells of what was asked
//! (`Link::receive`). A line that answers no open call loses the child, as its faults do; then `Link::reissue` hands the open calls back,
//! and `Link::restart` starts the child anew. What was heard is counted in `specs/Ledger.antt`. Begin reading at `link.rt`.
#![tactic(auto)]

mod arrival;
mod fitting;
mod flight;
mod link;
mod looked;
mod looking;
mod parts;
mod prepared;
mod preparing;
mod receiving;

pub use arrival::{Arrived, RecvEnd};
pub use flight::Flight;
pub use link::Link;
pub use parts::Parts;
pub use prepared::Prepared;
