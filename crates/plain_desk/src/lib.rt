//! A desk over the children of one session, without limiters, restarts and kept scans.
//!
//! A `Slot` is the child of a connection with the calls that wait for it; `PlainDesk` has one for each plain connection of the settings. A
//! call is sent once it is due, while the lines of the calls that are open at its child are together short enough that no write waits for a
//! child that itself waits to be read. A lost child is gone, after one loss. Begin reading at `plain_desk.rt`.
#![tactic(auto)]

mod losing;
mod plain_desk;
mod posts;
mod running;
mod sending;
mod session_clock;
mod slot;
mod slot_parts;
mod stage;
mod stepping;

pub use plain_desk::PlainDesk;
pub use session_clock::SessionClock;
pub use slot::Slot;
pub use slot_parts::SlotParts;
pub use stage::Stage;
