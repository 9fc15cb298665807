//! What a statement asks at its desk: declarations, versions, and whatever jobs it has.
//!
//! `ask_declaration` and `ask_version` hand in a job and wait for what is told of it; `take_line` takes one mail for the seats of a number.
//! Mail of something else is passed over; where the asked connection is gone, a `Stop` says so. Begin reading at `mail.rt`.
#![tactic(auto)]

mod declaration;
mod mail;
mod places;
mod posting;
mod version;

pub use declaration::ask_declaration;
pub use mail::take_line;
pub use places::plain_named;
pub use posting::submit;
pub use version::ask_version;
