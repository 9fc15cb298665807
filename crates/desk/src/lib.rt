//! What a statement asks for calls, mail and kept scans: the trait of a desk.
//!
//! A statement hands in jobs (`Desk::submit`), takes what is told of them (`Mail`), and has the desk move calls on (`Desk::drive`); the desk
//! has the clock of its session, counts its scans, and keeps finished ones. What a desk has of its own is a `DeskState` (`specs/States.antt`),
//! and what passes is a run of events (`specs/Events.antt`). Begin reading at `traits.rt`.
#![tactic(auto)]

mod mail;
mod traits;

pub use mail::Mail;
pub use traits::{Desk, Driven};
