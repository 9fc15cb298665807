//! Bytes that come in pieces and are taken line by line, as a reader of a pipe has them.
//!
//! Begin with `PendingBytes`: pieces are added at its end, and what stands before its first line feed is looked at and passed. No byte is
//! searched twice, and each is moved once at most. `specs/Lines.antt` says what the lines of bytes are.
#![tactic(auto)]

mod pending;
mod unread;

pub use pending::PendingBytes;
pub use unread::Unread;
