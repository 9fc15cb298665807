//! What the connections of a statement declare, asked at a desk.
//!
//! `declare_all` asks each connection that the catalog has no declaration of, in order, and sets what it declares. It stops at the first one
//! that is refused, that differs from the first of its group, or whose connection is gone (`Undeclared`). A declaration that is refused isn't
//! kept: the next statement that needs it asks again. Begin reading at `specs/Declaring.antt`.
#![tactic(auto)]

mod agreeing;
mod asking;
mod declaring;
mod undeclared;

pub use declaring::declare_all;
pub use undeclared::Undeclared;
