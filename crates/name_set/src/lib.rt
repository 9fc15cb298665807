//! Names that are looked up again: each once, in the order in which they came.
//!
//! `NameSet` keeps lent texts; contracts see their list, and `has_name` of `sp_model` says whether a name is among them. Its laws, for loops that
//! fill a set, stand in `proofs/Insertions.antt`.
#![tactic(auto)]

mod set;

pub use set::NameSet;
