//! A statement's names and kinds, bound to the tables that connections declare.
//!
//! `connections_of` says whose declarations a statement needs, a `Catalog` keeps them, and `bind` gives the statement with columns in place
//! of names (`Bound`), or the first refusal with its place, in bytes (`BindFault`). The order of refusals stands in `specs/Answer.antt`,
//! and each refusal in `specs/Refusals.antt`.
#![tactic(auto)]

mod binding;
mod bound;
mod catalog;
mod conditions;
mod fault;
mod fitting;
mod index;
mod judging;
mod laws;
mod looked;
mod needed;
mod notes;
mod sources;
mod walking;
mod wanted;

pub use binding::bind;
pub use bound::{Bound, BoundItem, BoundKey, BoundSource, Column};
pub use catalog::Catalog;
pub use fault::BindFault;
pub use laws::binds_by_its_connections;
pub use needed::{connections_named, connections_of};
