//! The one spelling of a statement.
//!
//! `print` writes a `Statement` of `sql_grammar` as a text that is read as that statement again, but for its places. The spelling stands in
//! `specs/`; begin reading at `statement.rt`.
#![tactic(auto)]

mod condition;
mod page;
mod parts;
mod statement;

pub use statement::print;
