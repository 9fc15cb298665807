//! The SQL grammar: statements from their tokens.
//!
//! `Statement` and its parts (`ast.rt`) are what a text means; each name, ref and literal holds its place, in bytes. `parse` gives exactly
//! the statement that the grammar derives from a list of tokens, or where it stops (`Stop`). The grammar stands in
//! `specs/Grammar.antt`, production by production as docs/SQL.md shows it: begin reading there.
#![tactic(auto)]

mod ast;
mod condition;
mod ending;
mod expr;
mod items;
mod sources;
mod statement;
mod stop;
mod words;

pub use ast::{
    Constant, Expr, Item, Join, Key, Literal, Name, Operand, Predicate, Ref, Shown, Statement,
    TableRef,
};
pub use statement::parse;
pub use stop::Stop;
