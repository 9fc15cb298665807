//! SQL statements: from their text, and back.
//!
//! `parse` reads a text of one statement, or gives its first fault with the place, in bytes (`SqlFault`); `print` writes the one spelling
//! of a statement. This crate puts `sql_lex`, `sql_grammar` and `sql_print` together and passes their types on. To read a text and
//! spell it again:
//!
//! ```text
//! let statement = parse(alloc, "SELECT Id FROM c.item WHERE not(id != 1)")?;
//! let text = print(alloc, &statement)?; // select id from c.item where not id <> 1
//! ```
#![tactic(auto)]

mod fault;
mod reading;

pub use fault::SqlFault;
pub use reading::parse;
pub use sql_grammar::{
    Constant, Expr, Item, Join, Key, Literal, Name, Operand, Predicate, Ref, Shown, Statement,
    TableRef,
};
pub use sql_print::print;
