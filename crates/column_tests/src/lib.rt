//! Tests on the values of columns, for any kind of column: by its source and place in a statement whose names are bound, by its number in a
//! row.
//!
//! A `Test` is a tree of questions; `proofs/TestLaws.antt` says what a fold of it is at each form.
#![tactic(auto)]

mod test;

pub use test::{Operand, Question, Test};
