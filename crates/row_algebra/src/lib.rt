//! What a statement does to rows: they are joined, those that meet its condition are kept, they are ordered, and of a first part of them
//! some columns are shown.
//!
//! A row is a list of values (`Cells`), and a condition or a key names its columns by their places in it. `keep` and `limit_rows` take no
//! memory; `order_rows` keeps the order of rows that its keys don't tell apart; `project` copies the columns that are shown, `join_rows` the
//! cells of both sides. Conditions are true, false or unknown of a row (`specs/RowTruth.antt`); begin reading there, at
//! `specs/RowOrder.antt` and at `specs/RowJoins.antt`.
#![tactic(auto)]

mod joining;
mod judging;
mod ordering;
mod showing;

pub use joining::join_rows;
pub use judging::{keep, truth_of};
pub use ordering::{OrderKey, order_rows};
pub use showing::{limit_rows, project};
