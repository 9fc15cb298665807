//! Members of values, by their names: what JSON's objects and TOML's tables have in common.
//!
//! `object_has_only` and `table_has_only` say whether a value has members of some names and no other, and `has_name` whether a name is one of
//! these. What a member is read as is the reader's own: docs/DECISIONS.md says why. Begin reading at `names.rt`.
#![tactic(auto)]

mod names;
mod trees;

pub use names::has_name;
pub use trees::{object_has_only, table_has_only};
