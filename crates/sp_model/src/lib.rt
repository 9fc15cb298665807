//! What is asked of a connection and what it answers: calls, replies, versions, declarations, settings, scan requests and notes.
//!
//! Its `specs/` hold the definitions that every answer is measured by. Begin with `call` and `declaration`, then `specs/Settling.antt`,
//! `Hydration.antt`, `RowOf.antt` and `Walk.antt`, in this order; docs/DEFINITIONS.md tells them in plain English.
#![tactic(auto)]

mod call;
mod canonical;
mod columns;
mod declaration;
mod fields;
mod laws;
mod names;
mod outcome;
mod same;
mod scan;
mod settings;

pub use call::{Asked, Call, CallKey, Condition, Conditions, Ending, Piece, Reply, Version};
pub use canonical::{compare_conditions, is_canonical, is_scalar};
pub use columns::columns_named;
pub use declaration::{
    AccessDecl, Backoff, ColumnDecl, Declaration, FunctionDecl, GetDecl, KeyDecl, ListDecl,
    Matching, Need, Patterns, Retry, Rule, TableDecl,
};
pub use fields::{field, is_of_kind};
pub use laws::{
    call_has_at_most_its_attempts, hydration_needs_its_dependencies, ignored_error_keeps_items,
    plain_list_is_its_items, whole_call_is_settled,
};
pub use names::{has_name, is_connection_name, is_name, is_word};
pub use outcome::{Outcome, Results, Row, ScanValue, Settled, Walk, WalkState};
pub use same::{same_call, same_condition, same_conditions, same_key};
pub use scan::{Access, Cause, Mark, ScanNote, ScanNotes, ScanRequest, Seat};
pub use settings::{Connection, Limiter, Options, Pair, Settings};
