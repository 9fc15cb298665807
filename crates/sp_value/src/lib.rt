//! Values, their comparison, patterns, and values as JSON.
//!
//! `Cell` is a value, `Text` a text, `Members` are values under names, and `Memory` is want of memory, which goes up by `?`. Begin with
//! `cell`, `text` and `members`; `specs/Truth.antt` says how values compare, `specs/Json.antt` which value JSON is.
//!
//! ```text
//! let cell = from_json(alloc, &value)?;
//! let copy = cell.copy(alloc)?;
//! assert!(compare(Op::Eq, &cell, &Cell::Int(7)) == Truth::Yes);
//! ```
#![tactic(auto)]

mod cell;
mod copying;
mod json;
mod kind;
mod lists;
mod members;
mod pattern;
mod putting;
mod rows;
mod same;
mod text;
mod truth;

pub use cell::{Cell, copy_cells};
pub use copying::TryCopy;
pub use json::{
    CellFault, from_json, has_odd_number, members_from_json, members_to_json, nests, to_json,
};
pub use kind::Kind;
pub use lists::{Cells, Kinds, Texts, copy_texts};
pub use members::Members;
pub use pattern::{Pattern, fits_some, fits_text};
pub use rows::Rows;
pub use same::{same_cell, same_cells, same_members, same_texts};
pub use text::{Memory, Text};
pub use truth::{Op, Truth, compare};
