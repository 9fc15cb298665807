//! What a case is given, as values.

use case_tables::str_at;
use serde_json::Value;
use sp_value::{Cell, Cells, Text, from_json};
use std::alloc::Global;

/// The text at a place, as values have it.
pub fn text_at(alloc: Global, given: &[Vec<u8>], place: usize) -> Option<Text> {
    Text::from_str(alloc, str_at(given, place)?).ok()
}

/// The JSON at a place.
pub fn json_at(alloc: Global, given: &[Vec<u8>], place: usize) -> Option<Value> {
    Value::from_str(alloc, str_at(given, place)?).ok()
}

/// The value whose JSON stands at a place.
pub fn cell_at(alloc: Global, given: &[Vec<u8>], place: usize) -> Option<Cell> {
    from_json(alloc, &json_at(alloc, given, place)?).ok()
}

/// The list of values whose JSON stands at a place.
pub fn cells_at(alloc: Global, given: &[Vec<u8>], place: usize) -> Option<Cells> {
    match cell_at(alloc, given, place)? {
        Cell::List(cells) => Some(cells),
        _ => None,
    }
}
