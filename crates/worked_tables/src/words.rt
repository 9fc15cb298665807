//! Values as words.

use case_tables::{listed, push_word};
use sp_model::Pair;
use sp_value::{Cell, Cells, Text, TryCopy, to_json};
use std::alloc::Global;

/// The texts, with what separates them.
pub fn joined(alloc: Global, texts: &[Text], separator: &str) -> Option<String> {
    let mut words = String::new(alloc);
    for text in texts {
        push_word(&mut words, separator, text.as_str())?;
    }
    Some(words)
}

fn pair_words(alloc: Global, pair: &Pair) -> Option<String> {
    format!(in alloc; "{}={}", pair.name.as_str(), pair.value.as_str()).ok()
}

/// Names with their values.
pub fn pairs(alloc: Global, pairs: &[Pair]) -> Option<String> {
    listed(alloc, pairs, " ", pair_words)
}

/// The JSON of a value.
pub fn spelled(alloc: Global, cell: &Cell) -> Option<String> {
    to_json(alloc, cell).ok()?.to_string(alloc).ok()
}

fn spelled_row(alloc: Global, row: &Cells) -> Option<String> {
    spelled(alloc, &Cell::List(row.copy(alloc).ok()?))
}

/// The JSON of each row, with spaces between.
pub fn spelled_rows(alloc: Global, rows: &[Cells]) -> Option<String> {
    listed(alloc, rows, " ", spelled_row)
}
