//! What a case is given, as tables and values.

ghost use Rattle.std.specs.Prelude.{All, IfSome};
ghost use Rattle.decl_words.specs.Sound.{IsSound};

use case_tables::str_at;
use decl_core::read_declaration;
use serde_json::Value;
use sp_model::{Declaration, TableDecl};
use sp_value::{Cell, Text, Texts, from_json, to_json};
use sqlite_items::Items;
use std::alloc::Global;

/// The text at a place, as values have it.
pub fn text_at(alloc: Global, given: &[Vec<u8>], place: usize) -> Option<Text> {
    Text::from_str(alloc, str_at(given, place)?).ok()
}

/// The number at a place.
pub fn number_at(given: &[Vec<u8>], place: usize) -> Option<u32> {
    str_at(given, place)?.parse::<u32>().ok()
}

/// The value that a text spells as JSON.
pub fn cell_of(alloc: Global, text: &str) -> Option<Cell> {
    from_json(alloc, &Value::from_str(alloc, text).ok()?).ok()
}

/// The JSON of a value.
pub fn spelled(alloc: Global, cell: &Cell) -> Option<String> {
    to_json(alloc, cell).ok()?.to_string(alloc).ok()
}

/// The texts that a text has between commas.
pub fn texts_of(alloc: Global, text: &str) -> Option<Texts> {
    let mut texts = Items::new(alloc);
    for part in text.split(", ") {
        texts.push(Text::from_str(alloc, part).ok()?).ok()?;
    }
    Some(texts)
}

fn declaration_at(alloc: Global, given: &[Vec<u8>], place: usize) -> Option<Declaration>
    ensures { IfSome result (λ d. All IsSound d.tables) }
{
    let value = Value::from_str(alloc, str_at(given, place)?).ok()?;
    read_declaration(alloc, &value).ok()
}

/// The last table of the declaration whose JSON stands at a place.
pub fn table_at(alloc: Global, given: &[Vec<u8>], place: usize) -> Option<TableDecl>
    ensures { IfSome result IsSound }
{
    let Declaration { mut tables, .. } = declaration_at(alloc, given, place)?;
    tables.pop()
}
