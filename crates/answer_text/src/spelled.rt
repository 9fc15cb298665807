// How a cell is spelled, where no form says otherwise.

ghost use Rattle.std.specs.Prelude.{◌≡◌, ◌++◌, IfOk, OnOk};
ghost use Rattle.std.specs.Fmt.{signed_decimal};
ghost use Rattle.answer_text.specs.Spelled.{cell_json, spelled, text_in};

use itoa::Buffer;
use sp_value::{Cell, Kind, Memory, to_json};
use std::alloc::Global;

/// Appends bytes.
pub fn push_all(text: &mut Vec<u8>, more: &[u8]) -> Result<(), Memory>
    ensures { OnOk result (text.new.items ≡ text.old.items ++ more.now) }
{
    match text.extend_from_slice(more) {
        Ok(()) => Ok(()),
        Err(_) => Err(Memory),
    }
}

/// Appends the compact JSON of a value.
pub(crate) fn push_json(alloc: Global, text: &mut Vec<u8>, cell: &Cell) -> Result<(), Memory>
    ensures { OnOk result (text.new.items ≡ text.old.items ++ cell_json cell.now) }
{
    let value = to_json(alloc, cell)?;
    let Ok(json) = value.to_vec(alloc) else {
        return Err(Memory);
    };
    push_all(text, &json)
}

fn push_integer(text: &mut Vec<u8>, number: i64) -> Result<(), Memory>
    ensures { OnOk result (text.new.items ≡ text.old.items ++ signed_decimal number) }
{
    let mut buffer = Buffer::new();
    push_all(text, buffer.format(number).as_bytes())
}

fn push_text(
    alloc: Global,
    text: &mut Vec<u8>,
    kind: Kind,
    words: &[u8],
    cell: &Cell,
) -> Result<(), Memory>
    ensures { OnOk result (text.new.items ≡ text.old.items ++ text_in kind words.now cell.now) }
{
    if kind == Kind::Json {
        push_json(alloc, text, cell)
    } else {
        push_all(text, words)
    }
}

/// Appends a cell of a column of that kind: nothing for null.
pub(crate) fn push_spelled(
    alloc: Global,
    text: &mut Vec<u8>,
    kind: Kind,
    cell: &Cell,
) -> Result<(), Memory>
    ensures { OnOk result (text.new.items ≡ text.old.items ++ spelled kind cell.now) }
{
    match cell {
        Cell::Null => Ok(()),
        Cell::Bool(true) => push_all(text, b"true"),
        Cell::Bool(false) => push_all(text, b"false"),
        Cell::Int(number) => push_integer(text, *number),
        Cell::Text(words) => push_text(alloc, text, kind, words.as_bytes(), cell),
        Cell::List(_) | Cell::Object(_) => push_json(alloc, text, cell),
    }
}

/// The same as a text of its own.
pub(crate) fn spelled(alloc: Global, kind: Kind, cell: &Cell) -> Result<Vec<u8>, Memory>
    ensures { IfOk result (λ v. v.items ≡ spelled kind cell.now) }
{
    let mut text = Vec::new(alloc);
    push_spelled(alloc, &mut text, kind, cell)?;
    Ok(text)
}

/// The compact JSON of a value, as a text of its own.
pub(crate) fn spelled_json(alloc: Global, cell: &Cell) -> Result<Vec<u8>, Memory>
    ensures { IfOk result (λ v. v.items ≡ cell_json cell.now) }
{
    let mut text = Vec::new(alloc);
    push_json(alloc, &mut text, cell)?;
    Ok(text)
}
