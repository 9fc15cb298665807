ghost use Rattle.std.specs.Prelude.{◌≡◌, ◌++◌, IfOk, OnOk, codes, slice_get};
ghost use Rattle.answer_text.specs.Columns.{filled};
ghost use Rattle.answer_text.specs.Table.{shown_width, column_width, widths_of, border, names_rest, cells_rest, row_lines, foot, table_in, table_text};

use crate::columns::{characters, escaped, push_copies, push_filled};
use crate::shown::shown;
use crate::spelled::push_all;
use sp_value::{Cell, Cells, Kind, Memory, Text};
use sqlite_items::at;
use std::alloc::Global;

fn shown_width(alloc: Global, kind: Kind, row: &[Cell], place: usize) -> Result<usize, Memory>
    ensures { IfOk result (λ n. n ≡ shown_width kind (slice_get row.now place)) }
{
    match at(row, place) {
        Some(cell) => {
            let text = shown(alloc, kind, cell)?;
            Ok(characters(&text))
        }
        None => Ok(0),
    }
}

fn column_width(
    alloc: Global,
    place: usize,
    name: &Text,
    kind: Kind,
    rows: &[Cells],
) -> Result<usize, Memory>
    ensures { IfOk result (λ n. n ≡ column_width place name.now kind rows.now) }
{
    let label = escaped(alloc, name.as_bytes())?;
    let mut widest = characters(&label);
    for row in rows {
        let width = shown_width(alloc, kind, row.as_slice(), place)?;
        widest = widest.max(width);
    }
    Ok(widest)
}

fn widths_of(
    alloc: Global,
    names: &[Text],
    kinds: &[Kind],
    rows: &[Cells],
) -> Result<Vec<usize>, Memory>
    ensures { IfOk result (λ v. v.items ≡ widths_of names.now kinds.now rows.now) }
{
    let mut widths = Vec::new(alloc);
    let mut place = 0;
    let mut left = kinds;
    for name in names {
        let [kind, rest @ ..] = left else {
            return Ok(widths);
        };
        let width = column_width(alloc, place, name, *kind, rows)?;
        let Ok(()) = widths.push(width) else {
            return Err(Memory);
        };
        place += 1;
        left = rest;
    }
    Ok(widths)
}

fn push_border(text: &mut Vec<u8>, widths: &[usize]) -> Result<(), Memory>
    ensures { OnOk result (text.new.items ≡ text.old.items ++ border widths.now) }
{
    push_all(text, b"+")?;
    for width in widths {
        push_all(text, b"-")?;
        push_copies(text, *width, b'-')?;
        push_all(text, b"-+")?;
    }
    push_all(text, b"\n")
}

/// A text in its column, with the bar behind it.
fn push_column(text: &mut Vec<u8>, width: usize, words: &[u8]) -> Result<(), Memory>
    ensures { OnOk result (text.new.items ≡ text.old.items ++ (codes " " ++ (filled width words.now ++ codes " |"))) }
{
    push_all(text, b" ")?;
    push_filled(text, width, words)?;
    push_all(text, b" |")
}

fn push_names(
    alloc: Global,
    text: &mut Vec<u8>,
    widths: &[usize],
    names: &[Text],
) -> Result<(), Memory>
    ensures { OnOk result (text.new.items ≡ text.old.items ++ (codes "|" ++ names_rest widths.now names.now)) }
{
    push_all(text, b"|")?;
    let mut left = names;
    for width in widths {
        let [name, rest @ ..] = left else {
            return push_all(text, b"\n");
        };
        let words = escaped(alloc, name.as_bytes())?;
        push_column(text, *width, &words)?;
        left = rest;
    }
    push_all(text, b"\n")
}

fn push_row(
    alloc: Global,
    text: &mut Vec<u8>,
    widths: &[usize],
    kinds: &[Kind],
    row: &[Cell],
) -> Result<(), Memory>
    ensures { OnOk result (text.new.items ≡ text.old.items ++ (codes "|" ++ cells_rest widths.now kinds.now row.now)) }
{
    push_all(text, b"|")?;
    let mut kinds_left = kinds;
    let mut cells = row;
    for width in widths {
        let [kind, more_kinds @ ..] = kinds_left else {
            return push_all(text, b"\n");
        };
        let [cell, more_cells @ ..] = cells else {
            return push_all(text, b"\n");
        };
        let words = shown(alloc, *kind, cell)?;
        push_column(text, *width, &words)?;
        kinds_left = more_kinds;
        cells = more_cells;
    }
    push_all(text, b"\n")
}

fn push_rows(
    alloc: Global,
    text: &mut Vec<u8>,
    widths: &[usize],
    kinds: &[Kind],
    rows: &[Cells],
) -> Result<(), Memory>
    ensures { OnOk result (text.new.items ≡ text.old.items ++ row_lines widths.now kinds.now rows.now) }
{
    for row in rows {
        push_row(alloc, text, widths, kinds, row.as_slice())?;
    }
    Ok(())
}

fn push_foot(text: &mut Vec<u8>, widths: &[usize], rows: &[Cells]) -> Result<(), Memory>
    ensures { OnOk result (text.new.items ≡ text.old.items ++ foot widths.now rows.now) }
{
    if rows.is_empty() {
        return Ok(());
    }
    push_border(text, widths)
}

fn table_in(
    alloc: Global,
    widths: &[usize],
    names: &[Text],
    kinds: &[Kind],
    rows: &[Cells],
) -> Result<Vec<u8>, Memory>
    ensures { IfOk result (λ v. v.items ≡ table_in widths.now names.now kinds.now rows.now) }
{
    let mut text = Vec::new(alloc);
    push_border(&mut text, widths)?;
    push_names(alloc, &mut text, widths, names)?;
    push_border(&mut text, widths)?;
    push_rows(alloc, &mut text, widths, kinds, rows)?;
    push_foot(&mut text, widths, rows)?;
    Ok(text)
}

/// A table of rows, each with a cell for each kind, under names.
pub(crate) fn table_text(
    alloc: Global,
    names: &[Text],
    kinds: &[Kind],
    rows: &[Cells],
) -> Result<Vec<u8>, Memory>
    ensures { IfOk result (λ v. v.items ≡ table_text names.now kinds.now rows.now) }
{
    let widths = widths_of(alloc, names, kinds, rows)?;
    let text = table_in(alloc, &widths, names, kinds, rows)?;
    Ok(text)
}
