ghost use Rattle.std.specs.Prelude.{◌≡◌, ◌++◌, IfOk, OnOk, codes};
ghost use Rattle.answer_text.specs.Columns.{escaped, filled, shown};
ghost use Rattle.answer_text.specs.Lines.{widest_of, cell_lines, record_head, records_from, line_text};

use crate::columns::{characters, escaped, push_filled};
use crate::shown::shown;
use crate::spelled::push_all;
use itoa::Buffer;
use sp_value::{Cell, Cells, Kind, Memory, Text};
use std::alloc::Global;

fn widest_of(alloc: Global, names: &[Text]) -> Result<usize, Memory>
    ensures { IfOk result (λ n. n ≡ widest_of names.now) }
{
    let mut widest: usize = 0;
    for name in names {
        let label = escaped(alloc, name.as_bytes())?;
        widest = widest.max(characters(&label));
    }
    Ok(widest)
}

fn push_cell(
    alloc: Global,
    text: &mut Vec<u8>,
    widest: usize,
    name: &Text,
    kind: Kind,
    cell: &Cell,
) -> Result<(), Memory>
    ensures { OnOk result (text.new.items ≡ text.old.items ++ (filled widest (escaped name.now) ++ (codes " = " ++ (shown kind cell.now ++ codes "\n")))) }
{
    let label = escaped(alloc, name.as_bytes())?;
    let words = shown(alloc, kind, cell)?;
    push_filled(text, widest, &label)?;
    push_all(text, b" = ")?;
    push_all(text, &words)?;
    push_all(text, b"\n")
}

fn push_cells(
    alloc: Global,
    text: &mut Vec<u8>,
    widest: usize,
    names: &[Text],
    kinds: &[Kind],
    row: &[Cell],
) -> Result<(), Memory>
    ensures { OnOk result (text.new.items ≡ text.old.items ++ cell_lines widest names.now kinds.now row.now) }
{
    let mut kinds_left = kinds;
    let mut cells = row;
    for name in names {
        let [kind, more_kinds @ ..] = kinds_left else {
            return Ok(());
        };
        let [cell, more_cells @ ..] = cells else {
            return Ok(());
        };
        push_cell(alloc, text, widest, name, *kind, cell)?;
        kinds_left = more_kinds;
        cells = more_cells;
    }
    Ok(())
}

fn push_head(text: &mut Vec<u8>, number: u64) -> Result<(), Memory>
    ensures { OnOk result (text.new.items ≡ text.old.items ++ record_head number) }
{
    let mut buffer = Buffer::new();
    push_all(text, b"-[ RECORD ")?;
    push_all(text, buffer.format(number).as_bytes())?;
    push_all(text, b" ]-\n")
}

fn push_records(
    alloc: Global,
    text: &mut Vec<u8>,
    widest: usize,
    names: &[Text],
    kinds: &[Kind],
    rows: &[Cells],
) -> Result<(), Memory>
    ensures { OnOk result (text.new.items ≡ text.old.items ++ records_from 0 widest names.now kinds.now rows.now) }
{
    let mut number: u64 = 0;
    for row in rows {
        number += 1;
        push_head(text, number)?;
        push_cells(alloc, text, widest, names, kinds, row.as_slice())?;
    }
    Ok(())
}

/// Rows as lines, each cell behind its name. No rows are the line `no rows`.
pub(crate) fn line_text(
    alloc: Global,
    names: &[Text],
    kinds: &[Kind],
    rows: &[Cells],
) -> Result<Vec<u8>, Memory>
    ensures { IfOk result (λ v. v.items ≡ line_text names.now kinds.now rows.now) }
{
    if rows.is_empty() {
        let text = Vec::from_slice(alloc, b"no rows\n")?;
        return Ok(text);
    }
    let widest = widest_of(alloc, names)?;
    let mut text = Vec::new(alloc);
    push_records(alloc, &mut text, widest, names, kinds, rows)?;
    Ok(text)
}
