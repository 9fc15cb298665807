// The first rows, and the columns that are shown.

ghost use Rattle.std.specs.Prelude.{◌≡◌, map, take, IsTrue, IfOk};
ghost use Rattle.row_algebra.specs.RowShown.{CountFrom, AreWide};
ghost use Rattle.row_algebra.specs.RowTruth.{cell_at};

use crate::judging::cell_at;
use sp_value::{Cell, Cells, Memory, Rows, TryCopy};
use sqlite_items::Items;
use std::alloc::Global;

/// Drops the rows after the first `count`. It takes no memory.
pub fn limit_rows(rows: &mut Rows, count: u64)
    ensures { rows.new ≡ take count rows.old }
{
    rows.truncate(count as usize);
}

fn shown_cell(alloc: Global, row: &[Cell], column: u32) -> Result<Cell, Memory>
    ensures { IfOk result (λ cell. cell ≡ cell_at row.now column) }
{
    let null = Cell::Null;
    let cell = cell_at(row, column, &null).copy(alloc)?;
    Ok(cell)
}

/// The cells of a row in these columns.
fn shown_cells(alloc: Global, row: &[Cell], columns: &[u32]) -> Result<Cells, Memory>
    ensures { IfOk result (λ cells. cells ≡ map (cell_at row.now) columns.now) }
{
    let mut cells = Vec::with_capacity(alloc, columns.len())?;
    for column in columns {
        let cell = shown_cell(alloc, row, *column)?;
        cells.push(cell)?;
    }
    Ok(Items::from_vec(cells))
}

/// Whether these are the columns from the first on, each once.
fn are_all(columns: &[u32]) -> bool
    ensures { IsTrue result → CountFrom 0 columns.now }
{
    for (index, column) in columns.iter().enumerate() {
        if *column as usize != index {
            return false;
        }
    }
    true
}

/// Whether every row has so many cells.
fn are_wide(rows: &[Cells], width: usize) -> bool
    ensures { IsTrue result → AreWide width rows.now }
{
    for row in rows {
        if row.len() != width {
            return false;
        }
    }
    true
}

fn copied_columns(alloc: Global, rows: &[Cells], columns: &[u32]) -> Result<Rows, Memory>
    ensures { IfOk result (λ shown. shown ≡ map (λ row. map (cell_at row) columns.now) rows.now) }
{
    let mut shown = Rows::new(alloc);
    for row in rows {
        let cells = shown_cells(alloc, row.as_slice(), columns)?;
        let Ok(()) = shown.push(cells) else {
            return Err(Memory);
        };
    }
    Ok(shown)
}

/// The rows with these columns alone, unless memory is wanting. Where these are all of each row's columns, in their order, the rows are
/// given back; else each cell is a copy.
#[tactic(auto, using(crate::proofs::ShownLaws::all_shown))]
pub fn project(alloc: Global, rows: Rows, columns: &[u32]) -> Result<Rows, Memory>
    ensures { IfOk result (λ shown. shown ≡ map (λ row. map (cell_at row) columns.now) rows) }
{
    if are_all(columns) && are_wide(rows.as_slice(), columns.len()) {
        return Ok(rows);
    }
    copied_columns(alloc, rows.as_slice(), columns)
}
