//! The rows that a kept scan gives.

ghost use Rattle.std.specs.Prelude.{◌≡◌, true, length, IfSome};
ghost use Rattle.std.specs.Arc.{arc_value};
ghost use Rattle.std.specs.List.{AllByRecursion};
ghost use Rattle.sp_model.specs.Covers.{covers};

use crate::cache_cases::{kept_of, request_of};
use crate::tables::{cell_of, spelled};
use case_tables::{str_at, word};
use query_cache::{Cache, rows_of};
use sp_model::ScanRequest;
use sp_value::{Cell, Cells, Rows, TryCopy};
use sp_world::{Kept, Untold};
use std::alloc::Global;
use std::sync::Arc;

/// Whether a scan is kept `whole`, or as a `part` that stopped at its limit; its request; its rows; and a request: the rows that the kept scan gives
/// to it, or `none` where it doesn't serve it.
pub fn rows(alloc: Global, given: &[Vec<u8>]) -> Option<String> {
    let mut cache = cache_with(alloc, kept_at(alloc, given)?)?;
    let request = request_of(alloc, str_at(given, 3)?)?;
    match serving(&mut cache, &request)? {
        Some(kept) => words_of(alloc, &kept, &request),
        None => word(alloc, "none"),
    }
}

fn kept_at(alloc: Global, given: &[Vec<u8>]) -> Option<Kept<Untold>> {
    let complete = is_whole(str_at(given, 0)?)?;
    let request = request_of(alloc, str_at(given, 1)?)?;
    let rows = cell_of(alloc, str_at(given, 2)?)?;
    let rows = rows_from(alloc, &rows, request.columns.len())?;
    Some(kept_of(request, rows, 0, complete))
}

fn is_whole(word: &str) -> Option<bool> {
    match word {
        "part" => Some(false),
        "whole" => Some(true),
        _ => None,
    }
}

/// The rows of a list of lists, each of so many cells.
fn rows_from(alloc: Global, cell: &Cell, width: usize) -> Option<Rows>
    ensures { IfSome result (λ rows. AllByRecursion (λ row. length row ≡ width) rows) }
{
    match cell {
        Cell::List(cells) => wide_rows(alloc, cells.as_slice(), width),
        _ => None,
    }
}

#[tactic(auto, using(crate::proofs::Kept::one_wide_more))]
fn wide_rows(alloc: Global, cells: &[Cell], width: usize) -> Option<Rows>
    ensures { IfSome result (λ rows. AllByRecursion (λ row. length row ≡ width) rows) }
{
    let mut rows = Rows::new(alloc);
    for cell in cells {
        rows.push(row_from(alloc, cell, width)?).ok()?;
    }
    Some(rows)
}

fn row_from(alloc: Global, cell: &Cell, width: usize) -> Option<Cells>
    ensures { IfSome result (λ row. length row ≡ width) }
{
    match cell {
        Cell::List(cells) => wide_row(alloc, cells, width),
        _ => None,
    }
}

fn wide_row(alloc: Global, cells: &Cells, width: usize) -> Option<Cells>
    ensures { IfSome result (λ row. length row ≡ width) }
{
    if cells.len() != width {
        return None;
    }
    cells.copy(alloc).ok()
}

/// A cache that has one scan.
fn cache_with(alloc: Global, kept: Kept<Untold>) -> Option<Cache<Untold>> {
    let mut cache: Cache<Untold> = Cache::with(alloc, 1, 1).ok()?;
    cache.keep(Arc::new(alloc, kept).ok()?);
    Some(cache)
}

/// The scan of a cache that serves a request.
fn serving(
    cache: &mut Cache<Untold>,
    request: &ScanRequest,
) -> Option<Option<Arc<Kept<Untold>, Global>>>
    ensures { IfSome result (λ found. IfSome found (λ k. covers (arc_value k).note.request (arc_value k).complete request.now ≡ true)) }
{
    match cache.find(request, 0) {
        Ok(found) => Some(found),
        Err(_) => None,
    }
}

/// The rows that a kept scan gives to a request.
fn words_of(alloc: Global, kept: &Kept<Untold>, request: &ScanRequest) -> Option<String>
    requires { covers kept.now.note.request kept.now.complete request.now ≡ true }
{
    let rows = rows_of::<Untold>(alloc, kept, request).ok()?;
    let cells = cells_of(alloc, rows.as_slice())?;
    spelled(alloc, &Cell::List(cells))
}

fn cells_of(alloc: Global, rows: &[Cells]) -> Option<Cells> {
    let mut cells = Cells::new(alloc);
    for row in rows {
        let row = row.copy(alloc).ok()?;
        cells.push(Cell::List(row)).ok()?;
    }
    Some(cells)
}
