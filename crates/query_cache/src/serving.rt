// The rows that a kept scan gives to a request.

ghost use Rattle.std.specs.Prelude.{◌≡◌, true, map, filter, IsTrue, IfOk};
ghost use Rattle.sp_model.specs.Covers.{covers, cut};
ghost use Rattle.sp_model.specs.Walk.{is_reached};
ghost use Rattle.query_cache.specs.Places.{cells_at, are_true_at, rows_by_places};
ghost use Rattle.query_cache.specs.Serving.{served_rows, AreItsOwn};

use crate::placing::{PlacedCondition, are_true_at, cells_at, further_conditions, places_of};
use decl_words::book_tables_are_sound;
use model_laws::covered_scan_gives_the_rows;
use sp_model::ScanRequest;
use sp_value::{Cells, Memory, Rows};
use sp_world::{Kept, World};
use std::alloc::Global;

fn is_reached(limit: Option<u64>, count: usize) -> bool
    ensures { result ≡ is_reached limit count }
{
    match limit {
        Some(limit) => limit <= count as u64,
        None => false,
    }
}

/// The cells at places of the rows for which the conditions are true, up to a limit.
fn shown_rows(
    alloc: Global,
    rows: &[Cells],
    places: &[usize],
    conditions: &[PlacedCondition],
    limit: Option<u64>,
) -> Result<Rows, Memory>
    ensures { IfOk result (λ shown. shown ≡ cut limit (map (cells_at places.now) (filter (are_true_at conditions.now) rows.now))) }
{
    let mut shown = Rows::new(alloc);
    for row in rows {
        if is_reached(limit, shown.len()) {
            return Ok(shown);
        }
        if are_true_at(conditions, row.as_slice()) {
            let cells = cells_at(alloc, row.as_slice(), places)?;
            let Ok(()) = shown.push(cells) else {
                return Err(Memory);
            };
        }
    }
    Ok(shown)
}

/// The rows, which have one cell for each column of the kept scan's request, for which the request's further conditions are true, in its
/// columns, up to its limit.
fn rows_within(
    alloc: Global,
    kept: &ScanRequest,
    rows: &Rows,
    request: &ScanRequest,
) -> Result<Rows, Memory>
    ensures { IfOk result (λ shown. shown ≡ rows_by_places kept.now rows.now request.now) }
{
    let places = places_of(alloc, kept.columns.as_slice(), request.columns.as_slice())?;
    let conditions = further_conditions(alloc, kept, request)?;
    let shown = shown_rows(
        alloc,
        rows.as_slice(),
        places.as_slice(),
        conditions.as_slice(),
        request.limit,
    )?;
    Ok(shown)
}

/// The rows that a kept scan gives to a request that it covers: those for which the request's further conditions are true, in its columns,
/// cut to its limit. Where the world tells, they are the request's own value at the kept scan's version.
pub fn rows_of<W: World>(
    alloc: Global,
    kept: &Kept<W>,
    request: &ScanRequest,
) -> Result<Rows, Memory>
    requires { covers kept.now.note.request kept.now.complete request.now ≡ true }
    ensures rows { IfOk result (λ rows. rows ≡ served_rows kept.now request.now) }
    ensures told { IsTrue W.tells → IfOk result (λ rows. AreItsOwn W.book kept.now request.now rows) }
{
    book_tables_are_sound();
    covered_scan_gives_the_rows();
    let rows = rows_within(alloc, &kept.note().request, kept.rows(), request)?;
    Ok(rows)
}
