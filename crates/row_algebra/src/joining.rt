// Left rows beside the rows of their results.

ghost use Rattle.std.specs.Prelude.{◌≡◌, ◌++◌, ◌∷◌, [], length, map, IsTrue, OnOk, IfOk};
ghost use Rattle.row_algebra.specs.RowJoins.{rows_at, followed, joined, IsAlone};

use sp_value::{Cell, Cells, Memory, Rows, TryCopy};
use sqlite_items::Items;
use std::alloc::Global;

fn push_cells(alloc: Global, into: &mut Vec<Cell>, cells: &[Cell]) -> Result<(), Memory>
    ensures { OnOk result (into.new.items ≡ into.old.items ++ cells.now) }
{
    for cell in cells {
        let copy = cell.copy(alloc)?;
        into.push(copy)?;
    }
    Ok(())
}

fn joined_row(alloc: Global, left: &[Cell], right: &[Cell]) -> Result<Cells, Memory>
    ensures { IfOk result (λ row. row ≡ left.now ++ right.now) }
{
    let mut row = Vec::with_capacity(alloc, left.len().saturating_add(right.len()))?;
    push_cells(alloc, &mut row, left)?;
    push_cells(alloc, &mut row, right)?;
    Ok(Items::from_vec(row))
}

/// Puts the left row, followed by each of the right rows, at the end.
fn push_rows(alloc: Global, into: &mut Rows, left: &[Cell], right: &[Cells]) -> Result<(), Memory>
    ensures { OnOk result (into.new ≡ into.old ++ map (λ row. left.now ++ row) right.now) }
{
    for row in right {
        let joined = joined_row(alloc, left, row.as_slice())?;
        let Ok(()) = into.push(joined) else {
            return Err(Memory);
        };
    }
    Ok(())
}

/// The rows of the result at a place; none past the last.
fn rows_at(right: &[Rows], place: u32) -> &[Cells]
    ensures { result.now ≡ rows_at right.now place }
{
    match right.get(place as usize) {
        Some(rows) => rows.as_slice(),
        None => &[],
    }
}

/// Puts the left row, followed by each row of the results at its places, at the end.
fn push_followed(
    alloc: Global,
    into: &mut Rows,
    left: &[Cell],
    places: &[u32],
    right: &[Rows],
) -> Result<(), Memory>
    ensures { OnOk result (into.new ≡ into.old ++ followed right.now left.now places.now) }
{
    for place in places {
        push_rows(alloc, into, left, rows_at(right, *place))?;
    }
    Ok(())
}

/// Whether this is one row without cells.
fn is_empty_row(rows: &[Cells]) -> bool
    ensures { IsTrue result → rows.now ≡ [] ∷ [] }
{
    match rows {
        [row] => row.is_empty(),
        _ => false,
    }
}

/// Whether this is the first place alone.
fn is_first(places: &[u32]) -> bool
    ensures { IsTrue result → places.now ≡ 0 ∷ [] }
{
    match places {
        [place] => *place == 0,
        _ => false,
    }
}

/// Whether there is one pick, of the first place alone.
fn picks_first(picks: &[Items<u32>]) -> bool
    ensures { IsTrue result → picks.now ≡ (0 ∷ []) ∷ [] }
{
    match picks {
        [places] => is_first(places.as_slice()),
        _ => false,
    }
}

fn has_one(right: &[Rows]) -> bool
    ensures { IsTrue result → length right.now ≡ 1 }
{
    right.len() == 1
}

/// Whether the rows of the one result are the joined rows: the one left row has no cells, and is followed by them.
fn is_alone(left: &[Cells], picks: &[Items<u32>], right: &[Rows]) -> bool
    ensures { IsTrue result → IsAlone left.now picks.now right.now }
{
    if !is_empty_row(left) || !picks_first(picks) {
        return false;
    }
    has_one(right)
}

#[tactic(auto, unfolding(crate::specs::RowJoins::joined))]
fn copied_rows(
    alloc: Global,
    left: &Rows,
    picks: &[Items<u32>],
    right: &[Rows],
) -> Result<Rows, Memory>
    ensures { IfOk result (λ rows. rows ≡ joined left.now picks.now right.now) }
{
    let mut rows = Rows::new(alloc);
    let mut rest = picks;
    for row in left.as_slice() {
        let [places, later @ ..] = rest else {
            return Ok(rows);
        };
        push_followed(alloc, &mut rows, row.as_slice(), places.as_slice(), right)?;
        rest = later;
    }
    Ok(rows)
}

/// Joins rows: each left row is followed by each row of each of its results, in order, unless memory is wanting. The results of a left row
/// are those at its places in `right`, which may be several; one without places gives no rows. Cells are copied, but where one row without
/// cells is followed by one result: then that result is given back.
pub fn join_rows(
    alloc: Global,
    left: &Rows,
    picks: &[Items<u32>],
    right: Vec<Rows>,
) -> Result<Rows, Memory>
    ensures { IfOk result (λ rows. rows ≡ joined left.now picks.now right.items) }
{
    let mut right = right;
    if is_alone(left.as_slice(), picks, right.as_slice()) {
        if let Some(rows) = right.pop() {
            return Ok(rows);
        }
    }
    copied_rows(alloc, left, picks, right.as_slice())
}
