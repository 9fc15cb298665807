// Columns and conditions by the places of their cells in a row.

ghost use Rattle.std.specs.Prelude.{◌≡◌, map, filter, not, bytes_eq, IfOk};
ghost use Rattle.std.specs.List.{list_all, position_or_len};
ghost use Rattle.sp_model.specs.Covers.{is_among, further};
ghost use Rattle.query_cache.specs.Places.{place_of, cell_at, cells_at, placed_condition, is_true_at, are_true_at};

use crate::alike::is_among;
use sp_model::{Condition, ScanRequest};
use sp_value::{Cell, Cells, Memory, Op, Text, Truth, TryCopy, compare};
use std::alloc::Global;

/// A condition on the cell at a place of a row.
#[derive(Drop)]
pub(crate) struct PlacedCondition {
    pub place: usize,
    pub operator: Op,
    pub value: Cell,
}

/// The place of a name, or how many names there are.
fn place_of(names: &[Text], name: &Text) -> usize
    ensures { result ≡ place_of names.now name.now }
{
    for (index, known) in names.iter().enumerate() {
        if *known == *name {
            return index;
        }
    }
    names.len()
}

/// The places of names.
pub(crate) fn places_of(
    alloc: Global,
    names: &[Text],
    wanted: &[Text],
) -> Result<Vec<usize>, Memory>
    ensures { IfOk result (λ places. places.items ≡ map (place_of names.now) wanted.now) }
{
    let mut places = Vec::new(alloc);
    for name in wanted {
        places.push(place_of(names, name))?;
    }
    Ok(places)
}

fn placed_condition(
    alloc: Global,
    names: &[Text],
    condition: &Condition,
) -> Result<PlacedCondition, Memory>
    ensures { IfOk result (λ c. c ≡ placed_condition names.now condition.now) }
{
    let value = condition.value.copy(alloc)?;
    Ok(PlacedCondition {
        place: place_of(names, &condition.column),
        operator: condition.operator,
        value,
    })
}

/// The conditions of a request that a kept scan's request doesn't have, placed among its columns.
pub(crate) fn further_conditions(
    alloc: Global,
    kept: &ScanRequest,
    request: &ScanRequest,
) -> Result<Vec<PlacedCondition>, Memory>
    ensures { IfOk result (λ found. found.items ≡ map (placed_condition kept.now.columns) (further kept.now request.now)) }
{
    let mut found = Vec::new(alloc);
    for condition in request.conditions.as_slice() {
        if !is_among(kept.conditions.as_slice(), condition) {
            let condition = placed_condition(alloc, kept.columns.as_slice(), condition)?;
            found.push(condition)?;
        }
    }
    Ok(found)
}

fn cell_at<'a>(row: &'a [Cell], place: usize, null: &'a Cell) -> &'a Cell
    requires { null.now ≡ Cell.Null }
    ensures { result.now ≡ cell_at row.now place }
{
    row.get(place).unwrap_or(null)
}

fn is_true_at(row: &[Cell], condition: &PlacedCondition) -> bool
    ensures { result ≡ is_true_at row.now condition.now }
{
    let null = Cell::Null;
    let cell = cell_at(row, condition.place, &null);
    compare(condition.operator, cell, &condition.value) == Truth::Yes
}

/// Whether each condition is true of a row.
pub(crate) fn are_true_at(conditions: &[PlacedCondition], row: &[Cell]) -> bool
    ensures { result ≡ are_true_at conditions.now row.now }
{
    conditions
        .iter()
        .all(|condition| is_true_at(row, condition))
}

fn copied_cell(alloc: Global, row: &[Cell], place: usize) -> Result<Cell, Memory>
    ensures { IfOk result (λ cell. cell ≡ cell_at row.now place) }
{
    let null = Cell::Null;
    let cell = cell_at(row, place, &null).copy(alloc)?;
    Ok(cell)
}

/// Copies of the cells at places.
pub(crate) fn cells_at(alloc: Global, row: &[Cell], places: &[usize]) -> Result<Cells, Memory>
    ensures { IfOk result (λ cells. cells ≡ cells_at places.now row.now) }
{
    let mut cells = Cells::new(alloc);
    for place in places {
        let cell = copied_cell(alloc, row, *place)?;
        let Ok(()) = cells.push(cell) else {
            return Err(Memory);
        };
    }
    Ok(cells)
}
