// The order of rows.

ghost use Rattle.std.specs.Prelude.{◌≡◌, OnOk, OnErr};
ghost use Rattle.std.specs.List.Sorted.{IsSortedBy, IsStableBy};
ghost use Rattle.row_algebra.specs.RowOrder.{cell_rank, cell_order, key_order, row_order, comes_before, ordered};

use crate::judging::cell_at;
use sp_value::{Cell, Memory, Rows};
use std::cmp::Ordering;

/// A key of the order: a column, counted from 0, ascending or descending.
#[derive(Clone, Copy, Debug, PartialEq, Eq)]
pub struct OrderKey {
    pub column: u32,
    pub down: bool,
}

fn cell_rank(value: &Cell) -> u8
    ensures { result ≡ cell_rank value.now }
{
    match value {
        Cell::Bool(_) => 0,
        Cell::Int(_) => 1,
        Cell::Text(_) => 2,
        Cell::List(_) => 3,
        Cell::Object(_) => 3,
        Cell::Null => 4,
    }
}

/// Booleans, then integers, then texts, each in their order, then lists and objects, and nulls last.
fn cell_order(left: &Cell, right: &Cell) -> Ordering
    ensures { result ≡ cell_order left.now right.now }
{
    match (left, right) {
        (Cell::Bool(a), Cell::Bool(b)) => a.cmp(b),
        (Cell::Int(a), Cell::Int(b)) => a.cmp(b),
        (Cell::Text(a), Cell::Text(b)) => a.as_bytes().cmp(b.as_bytes()),
        _ => cell_rank(left).cmp(&cell_rank(right)),
    }
}

fn key_order(key: &OrderKey, left: &[Cell], right: &[Cell]) -> Ordering
    ensures { result ≡ key_order key.now left.now right.now }
{
    let null = Cell::Null;
    let left = cell_at(left, key.column, &null);
    let right = cell_at(right, key.column, &null);
    if key.down {
        cell_order(right, left)
    } else {
        cell_order(left, right)
    }
}

/// The order by the first key that tells the rows apart.
fn row_order(keys: &[OrderKey], left: &[Cell], right: &[Cell]) -> Ordering
    ensures { result ≡ row_order keys.now left.now right.now }
{
    for key in keys {
        let order = key_order(key, left, right);
        if order != Ordering::Equal {
            return order;
        }
    }
    Ordering::Equal
}

/// Puts the rows in the order of the keys. Rows that no key tells apart keep their order. Where memory is wanting, the rows
/// stay as they were.
pub fn order_rows(rows: &mut Rows, keys: &[OrderKey]) -> Result<(), Memory>
    ensures ok { OnOk result (rows.new ≡ ordered keys.now rows.old) }
    ensures sorted { OnOk result (IsSortedBy (comes_before keys.now) rows.new) }
    ensures stable { OnOk result (IsStableBy (comes_before keys.now) rows.old rows.new) }
    ensures err { OnErr result (rows.new ≡ rows.old) }
{
    let sorted = rows.sort_by(|left, right| row_order(keys, left.as_slice(), right.as_slice()));
    match sorted {
        Ok(()) => Ok(()),
        Err(_) => Err(Memory),
    }
}
