ghost use Rattle.std.specs.Prelude.{◌≡◌, ◌↔◌, IsTrue};

use crate::cell::Cell;
use crate::members::Members;
use crate::text::Text;

/// Whether two lists of texts are the same.
pub fn same_texts(left: &[Text], right: &[Text]) -> bool
    ensures { IsTrue result ↔ (left.now ≡ right.now) }
{
    left == right
}

/// Whether two values are the same.
#[cycle(same)]
pub fn same_cell(left: &Cell, right: &Cell) -> bool
    ensures { IsTrue result ↔ (left.now ≡ right.now) }
{
    match (left, right) {
        (Cell::Null, Cell::Null) => true,
        (Cell::Bool(a), Cell::Bool(b)) => *a == *b,
        (Cell::Int(a), Cell::Int(b)) => *a == *b,
        (Cell::Text(a), Cell::Text(b)) => *a == *b,
        (Cell::List(a), Cell::List(b)) => same_cells(a.as_slice(), b.as_slice()),
        (Cell::Object(a), Cell::Object(b)) => same_members(a, b),
        _ => false,
    }
}

/// Whether two lists of values are the same.
#[cycle(same)]
pub fn same_cells(left: &[Cell], right: &[Cell]) -> bool
    ensures { IsTrue result ↔ (left.now ≡ right.now) }
{
    if left.len() != right.len() {
        return false;
    }
    for index in 0..left.len() {
        if !same_cell(&left[index], &right[index]) {
            return false;
        }
    }
    true
}

/// Whether two lists of values under names are the same.
#[cycle(same)]
pub fn same_members(left: &Members, right: &Members) -> bool
    ensures { IsTrue result ↔ (left.now ≡ right.now) }
{
    same_texts(left.names(), right.names()) && same_cells(left.values(), right.values())
}
