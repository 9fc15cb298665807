//! What a call asks for.

ghost use Rattle.std.specs.Prelude.{◌≡◌, ◌≤◌, IfSome};
ghost use Rattle.load_gen.specs.Asked.{natural, id_of, is_equality, size_in, size_of};

use sp_model::Condition;
use sp_value::{Cell, Op};

/// The most rows that a list gives.
const MOST_ROWS: u64 = 100_000;

/// An integer that isn't negative.
fn natural(cell: &Cell) -> Option<u64>
    ensures { result ≡ natural cell.now }
{
    match cell {
        Cell::Int(number) => u64::try_from(*number).ok(),
        _ => None,
    }
}

/// The number of a row.
pub(crate) fn id_of(item: &Cell) -> Option<u64>
    ensures { result ≡ id_of item.now }
{
    match item {
        Cell::Object(members) => natural(members.get("id")?),
        _ => None,
    }
}

fn is_equality(operator: Op) -> bool
    ensures { result ≡ is_equality operator }
{
    matches!(operator, Op::Eq)
}

fn size_in(condition: &Condition) -> Option<u64>
    ensures { result ≡ size_in condition.now }
{
    if condition.column.as_str() != "size" || !is_equality(condition.operator) {
        return None;
    }
    natural(&condition.value).filter(|size| (1..=MOST_ROWS).contains(size))
}

/// The size that a list is asked for by its one condition, from 1 to 100,000.
pub(crate) fn size_of(conditions: &[Condition]) -> Option<u64>
    ensures size { result ≡ size_of conditions.now }
    ensures within { IfSome result (λ size. size ≤ 100000) }
{
    match conditions {
        [condition] => size_in(condition),
        _ => None,
    }
}
