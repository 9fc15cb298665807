ghost use Rattle.std.specs.Prelude.{◌≡◌};
ghost use Rattle.std.specs.Ordering.{nat_cmp, match_ordering};
ghost use Rattle.sp_value.specs.declared.cell.Cell.TheViews.{out-Cell};
ghost use Rattle.sp_model.specs.Conditions.{is_scalar, value_rank, scalar_cmp, operator_rank, condition_cmp, is_before, is_canonical};

use crate::call::Condition;
use sp_value::{Cell, Op};
use std::cmp::Ordering;

/// Whether each value is a boolean, an integer or a text, and each condition stands before the next by `compare_conditions`.
pub fn is_canonical(conditions: &[Condition]) -> bool
    ensures { result ≡ is_canonical conditions.now }
{
    for (index, condition) in conditions.iter().enumerate() {
        if !is_scalar(&condition.value) {
            return false;
        }
        if index + 1 < conditions.len() && !is_before(condition, &conditions[index + 1]) {
            return false;
        }
    }
    true
}

fn is_before(left: &Condition, right: &Condition) -> bool
    ensures { result ≡ is_before left.now right.now }
{
    compare_conditions(left, right) == Ordering::Less
}

/// The order of two conditions: by the bytes of their columns, then by their operators, then by their values.
pub fn compare_conditions(left: &Condition, right: &Condition) -> Ordering
    ensures { result ≡ condition_cmp left.now right.now }
{
    match left.column.as_bytes().cmp(right.column.as_bytes()) {
        Ordering::Equal => compare_rest(left, right),
        other => other,
    }
}

fn compare_rest(left: &Condition, right: &Condition) -> Ordering
    ensures { result ≡ match_ordering (nat_cmp (operator_rank left.now.operator) (operator_rank right.now.operator)) Ordering.Less (scalar_cmp left.now.value right.now.value) Ordering.Greater }
{
    match operator_rank(left.operator).cmp(&operator_rank(right.operator)) {
        Ordering::Equal => compare_scalars(&left.value, &right.value),
        other => other,
    }
}

fn operator_rank(operator: Op) -> u8
    ensures { result ≡ operator_rank operator }
{
    match operator {
        Op::Eq => 0,
        Op::Ne => 1,
        Op::Lt => 2,
        Op::Le => 3,
        Op::Gt => 4,
        Op::Ge => 5,
    }
}

/// Whether a value is a boolean, an integer or a text.
pub fn is_scalar(value: &Cell) -> bool
    ensures { result ≡ is_scalar value.now }
{
    matches!(value, Cell::Bool(_) | Cell::Int(_) | Cell::Text(_))
}

fn value_rank(value: &Cell) -> u8
    ensures { result ≡ value_rank (out-Cell value.now) }
{
    match value {
        Cell::Bool(_) => 0,
        Cell::Int(_) => 1,
        Cell::Text(_) => 2,
        _ => 3,
    }
}

/// The order of two values: booleans, then integers, then texts by their bytes, then all others, which it doesn't tell apart.
fn compare_scalars(left: &Cell, right: &Cell) -> Ordering
    ensures { result ≡ scalar_cmp left.now right.now }
{
    match (left, right) {
        (Cell::Bool(a), Cell::Bool(b)) => a.cmp(b),
        (Cell::Int(a), Cell::Int(b)) => a.cmp(b),
        (Cell::Text(a), Cell::Text(b)) => a.as_bytes().cmp(b.as_bytes()),
        _ => value_rank(left).cmp(&value_rank(right)),
    }
}
