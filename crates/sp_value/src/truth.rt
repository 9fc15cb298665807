ghost use Rattle.std.specs.Prelude.{◌≡◌};
ghost use Rattle.sp_value.specs.Truth.{order_of, holds, truth};

use crate::cell::Cell;
use std::cmp::Ordering;

/// How two values are compared: `=`, `!=`, `<`, `<=`, `>`, `>=`.
#[derive(Clone, Copy, Debug, PartialEq, Eq, PartialOrd, Ord)]
pub enum Op {
    Eq,
    Ne,
    Lt,
    Le,
    Gt,
    Ge,
}

/// What a comparison says.
#[derive(Clone, Copy, Debug, PartialEq, Eq)]
pub enum Truth {
    Yes,
    No,
    /// The two values don't compare.
    Unknown,
}

/// Compares two booleans (`false` is less), two integers or two texts (by their bytes). Every other
/// pair is `Unknown`.
pub fn compare(op: Op, left: &Cell, right: &Cell) -> Truth
    ensures { result ≡ truth op left.now right.now }
{
    match order(left, right) {
        Some(found) => if is_met(op, found) {
            Truth::Yes
        } else {
            Truth::No
        },
        None => Truth::Unknown,
    }
}

/// The order of two values that compare.
fn order(left: &Cell, right: &Cell) -> Option<Ordering>
    ensures { result ≡ order_of left.now right.now }
{
    match (left, right) {
        (Cell::Bool(a), Cell::Bool(b)) => Some(a.cmp(b)),
        (Cell::Int(a), Cell::Int(b)) => Some(a.cmp(b)),
        (Cell::Text(a), Cell::Text(b)) => Some(a.as_bytes().cmp(b.as_bytes())),
        _ => None,
    }
}

fn is_met(op: Op, order: Ordering) -> bool
    ensures { result ≡ holds op order }
{
    match op {
        Op::Eq => order == Ordering::Equal,
        Op::Ne => order != Ordering::Equal,
        Op::Lt => order == Ordering::Less,
        Op::Le => order != Ordering::Greater,
        Op::Gt => order == Ordering::Greater,
        Op::Ge => order != Ordering::Less,
    }
}
