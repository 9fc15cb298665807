ghost use Rattle.std.specs.Prelude.{◌≡◌, ◌↔◌, IsTrue};

use crate::call::{Call, CallKey, Condition, Conditions};
use sp_value::{Cell, same_cell, same_members};

/// Whether two conditions are the same.
pub fn same_condition(left: &Condition, right: &Condition) -> bool
    ensures { IsTrue result ↔ (left.now ≡ right.now) }
{
    left.column == right.column
        && left.operator == right.operator
        && same_cell(&left.value, &right.value)
}

/// Whether two lists of conditions are the same.
pub fn same_conditions(left: &[Condition], right: &[Condition]) -> bool
    ensures { IsTrue result ↔ (left.now ≡ right.now) }
{
    if left.len() != right.len() {
        return false;
    }
    for index in 0..left.len() {
        if !same_condition(&left[index], &right[index]) {
            return false;
        }
    }
    true
}

fn same_parent(left: &Option<Cell>, right: &Option<Cell>) -> bool
    ensures { IsTrue result ↔ (left.now ≡ right.now) }
{
    match (left, right) {
        (None, None) => true,
        (Some(a), Some(b)) => same_cell(a, b),
        _ => false,
    }
}

fn same_list(
    left: &Conditions,
    left_parent: &Option<Cell>,
    right: &Conditions,
    right_parent: &Option<Cell>,
) -> bool
    ensures { IsTrue result ↔ ((left.now ≡ right.now) × (left_parent.now ≡ right_parent.now)) }
{
    same_conditions(left.as_slice(), right.as_slice()) && same_parent(left_parent, right_parent)
}

/// Whether two calls are the same.
pub fn same_call(left: &Call, right: &Call) -> bool
    ensures { IsTrue result ↔ (left.now ≡ right.now) }
{
    match (left, right) {
        (
            Call::List {
                table: a,
                conditions: c,
                parent: p,
            },
            Call::List {
                table: b,
                conditions: d,
                parent: q,
            },
        ) => *a == *b && same_list(c, p, d, q),
        (Call::Parents { table: a }, Call::Parents { table: b }) => *a == *b,
        (
            Call::Get {
                table: a,
                conditions: c,
            },
            Call::Get {
                table: b,
                conditions: d,
            },
        ) => *a == *b && same_conditions(c.as_slice(), d.as_slice()),
        (
            Call::Hydrate {
                table: a,
                function: f,
                item: i,
                results: r,
            },
            Call::Hydrate {
                table: b,
                function: g,
                item: j,
                results: s,
            },
        ) => *a == *b && *f == *g && same_cell(i, j) && same_members(r, s),
        _ => false,
    }
}

/// Whether two keys are the same: the connection, the version, the call and the attempt.
pub fn same_key(left: &CallKey, right: &CallKey) -> bool
    ensures { IsTrue result ↔ (left.now ≡ right.now) }
{
    left.connection == right.connection
        && left.version == right.version
        && left.attempt == right.attempt
        && same_call(&left.call, &right.call)
}
