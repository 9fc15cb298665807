//! What is asked of a table.

use crate::random::Random;
use sp_model::{Access, Condition, Conditions, ScanRequest, TableDecl};
use sp_value::{Cell, Op, Text, Texts, TryCopy};
use sqlite_items::Items;
use std::alloc::Global;

/// The name by which one item is got, or a bound on the sizes of a list's items, or none.
fn conditions(alloc: Global, random: &mut Random, access: Access) -> Option<Conditions> {
    let size = Cell::Int(random.below(9) as i64);
    let (column, operator, value) = match (access, random.below(5)) {
        (Access::Get, _) => {
            let name = random.pick(&["i0", "i0", "i0", "i1"]);
            (
                "name",
                Op::Eq,
                Cell::Text(Text::from_str(alloc, name).ok()?),
            )
        }
        (_, 0) => ("size", Op::Gt, size),
        (_, 1) => ("size", Op::Le, size),
        _ => return Some(Items::new(alloc)),
    };
    let mut conditions = Items::new(alloc);
    let column = Text::from_str(alloc, column).ok()?;
    conditions
        .push(Condition {
            column,
            operator,
            value,
        })
        .ok()?;
    Some(conditions)
}

fn is_conditioned(conditions: &[Condition], name: &Text) -> bool {
    conditions.iter().any(|condition| condition.column == *name)
}

/// Some columns of a table, and those that a condition is on.
fn columns(
    alloc: Global,
    random: &mut Random,
    table: &TableDecl,
    conditions: &[Condition],
) -> Option<Texts> {
    let mut names = Items::new(alloc);
    for column in table.columns.as_slice() {
        if is_conditioned(conditions, &column.name) || random.one_in(2) {
            names.push(column.name.copy(alloc).ok()?).ok()?;
        }
    }
    Some(names)
}

/// A request of a table whose items are asked for in a way.
pub fn request(
    alloc: Global,
    random: &mut Random,
    access: Access,
    table: &TableDecl,
) -> Option<ScanRequest> {
    let conditions = conditions(alloc, random, access)?;
    let columns = columns(alloc, random, table, conditions.as_slice())?;
    let limit = match random.below(12) {
        0 => None,
        most @ 1..6 => Some(most as u64),
        _ => None,
    };
    Some(ScanRequest {
        connection: Text::from_str(alloc, "c").ok()?,
        table: table.name.copy(alloc).ok()?,
        access,
        conditions,
        columns,
        subset: Items::new(alloc),
        limit,
    })
}
