ghost use Rattle.std.specs.Prelude.{◌≡◌};
ghost use Rattle.std.specs.Option.{option_copied};
ghost use Rattle.sp_model.specs.Fields.{or_null};
ghost use Rattle.sp_model.specs.Walk.{cell_of, meets, is_reached};

use sp_model::{ColumnDecl, Condition};
use sp_value::{Cell, Text, Truth, compare};

/// The cell of a column, lent; `None`, which stands for null, where the column isn't among them.
fn cell_of<'a>(columns: &[ColumnDecl], cells: &'a [Cell], name: &Text) -> Option<&'a Cell>
    ensures { or_null (option_copied result) ≡ cell_of columns.now cells.now name.now }
{
    for (index, column) in columns.iter().enumerate() {
        if index >= cells.len() {
            return None;
        }
        if column.name == *name {
            return Some(&cells[index]);
        }
    }
    None
}

/// Whether each condition is true of a row.
pub(crate) fn meets(conditions: &[Condition], columns: &[ColumnDecl], cells: &[Cell]) -> bool
    ensures { result ≡ meets conditions.now columns.now cells.now }
{
    for condition in conditions {
        let cell = cell_of(columns, cells, &condition.column).unwrap_or(&Cell::Null);
        if compare(condition.operator, cell, &condition.value) != Truth::Yes {
            return false;
        }
    }
    true
}

/// Whether so many rows reach a limit.
pub(crate) fn is_reached(limit: Option<u64>, count: usize) -> bool
    ensures { result ≡ is_reached limit count }
{
    match limit {
        None => false,
        Some(limit) => limit <= count as u64,
    }
}
