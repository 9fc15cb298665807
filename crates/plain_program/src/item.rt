ghost use Rattle.std.specs.Prelude.{◌≡◌, IfOk, Some};
ghost use Rattle.sp_model.specs.Fields.{field};
ghost use Rattle.sp_model.specs.Hydration.{hydrated};
ghost use Rattle.sp_model.specs.RowOf.{checked, column_of, source_of, column_value, row_of};

use crate::hydrate::hydrated;
use crate::replies::Replies;
use sp_model::{Cause, ColumnDecl, Outcome, Row, TableDecl, field, is_of_kind};
use sp_value::{Cell, Kind, Memory, Text, TryCopy};
use sqlite_items::Items;
use std::alloc::Global;

fn field_copy(alloc: Global, name: &Text, item: &Cell) -> Result<Cell, Memory>
    ensures { IfOk result (λ c. c ≡ field name.now item.now) }
{
    match field(name, item) {
        Some(value) => value.copy(alloc),
        None => Ok(Cell::Null),
    }
}

fn checked(kind: Kind, value: Cell) -> Outcome
    ensures { result ≡ checked kind value }
{
    if is_of_kind(kind, &value) {
        Outcome::Gave(value)
    } else {
        Outcome::Fails(Cause::BadValue(value))
    }
}

fn column_of(
    alloc: Global,
    column: &ColumnDecl,
    source: Option<Outcome>,
) -> Result<Option<Outcome>, Memory>
    ensures { IfOk result (λ o. o ≡ column_of column.now source) }
{
    match source {
        None => Ok(None),
        Some(Outcome::Fails(cause)) => Ok(Some(Outcome::Fails(cause))),
        Some(Outcome::Gave(value)) => {
            let value = field_copy(alloc, &column.field, &value)?;
            Ok(Some(checked(column.kind, value)))
        }
    }
}

fn source_of<R: Replies>(
    alloc: Global,
    replies: &R,
    table: &TableDecl,
    item: &Cell,
    function: &Option<Text>,
) -> Result<Option<Outcome>, Memory>
    ensures { IfOk result (λ o. o ≡ source_of (hydrated table.now (R.answers replies.now) item.now) item.now function.now) }
{
    match function {
        None => Ok(Some(Outcome::Gave(item.copy(alloc)?))),
        Some(name) => hydrated(alloc, replies, table, item, name),
    }
}

/// The row of an item in some columns: its cells, or its first failing column and why. `None` where an answer is missing.
pub fn row_of<R: Replies>(
    alloc: Global,
    replies: &R,
    table: &TableDecl,
    columns: &[ColumnDecl],
    item: &Cell,
) -> Result<Option<Row>, Memory>
    ensures { IfOk result (λ row. row ≡ row_of (hydrated table.now (R.answers replies.now) item.now) columns.now item.now) }
{
    let mut cells = Items::new(alloc);
    for column in columns {
        let source = source_of(alloc, replies, table, item, &column.function)?;
        match column_of(alloc, column, source)? {
            None => return Ok(None),
            Some(Outcome::Fails(cause)) => {
                return Ok(Some(Row::Broken {
                    column: column.name.copy(alloc)?,
                    cause,
                }));
            }
            Some(Outcome::Gave(value)) => cells.push(value)?,
        }
    }
    Ok(Some(Row::Whole(cells)))
}
