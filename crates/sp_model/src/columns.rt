ghost use Rattle.std.specs.Prelude.{◌≡◌, IfOk};
ghost use Rattle.sp_model.specs.RowOf.{columns_named};

use crate::declaration::ColumnDecl;
use crate::names::has_name;
use sp_value::{Memory, Text, TryCopy};
use sqlite_items::Items;
use std::alloc::Global;

/// Copies of the columns of these names, in the order of the table, unless memory is wanting.
pub fn columns_named(
    alloc: Global,
    names: &[Text],
    columns: &[ColumnDecl],
) -> Result<Items<ColumnDecl>, Memory>
    ensures { IfOk result (λ found. found ≡ columns_named names.now columns.now) }
{
    let mut found = Items::new(alloc);
    for column in columns {
        if has_name(names, &column.name) {
            found.push(column.copy(alloc)?)?;
        }
    }
    Ok(found)
}
