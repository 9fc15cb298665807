ghost use Rattle.std.specs.Prelude.{◌≡◌, [], None, IfOk};
ghost use Rattle.decl_words.specs.Refusals.{duplicate_table, first_table, first_cycle, has_unknown};

use crate::taking::leftover;
use decl_words::TableCycle;
use sp_model::TableDecl;
use sp_value::Memory;
use std::alloc::Global;

/// The first table with such functions, and their names in declared order.
pub fn first_cycle(alloc: Global, tables: &[TableDecl]) -> Result<Option<TableCycle>, Memory>
    requires distinct { duplicate_table [] 1 tables.now ≡ None }
    requires known { first_table has_unknown 1 tables.now ≡ None }
    ensures { IfOk result (λ c. c ≡ first_cycle 1 tables.now) }
{
    let mut number = 0;
    for table in tables {
        number += 1;
        let functions = leftover(alloc, table.functions.as_slice())?;
        if !functions.is_empty() {
            return Ok(Some(TableCycle {
                table: number,
                functions,
            }));
        }
    }
    Ok(None)
}
