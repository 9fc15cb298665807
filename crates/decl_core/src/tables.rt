ghost use Rattle.std.specs.Prelude.{◌≡◌, IfOk};
ghost use Rattle.serde_json.specs.View.{view, items_view};
ghost use Rattle.sp_value.specs.Unless.{IsUnlessMemory};
ghost use Rattle.decl_words.specs.Faults.{is_memory};
ghost use Rattle.decl_words.specs.Tables.{accesses_in, table_with, table_of, tables_from, draft_of};

use crate::columns::{KeyColumns, columns_at};
use crate::from_json::{optional_or, required};
use crate::keys::{get_at, list_at};
use crate::rules::rule_in;
use decl_words::{Accesses, DeclFault};
use read_members::object_has_only;
use serde_json::Value;
use sp_model::{ColumnDecl, Declaration, FunctionDecl, Rule, TableDecl};
use sp_value::{Memory, Text};
use sqlite_items::Items;
use std::alloc::Global;

fn accesses_in(
    alloc: Global,
    columns: &[ColumnDecl],
    value: &Value,
) -> Result<Option<Accesses>, Memory>
    ensures { IfOk result (λ a. a ≡ accesses_in columns.now (view value.now)) }
{
    let columns = KeyColumns::of(alloc, columns)?;
    let Some(list) = list_at(alloc, &columns, value)? else {
        return Ok(None);
    };
    let Some(get) = get_at(alloc, &columns, value)? else {
        return Ok(None);
    };
    Ok(Some(Accesses { list, get }))
}

fn table_with(
    alloc: Global,
    value: &Value,
    columns: Items<ColumnDecl>,
) -> Result<Option<TableDecl>, Memory>
    ensures { IfOk result (λ t. t ≡ table_with (view value.now) columns) }
{
    let Some(name) = required::<Text>(alloc, value, "name")? else {
        return Ok(None);
    };
    let Some(accesses) = accesses_in(alloc, columns.as_slice(), value)? else {
        return Ok(None);
    };
    let Some(functions) = optional_or::<Items<FunctionDecl>>(
        alloc,
        value,
        "functions",
        Items::new(alloc),
    )?
    else {
        return Ok(None);
    };
    let Some(rule) = rule_in(alloc, value)? else {
        return Ok(None);
    };
    Ok(Some(TableDecl {
        name,
        columns,
        list: accesses.list,
        get: accesses.get,
        functions,
        ignore: rule.ignore,
        retry: rule.retry,
        plugin: Rule {
            ignore: None,
            retry: None,
        },
    }))
}

/// The table that a value is, as yet without the rules of its declaration, or `None` where it has another form.
fn table_of(alloc: Global, value: &Value) -> Result<Option<TableDecl>, Memory>
    ensures { IfOk result (λ t. t ≡ table_of (view value.now)) }
{
    if !object_has_only(
        value,
        &[
            "name",
            "columns",
            "list",
            "get",
            "functions",
            "ignore",
            "retry",
        ],
    ) {
        return Ok(None);
    }
    let Some(columns) = columns_at(alloc, value)? else {
        return Ok(None);
    };
    let table = table_with(alloc, value, columns)?;
    Ok(table)
}

fn tables_from(alloc: Global, values: &Vec<Value>) -> Result<Items<TableDecl>, DeclFault>
    ensures { IsUnlessMemory is_memory result (tables_from 1 (items_view values.now.items)) }
{
    let mut tables = Items::new(alloc);
    let mut number = 0;
    for value in values {
        number += 1;
        let Some(table) = table_of(alloc, value)? else {
            return Err(DeclFault::Shape { table: number });
        };
        tables.push(table)?;
    }
    Ok(tables)
}

/// The declaration that a value is, as yet without a look at its names and limits, or the refusal of the
/// first part that has another form.
pub fn draft_of(alloc: Global, value: &Value) -> Result<Declaration, DeclFault>
    ensures { IsUnlessMemory is_memory result (draft_of (view value.now)) }
{
    if !object_has_only(value, &["tables", "ignore", "retry"]) {
        return Err(DeclFault::Shape { table: 0 });
    }
    let Some(rule) = rule_in(alloc, value)? else {
        return Err(DeclFault::Shape { table: 0 });
    };
    let Some(values) = value.get("tables").and_then(Value::as_array) else {
        return Err(DeclFault::Shape { table: 0 });
    };
    let tables = tables_from(alloc, values)?;
    Ok(Declaration {
        tables,
        ignore: rule.ignore,
        retry: rule.retry,
    })
}
