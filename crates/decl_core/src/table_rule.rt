ghost use Rattle.std.specs.Prelude.{◌≡◌, ◌||◌, ℕ, List, IfOk};
ghost use Rattle.std.specs.List.{list_any};
ghost use Rattle.decl_words.specs.Columns.{hydrated};
ghost use Rattle.sp_model.specs.Hydration.{names_of_functions};
ghost use Rattle.sp_model.specs.Names.{has_name};
ghost use Rattle.sp_model.specs.SubsetKeys.{is_subset};
ghost use Rattle.decl_words.specs.Refusals.{first_table, column_is_unknown, depends_on_unknown, is_subset_key};

use crate::columns::KeyColumns;
use name_set::NameSet;
use sp_model::{ColumnDecl, FunctionDecl, KeyDecl, Matching, TableDecl};
use sp_value::Memory;
use std::alloc::Global;

/// A rule that refuses some tables.
pub trait TableRule {
    ghost use Rattle.std.specs.Prelude.{Bool};
    ghost use Rattle.sp_model.specs.declared.declaration.TableDecl.{TableDecl as Table};

    ghost refuses: { Table → Bool };

    /// Whether the rule refuses the table.
    fn refuses(alloc: Global, table: &TableDecl) -> Result<bool, Memory>
        ensures { IfOk result (λ b. b ≡ refuses table.now) };
}

/// The number of the first table that a rule refuses, counted from 1.
pub fn first_table<R: TableRule>(alloc: Global, tables: &[TableDecl]) -> Result<Option<u64>, Memory>
    ensures { IfOk result (λ n. n ≡ first_table R.refuses 1 tables.now) }
{
    let mut number = 0;
    for table in tables {
        number += 1;
        if R::refuses(alloc, table)? {
            return Ok(Some(number));
        }
    }
    Ok(None)
}

/// The names of functions.
pub fn function_names<'a>(
    alloc: Global,
    functions: &'a [FunctionDecl],
) -> Result<NameSet<'a>, Memory>
    ensures { IfOk result (λ s. (name : List ℕ) → has_name s name ≡ has_name (names_of_functions functions.now) name) }
{
    let mut names = NameSet::new(alloc);
    for function in functions {
        names.insert(function.name.as_str())?;
    }
    Ok(names)
}

fn column_is_unknown(functions: &NameSet, column: &ColumnDecl) -> bool
    ensures { result ≡ column_is_unknown functions.now column.now }
{
    match &column.function {
        Some(function) => !functions.contains(function.as_str()),
        None => false,
    }
}

fn some_column_unknown(functions: &NameSet, columns: &[ColumnDecl]) -> bool
    ensures { result ≡ list_any (column_is_unknown functions.now) columns.now }
{
    for column in columns {
        if column_is_unknown(functions, column) {
            return true;
        }
    }
    false
}

fn depends_on_unknown(functions: &NameSet, function: &FunctionDecl) -> bool
    ensures { result ≡ depends_on_unknown functions.now function.now }
{
    for dependency in function.depends.as_slice() {
        if !functions.contains(dependency.as_str()) {
            return true;
        }
    }
    false
}

fn some_depends_on_unknown(names: &NameSet, functions: &[FunctionDecl]) -> bool
    ensures { result ≡ list_any (depends_on_unknown names.now) functions.now }
{
    for function in functions {
        if depends_on_unknown(names, function) {
            return true;
        }
    }
    false
}

fn some_unknown(names: &NameSet, table: &TableDecl) -> bool
    ensures { result ≡ (list_any (column_is_unknown names.now) table.now.columns || list_any (depends_on_unknown names.now) table.now.functions) }
{
    some_column_unknown(names, table.columns.as_slice())
        || some_depends_on_unknown(names, table.functions.as_slice())
}

/// A column's function, or a dependency of a function, isn't declared.
pub struct UnknownFunction;

impl TableRule for UnknownFunction {
    ghost use Rattle.decl_words.specs.Refusals.{has_unknown};

    ghost refuses = { has_unknown };

    fn refuses(alloc: Global, table: &TableDecl) -> Result<bool, Memory> {
        let names = function_names(alloc, table.functions.as_slice())?;
        Ok(some_unknown(&names, table))
    }
}

fn is_subset(matching: Matching) -> bool
    ensures { result ≡ is_subset matching }
{
    matching == Matching::Subset
}

fn some_subset_key(columns: &KeyColumns, keys: &[KeyDecl]) -> bool
    ensures { result ≡ list_any (is_subset_key (hydrated columns.now)) keys.now }
{
    for key in keys {
        if is_subset(key.matching) && columns.is_hydrated(key.column.as_str()) {
            return true;
        }
    }
    false
}

/// A list key that only filters is on a column with a function.
pub struct SubsetKey;

impl TableRule for SubsetKey {
    ghost use Rattle.decl_words.specs.Refusals.{has_subset_key};

    ghost refuses = { has_subset_key };

    fn refuses(alloc: Global, table: &TableDecl) -> Result<bool, Memory> {
        match &table.list {
            Some(list) => {
                let columns = KeyColumns::of(alloc, table.columns.as_slice())?;
                Ok(some_subset_key(&columns, list.keys.as_slice()))
            }
            None => Ok(false),
        }
    }
}

/// A table has neither list nor get.
pub struct NoAccess;

impl TableRule for NoAccess {
    ghost use Rattle.decl_words.specs.Refusals.{has_no_access};

    ghost refuses = { has_no_access };

    fn refuses(_alloc: Global, table: &TableDecl) -> Result<bool, Memory> {
        Ok(table.list.is_none() && table.get.is_none())
    }
}
