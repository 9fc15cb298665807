ghost use Rattle.std.specs.Prelude.{◌≡◌, ℕ, List, codes, IfOk, option_and_then};
ghost use Rattle.serde_json.specs.Find.{get};
ghost use Rattle.serde_json.specs.View.{view};
ghost use Rattle.sp_model.specs.RowOf.{names_of_columns};
ghost use Rattle.decl_words.specs.Columns.{columns_of, hydrated};
ghost use Rattle.sp_model.specs.Names.{has_name};

use crate::from_json::{FromJson, optional, optional_or, required};
use crate::rules::call_rules_in;
use name_set::NameSet;
use read_members::object_has_only;
use serde_json::Value;
use sp_model::{ColumnDecl, FunctionDecl};
use sp_value::{Kind, Memory, Text, Texts, TryCopy};
use sqlite_items::Items;
use std::alloc::Global;
use std::marker::Model;

impl FromJson for ColumnDecl {
    ghost use Rattle.decl_words.specs.Columns.{column_of};

    ghost read_as = { column_of };

    fn from_json(alloc: Global, value: &Value) -> Result<Option<ColumnDecl>, Memory> {
        if !object_has_only(value, &["name", "kind", "function", "field"]) {
            return Ok(None);
        }
        let Some(name) = required::<Text>(alloc, value, "name")? else {
            return Ok(None);
        };
        let Some(kind) = required::<Kind>(alloc, value, "kind")? else {
            return Ok(None);
        };
        let Some(function) = optional::<Text>(alloc, value, "function")? else {
            return Ok(None);
        };
        let Some(field) = optional::<Text>(alloc, value, "field")? else {
            return Ok(None);
        };
        let field = match field {
            Some(field) => field,
            None => name.copy(alloc)?,
        };
        Ok(Some(ColumnDecl {
            name,
            kind,
            function,
            field,
        }))
    }
}

impl FromJson for FunctionDecl {
    ghost use Rattle.decl_words.specs.Columns.{function_of};

    ghost read_as = { function_of };

    fn from_json(alloc: Global, value: &Value) -> Result<Option<FunctionDecl>, Memory> {
        if !object_has_only(value, &["name", "depends", "tags", "ignore", "retry"]) {
            return Ok(None);
        }
        let Some(name) = required::<Text>(alloc, value, "name")? else {
            return Ok(None);
        };
        let Some(depends) = optional_or::<Texts>(alloc, value, "depends", Items::new(alloc))? else {
            return Ok(None);
        };
        let Some(rules) = call_rules_in(alloc, value)? else {
            return Ok(None);
        };
        Ok(Some(FunctionDecl {
            name,
            depends,
            tags: rules.tags,
            ignore: rules.rule.ignore,
            retry: rules.rule.retry,
        }))
    }
}

/// The columns of a table, of which there is one at least.
pub fn columns_at(alloc: Global, value: &Value) -> Result<Option<Items<ColumnDecl>>, Memory>
    ensures { IfOk result (λ cs. cs ≡ option_and_then columns_of (get (codes "columns") (view value.now))) }
{
    let Some(columns) = required::<Items<ColumnDecl>>(alloc, value, "columns")? else {
        return Ok(None);
    };
    if columns.is_empty() {
        return Ok(None);
    }
    Ok(Some(columns))
}

fn column_names<'a>(alloc: Global, columns: &'a [ColumnDecl]) -> Result<NameSet<'a>, Memory>
    ensures { IfOk result (λ s. (name : List ℕ) → has_name s name ≡ has_name (names_of_columns columns.now) name) }
{
    let mut names = NameSet::new(alloc);
    for column in columns {
        names.insert(column.name.as_str())?;
    }
    Ok(names)
}

fn hydrated_names<'a>(alloc: Global, columns: &'a [ColumnDecl]) -> Result<NameSet<'a>, Memory>
    ensures { IfOk result (λ s. (name : List ℕ) → has_name s name ≡ has_name (hydrated columns.now) name) }
{
    let mut names = NameSet::new(alloc);
    for column in columns {
        if column.function.is_some() {
            names.insert(column.name.as_str())?;
        }
    }
    Ok(names)
}

/// The columns of a table, for look-ups by name. Contracts see the columns.
#[derive(Drop)]
pub struct KeyColumns<'a> {
    columns: &'a [ColumnDecl],
    names: NameSet<'a>,
    hydrated: NameSet<'a>,
}

impl<'a> Model for KeyColumns<'a> {
    ghost use Rattle.std.specs.Prelude.{◌≡◌, List, ℕ};
    ghost use Rattle.sp_model.specs.declared.declaration.ColumnDecl.{ColumnDecl as Column};
    ghost use Rattle.sp_model.specs.RowOf.{names_of_columns};
    ghost use Rattle.decl_words.specs.Columns.{hydrated as hydrated_of};
    ghost use Rattle.sp_model.specs.Names.{has_name};

    ghost Value = { List Column };

    ghost view = { λ k. k.columns.now };

    ghost invariant = { λ k. ((name : List ℕ) → has_name k.names name ≡ has_name (names_of_columns k.columns.now) name) × ((name : List ℕ) → has_name k.hydrated name ≡ has_name (hydrated_of k.columns.now) name) };
}

impl<'a> KeyColumns<'a> {
    /// These columns.
    pub fn of(alloc: Global, columns: &'a [ColumnDecl]) -> Result<KeyColumns<'a>, Memory>
        ensures { IfOk result (λ k. k ≡ columns.now) }
    {
        let names = column_names(alloc, columns)?;
        let hydrated = hydrated_names(alloc, columns)?;
        Ok(KeyColumns {
            columns,
            names,
            hydrated,
        })
    }

    /// Whether there is a column of that name.
    pub fn contains(&self, name: &str) -> bool
        ensures { result ≡ has_name (names_of_columns self.now) name.now }
    {
        self.names.contains(name)
    }

    /// Whether there is a column of that name with a function.
    pub fn is_hydrated(&self, name: &str) -> bool
        ensures { result ≡ has_name (hydrated self.now) name.now }
    {
        self.hydrated.contains(name)
    }
}
