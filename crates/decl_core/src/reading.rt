ghost use Rattle.std.specs.Prelude.{◌≡◌, All, IfOk, map, reverse};
ghost use Rattle.serde_json.specs.View.{view};
ghost use Rattle.sp_value.specs.Unless.{IsUnlessMemory};
ghost use Rattle.decl_words.specs.Faults.{is_memory};
ghost use Rattle.decl_words.specs.Reading.{limit_of, fault_of, with_plugin_rule, finished, read_declaration};
ghost use Rattle.decl_words.specs.Sound.{IsSound};

use crate::cycles::first_cycle;
use crate::limits::{BeyondLimit, outside_fits};
use crate::repeats::duplicate_table;
use crate::table_rule::{NoAccess, SubsetKey, UnknownFunction, first_table};
use crate::tables::draft_of;
use decl_words::DeclFault;
use serde_json::Value;
use sp_model::{Declaration, Rule, TableDecl};
use sp_value::{Memory, TryCopy};
use sqlite_items::Items;
use std::alloc::Global;

fn limit_of(alloc: Global, declaration: &Declaration) -> Result<Option<u64>, Memory>
    ensures { IfOk result (λ n. n ≡ limit_of declaration.now) }
{
    if !outside_fits(declaration) {
        return Ok(Some(0));
    }
    let number = first_table::<BeyondLimit>(alloc, declaration.tables.as_slice())?;
    Ok(number)
}

/// The first refusal of a declaration of the right form.
fn fault_of(alloc: Global, declaration: &Declaration) -> Result<Option<DeclFault>, Memory>
    ensures { IfOk result (λ f. f ≡ fault_of declaration.now) }
{
    let tables = declaration.tables.as_slice();
    if let Some(table) = duplicate_table(alloc, tables)? {
        return Ok(Some(DeclFault::DuplicateName { table }));
    }
    if let Some(table) = first_table::<UnknownFunction>(alloc, tables)? {
        return Ok(Some(DeclFault::UnknownFunction { table }));
    }
    if let Some(cycle) = first_cycle(alloc, tables)? {
        return Ok(Some(DeclFault::Cycle {
            table: cycle.table,
            functions: cycle.functions,
        }));
    }
    if let Some(table) = first_table::<SubsetKey>(alloc, tables)? {
        return Ok(Some(DeclFault::SubsetKeyIsHydrated { table }));
    }
    if let Some(table) = first_table::<NoAccess>(alloc, tables)? {
        return Ok(Some(DeclFault::NoAccess { table }));
    }
    if let Some(table) = limit_of(alloc, declaration)? {
        return Ok(Some(DeclFault::Limit { table }));
    }
    Ok(None)
}

fn reversed(alloc: Global, mut tables: Items<TableDecl>) -> Result<Items<TableDecl>, Memory>
    ensures { IfOk result (λ ts. ts ≡ reverse tables) }
{
    let mut reversed = Items::new(alloc);
    while let Some(table) = tables.pop() {
        reversed.push(table)?;
    }
    Ok(reversed)
}

fn with_plugin_rule(alloc: Global, rule: &Rule, table: TableDecl) -> Result<TableDecl, Memory>
    ensures { IfOk result (λ t. t ≡ with_plugin_rule rule.now table) }
{
    let plugin = rule.copy(alloc)?;
    Ok(TableDecl { plugin, ..table })
}

/// The tables, each with the rules of the declaration.
fn with_plugin_rules(
    alloc: Global,
    rule: &Rule,
    tables: Items<TableDecl>,
) -> Result<Items<TableDecl>, Memory>
    ensures { IfOk result (λ ts. ts ≡ map (with_plugin_rule rule.now) tables) }
{
    let mut left = reversed(alloc, tables)?;
    let mut done = Items::new(alloc);
    while let Some(table) = left.pop() {
        done.push(with_plugin_rule(alloc, rule, table)?)?;
    }
    Ok(done)
}

fn finished(alloc: Global, declaration: Declaration) -> Result<Declaration, Memory>
    ensures { IfOk result (λ d. d ≡ finished declaration) }
{
    let rule = Rule {
        ignore: declaration.ignore,
        retry: declaration.retry,
    };
    let tables = with_plugin_rules(alloc, &rule, declaration.tables)?;
    Ok(Declaration {
        tables,
        ignore: rule.ignore,
        retry: rule.retry,
    })
}

/// The declaration that a JSON value is, with defaults put in, or the first refusal: of the kinds in the
/// order of `DeclFault`, and of one kind at the first table.
pub fn read_declaration(alloc: Global, value: &Value) -> Result<Declaration, DeclFault>
    ensures answer { IsUnlessMemory is_memory result (read_declaration (view value.now)) }
    ensures sound { IfOk result (λ d. All IsSound d.tables) }
{
    let draft = draft_of(alloc, value)?;
    match fault_of(alloc, &draft)? {
        Some(fault) => Err(fault),
        None => {
            let declaration = finished(alloc, draft)?;
            Ok(declaration)
        }
    }
}
