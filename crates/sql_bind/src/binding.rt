// Statements bound.

ghost use Rattle.std.specs.Prelude.{◌≡◌, ◌≤◌, ◌++◌, length, map, take, IfOk, OnOk};
ghost use Rattle.std.specs.Option.{option_map_or};
ghost use Rattle.sql_bind.specs.Answer.{IsUnlessMemory, refused_part, bound};
ghost use Rattle.sql_grammar.specs.declared.ast.Name.{Name as NameValue};
ghost use Rattle.sql_bind.specs.Binding.{column_at as at, source_of, sources_from, columns_from, all_columns_from, item_of, shown_of, key_of, bound_by};
ghost use Rattle.sql_bind.specs.Known.{declaration_of};
ghost use Rattle.sql_bind.specs.Parts.{parts_of};

use crate::bound::{Bound, BoundItem, BoundKey, BoundSource};
use crate::catalog::Catalog;
use crate::conditions::{column_at, column_of, condition_of, fit_of};
use crate::fault::BindFault;
use crate::index::index_of;
use crate::judging::NameRule;
use crate::looked::Looked;
use crate::sources::{Seen, alias_of, ninth_source, seen_of, unknown_connection, unknown_table};
use crate::walking::first_place;
use sp_model::{ColumnDecl, TableDecl};
use sp_value::{Memory, Text, TryCopy};
use sql_grammar::{Item, Key, Name, Shown, Statement};
use sqlite_items::Items;
use std::alloc::Global;

fn source_of(
    alloc: Global,
    catalog: &Catalog,
    looked: &[Seen],
    seen: &Seen,
) -> Result<BoundSource, Memory>
    ensures { IfOk result (λ s. s ≡ source_of catalog.now.settings looked.now seen.now) }
{
    let connection = seen.source().connection.text.copy(alloc)?;
    let members = catalog.members(alloc, &connection)?;
    let alias = alias_of(seen.source()).copy(alloc)?;
    let table = seen.table().copy(alloc)?;
    let on = condition_of(alloc, looked, seen.on())?;
    Ok(BoundSource {
        connection,
        members,
        alias,
        table,
        on,
    })
}

/// The first of the sources, so many.
fn first_sources<'s, 'a>(all: &'s [Seen<'a>], count: usize) -> &'s [Seen<'a>]
    requires { count ≤ length all.now }
    ensures { result.now ≡ take count all.now }
{
    &all[..count]
}

fn sources_of(alloc: Global, catalog: &Catalog, all: &[Seen]) -> Result<Items<BoundSource>, Memory>
    ensures { IfOk result (λ ss. ss ≡ sources_from catalog.now.settings all.now 0 all.now) }
{
    let mut sources = Items::new(alloc);
    for (n, seen) in all.iter().enumerate() {
        let source = source_of(alloc, catalog, first_sources(all, n + 1), seen)?;
        let Ok(()) = sources.push(source) else {
            return Err(Memory);
        };
    }
    Ok(sources)
}

fn column_item(
    alloc: Global,
    source: usize,
    column: usize,
    declared: &ColumnDecl,
) -> Result<BoundItem, Memory>
    ensures { IfOk result (λ i. i ≡ record { column = at source column; name = declared.now.name; kind = declared.now.kind }) }
{
    let column = column_at(source, column)?;
    let name = declared.name.copy(alloc)?;
    Ok(BoundItem {
        column,
        name,
        kind: declared.kind,
    })
}

/// Adds the columns of a table.
fn add_columns(
    alloc: Global,
    items: &mut Items<BoundItem>,
    source: usize,
    table: &TableDecl,
) -> Result<(), Memory>
    ensures { OnOk result (items.new ≡ items.old ++ columns_from source 0 table.now.columns) }
{
    for (column, declared) in table.columns.as_slice().iter().enumerate() {
        let item = column_item(alloc, source, column, declared)?;
        let Ok(()) = items.push(item) else {
            return Err(Memory);
        };
    }
    Ok(())
}

fn all_columns(alloc: Global, all: &[Seen]) -> Result<Items<BoundItem>, Memory>
    ensures { IfOk result (λ is. is ≡ all_columns_from 0 all.now) }
{
    let mut items = Items::new(alloc);
    for (n, seen) in all.iter().enumerate() {
        add_columns(alloc, &mut items, n, seen.table())?;
    }
    Ok(items)
}

/// The name of an item: its alias, else its column's name.
fn name_of<'a>(alias: &'a Option<Name>, column: &'a Name) -> &'a Text
    ensures { result.now ≡ option_map_or (λ (n : NameValue). n.text) alias.now column.now.text }
{
    match alias {
        Some(name) => &name.text,
        None => &column.text,
    }
}

fn item_of(alloc: Global, all: &[Seen], item: &Item) -> Result<BoundItem, Memory>
    ensures { IfOk result (λ i. i ≡ item_of all.now item.now) }
{
    let fit = fit_of(all, &item.of);
    let column = column_at(fit.source, fit.column)?;
    let name = name_of(&item.alias, &item.of.column).copy(alloc)?;
    Ok(BoundItem {
        column,
        name,
        kind: fit.kind,
    })
}

fn items_of(alloc: Global, all: &[Seen], items: &[Item]) -> Result<Items<BoundItem>, Memory>
    ensures { IfOk result (λ is. is ≡ map (item_of all.now) items.now) }
{
    let mut found = Items::new(alloc);
    for item in items {
        let bound = item_of(alloc, all, item)?;
        let Ok(()) = found.push(bound) else {
            return Err(Memory);
        };
    }
    Ok(found)
}

fn shown_of(alloc: Global, all: &[Seen], shown: &Shown) -> Result<Items<BoundItem>, Memory>
    ensures { IfOk result (λ is. is ≡ shown_of all.now shown.now) }
{
    match shown {
        Shown::All => all_columns(alloc, all),
        Shown::Items(items) => items_of(alloc, all, items.as_slice()),
    }
}

fn keys_of(alloc: Global, all: &[Seen], keys: &[Key]) -> Result<Items<BoundKey>, Memory>
    ensures { IfOk result (λ ks. ks ≡ map (key_of all.now) keys.now) }
{
    let mut found = Items::new(alloc);
    for key in keys {
        let column = column_of(all, &key.of)?;
        let bound = BoundKey {
            column,
            down: key.descending,
        };
        let Ok(()) = found.push(bound) else {
            return Err(Memory);
        };
    }
    Ok(found)
}

fn bound_by(
    alloc: Global,
    catalog: &Catalog,
    all: &[Seen],
    statement: &Statement,
) -> Result<Bound, Memory>
    ensures { IfOk result (λ b. b ≡ bound_by catalog.now.settings all.now statement.now) }
{
    let sources = sources_of(alloc, catalog, all)?;
    let shown = shown_of(alloc, all, &statement.shown)?;
    let test = condition_of(alloc, all, statement.test.as_ref())?;
    let order = keys_of(alloc, all, statement.order.as_slice())?;
    Ok(Bound {
        sources,
        shown,
        test,
        order,
        limit: statement.limit,
    })
}

/// The first refusal of refs, aliases and kinds, of the kinds in their order.
fn refused_part(all: &Looked, statement: &Statement) -> Option<BindFault>
    ensures { result ≡ refused_part (parts_of all.now statement.now) }
{
    if let Some(place) = first_place(NameRule::UnknownColumn, all, statement) {
        return Some(BindFault::UnknownColumn { place });
    }
    if let Some(place) = first_place(NameRule::Ambiguous, all, statement) {
        return Some(BindFault::Ambiguous { place });
    }
    if let Some(place) = first_place(NameRule::TypeMismatch, all, statement) {
        return Some(BindFault::TypeMismatch { place });
    }
    None
}

/// The statement with columns in place of names, or the first refusal: of the kinds in the order of `BindFault`, and of
/// one kind at the first place in the text. An aggregator has the tables of its first member; a connection whose declaration isn't set has none.
pub fn bind(alloc: Global, statement: &Statement, catalog: &Catalog) -> Result<Bound, BindFault>
    ensures { IsUnlessMemory result (bound catalog.now.settings (declaration_of catalog.now) statement.now) }
{
    if let Some(place) = unknown_connection(catalog, statement) {
        return Err(BindFault::UnknownConnection { place });
    }
    if let Some(place) = unknown_table(catalog, statement) {
        return Err(BindFault::UnknownTable { place });
    }
    let seen = seen_of(alloc, catalog, statement)?;
    let index = index_of(alloc, seen.as_slice())?;
    let looked = Looked::all(seen.as_slice(), index.as_ref());
    if let Some(fault) = refused_part(&looked, statement) {
        return Err(fault);
    }
    if let Some(place) = ninth_source(statement) {
        return Err(BindFault::TooManyTables { place });
    }
    let bound = bound_by(alloc, catalog, seen.as_slice(), statement)?;
    Ok(bound)
}
