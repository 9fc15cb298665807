// The sources of a statement with their tables.

ghost use Rattle.std.specs.Prelude.{◌≡◌, IfOk, is_some};
ghost use Rattle.std.specs.Option.{option_copied};
ghost use Rattle.sql_bind.specs.Known.{is_connection};
ghost use Rattle.sql_bind.specs.Members.{known_under};
ghost use Rattle.sql_bind.specs.Refusals.{unknown_connection, unknown_table, ninth_source, place_unless};
ghost use Rattle.sql_bind.specs.Sources.{alias_of, first_table, table_of, seen_by, seen_of};

use crate::catalog::Catalog;
use sp_model::{Declaration, TableDecl};
use sp_value::{Memory, Text};
use sql_grammar::{Expr, Statement, TableRef};
use std::alloc::Global;
use std::marker::Model;

/// A source, the condition on which its rows are joined, and its table.
#[derive(Drop)]
pub(crate) struct Seen<'a> {
    source: &'a TableRef,
    on: Option<&'a Expr>,
    table: &'a TableDecl,
}

impl<'a> Model for Seen<'a> {
    ghost use Rattle.std.specs.Coded.{codes};
    ghost use Rattle.std.specs.Option.{option_copied as copied};
    ghost use Rattle.sql_bind.specs.Sources.{Seen as SeenValue};
    ghost use Rattle.sql_grammar.specs.contracts.ast.Expr as e;

    ghost Value = { SeenValue };

    ghost coded = { Prim.hlevel (codes, e.the_row.coded) };

    ghost view = { λ s. record { source = s.source.now; on = copied s.on; table = s.table.now } };
}

impl<'a> Seen<'a> {
    pub fn source(&self) -> &'a TableRef
        ensures { result.now ≡ self.now.source }
    {
        self.source
    }

    pub fn on(&self) -> Option<&'a Expr>
        ensures { option_copied result ≡ self.now.on }
    {
        self.on
    }

    pub fn table(&self) -> &'a TableDecl
        ensures { result.now ≡ self.now.table }
    {
        self.table
    }
}

/// The name by which refs name a source: the one after it, else its table's.
pub(crate) fn alias_of(source: &TableRef) -> &Text
    ensures { result.now ≡ alias_of source.now }
{
    match &source.alias {
        Some(name) => &name.text,
        None => &source.table.text,
    }
}

fn table_named<'a>(name: &Text, declaration: &'a Declaration) -> Option<&'a TableDecl>
    ensures { option_copied result ≡ first_table name.now declaration.now.tables }
{
    for table in declaration.tables.as_slice() {
        if table.name == *name {
            return Some(table);
        }
    }
    None
}

fn table_of<'a>(catalog: &'a Catalog, source: &TableRef) -> Option<&'a TableDecl>
    ensures { option_copied result ≡ table_of (known_under catalog.now) source.now }
{
    let declaration = catalog.declared_under(&source.connection.text)?;
    table_named(&source.table.text, declaration)
}

fn seen_by<'a>(catalog: &'a Catalog, source: &'a TableRef, on: Option<&'a Expr>) -> Option<Seen<'a>>
    ensures { result ≡ seen_by (known_under catalog.now) (record { source = source.now; on = option_copied on.entry }) }
{
    let table = table_of(catalog, source)?;
    Some(Seen { source, on, table })
}

/// The sources whose tables are declared, in order.
pub(crate) fn seen_of<'a>(
    alloc: Global,
    catalog: &'a Catalog,
    statement: &'a Statement,
) -> Result<Vec<Seen<'a>>, Memory>
    ensures { IfOk result (λ seen. seen.items ≡ seen_of (known_under catalog.now) statement.now) }
{
    let mut found = Vec::new(alloc);
    if let Some(seen) = seen_by(catalog, &statement.from, None) {
        let Ok(()) = found.push(seen) else {
            return Err(Memory);
        };
    }
    for join in statement.joins.as_slice() {
        if let Some(seen) = seen_by(catalog, &join.source, Some(&join.on)) {
            let Ok(()) = found.push(seen) else {
                return Err(Memory);
            };
        }
    }
    Ok(found)
}

/// A place, unless this holds.
pub(crate) fn unless(holds: bool, place: u64) -> Option<u64>
    ensures { result ≡ place_unless holds place }
{
    if holds { None } else { Some(place) }
}

fn connection_place(catalog: &Catalog, source: &TableRef) -> Option<u64>
    ensures { result ≡ place_unless (is_connection catalog.now.settings source.now.connection.text) source.now.connection.place }
{
    unless(
        catalog.has(&source.connection.text),
        source.connection.place,
    )
}

/// The name of the first connection that isn't in the settings.
pub(crate) fn unknown_connection(catalog: &Catalog, statement: &Statement) -> Option<u64>
    ensures { result ≡ unknown_connection catalog.now.settings statement.now }
{
    if let Some(place) = connection_place(catalog, &statement.from) {
        return Some(place);
    }
    for join in statement.joins.as_slice() {
        if let Some(place) = connection_place(catalog, &join.source) {
            return Some(place);
        }
    }
    None
}

fn table_place(catalog: &Catalog, source: &TableRef) -> Option<u64>
    ensures { result ≡ place_unless (is_some (table_of (known_under catalog.now) source.now)) source.now.table.place }
{
    unless(table_of(catalog, source).is_some(), source.table.place)
}

/// The name of the first table that isn't declared.
pub(crate) fn unknown_table(catalog: &Catalog, statement: &Statement) -> Option<u64>
    ensures { result ≡ unknown_table (known_under catalog.now) statement.now }
{
    if let Some(place) = table_place(catalog, &statement.from) {
        return Some(place);
    }
    for join in statement.joins.as_slice() {
        if let Some(place) = table_place(catalog, &join.source) {
            return Some(place);
        }
    }
    None
}

/// The connection's name of the ninth source, where there is one.
pub(crate) fn ninth_source(statement: &Statement) -> Option<u64>
    ensures { result ≡ ninth_source statement.now }
{
    let join = statement.joins.get(7)?;
    Some(join.source.connection.place)
}
