//! What comes of the calls of `sql_bind`. Its settings' connection `c` is declared, and no other.

ghost use Rattle.std.specs.Prelude.{◌≡◌};
ghost use Rattle.sql_bind.specs.Known.{is_connection};

use crate::declaration_cases::declaration_at;
use crate::sql_cases::statement_at;
use crate::words::joined;
use case_tables::{bytes_at, listed};
use settings_text::read_settings;
use sp_model::{Declaration, Settings};
use sp_value::{Text, Texts};
use sql_bind::{BindFault, Bound, BoundItem, BoundKey, BoundSource, Catalog, bind, connections_of};
use std::alloc::Global;

pub fn outcome(alloc: Global, call: &str, given: &[Vec<u8>]) -> Option<String> {
    match call {
        "bind" => bound(alloc, given),
        "connections_of" => needed(alloc, given),
        _ => None,
    }
}

fn has(settings: &Settings, name: &Text) -> bool
    ensures { result ≡ is_connection settings.now name.now }
{
    settings
        .connections
        .as_slice()
        .iter()
        .any(|connection| connection.name == *name)
}

fn declared(catalog: Catalog, name: &Text, declaration: Declaration) -> Option<Catalog> {
    let mut catalog = catalog;
    if !has(catalog.settings(), name) {
        return None;
    }
    catalog.set(name, declaration);
    Some(catalog)
}

fn settings(alloc: Global, given: &[Vec<u8>]) -> Option<Settings> {
    read_settings(alloc, bytes_at(given, 0)?).ok()
}

/// Settings, the declaration of `c`.
fn catalog(alloc: Global, given: &[Vec<u8>]) -> Option<Catalog> {
    let catalog = Catalog::of(alloc, &settings(alloc, given)?).ok()?;
    let name = Text::from_str(alloc, "c").ok()?;
    declared(catalog, &name, declaration_at(alloc, given, 1)?)
}

fn refusal(alloc: Global, fault: BindFault) -> Option<String> {
    let (kind, place) = match fault {
        BindFault::UnknownConnection { place } => ("unknown connection", place),
        BindFault::UnknownTable { place } => ("unknown table", place),
        BindFault::UnknownColumn { place } => ("unknown column", place),
        BindFault::Ambiguous { place } => ("ambiguous", place),
        BindFault::TypeMismatch { place } => ("type mismatch", place),
        BindFault::TooManyTables { place } => ("too many tables", place),
        BindFault::Memory => return None,
    };
    format!(in alloc; "{kind} at {place}").ok()
}

/// The numbers of source and column, the name in the answer, and the kind.
fn item_words(alloc: Global, item: &BoundItem) -> Option<String> {
    let (source, column) = (item.column.source, item.column.column);
    format!(in alloc; "{source}.{column} {} {:?}", item.name.as_str(), item.kind).ok()
}

fn source_words(alloc: Global, source: &BoundSource) -> Option<String> {
    let connection = source.connection.as_str();
    let table = source.table.name.as_str();
    let on = if source.on.is_some() { " on" } else { "" };
    format!(in alloc; "{connection}.{table}{on}").ok()
}

fn key_words(alloc: Global, key: &BoundKey) -> Option<String> {
    let (source, column) = (key.column.source, key.column.column);
    let down = if key.down { " desc" } else { "" };
    format!(in alloc; "{source}.{column}{down}").ok()
}

fn limit_words(alloc: Global, limit: Option<u64>) -> Option<String> {
    match limit {
        Some(limit) => format!(in alloc; "; limit {limit}").ok(),
        None => Some(String::new(alloc)),
    }
}

/// What is shown, the sources, and what follows them.
fn bound_words(alloc: Global, bound: &Bound) -> Option<String> {
    let shown = listed(alloc, bound.shown.as_slice(), ", ", item_words)?;
    let sources = listed(alloc, bound.sources.as_slice(), ", ", source_words)?;
    let test = if bound.test.is_some() { "; where" } else { "" };
    let order = listed(alloc, bound.order.as_slice(), ", ", key_words)?;
    let by = if order.is_empty() { "" } else { "; order by " };
    let limit = limit_words(alloc, bound.limit)?;
    format!(in alloc; "{shown}; from {sources}{test}{by}{order}{limit}").ok()
}

fn bound_answer(alloc: Global, answer: Result<Bound, BindFault>) -> Option<String> {
    match answer {
        Ok(bound) => bound_words(alloc, &bound),
        Err(fault) => refusal(alloc, fault),
    }
}

/// Settings, the declaration of `c`, a statement: the statement with columns in place of names.
fn bound(alloc: Global, given: &[Vec<u8>]) -> Option<String> {
    let catalog = catalog(alloc, given)?;
    let statement = statement_at(alloc, given, 2)?;
    bound_answer(alloc, bind(alloc, &statement, &catalog))
}

fn needed_answer(alloc: Global, answer: Result<Texts, BindFault>) -> Option<String> {
    match answer {
        Ok(names) => joined(alloc, names.as_slice(), " "),
        Err(fault) => refusal(alloc, fault),
    }
}

/// Settings, the declaration of `c`, a statement: the connections that it needs.
fn needed(alloc: Global, given: &[Vec<u8>]) -> Option<String> {
    let catalog = catalog(alloc, given)?;
    let statement = statement_at(alloc, given, 2)?;
    needed_answer(alloc, connections_of(alloc, &statement, &catalog))
}
