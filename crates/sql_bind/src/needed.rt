// The connections that a statement needs.

ghost use Rattle.std.specs.Prelude.{◌≡◌, [], bytes_eq, OnOk, IfOk};
ghost use Rattle.std.specs.List.{list_any, flat_map};
ghost use Rattle.sql_bind.specs.Members.{members_named};
ghost use Rattle.sql_bind.specs.Answer.{IsUnlessMemory, with_name, each_once, connections_named, plain_connections, needed};

use crate::catalog::Catalog;
use crate::fault::BindFault;
use crate::sources::unknown_connection;
use sp_value::{Memory, Text, Texts, TryCopy};
use sql_grammar::Statement;
use sqlite_items::Items;
use std::alloc::Global;

fn contains(names: &[Text], name: &Text) -> bool
    ensures { result ≡ list_any (bytes_eq name.now) names.now }
{
    names.iter().any(|other| *name == *other)
}

/// Puts a name at the end, unless it is there already.
fn add_name(alloc: Global, names: &mut Texts, name: &Text) -> Result<(), Memory>
    ensures { OnOk result (names.new ≡ with_name names.old name.now) }
{
    if contains(names.as_slice(), name) {
        return Ok(());
    }
    let name = name.copy(alloc)?;
    let Ok(()) = names.push(name) else {
        return Err(Memory);
    };
    Ok(())
}

/// The names of the connections that a statement's sources name, in order of first use, each once.
pub fn connections_named(alloc: Global, statement: &Statement) -> Result<Texts, Memory>
    ensures { IfOk result (λ names. names ≡ connections_named statement.now) }
{
    let mut names = Items::new(alloc);
    add_name(alloc, &mut names, &statement.from.connection.text)?;
    for join in statement.joins.as_slice() {
        add_name(alloc, &mut names, &join.source.connection.text)?;
    }
    Ok(names)
}

/// Puts the members of a connection at the end, but for those that are there already.
fn add_members(
    alloc: Global,
    names: &mut Texts,
    catalog: &Catalog,
    name: &Text,
) -> Result<(), Memory>
    ensures { OnOk result (names.new ≡ each_once names.old (members_named catalog.now.settings name.now)) }
{
    let members = catalog.members(alloc, name)?;
    for member in members.as_slice() {
        add_name(alloc, names, member)?;
    }
    Ok(())
}

/// The plain connections that connections stand for, in their order, each once.
fn members_of(alloc: Global, catalog: &Catalog, connections: &[Text]) -> Result<Texts, Memory>
    ensures { IfOk result (λ names. names ≡ each_once [] (flat_map (members_named catalog.now.settings) connections.now)) }
{
    let mut names = Items::new(alloc);
    for connection in connections {
        add_members(alloc, &mut names, catalog, connection)?;
    }
    Ok(names)
}

/// The names of the plain connections that a statement needs, in order of first use, each once: members stand in place of an aggregator, in
/// the order of the settings.
pub fn connections_of(
    alloc: Global,
    statement: &Statement,
    catalog: &Catalog,
) -> Result<Texts, BindFault>
    ensures { IsUnlessMemory result (needed catalog.now.settings statement.now) }
{
    if let Some(place) = unknown_connection(catalog, statement) {
        return Err(BindFault::UnknownConnection { place });
    }
    let connections = connections_named(alloc, statement)?;
    let names = members_of(alloc, catalog, connections.as_slice())?;
    Ok(names)
}
