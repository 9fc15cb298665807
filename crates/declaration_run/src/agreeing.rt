// Connections that have to declare the same.

ghost use Rattle.std.specs.Prelude.{◌≡◌, true, false, Some};
ghost use Rattle.std.specs.Option.{option_copied};
ghost use Rattle.sp_model.specs.Names.{has_name};
ghost use Rattle.sp_model.specs.declared.declaration.Declaration.{Declaration};
ghost use Rattle.sql_bind.specs.Known.{declaration_of};
ghost use Rattle.declaration_run.specs.Declaring.{first_in, AgreesIn, DiffersIn, Agrees, Differs};

use same_declarations::Same;
use sp_value::{Text, Texts};
use sql_bind::Catalog;

/// Whether a name is one of these.
fn has_name(names: &[Text], name: &Text) -> bool
    ensures { result ≡ has_name names.now name.now }
{
    names.iter().any(|n| *name == *n)
}

/// The first of these connections that is one of a group.
fn first_in<'a>(connections: &'a [Text], group: &[Text]) -> Option<&'a Text>
    ensures { option_copied result ≡ first_in connections.now group.now }
{
    for connection in connections {
        if has_name(group, connection) {
            return Some(connection);
        }
    }
    None
}

/// Whether two connections declare the same, as far as the catalog has their declarations.
fn declare_same(catalog: &Catalog, first: &Text, connection: &Text) -> bool
    ensures same { result ≡ true → (theirs own : Declaration) → declaration_of catalog.now first.now ≡ Some theirs → declaration_of catalog.now connection.now ≡ Some own → theirs ≡ own }
    ensures other { result ≡ false → (theirs : Declaration) × (own : Declaration) × (declaration_of catalog.now first.now ≡ Some theirs) × (declaration_of catalog.now connection.now ≡ Some own) × (theirs ≡ own → ⊥) }
{
    let Some(theirs) = catalog.declaration(first) else {
        return true;
    };
    let Some(own) = catalog.declaration(connection) else {
        return true;
    };
    theirs.same(own)
}

/// Whether a connection, where it is one of a group, declares what the first of the group does.
fn agrees_in(catalog: &Catalog, connections: &[Text], connection: &Text, group: &[Text]) -> bool
    ensures yes { result ≡ true → AgreesIn (declaration_of catalog.now) connections.now connection.now group.now }
    ensures no { result ≡ false → DiffersIn (declaration_of catalog.now) connections.now connection.now group.now }
{
    if !has_name(group, connection) {
        return true;
    }
    match first_in(connections, group) {
        Some(first) => declare_same(catalog, first, connection),
        None => true,
    }
}

/// Whether a connection declares what the first of each group that it is in does.
pub(crate) fn agrees(
    catalog: &Catalog,
    connections: &[Text],
    groups: &[Texts],
    connection: &Text,
) -> bool
    ensures yes { result ≡ true → Agrees (declaration_of catalog.now) connections.now groups.now connection.now }
    ensures no { result ≡ false → Differs (declaration_of catalog.now) connections.now groups.now connection.now }
{
    for group in groups {
        if !agrees_in(catalog, connections, connection, group.as_slice()) {
            return false;
        }
    }
    true
}
