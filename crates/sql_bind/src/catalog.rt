ghost use Rattle.std.specs.Prelude.{◌≡◌, ℕ, List, [], ◌∷◌, map, filter, slice_get, false, bytes_eq, Some, None, IfOk, IsTrue};
ghost use Rattle.std.specs.List.{position_from};
ghost use Rattle.std.specs.Option.{option_copied};
ghost use Rattle.sql_bind.specs.Known.{is_connection, nothing_declared, declaration_of};
ghost use Rattle.sql_bind.specs.Members.{connection_named, members_named, first_member, known_under};

use sp_model::{Connection, Declaration, Settings};
use sp_value::{Memory, Text, Texts, TryCopy};
use sqlite_items::Items;
use std::alloc::Global;
use std::marker::Model;

/// The settings, and for each of their connections its declaration, where it was set.
#[derive(Drop)]
pub struct Catalog {
    settings: Settings,
    declared: Items<Option<Declaration>>,
}

impl Model for Catalog {
    ghost use Rattle.std.specs.Prelude.{◌≡◌, length};
    ghost use Rattle.sql_bind.specs.Known.{Known};

    ghost Value = { Known };

    ghost view = { λ c. record { settings = c.settings; declared = c.declared } };

    ghost invariant = { λ c. length c.declared ≡ length c.settings.connections };
}

fn none_for(alloc: Global, connections: &[Connection]) -> Result<Items<Option<Declaration>>, Memory>
    ensures { IfOk result (λ ds. ds ≡ map (λ _. None) connections.now) }
{
    let mut declared = Items::new(alloc);
    for _ in connections {
        let Ok(()) = declared.push(None) else {
            return Err(Memory);
        };
    }
    Ok(declared)
}

/// A list of this one name.
fn one_name(alloc: Global, name: &Text) -> Result<Texts, Memory>
    ensures { IfOk result (λ names. names ≡ name.now ∷ []) }
{
    let mut names = Items::new(alloc);
    let name = name.copy(alloc)?;
    let Ok(()) = names.push(name) else {
        return Err(Memory);
    };
    Ok(names)
}

fn place_of(connections: &[Connection], name: &Text) -> Option<usize>
    ensures { result ≡ position_from (λ c. bytes_eq c.name name.now) 0 connections.now }
{
    connections.iter().position(|c| c.name == *name)
}

impl Catalog {
    /// A copy of the settings, and no declarations.
    pub fn of(alloc: Global, settings: &Settings) -> Result<Catalog, Memory>
        ensures { IfOk result (λ c. c ≡ nothing_declared settings.now) }
    {
        let settings = settings.copy(alloc)?;
        let declared = none_for(alloc, settings.connections.as_slice())?;
        Ok(Catalog { settings, declared })
    }

    /// Sets the declaration of a connection of the settings. It takes no memory.
    pub fn set(&mut self, connection: &Text, declaration: Declaration)
        requires { IsTrue (is_connection self.old.settings connection.now) }
        ensures settings { self.new.settings ≡ self.old.settings }
        ensures declared { declaration_of self.new connection.now ≡ Some declaration }
        ensures others { (name : List ℕ) → bytes_eq connection.now name ≡ false → declaration_of self.new name ≡ declaration_of self.old name }
    {
        let Some(place) = place_of(self.settings.connections.as_slice(), connection) else {
            return;
        };
        self.declared.set(place, Some(declaration));
    }

    /// Whether the settings have a connection of that name.
    pub(crate) fn has(&self, name: &Text) -> bool
        ensures { result ≡ is_connection self.now.settings name.now }
    {
        self.settings
            .connections
            .as_slice()
            .iter()
            .any(|c| c.name == *name)
    }

    /// The settings, lent.
    pub fn settings(&self) -> &Settings
        ensures { result.now ≡ self.now.settings }
    {
        &self.settings
    }

    /// The connection of that name.
    fn named(&self, name: &Text) -> Option<&Connection>
        ensures { option_copied result ≡ connection_named self.now.settings name.now }
    {
        self.settings
            .connections
            .as_slice()
            .iter()
            .find(|c| c.name == *name)
    }

    /// The plain connections that a name stands for: the members of an aggregator, in the order of the settings, or the connection itself.
    pub fn members(&self, alloc: Global, name: &Text) -> Result<Texts, Memory>
        ensures { IfOk result (λ names. names ≡ members_named self.now.settings name.now) }
    {
        match self.named(name) {
            Some(connection) if connection.aggregator => {
                self.known_of(alloc, connection.members.as_slice())
            }
            _ => one_name(alloc, name),
        }
    }

    /// Those names that the settings have.
    fn known_of(&self, alloc: Global, names: &[Text]) -> Result<Texts, Memory>
        ensures { IfOk result (λ known. known ≡ filter (is_connection self.now.settings) names.now) }
    {
        let mut known = Items::new(alloc);
        for name in names {
            if self.has(name) {
                let Ok(()) = known.push(name.copy(alloc)?) else {
                    return Err(Memory);
                };
            }
        }
        Ok(known)
    }

    /// The first of these names that the settings have.
    fn first_known<'a>(&self, names: &'a [Text]) -> Option<&'a Text>
        ensures { option_copied result ≡ slice_get (filter (is_connection self.now.settings) names.now) 0 }
    {
        for name in names {
            if self.has(name) {
                return Some(name);
            }
        }
        None
    }

    fn first_member<'a>(&'a self, name: &'a Text) -> Option<&'a Text>
        ensures { option_copied result ≡ first_member self.now.settings name.now }
    {
        match self.named(name) {
            Some(connection) if connection.aggregator => {
                self.first_known(connection.members.as_slice())
            }
            _ => Some(name),
        }
    }

    /// The declaration that stands for a name: that of its first member, where it was set.
    pub(crate) fn declared_under(&self, name: &Text) -> Option<&Declaration>
        ensures { option_copied result ≡ known_under self.now name.now }
    {
        let member = self.first_member(name)?;
        self.declaration(member)
    }

    /// The declaration of the first connection of that name, where it was set.
    pub fn declaration(&self, connection: &Text) -> Option<&Declaration>
        ensures { option_copied result ≡ declaration_of self.now connection.now }
    {
        let Some(place) = place_of(self.settings.connections.as_slice(), connection) else {
            return None;
        };
        match self.declared.get(place) {
            Some(declared) => declared.as_ref(),
            None => None,
        }
    }
}
