ghost use Rattle.std.specs.Prelude.{◌≡◌, map, filter, IfOk};
ghost use Rattle.std.specs.List.{list_any};
ghost use Rattle.settings_text.specs.Aggregators.{has_star, stands_for, is_member, members_of, is_empty_aggregator, is_named_by, is_strange, members_differ, with_its_members, with_members};

use sp_model::Connection;
use sp_value::{Memory, Pattern, Text, Texts, TryCopy};
use sqlite_items::Items;
use std::alloc::Global;

fn has_star(pattern: &[u8]) -> bool
    ensures { result ≡ has_star pattern.now }
{
    pattern.iter().any(|b| *b == b'*')
}

/// Whether a pattern of an aggregator of this plugin stands for a connection.
fn stands_for(plugin: &Text, connection: &Connection, pattern: &Pattern) -> bool
    ensures { result ≡ stands_for plugin.now connection.now pattern.now }
{
    if has_star(pattern.as_str().as_bytes()) {
        connection.plugin.as_str() == plugin.as_str() && pattern.fits(&connection.name)
    } else {
        connection.name.as_str() == pattern.as_str()
    }
}

fn some_stands_for(plugin: &Text, connection: &Connection, patterns: &[Pattern]) -> bool
    ensures { result ≡ list_any (stands_for plugin.now connection.now) patterns.now }
{
    for pattern in patterns {
        if stands_for(plugin, connection, pattern) {
            return true;
        }
    }
    false
}

fn read_patterns(alloc: Global, texts: &[Text]) -> Result<Items<Pattern>, Memory>
    ensures { IfOk result (λ patterns. patterns ≡ texts.now) }
{
    let mut patterns = Items::new(alloc);
    for text in texts {
        let Ok(()) = patterns.push(Pattern::read(alloc, text.as_str())?) else {
            return Err(Memory);
        };
    }
    Ok(patterns)
}

/// Whether an aggregator, whose patterns these are, stands for a connection.
fn is_member(aggregator: &Connection, patterns: &[Pattern], connection: &Connection) -> bool
    requires { patterns.now ≡ aggregator.now.connections }
    ensures { result ≡ is_member aggregator.now connection.now }
{
    !connection.aggregator && some_stands_for(&aggregator.plugin, connection, patterns)
}

fn has_member(alloc: Global, aggregator: &Connection, all: &[Connection]) -> Result<bool, Memory>
    ensures { IfOk result (λ b. b ≡ list_any (is_member aggregator.now) all.now) }
{
    let patterns = read_patterns(alloc, aggregator.connections.as_slice())?;
    for connection in all {
        if is_member(aggregator, patterns.as_slice(), connection) {
            return Ok(true);
        }
    }
    Ok(false)
}

/// Whether a connection is an aggregator that stands for none of them all.
pub fn is_empty_aggregator(
    alloc: Global,
    all: &[Connection],
    connection: &Connection,
) -> Result<bool, Memory>
    ensures { IfOk result (λ b. b ≡ is_empty_aggregator all.now connection.now) }
{
    if !connection.aggregator {
        return Ok(false);
    }
    let found = has_member(alloc, connection, all)?;
    Ok(!found)
}

fn is_named_by(connection: &Connection, pattern: &Text) -> bool
    ensures { result ≡ is_named_by connection.now pattern.now }
{
    !has_star(pattern.as_bytes()) && connection.name.as_str() == pattern.as_str()
}

fn is_named_by_some(connection: &Connection, patterns: &[Text]) -> bool
    ensures { result ≡ list_any (is_named_by connection.now) patterns.now }
{
    for pattern in patterns {
        if is_named_by(connection, pattern) {
            return true;
        }
    }
    false
}

fn is_strange(aggregator: &Connection, connection: &Connection) -> bool
    ensures { result ≡ is_strange aggregator.now connection.now }
{
    if connection.aggregator || connection.plugin.as_str() == aggregator.plugin.as_str() {
        return false;
    }
    is_named_by_some(connection, aggregator.connections.as_slice())
}

fn some_is_strange(aggregator: &Connection, all: &[Connection]) -> bool
    ensures { result ≡ list_any (is_strange aggregator.now) all.now }
{
    for connection in all {
        if is_strange(aggregator, connection) {
            return true;
        }
    }
    false
}

/// Whether a connection is an aggregator that names one of another plugin.
pub fn members_differ(all: &[Connection], connection: &Connection) -> bool
    ensures { result ≡ members_differ all.now connection.now }
{
    connection.aggregator && some_is_strange(connection, all)
}

/// The names of an aggregator's members in the order of the settings; none of a plain connection.
fn members_of(alloc: Global, all: &[Connection], connection: &Connection) -> Result<Texts, Memory>
    ensures { IfOk result (λ names. names ≡ members_of all.now connection.now) }
{
    if !connection.aggregator {
        return Ok(Items::new(alloc));
    }
    let names = member_names(alloc, all, connection)?;
    Ok(names)
}

fn member_names(alloc: Global, all: &[Connection], aggregator: &Connection) -> Result<Texts, Memory>
    ensures { IfOk result (λ names. names ≡ map (λ m. m.name) (filter (is_member aggregator.now) all.now)) }
{
    let patterns = read_patterns(alloc, aggregator.connections.as_slice())?;
    let mut names = Items::new(alloc);
    for connection in all {
        if is_member(aggregator, patterns.as_slice(), connection) {
            let Ok(()) = names.push(connection.name.copy(alloc)?) else {
                return Err(Memory);
            };
        }
    }
    Ok(names)
}

fn with_its_members(
    alloc: Global,
    all: &[Connection],
    connection: &Connection,
) -> Result<Connection, Memory>
    ensures { IfOk result (λ c. c ≡ with_its_members all.now connection.now) }
{
    let mut copy = connection.copy(alloc)?;
    copy.members = members_of(alloc, all, connection)?;
    Ok(copy)
}

/// The connections, each aggregator with its members.
pub fn with_members(alloc: Global, all: &[Connection]) -> Result<Items<Connection>, Memory>
    ensures { IfOk result (λ cs. cs ≡ with_members all.now) }
{
    let mut done = Items::new(alloc);
    for connection in all {
        let Ok(()) = done.push(with_its_members(alloc, all, connection)?) else {
            return Err(Memory);
        };
    }
    Ok(done)
}
