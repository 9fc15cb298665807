ghost use Rattle.std.specs.Prelude.{◌≡◌, [], map, option_map, IfOk};
ghost use Rattle.settings_text.specs.Reading.{first_where, first_repeat, first_limiter, duplicate};
ghost use Rattle.settings_text.specs.declared.fault.Entry.TheVariants as place;

use crate::aggregators;
use crate::entries::Listed;
use crate::fault::Entry;
use crate::limits::MOST_ENTRIES;
use crate::written::{Written, WrittenLimiter};
use name_set::NameSet;
use sp_model::Connection;
use sp_value::Memory;
use std::alloc::Global;

/// Why a connection is refused among others.
pub trait Rule {
    ghost use Rattle.std.specs.Prelude.{Bool};
    ghost use Rattle.sp_model.specs.declared.settings.Connection as model;

    ghost refuses: { Self → model.Connection → Bool };

    fn refuses(&self, alloc: Global, connection: &Connection) -> Result<bool, Memory>
        ensures { IfOk result (λ b. b ≡ refuses self.now connection.now) };
}

/// An aggregator has a member among all connections.
#[derive(Drop)]
pub struct IsEmpty<'a> {
    pub all: &'a [Connection],
}

impl Rule for IsEmpty<'_> {
    ghost use Rattle.settings_text.specs.Aggregators.{is_empty_aggregator};

    ghost refuses = { λ r. is_empty_aggregator r.all.now };

    fn refuses(&self, alloc: Global, connection: &Connection) -> Result<bool, Memory> {
        let refused = aggregators::is_empty_aggregator(alloc, self.all, connection)?;
        Ok(refused)
    }
}

/// The connections that an aggregator names have its plugin.
#[derive(Drop)]
pub struct Differs<'a> {
    pub all: &'a [Connection],
}

impl Rule for Differs<'_> {
    ghost use Rattle.settings_text.specs.Aggregators.{members_differ};

    ghost refuses = { λ r. members_differ r.all.now };

    fn refuses(&self, _alloc: Global, connection: &Connection) -> Result<bool, Memory> {
        Ok(aggregators::members_differ(self.all, connection))
    }
}

/// Lists of texts have their limits.
#[derive(Drop)]
pub struct IsLong;

impl Rule for IsLong {
    ghost use Rattle.settings_text.specs.Limits.{is_long};

    ghost refuses = { λ _. is_long };

    fn refuses(&self, _alloc: Global, connection: &Connection) -> Result<bool, Memory> {
        Ok(connection.command.len() > MOST_ENTRIES || connection.connections.len() > MOST_ENTRIES)
    }
}

/// The place of the first connection that the rule refuses.
pub fn first_connection<R: Rule>(
    alloc: Global,
    rule: &R,
    connections: &[Connection],
) -> Result<Option<Entry>, Memory>
    ensures { IfOk result (λ o. o ≡ option_map place.Connection (first_where (R.refuses rule.now) 1 connections.now)) }
{
    let mut number = 0;
    for connection in connections {
        number += 1;
        if rule.refuses(alloc, connection)? {
            return Ok(Some(Entry::Connection(number)));
        }
    }
    Ok(None)
}

/// The place of the first limiter.
pub fn first_limiter(limiters: &[WrittenLimiter]) -> Option<Entry>
    ensures { result ≡ first_limiter limiters.now }
{
    match limiters {
        [] => None,
        [_, ..] => Some(Entry::Limiter(1)),
    }
}

/// The place of the first entry that has the name of one before it.
fn first_repeat<T: Listed>(alloc: Global, entries: &[T]) -> Result<Option<Entry>, Memory>
    ensures { IfOk result (λ o. o ≡ option_map T.entry_at (first_repeat [] 1 (map T.name_of entries.now))) }
{
    let mut seen = NameSet::new(alloc);
    let mut number = 0;
    for entry in entries {
        number += 1;
        if !seen.insert(entry.name().as_str())? {
            return Ok(Some(T::entry(number)));
        }
    }
    Ok(None)
}

/// The place of the first connection, or else of the first limiter, that has the name of one before it.
pub fn duplicate(alloc: Global, written: &Written) -> Result<Option<Entry>, Memory>
    ensures { IfOk result (λ o. o ≡ duplicate written.now) }
{
    match first_repeat(alloc, written.connections.as_slice())? {
        Some(at) => Ok(Some(at)),
        None => {
            let at = first_repeat(alloc, written.limiters.as_slice())?;
            Ok(at)
        }
    }
}
