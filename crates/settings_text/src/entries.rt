ghost use Rattle.std.specs.Prelude.{◌≡◌, codes, IfOk};
ghost use Rattle.toml.specs.Data.{get};
ghost use Rattle.toml.specs.View.{view, items_view};
ghost use Rattle.settings_text.specs.Entries.{plain_of, aggregator_of, is_limit, rates_of, entries_from, entries_at, has_some, is_array_or_absent, is_top, options_in, written_of};
ghost use Rattle.settings_text.specs.Faults.{IsUnlessMemory};

use crate::fault::{Entry, SettingsFault};
use crate::from_toml::{
    FromToml, connection_name_at, name_at, names_at, optional, optional_or, says, some_texts_at,
};
use crate::written::{DEFAULT_OPTIONS, Written, WrittenLimiter, WrittenOptions, WrittenRates};
use read_members::table_has_only;
use sp_model::{Connection, Pair};
use sp_value::{Memory, Text};
use sqlite_items::Items;
use std::alloc::Global;
use toml::Value;

impl FromToml for WrittenOptions {
    ghost use Rattle.settings_text.specs.Entries.{options_of};

    ghost read_as = { options_of };

    fn from_toml(alloc: Global, value: &Value) -> Result<Option<WrittenOptions>, Memory> {
        if !table_has_only(
            value,
            &["cache", "cache_ttl", "cache_max", "window", "restarts"],
        ) {
            return Ok(None);
        }
        let Some(cache) = optional_or(alloc, value, "cache", DEFAULT_OPTIONS.cache)? else {
            return Ok(None);
        };
        let Some(cache_ttl) = optional_or(alloc, value, "cache_ttl", DEFAULT_OPTIONS.cache_ttl)?
        else {
            return Ok(None);
        };
        let Some(cache_max) = optional_or(alloc, value, "cache_max", DEFAULT_OPTIONS.cache_max)?
        else {
            return Ok(None);
        };
        let Some(window) = optional_or(alloc, value, "window", DEFAULT_OPTIONS.window)? else {
            return Ok(None);
        };
        let Some(restarts) = optional_or(alloc, value, "restarts", DEFAULT_OPTIONS.restarts)? else {
            return Ok(None);
        };
        Ok(Some(WrittenOptions {
            cache,
            cache_ttl,
            cache_max,
            window,
            restarts,
        }))
    }
}

/// An entry of the connections or the limiters.
pub trait Listed: FromToml {
    ghost use Rattle.std.specs.Prelude.{ℕ, List};
    ghost use Rattle.settings_text.specs.declared.fault.Entry as entry;

    ghost entry_at: { ℕ → entry.Entry };

    ghost name_of: { Self → List ℕ };

    /// The place of the entry of this number.
    fn entry(number: u64) -> Entry
        ensures { result ≡ entry_at number };

    fn name(&self) -> &Text
        ensures { result.now ≡ name_of self.now };
}

/// A connection with the command of its child.
fn plain_of(alloc: Global, value: &Value) -> Result<Option<Connection>, Memory>
    ensures { IfOk result (λ o. o ≡ plain_of (view value.now)) }
{
    if !table_has_only(value, &["name", "plugin", "command"]) {
        return Ok(None);
    }
    let Some(name) = connection_name_at(alloc, value, "name")? else {
        return Ok(None);
    };
    let Some(plugin) = name_at(alloc, value, "plugin")? else {
        return Ok(None);
    };
    let Some(command) = some_texts_at(alloc, value, "command")? else {
        return Ok(None);
    };
    Ok(Some(Connection {
        name,
        plugin,
        command,
        aggregator: false,
        connections: Items::new(alloc),
        members: Items::new(alloc),
    }))
}

/// An aggregator, whose members are found later.
fn aggregator_of(alloc: Global, value: &Value) -> Result<Option<Connection>, Memory>
    ensures { IfOk result (λ o. o ≡ aggregator_of (view value.now)) }
{
    if !table_has_only(value, &["name", "plugin", "type", "connections"]) {
        return Ok(None);
    }
    if !says(value, "type", "aggregator") {
        return Ok(None);
    }
    let Some(name) = connection_name_at(alloc, value, "name")? else {
        return Ok(None);
    };
    let Some(plugin) = name_at(alloc, value, "plugin")? else {
        return Ok(None);
    };
    let Some(connections) = some_texts_at(alloc, value, "connections")? else {
        return Ok(None);
    };
    Ok(Some(Connection {
        name,
        plugin,
        command: Items::new(alloc),
        aggregator: true,
        connections,
        members: Items::new(alloc),
    }))
}

impl FromToml for Connection {
    ghost use Rattle.settings_text.specs.Entries.{connection_of};

    ghost read_as = { connection_of };

    fn from_toml(alloc: Global, value: &Value) -> Result<Option<Connection>, Memory> {
        if value.get("type").is_some() {
            let aggregator = aggregator_of(alloc, value)?;
            return Ok(aggregator);
        }
        let plain = plain_of(alloc, value)?;
        Ok(plain)
    }
}

impl Listed for Connection {
    ghost use Rattle.settings_text.specs.declared.fault.Entry.TheVariants as place;

    ghost entry_at = { place.Connection };

    ghost name_of = { λ c. c.name };

    fn entry(number: u64) -> Entry {
        Entry::Connection(number)
    }

    fn name(&self) -> &Text {
        &self.name
    }
}

/// Whether there is a whole bucket, or none of it and a greatest number of open calls.
fn is_limit(rates: &WrittenRates) -> bool
    ensures { result ≡ is_limit rates.now }
{
    let bucket_size = rates.bucket_size.is_some();
    let fill = rates.fill.is_some();
    if bucket_size && fill {
        return true;
    }
    !bucket_size && !fill && rates.per.is_none() && rates.max_concurrency.is_some()
}

fn rates_of(alloc: Global, value: &Value) -> Result<Option<WrittenRates>, Memory>
    ensures { IfOk result (λ o. o ≡ rates_of (view value.now)) }
{
    let Some(bucket_size) = optional(alloc, value, "bucket_size")? else {
        return Ok(None);
    };
    let Some(fill) = optional(alloc, value, "fill")? else {
        return Ok(None);
    };
    let Some(per) = optional(alloc, value, "per")? else {
        return Ok(None);
    };
    let Some(max_concurrency) = optional(alloc, value, "max_concurrency")? else {
        return Ok(None);
    };
    let rates = WrittenRates {
        bucket_size,
        fill,
        per,
        max_concurrency,
    };
    if !is_limit(&rates) {
        return Ok(None);
    }
    Ok(Some(rates))
}

impl FromToml for WrittenLimiter {
    ghost use Rattle.settings_text.specs.Entries.{limiter_of};

    ghost read_as = { limiter_of };

    fn from_toml(alloc: Global, value: &Value) -> Result<Option<WrittenLimiter>, Memory> {
        if !table_has_only(
            value,
            &[
                "name",
                "bucket_size",
                "fill",
                "per",
                "max_concurrency",
                "scope",
                "conds",
            ],
        ) {
            return Ok(None);
        }
        let Some(name) = name_at(alloc, value, "name")? else {
            return Ok(None);
        };
        let Some(rates) = rates_of(alloc, value)? else {
            return Ok(None);
        };
        let Some(scope) = names_at(alloc, value, "scope")? else {
            return Ok(None);
        };
        let Some(conds) = optional_or::<Items<Pair>>(alloc, value, "conds", Items::new(alloc))?
        else {
            return Ok(None);
        };
        Ok(Some(WrittenLimiter {
            name,
            rates,
            scope,
            conds,
        }))
    }
}

impl Listed for WrittenLimiter {
    ghost use Rattle.settings_text.specs.declared.fault.Entry.TheVariants as place;

    ghost entry_at = { place.Limiter };

    ghost name_of = { λ l. l.name };

    fn entry(number: u64) -> Entry {
        Entry::Limiter(number)
    }

    fn name(&self) -> &Text {
        &self.name
    }
}

/// The items of an array under a key, none where there is no array.
fn entries_at<'a>(document: &'a Value, key: &str) -> &'a [Value]
    ensures { items_view result.now ≡ entries_at key.now (view document.now) }
{
    match document.get(key) {
        Some(Value::Array(values)) => values.as_slice(),
        _ => &[],
    }
}

fn is_array_or_absent(document: &Value, key: &str) -> bool
    ensures { result ≡ is_array_or_absent (get key.now (view document.now)) }
{
    match document.get(key) {
        Some(value) => value.is_array(),
        None => true,
    }
}

#[tactic(auto, using(crate::proofs::EntriesSoFar::has_some_view))]
fn has_connection(document: &Value) -> bool
    ensures { result ≡ has_some (entries_at (codes "connection") (view document.now)) }
{
    !entries_at(document, "connection").is_empty()
}

/// Whether no other key than these three stands at the top, and there is a connection.
fn is_top(document: &Value) -> bool
    ensures { result ≡ is_top (view document.now) }
{
    table_has_only(document, &["options", "connection", "limiter"])
        && has_connection(document)
        && is_array_or_absent(document, "limiter")
}

fn options_in(alloc: Global, document: &Value) -> Result<WrittenOptions, SettingsFault>
    ensures { IsUnlessMemory result (options_in (view document.now)) }
{
    match optional_or(alloc, document, "options", DEFAULT_OPTIONS)? {
        Some(options) => Ok(options),
        None => Err(SettingsFault::Shape { at: Entry::Options }),
    }
}

/// The entries, or the first that has another form.
fn entries_from<T: Listed>(alloc: Global, values: &[Value]) -> Result<Items<T>, SettingsFault>
    ensures { IsUnlessMemory result (entries_from T.read_as T.entry_at 1 (items_view values.now)) }
{
    let mut entries = Items::new(alloc);
    let mut number = 0;
    for value in values {
        number += 1;
        let Some(entry) = T::from_toml(alloc, value)? else {
            return Err(SettingsFault::Shape {
                at: T::entry(number),
            });
        };
        let Ok(()) = entries.push(entry) else {
            return Err(SettingsFault::Memory);
        };
    }
    Ok(entries)
}

/// What a document says, or the first place that has another form: the top, the options, the connections, the limiters.
pub fn written_of(alloc: Global, document: &Value) -> Result<Written, SettingsFault>
    ensures { IsUnlessMemory result (written_of (view document.now)) }
{
    if !is_top(document) {
        return Err(SettingsFault::Shape { at: Entry::Top });
    }
    let options = options_in(alloc, document)?;
    let connections = entries_from::<Connection>(alloc, entries_at(document, "connection"))?;
    let limiters = entries_from::<WrittenLimiter>(alloc, entries_at(document, "limiter"))?;
    Ok(Written {
        options,
        connections,
        limiters,
    })
}
