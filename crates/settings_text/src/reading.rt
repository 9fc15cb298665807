ghost use Rattle.std.specs.Prelude.{◌≡◌, Some, None, MatchResult, IfOk};
ghost use Rattle.toml.specs.View.{view};
ghost use Rattle.settings_text.specs.Faults.{IsUnlessMemory};
ghost use Rattle.settings_text.specs.Reading.{are_many, connections_within, within_limits, settings_of, served_settings_of, document_of, read_settings, read_all_settings, IsDocumentFault};

use crate::aggregators::with_members;
use crate::entries::written_of;
use crate::fault::{Entry, SettingsFault};
use crate::limits::{MOST_ENTRIES, limiters_within, options_within};
use crate::refusals::{Differs, IsEmpty, IsLong, duplicate, first_connection, first_limiter};
use crate::written::Written;
use sp_model::{Connection, Settings};
use sqlite_items::Items;
use std::alloc::Global;
use toml::Value;

/// The settings that a file's bytes are, with defaults put in and each aggregator with the names of its
/// members in the order of the settings. A refusal is the first of `Toml`, `Shape`, `NotYet`, `Duplicate`,
/// `EmptyAggregator`, `MembersDiffer` and `Limit` that there is, at its first entry in the order top,
/// options, connections, limiters.
pub fn read_settings(alloc: Global, bytes: &[u8]) -> Result<Settings, SettingsFault>
    ensures { IsUnlessMemory result (read_settings bytes.now) }
{
    let document = document_of(alloc, bytes)?;
    let written = written_of(alloc, &document)?;
    let settings = served_settings_of(alloc, &written)?;
    Ok(settings)
}

/// The settings that a file's bytes are, also those with limiters, which nothing serves yet:
/// `read_settings` without its refusal `NotYet`.
pub fn read_all_settings(alloc: Global, bytes: &[u8]) -> Result<Settings, SettingsFault>
    ensures { IsUnlessMemory result (read_all_settings bytes.now) }
{
    let document = document_of(alloc, bytes)?;
    let written = written_of(alloc, &document)?;
    let settings = settings_of(alloc, &written)?;
    Ok(settings)
}

fn document_of(alloc: Global, bytes: &[u8]) -> Result<Value, SettingsFault>
    ensures { MatchResult result (λ v. document_of bytes.now ≡ Some (view v)) (λ f. IsDocumentFault f bytes.now) }
{
    let Ok(text) = str::from_utf8(bytes) else {
        return Err(SettingsFault::Toml);
    };
    match toml::table_from_str(alloc, text) {
        Ok(table) => Ok(Value::Table(table)),
        Err(error) => if error.is_memory() {
            Err(SettingsFault::Memory)
        } else {
            Err(SettingsFault::Toml)
        },
    }
}

/// The settings, unless there is a limiter, which can be read but not yet served.
fn served_settings_of(alloc: Global, written: &Written) -> Result<Settings, SettingsFault>
    ensures { IsUnlessMemory result (served_settings_of written.now) }
{
    if let Some(at) = first_limiter(written.limiters.as_slice()) {
        return Err(SettingsFault::NotYet { at });
    }
    let settings = settings_of(alloc, written)?;
    Ok(settings)
}

/// The settings, or the first kind of refusal that there is, at its first place.
fn settings_of(alloc: Global, written: &Written) -> Result<Settings, SettingsFault>
    ensures { IsUnlessMemory result (settings_of written.now) }
{
    if let Some(at) = duplicate(alloc, written)? {
        return Err(SettingsFault::Duplicate { at });
    }
    let all = written.connections.as_slice();
    if let Some(at) = first_connection(alloc, &IsEmpty { all }, all)? {
        return Err(SettingsFault::EmptyAggregator { at });
    }
    if let Some(at) = first_connection(alloc, &Differs { all }, all)? {
        return Err(SettingsFault::MembersDiffer { at });
    }
    let settings = within_limits(alloc, written)?;
    Ok(settings)
}

/// Whether there are too many connections or limiters.
fn are_many(written: &Written) -> bool
    ensures { result ≡ are_many written.now }
{
    written.connections.len() > MOST_ENTRIES || written.limiters.len() > MOST_ENTRIES
}

fn connections_within(alloc: Global, written: &Written) -> Result<Items<Connection>, SettingsFault>
    ensures { IsUnlessMemory result (connections_within written.now) }
{
    let all = written.connections.as_slice();
    if let Some(at) = first_connection(alloc, &IsLong, all)? {
        return Err(SettingsFault::Limit { at });
    }
    let connections = with_members(alloc, all)?;
    Ok(connections)
}

/// The settings, or the first place where a number or a list is beyond its limits.
fn within_limits(alloc: Global, written: &Written) -> Result<Settings, SettingsFault>
    ensures { IsUnlessMemory result (within_limits written.now) }
{
    if are_many(written) {
        return Err(SettingsFault::Limit { at: Entry::Top });
    }
    let Some(options) = options_within(written.options) else {
        return Err(SettingsFault::Limit { at: Entry::Options });
    };
    let connections = connections_within(alloc, written)?;
    let limiters = limiters_within(alloc, written.limiters.as_slice())?;
    Ok(Settings {
        options,
        connections,
        limiters,
    })
}
