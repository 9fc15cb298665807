// Files that are refused, in words.

ghost use Rattle.std.specs.Prelude.{◌≡◌, IfOk, string_bytes};
ghost use Rattle.steampipe_top.specs.Reading.{entry_words, at_entry, settings_words, at_table, IsRefusal, IsSettingsRefusal, IsDeclarationRefusal};
ghost use Rattle.steampipe_top.specs.Shown.{declaration_fault};

use crate::reading::FileEnd;
use crate::shown::declaration_fault;
use answer_text::{DeclarationFault, declaration_words};
use decl_words::DeclFault;
use settings_text::{Entry, SettingsFault};
use std::alloc::{AllocError, Global};

fn entry_words(alloc: Global, entry: Entry) -> Result<String, AllocError>
    ensures { IfOk result (λ s. string_bytes s ≡ entry_words entry) }
{
    match entry {
        Entry::Top => String::from_str(alloc, "top"),
        Entry::Options => String::from_str(alloc, "options"),
        Entry::Connection(number) => format!(in alloc; "connection {number}"),
        Entry::Limiter(number) => format!(in alloc; "limiter {number}"),
    }
}

fn at_entry(alloc: Global, words: &str, entry: Entry) -> Result<String, AllocError>
    ensures { IfOk result (λ s. string_bytes s ≡ at_entry words.now entry) }
{
    let place = entry_words(alloc, entry)?;
    format!(in alloc; "{words} in {}", place.as_str())
}

fn settings_words(alloc: Global, fault: SettingsFault) -> Result<String, AllocError>
    ensures { IfOk result (λ s. string_bytes s ≡ settings_words fault) }
{
    match fault {
        SettingsFault::Toml => String::from_str(alloc, "toml"),
        SettingsFault::Shape { at } => at_entry(alloc, "shape", at),
        SettingsFault::NotYet { at } => at_entry(alloc, "not yet", at),
        SettingsFault::Duplicate { at } => at_entry(alloc, "duplicate", at),
        SettingsFault::EmptyAggregator { at } => at_entry(alloc, "empty aggregator", at),
        SettingsFault::MembersDiffer { at } => at_entry(alloc, "members differ", at),
        SettingsFault::Limit { at } => at_entry(alloc, "limit", at),
        SettingsFault::Memory => String::from_str(alloc, "memory"),
    }
}

fn at_table(alloc: Global, fault: &DeclarationFault, table: u64) -> Result<String, AllocError>
    ensures { IfOk result (λ s. string_bytes s ≡ at_table fault.now table) }
{
    let words = declaration_words(alloc, fault)?;
    format!(in alloc; "{} in table {table}", words.as_str())
}

/// The end for a file that is refused in these words. `what` it should be.
pub(crate) fn refused(alloc: Global, what: &str, words: &str) -> FileEnd
    ensures { IsRefusal what.now words.now result }
{
    match format!(in alloc; "error: {what}: {words}\n") {
        Ok(line) => FileEnd::Refused(line.into_bytes()),
        Err(_) => FileEnd::Memory,
    }
}

/// The end for settings that are refused.
pub(crate) fn refused_settings(alloc: Global, fault: SettingsFault) -> FileEnd
    ensures { IsSettingsRefusal fault result }
{
    match (fault, settings_words(alloc, fault)) {
        (SettingsFault::Memory, _) | (_, Err(_)) => FileEnd::Memory,
        (_, Ok(words)) => refused(alloc, "settings", words.as_str()),
    }
}

/// The end for a declaration that is refused.
pub(crate) fn refused_declaration(alloc: Global, fault: DeclFault) -> FileEnd
    ensures { IsDeclarationRefusal (declaration_fault fault) result }
{
    let Some((fault, table)) = declaration_fault(fault) else {
        return FileEnd::Memory;
    };
    match at_table(alloc, &fault, table) {
        Ok(words) => refused(alloc, "declaration", words.as_str()),
        Err(_) => FileEnd::Memory,
    }
}
