//! What comes of the calls of `settings_text`.

use crate::words::{joined, pairs};
use case_tables::{bytes_at, push_word, word};
use settings_text::{SettingsFault, read_all_settings, read_settings};
use sp_model::{Connection, Limiter, Options, Settings};
use sp_value::Texts;
use std::alloc::Global;

pub fn outcome(alloc: Global, call: &str, given: &[Vec<u8>]) -> Option<String> {
    let bytes = bytes_at(given, 0)?;
    match call {
        "read_all_settings" => answer(alloc, read_all_settings(alloc, bytes)),
        "read_settings" => answer(alloc, read_settings(alloc, bytes)),
        "refusal" => refusal(alloc, bytes),
        _ => None,
    }
}

fn fault_words(alloc: Global, fault: SettingsFault) -> Option<String> {
    format!(in alloc; "{fault}").ok()
}

/// A file, with aggregators and limiters: whether it is refused.
fn refusal(alloc: Global, bytes: &[u8]) -> Option<String> {
    match read_all_settings(alloc, bytes) {
        Ok(_) => word(alloc, "read"),
        Err(fault) => fault_words(alloc, fault),
    }
}

/// The settings or the refusal.
fn answer(alloc: Global, read: Result<Settings, SettingsFault>) -> Option<String> {
    match read {
        Ok(settings) => settings_words(alloc, &settings),
        Err(fault) => fault_words(alloc, fault),
    }
}

fn options_words(alloc: Global, options: Options) -> Option<String> {
    let Options {
        cache,
        cache_ttl,
        cache_max,
        window,
        restarts,
    } = options;
    format!(in alloc; "{cache} {cache_ttl} {cache_max} {window} {restarts}").ok()
}

fn list_words(alloc: Global, texts: &Texts) -> Option<String> {
    let texts = joined(alloc, texts.as_slice(), ",")?;
    format!(in alloc; "[{texts}]").ok()
}

fn connection_words(alloc: Global, connection: &Connection) -> Option<String> {
    let command = list_words(alloc, &connection.command)?;
    let patterns = list_words(alloc, &connection.connections)?;
    let members = list_words(alloc, &connection.members)?;
    let (name, plugin) = (connection.name.as_str(), connection.plugin.as_str());
    if connection.aggregator {
        format!(in alloc; "{name} of {plugin} {command} {patterns} {members}").ok()
    } else {
        format!(in alloc; "{name} of {plugin} {command}").ok()
    }
}

fn number(alloc: Global, number: Option<u32>) -> Option<String> {
    match number {
        Some(number) => format!(in alloc; "{number}").ok(),
        None => word(alloc, "-"),
    }
}

fn limiter_words(alloc: Global, limiter: &Limiter) -> Option<String> {
    let bucket_size = number(alloc, limiter.bucket_size)?;
    let fill = number(alloc, limiter.fill)?;
    let per = limiter.per;
    let most = number(alloc, limiter.max_concurrency)?;
    let scope = list_words(alloc, &limiter.scope)?;
    let conds = pairs(alloc, limiter.conds.as_slice())?;
    let name = limiter.name.as_str();
    format!(in alloc; "{name} {bucket_size} {fill} {per} {most} {scope} [{conds}]").ok()
}

/// The options, then each connection and each limiter.
fn settings_words(alloc: Global, settings: &Settings) -> Option<String> {
    let mut words = options_words(alloc, settings.options)?;
    for connection in settings.connections.as_slice() {
        push_word(
            &mut words,
            " | ",
            connection_words(alloc, connection)?.as_str(),
        )?;
    }
    for limiter in settings.limiters.as_slice() {
        push_word(&mut words, " | ", limiter_words(alloc, limiter)?.as_str())?;
    }
    Some(words)
}
