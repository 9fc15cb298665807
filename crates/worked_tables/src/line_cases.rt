//! What comes of the calls of `sp_world`.

use crate::words::spelled;
use case_tables::{bytes_at, str_at};
use sp_model::{Access, Asked, Call, CallKey, Mark, ScanNote, ScanRequest, Version};
use sp_value::{Rows, Text};
use sp_world::{
    Kept, KeptScan, Line, LineFault, LineParts, Request, Told, Untold, line_parts, read_line,
    read_request, reply_line, request_line,
};
use sqlite_items::Items;
use std::alloc::Global;
use std::sync::Arc;

pub fn outcome(alloc: Global, call: &str, given: &[Vec<u8>]) -> Option<String> {
    match call {
        "Kept" => kept(alloc),
        "Told" => told(alloc, given),
        "asked" => asked(alloc, given),
        "answered" => answered(alloc, given),
        "line_parts" => filled(alloc, given),
        "read_line" => line(alloc, given),
        "read_request" => request(alloc, given),
        _ => None,
    }
}

fn fault_words(alloc: Global, fault: LineFault) -> Option<String> {
    format!(in alloc; "{fault:?}").ok()
}

fn text_of(bytes: Vec<u8>) -> Option<String> {
    String::from_utf8(bytes).ok()
}

fn request_text(alloc: Global, request: &Request) -> Option<String> {
    text_of(request_line(alloc, request).ok()?)
}

/// A request line, read and written again.
fn request(alloc: Global, given: &[Vec<u8>]) -> Option<String> {
    match read_request(alloc, bytes_at(given, 0)?) {
        Ok(request) => request_text(alloc, &request),
        Err(fault) => fault_words(alloc, fault),
    }
}

/// What is asked by a request line, and its number and function.
fn asked_at(alloc: Global, given: &[Vec<u8>]) -> Option<(u64, Asked, Option<Text>)> {
    let Request::Ask {
        id,
        asked,
        function,
    } = read_request(alloc, bytes_at(given, 0)?).ok()?;
    Some((id, asked, function))
}

fn parts_at(alloc: Global, given: &[Vec<u8>]) -> Option<LineParts> {
    let (_, asked, function) = asked_at(alloc, given)?;
    line_parts(alloc, &asked, &function).ok()
}

/// A request line, a number: the same request under that number.
fn filled(alloc: Global, given: &[Vec<u8>]) -> Option<String> {
    let number = str_at(given, 1)?.parse::<u64>().ok()?;
    text_of(parts_at(alloc, given)?.fill(number))
}

fn line_text(alloc: Global, line: &Line) -> Option<String> {
    text_of(reply_line(alloc, line).ok()?)
}

/// A reply line, read and written again.
fn line(alloc: Global, given: &[Vec<u8>]) -> Option<String> {
    match read_line(alloc, bytes_at(given, 0)?) {
        Ok(line) => line_text(alloc, &line),
        Err(fault) => fault_words(alloc, fault),
    }
}

fn call_word(key: &CallKey) -> &'static str {
    match &key.call {
        Call::List { .. } => "list",
        Call::Parents { .. } => "parents",
        Call::Get { .. } => "get",
        Call::Hydrate { .. } => "hydrate",
    }
}

fn asked_words(alloc: Global, id: u64, asked: &Asked) -> Option<String> {
    match asked {
        Asked::Call(key) => format!(in alloc; "{} {id}", call_word(key)).ok(),
        Asked::Version { tick, .. } => format!(in alloc; "version {id} at {tick}").ok(),
        Asked::Declare { .. } => format!(in alloc; "declare {id}").ok(),
    }
}

/// A request line: its kind, its number and a version's tick.
fn asked(alloc: Global, given: &[Vec<u8>]) -> Option<String> {
    let (id, asked, _) = asked_at(alloc, given)?;
    asked_words(alloc, id, &asked)
}

/// A reply line: its kind, its number and its value.
fn answered(alloc: Global, given: &[Vec<u8>]) -> Option<String> {
    match read_line(alloc, bytes_at(given, 0)?).ok()? {
        Line::Item { id, item } => format!(in alloc; "item {id} {}", spelled(alloc, &item)?).ok(),
        Line::End { id } => format!(in alloc; "end {id}").ok(),
        Line::Error { id, text } => format!(in alloc; "error {id} {}", text.as_str()).ok(),
        Line::Version { id, version } => format!(in alloc; "version {id} {version}").ok(),
        Line::Declaration { id, value } => format!(in alloc; "declaration {id} {value}").ok(),
    }
}

/// A request line for a version: what was told and the tick at which it was asked.
fn told(alloc: Global, given: &[Vec<u8>]) -> Option<String> {
    let (_, asked, _) = asked_at(alloc, given)?;
    let asked = Arc::new(alloc, asked).ok()?;
    let told: Told<Untold, Version> = Told::of(asked, Version::Is(7));
    let (version, tick) = told_words(&told)?;
    let again = version_of(&told.into_value())?;
    format!(in alloc; "{version} at {tick}, {again}").ok()
}

fn version_of(version: &Version) -> Option<u64> {
    match version {
        Version::Is(version) => Some(*version),
        _ => None,
    }
}

fn told_words(told: &Told<Untold, Version>) -> Option<(u64, u64)> {
    match told.asked() {
        Asked::Version { tick, .. } => Some((version_of(told.get())?, *tick)),
        _ => None,
    }
}

fn scan_request(alloc: Global) -> Option<ScanRequest> {
    Some(ScanRequest {
        connection: Text::from_str(alloc, "c").ok()?,
        table: Text::from_str(alloc, "item").ok()?,
        access: Access::List,
        conditions: Items::new(alloc),
        columns: Items::new(alloc),
        subset: Items::new(alloc),
        limit: None,
    })
}

/// A scan that was kept: the tick of its version, how many rows it has, and whether it came to its ending.
fn kept(alloc: Global) -> Option<String> {
    let note = ScanNote {
        request: scan_request(alloc)?,
        asked: 3,
        at: 3,
        version: Version::Is(7),
        mark: Mark::Fresh,
    };
    let scan = KeptScan {
        note,
        rows: Rows::new(alloc),
        complete: true,
    };
    let kept: Kept<Untold> = Kept::of(scan);
    let (asked, count) = (kept.note().asked, kept.rows().len());
    format!(in alloc; "{asked} {count} {}", kept.complete()).ok()
}
