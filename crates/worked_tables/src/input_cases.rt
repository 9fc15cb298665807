//! What comes of the calls of `input_lines`.

use case_tables::{bytes_at, listed, word};
use input_lines::{Line, read_lines};
use std::alloc::Global;

pub fn outcome(alloc: Global, call: &str, given: &[Vec<u8>]) -> Option<String> {
    match call {
        "read_lines" => lines(alloc, given),
        _ => None,
    }
}

/// The session and the text of a statement, the session and `cache`, or `bad form`.
fn line_words(alloc: Global, line: &Line) -> Option<String> {
    match line {
        Line::Statement { session, text } => format!(in alloc; "{session}:{}", text.as_str()).ok(),
        Line::ClearCache { session } => format!(in alloc; "{session} cache").ok(),
        Line::BadForm => word(alloc, "bad form"),
    }
}

/// An input: its lines.
fn lines(alloc: Global, given: &[Vec<u8>]) -> Option<String> {
    match read_lines(alloc, bytes_at(given, 0)?) {
        Ok(lines) => listed(alloc, lines.as_slice(), "|", line_words),
        Err(fault) => format!(in alloc; "{fault:?}").ok(),
    }
}
