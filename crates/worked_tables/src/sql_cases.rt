//! What comes of the calls of `sql_parser`.

use case_tables::{str_at, word};
use sp_value::Text;
use sql_parser::{SqlFault, Statement, parse, print};
use std::alloc::Global;

pub fn outcome(alloc: Global, call: &str, given: &[Vec<u8>]) -> Option<String> {
    match call {
        "parse" => parsed(alloc, given),
        "print" => printed_twice(alloc, given),
        _ => None,
    }
}

/// The statement whose text stands at a place.
pub fn statement_at(alloc: Global, given: &[Vec<u8>], place: usize) -> Option<Statement> {
    parse(alloc, str_at(given, place)?).ok()
}

fn printed(alloc: Global, text: &str) -> Result<Text, SqlFault> {
    let statement = parse(alloc, text)?;
    let text = print(alloc, &statement)?;
    Ok(text)
}

/// A text: whether it is a statement.
fn parsed(alloc: Global, given: &[Vec<u8>]) -> Option<String> {
    match parse(alloc, str_at(given, 0)?) {
        Ok(_) => word(alloc, "read"),
        Err(fault) => format!(in alloc; "{fault}").ok(),
    }
}

/// A text: its statement as it is printed, with a line for what comes of printing that again where it differs.
fn printed_twice(alloc: Global, given: &[Vec<u8>]) -> Option<String> {
    let once = printed(alloc, str_at(given, 0)?).ok()?;
    let twice = printed(alloc, once.as_str()).ok()?;
    if once == twice {
        Some(once.into_string())
    } else {
        format!(in alloc; "{}\n{}", once.as_str(), twice.as_str()).ok()
    }
}
