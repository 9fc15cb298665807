//! What the members of a case are.

use crate::fault::CaseFault;
use serde_json::{Map, Value};
use sqlite_items::Items;
use std::alloc::Global;

fn is_among(names: &[&str], name: &str) -> bool {
    for known in names {
        if name == *known {
            return true;
        }
    }
    false
}

/// The members of an object that has these alone.
pub(crate) fn members_of<'a>(
    alloc: Global,
    value: &'a Value,
    what: &'static str,
    names: &[&str],
) -> Result<&'a Map<String, Value>, CaseFault> {
    let Some(members) = value.as_object() else {
        return Err(CaseFault::Form(what));
    };
    for (name, _member) in members.iter() {
        if !is_among(names, name.as_str()) {
            return Err(CaseFault::Unknown(String::from_str(alloc, name.as_str())?));
        }
    }
    Ok(members)
}

/// Adds what `{"repeat":TEXT,"times":N}` stands for.
fn push_repeated(
    alloc: Global,
    into: &mut Vec<u8>,
    value: &Value,
    what: &'static str,
) -> Result<(), CaseFault> {
    members_of(alloc, value, what, &["repeat", "times"])?;
    let (Some(text), Some(times)) = (
        value.get("repeat").and_then(Value::as_str),
        value.get("times").and_then(Value::as_u64),
    ) else {
        return Err(CaseFault::Form(what));
    };
    for _ in 0..times {
        into.extend_from_slice(text.as_bytes())?;
    }
    Ok(())
}

/// Adds a byte for each number of `{"bytes":[N ..]}`.
fn push_bytes(
    alloc: Global,
    into: &mut Vec<u8>,
    value: &Value,
    what: &'static str,
) -> Result<(), CaseFault> {
    members_of(alloc, value, what, &["bytes"])?;
    let Some(numbers) = value.get("bytes").and_then(Value::as_array) else {
        return Err(CaseFault::Form(what));
    };
    for number in numbers {
        match number.as_u64() {
            Some(byte) if byte < 256 => into.extend_from_slice(&[byte as u8])?,
            _ => return Err(CaseFault::Form(what)),
        }
    }
    Ok(())
}

/// Adds a line, without its end: a text, a text that is repeated, bytes, or the compact text of other JSON.
fn push_line(
    alloc: Global,
    into: &mut Vec<u8>,
    value: &Value,
    what: &'static str,
) -> Result<(), CaseFault> {
    if let Some(text) = value.as_str() {
        into.extend_from_slice(text.as_bytes())?;
        return Ok(());
    }
    if value.get("repeat").is_some() {
        return push_repeated(alloc, into, value, what);
    }
    if value.get("bytes").is_some() {
        return push_bytes(alloc, into, value, what);
    }
    let text = value.to_string(alloc)?;
    into.extend_from_slice(text.as_bytes())?;
    Ok(())
}

/// The bytes of one line, without its end.
pub(crate) fn line_of(
    alloc: Global,
    value: &Value,
    what: &'static str,
) -> Result<Vec<u8>, CaseFault> {
    let mut line = Vec::new(alloc);
    push_line(alloc, &mut line, value, what)?;
    Ok(line)
}

/// The bytes that are meant: a list is lines, each with its end, and all else is one text as it stands.
pub(crate) fn bytes_of(
    alloc: Global,
    value: &Value,
    what: &'static str,
) -> Result<Vec<u8>, CaseFault> {
    let Some(lines) = value.as_array() else {
        return line_of(alloc, value, what);
    };
    let mut bytes = Vec::new(alloc);
    for line in lines {
        push_line(alloc, &mut bytes, line, what)?;
        bytes.extend_from_slice(b"\n")?;
    }
    Ok(bytes)
}

/// A list of natural numbers.
pub(crate) fn numbers_of(
    alloc: Global,
    value: &Value,
    what: &'static str,
) -> Result<Items<u64>, CaseFault> {
    let Some(values) = value.as_array() else {
        return Err(CaseFault::Form(what));
    };
    let mut numbers = Items::new(alloc);
    for value in values {
        match value.as_u64() {
            Some(number) => numbers.push(number)?,
            None => return Err(CaseFault::Form(what)),
        }
    }
    Ok(numbers)
}

/// The numbers under a name, none where there is no such member.
pub(crate) fn numbers_at(
    alloc: Global,
    members: &Map<String, Value>,
    name: &'static str,
) -> Result<Items<u64>, CaseFault> {
    match members.get(name) {
        Some(value) => numbers_of(alloc, value, name),
        None => Ok(Items::new(alloc)),
    }
}
