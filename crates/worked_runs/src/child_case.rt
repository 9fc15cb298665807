//! A connection's child in a case.

use crate::fault::CaseFault;
use crate::form::{line_of, members_of, numbers_at};
use crate::given::{Given, Names};
use book_file::{Book, book_from};
use serde_json::{Map, Value, json};
use sp_outside::ChildScript;
use sp_value::{Memory, Text, TryCopy};
use sqlite_items::Items;
use std::alloc::{AllocError, Global};

const MEMBERS: [&str; 6] = [
    "lines",
    "declaration",
    "versions",
    "replies",
    "picks",
    "fails",
];

/// What a child gives: these lines in their order, whatever it hears, or what a book answers.
#[derive(Drop)]
pub(crate) enum Voice {
    Lines(Vec<Vec<u8>>),
    Book(Book),
}

/// What a connection's child gives; and its script: which of the open calls answers next, and which of its calls of `start`, `send` and
/// `receive` together fail.
#[derive(Drop)]
pub(crate) struct ChildCase {
    pub(crate) voice: Voice,
    pub(crate) script: ChildScript,
}

fn lines_from(alloc: Global, value: &Value) -> Result<Vec<Vec<u8>>, CaseFault> {
    let Some(values) = value.as_array() else {
        return Err(CaseFault::Form("lines"));
    };
    let mut lines = Vec::new(alloc);
    for value in values {
        let line = line_of(alloc, value, "lines")?;
        let Ok(()) = lines.push(line) else {
            return Err(CaseFault::Memory);
        };
    }
    Ok(lines)
}

fn book_json(
    alloc: Global,
    declaration: &Value,
    versions: &Value,
    replies: &Value,
) -> Result<Value, AllocError> {
    json!(in alloc; {"declaration": declaration, "replies": replies, "versions": versions})
}

/// The member of this name, or what is meant where there is none.
fn member_or(members: &Map<String, Value>, name: &str, usual: &Value) -> Result<Value, AllocError> {
    match members.get(name) {
        Some(value) => value.clone(),
        None => usual.clone(),
    }
}

/// The book of a declaration, or of the name of one. It has version 7 and no replies where it doesn't say.
pub(crate) fn book_of(
    alloc: Global,
    names: Names,
    members: &Map<String, Value>,
) -> Result<Book, CaseFault> {
    let Some(declaration) = members.get("declaration") else {
        return Err(CaseFault::Form("declaration"));
    };
    let declaration = names.named(alloc, "declarations", declaration)?;
    let versions = member_or(members, "versions", &json!(in alloc; [[0, 7]])?)?;
    let replies = member_or(members, "replies", &json!(in alloc; [])?)?;
    let value = book_json(alloc, declaration, &versions, &replies)?;
    Ok(book_from(alloc, &value)?)
}

fn voice_of(alloc: Global, names: Names, members: &Map<String, Value>) -> Result<Voice, CaseFault> {
    match members.get("lines") {
        Some(lines) => Ok(Voice::Lines(lines_from(alloc, lines)?)),
        None => Ok(Voice::Book(book_of(alloc, names, members)?)),
    }
}

/// The members of a child, or of the child of that name.
pub(crate) fn child_members<'a>(
    alloc: Global,
    names: Names<'a>,
    value: &'a Value,
) -> Result<&'a Map<String, Value>, CaseFault> {
    let named = names.named(alloc, "children", value)?;
    members_of(alloc, named, "children", &MEMBERS)
}

fn script_from(
    alloc: Global,
    connection: &str,
    members: &Map<String, Value>,
) -> Result<ChildScript, CaseFault> {
    Ok(ChildScript {
        connection: Text::from_str(alloc, connection)?,
        picks: numbers_at(alloc, members, "picks")?,
        fails: numbers_at(alloc, members, "fails")?,
    })
}

fn child_from(
    alloc: Global,
    names: Names,
    connection: &str,
    value: &Value,
) -> Result<ChildCase, CaseFault> {
    let members = child_members(alloc, names, value)?;
    let voice = voice_of(alloc, names, members)?;
    let script = script_from(alloc, connection, members)?;
    Ok(ChildCase { voice, script })
}

/// The children of a case. A connection of which it says nothing has a child that gives no line.
pub(crate) fn children_of(alloc: Global, given: Given) -> Result<Vec<ChildCase>, CaseFault> {
    let mut children = Vec::new(alloc);
    let Some(value) = given.get("children") else {
        return Ok(children);
    };
    let Some(members) = value.as_object() else {
        return Err(CaseFault::Form("children"));
    };
    for (connection, value) in members.iter() {
        let child = child_from(alloc, given.names, connection.as_str(), value)?;
        let Ok(()) = children.push(child) else {
            return Err(CaseFault::Memory);
        };
    }
    Ok(children)
}

/// The scripts of children.
pub(crate) fn scripts_of(
    alloc: Global,
    children: &[ChildCase],
) -> Result<Items<ChildScript>, Memory> {
    let mut scripts = Items::new(alloc);
    for child in children {
        let script = child.script.copy(alloc)?;
        let Ok(()) = scripts.push(script) else {
            return Err(Memory);
        };
    }
    Ok(scripts)
}
