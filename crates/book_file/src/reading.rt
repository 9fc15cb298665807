ghost use Rattle.std.specs.Prelude.{◌<◌, length, IfOk, IfSome};
ghost use Rattle.book_file.specs.Sayable.{number_limit, item_limit, AreItems};

use crate::attempt::{Attempt, add_item};
use crate::book::{Book, Entry};
use crate::declared::Declared;
use crate::fault::BookFault;
use crate::version_at::VersionAt;
use read_members::object_has_only;
use serde_json::Value;
use sp_model::{Ending, Reply};
use sp_value::{Cells, Memory};
use sp_world::{item_from, text_at};
use sqlite_items::Items;
use std::alloc::Global;

/// A reply has fewer items than this.
const ITEM_LIMIT: usize = 1_000_000;

/// Ticks and versions are below this: 2^63.
const NUMBER_LIMIT: u64 = 9_223_372_036_854_775_808;

/// A tick or a version.
fn natural(value: &Value) -> Option<u64>
    ensures { IfSome result (λ n. n < number_limit) }
{
    match value.as_u64() {
        Some(number) if number < NUMBER_LIMIT => Some(number),
        _ => None,
    }
}

/// The pair `[tick, version]`.
fn version_from(value: &Value) -> Option<VersionAt> {
    let pair = value.as_array()?;
    let [tick, number] = pair.as_slice() else {
        return None;
    };
    Some(VersionAt::of(natural(tick)?, natural(number)?))
}

fn versions_from(alloc: Global, values: &[Value]) -> Result<Items<VersionAt>, BookFault> {
    let mut versions = Items::new(alloc);
    for value in values {
        let Some(version) = version_from(value) else {
            return Err(BookFault::Version {
                entry: versions.len() + 1,
            });
        };
        let Ok(()) = versions.push(version) else {
            return Err(BookFault::Memory);
        };
    }
    Ok(versions)
}

/// Items of a reply, or `None` where one is no item or they are too many.
#[tactic(auto, using(crate::proofs::Items::items_none))]
fn items_from(alloc: Global, values: &[Value]) -> Result<Option<Cells>, Memory>
    ensures items { IfOk result (λ o. IfSome o AreItems) }
    ensures fewer { IfOk result (λ o. IfSome o (λ items. length items < item_limit)) }
{
    if values.len() >= ITEM_LIMIT {
        return Ok(None);
    }
    let mut items = Items::new(alloc);
    for value in values {
        let Some(item) = item_from(alloc, value)? else {
            return Ok(None);
        };
        add_item(&mut items, item)?;
    }
    Ok(Some(items))
}

/// `End`, or the error if there is one; `None` where the error is no text.
fn ending_from(alloc: Global, value: &Value) -> Result<Option<Ending>, Memory> {
    if value.get("error").is_none() {
        return Ok(Some(Ending::End));
    }
    match text_at(alloc, value, "error")? {
        Some(text) => Ok(Some(Ending::Error(text))),
        None => Ok(None),
    }
}

fn attempt_from(alloc: Global, value: &Value) -> Result<Option<Attempt>, Memory> {
    if !object_has_only(value, &["items", "error"]) {
        return Ok(None);
    }
    let Some(values) = value.get("items").and_then(Value::as_array) else {
        return Ok(None);
    };
    let Some(ending) = ending_from(alloc, value)? else {
        return Ok(None);
    };
    match items_from(alloc, values.as_slice())? {
        Some(items) => Ok(Some(Attempt::of(Reply { items, ending }))),
        None => Ok(None),
    }
}

/// The attempts of the entry of this number.
fn attempts_from(
    alloc: Global,
    values: &[Value],
    entry: usize,
) -> Result<Items<Attempt>, BookFault> {
    let mut attempts = Items::new(alloc);
    for value in values {
        let attempt = attempts.len() + 1;
        let read = match attempt_from(alloc, value) {
            Ok(Some(read)) => read,
            Ok(None) => return Err(BookFault::Attempt { entry, attempt }),
            Err(_) => return Err(BookFault::Memory),
        };
        let Ok(()) = attempts.push(read) else {
            return Err(BookFault::Memory);
        };
    }
    Ok(attempts)
}

/// The entry of this number.
fn entry_from(alloc: Global, value: &Value, entry: usize) -> Result<Entry, BookFault> {
    if !object_has_only(value, &["call", "attempts"]) {
        return Err(BookFault::Entry { entry });
    }
    let Some(call) = value.get("call").and_then(Value::as_object) else {
        return Err(BookFault::Entry { entry });
    };
    let Some(values) = value.get("attempts").and_then(Value::as_array) else {
        return Err(BookFault::Entry { entry });
    };
    let attempts = attempts_from(alloc, values.as_slice(), entry)?;
    match call.clone() {
        Ok(call) => Ok(Entry { call, attempts }),
        Err(_) => Err(BookFault::Memory),
    }
}

fn entries_from(alloc: Global, values: &[Value]) -> Result<Items<Entry>, BookFault> {
    let mut entries = Items::new(alloc);
    for value in values {
        let entry = entry_from(alloc, value, entries.len() + 1)?;
        let Ok(()) = entries.push(entry) else {
            return Err(BookFault::Memory);
        };
    }
    Ok(entries)
}

fn declaration_from(value: &Value) -> Result<Declared, BookFault> {
    let Some(declaration) = value.get("declaration") else {
        return Err(BookFault::Form);
    };
    let Ok(copied) = declaration.clone() else {
        return Err(BookFault::Memory);
    };
    match Declared::of(copied) {
        Some(declared) => Ok(declared),
        None => Err(BookFault::Declaration),
    }
}

/// The book that a JSON value is: `{"declaration":D,"versions":[[tick,version] ..],"replies":[entry ..]}`, where an entry is
/// `{"call":{..},"attempts":[{"items":[..],"error"?:"text"} ..]}`.
pub fn book_from(alloc: Global, value: &Value) -> Result<Book, BookFault> {
    if !object_has_only(value, &["declaration", "versions", "replies"]) {
        return Err(BookFault::Form);
    }
    let Some(versions) = value.get("versions").and_then(Value::as_array) else {
        return Err(BookFault::Form);
    };
    let Some(replies) = value.get("replies").and_then(Value::as_array) else {
        return Err(BookFault::Form);
    };
    let declaration = declaration_from(value)?;
    let versions = versions_from(alloc, versions.as_slice())?;
    let entries = entries_from(alloc, replies.as_slice())?;
    Ok(Book {
        declaration,
        versions,
        entries,
    })
}

/// The book that a text is, or why it is none.
pub fn read_book(alloc: Global, text: &str) -> Result<Book, BookFault> {
    let value = match Value::from_str(alloc, text) {
        Ok(value) => value,
        Err(error) if error.is_memory() => return Err(BookFault::Memory),
        Err(error) => {
            return Err(BookFault::Json {
                line: error.line(),
                column: error.column(),
            });
        }
    };
    book_from(alloc, &value)
}
