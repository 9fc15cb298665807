//! A world that answers from a text.

ghost use Rattle.std.specs.Prelude.{◌≡◌, IfOk, None, codes, option_map};
ghost use Rattle.serde_json.specs.Data.{Data};
ghost use Rattle.serde_json.specs.Find.{get};
ghost use Rattle.serde_json.specs.View.{view, items_view};
ghost use Rattle.sp_world.specs.LineJson.{text_at};
ghost use Rattle.worked_runs.specs.TextWorld.{text_data, list_at, items_in, few, ending_of, reply_of, is_spelled, entry_in, or_no_reply, or_no_declaration, call_text};

use serde_json::{Value, json};
use sp_model::{Asked, CallKey, Ending, Reply, Version};
use sp_value::{Cells, Memory, Text, TryCopy, has_odd_number};
use sp_world::{
    LineFault, Request, World, is_shallow_object, item_from, read_json, request_line, spell,
    text_at,
};
use sqlite_items::Items;
use std::alloc::Global;
use std::marker::PhantomData;

/// A text of JSON that says what a world answers:
/// `{"declaration":D,"replies":[{"call":REQUEST,"items":[..],"error"?:"text"} ..]}`, where a request has the number 0 and no function.
pub(crate) trait BookText {
    ghost use Rattle.std.specs.Prelude.{List, ℕ};

    ghost text: { List ℕ };

    fn text() -> &'static str
        ensures { result.now ≡ text };
}

/// The world of a text. It tells.
pub(crate) struct TextWorld<T> {
    of: PhantomData<T>,
}

/// The JSON of a text, null where it is none.
fn text_json(alloc: Global, text: &str) -> Result<Value, Memory>
    ensures { IfOk result (λ v. view v ≡ text_data text.now) }
{
    match read_json(alloc, text.as_bytes()) {
        Ok(value) => Ok(value),
        Err(LineFault::Memory) => Err(Memory),
        Err(_) => Ok(Value::Null),
    }
}

/// The request of a call.
fn call_line(alloc: Global, key: &CallKey) -> Result<Vec<u8>, Memory>
    ensures { IfOk result (λ line. line.items ≡ call_text key.now) }
{
    let request = Request::Ask {
        id: 0,
        asked: Asked::Call(key.copy(alloc)?),
        function: None,
    };
    request_line(alloc, &request)
}

/// Whether a call is spelled so.
#[tactic(auto, using(sp_value::proofs::JsonLaws::no_float))]
fn is_spelled(alloc: Global, call: &Value, text: &[u8]) -> Result<bool, Memory>
    ensures { IfOk result (λ b. b ≡ is_spelled text.now (Some (view call.now))) }
{
    if has_odd_number(call) {
        return Ok(false);
    }
    let spelled = spell(alloc, call)?;
    Ok(spelled.as_slice() == text)
}

fn is_entry(alloc: Global, entry: &Value, text: &[u8]) -> Result<bool, Memory>
    ensures { IfOk result (λ b. b ≡ is_spelled text.now (get (codes "call") (view entry.now))) }
{
    match entry.get("call") {
        Some(call) => is_spelled(alloc, call, text),
        None => Ok(false),
    }
}

/// The first entry whose call is spelled so.
fn entry_in<'a>(
    alloc: Global,
    entries: &'a Vec<Value>,
    text: &[u8],
) -> Result<Option<&'a Value>, Memory>
    ensures { IfOk result (λ o. option_map (λ v. view v.now) o ≡ entry_in text.now (items_view entries.now.items)) }
{
    for entry in entries {
        if is_entry(alloc, entry, text)? {
            return Ok(Some(entry));
        }
    }
    Ok(None)
}

/// The items of a list; what is no item is left out.
fn items_in(alloc: Global, values: &Vec<Value>) -> Result<Cells, Memory>
    ensures { IfOk result (λ items. items ≡ items_in (items_view values.now.items)) }
{
    let mut items = Items::new(alloc);
    for value in values {
        if let Some(item) = item_from(alloc, value)? {
            let Ok(()) = items.push(item) else {
                return Err(Memory);
            };
        }
    }
    Ok(items)
}

/// The items under `items`, none where they are too many.
fn entry_items(alloc: Global, entry: &Value) -> Result<Cells, Memory>
    ensures { IfOk result (λ items. items ≡ few (items_in (list_at (codes "items") (view entry.now)))) }
{
    match entry.get("items").and_then(Value::as_array) {
        Some(values) => {
            let items = items_in(alloc, values)?;
            if items.len() < 1_000_000 {
                Ok(items)
            } else {
                Ok(Items::new(alloc))
            }
        }
        None => Ok(Items::new(alloc)),
    }
}

fn entry_ending(alloc: Global, entry: &Value) -> Result<Ending, Memory>
    ensures { IfOk result (λ ending. ending ≡ ending_of (text_at (codes "error") (view entry.now))) }
{
    match text_at(alloc, entry, "error")? {
        Some(text) => Ok(Ending::Error(text)),
        None => Ok(Ending::End),
    }
}

fn entry_reply(alloc: Global, entry: &Value) -> Result<Reply, Memory>
    ensures { IfOk result (λ reply. reply ≡ reply_of (view entry.now)) }
{
    let items = entry_items(alloc, entry)?;
    let ending = entry_ending(alloc, entry)?;
    Ok(Reply { items, ending })
}

fn no_reply(alloc: Global) -> Result<Reply, Memory>
    ensures { IfOk result (λ reply. reply ≡ or_no_reply None) }
{
    let text = Text::from_str(alloc, "no reply")?;
    Ok(Reply {
        items: Items::new(alloc),
        ending: Ending::Error(text),
    })
}

fn reply_among(alloc: Global, entries: &Vec<Value>, text: &[u8]) -> Result<Reply, Memory>
    ensures { IfOk result (λ reply. reply ≡ or_no_reply (entry_in text.now (items_view entries.now.items))) }
{
    match entry_in(alloc, entries, text)? {
        Some(entry) => entry_reply(alloc, entry),
        None => no_reply(alloc),
    }
}

/// The reply to the call that is spelled so.
fn reply_in(alloc: Global, book: &Value, text: &[u8]) -> Result<Reply, Memory>
    ensures { IfOk result (λ reply. reply ≡ or_no_reply (entry_in text.now (list_at (codes "replies") (view book.now)))) }
{
    match book.get("replies").and_then(Value::as_array) {
        Some(entries) => reply_among(alloc, entries, text),
        None => no_reply(alloc),
    }
}

fn no_declaration(alloc: Global) -> Result<Value, Memory>
    ensures { IfOk result (λ v. view v ≡ or_no_declaration None) }
{
    match json!(in alloc; {}) {
        Ok(value) => Ok(value),
        Err(_) => Err(Memory),
    }
}

fn copied(value: &Value) -> Result<Value, Memory>
    ensures { IfOk result (λ v. view v ≡ view value.now) }
{
    match value.clone() {
        Ok(value) => Ok(value),
        Err(_) => Err(Memory),
    }
}

fn declaration_in(alloc: Global, book: &Value) -> Result<Value, Memory>
    ensures { IfOk result (λ v. view v ≡ or_no_declaration (get (codes "declaration") (view book.now))) }
{
    match book.get("declaration") {
        Some(value) => if is_shallow_object(value) && !has_odd_number(value) {
            copied(value)
        } else {
            no_declaration(alloc)
        },
        None => no_declaration(alloc),
    }
}

impl<T: BookText> World for TextWorld<T> {
    ghost use Rattle.std.specs.Prelude.{true};
    ghost use Rattle.worked_runs.specs.TextWorld.{text_book};

    ghost tells = { true };

    ghost book = { text_book T.text };

    fn answer(alloc: Global, key: &CallKey) -> Result<Reply, Memory> {
        let book = text_json(alloc, T::text())?;
        let line = call_line(alloc, key)?;
        reply_in(alloc, &book, &line)
    }

    fn answer_version(_alloc: Global, _connection: &Text, _tick: u64) -> Result<Version, Memory> {
        Ok(Version::Is(7))
    }

    fn answer_declaration(alloc: Global, _connection: &Text) -> Result<Value, Memory> {
        let book = text_json(alloc, T::text())?;
        declaration_in(alloc, &book)
    }
}
