//! The world, and what it answers.

ghost use Rattle.std.specs.Prelude.{◌≡◌, [], ◌∷◌, IfOk};
ghost use Rattle.serde_json.specs.View.{view};
ghost use Rattle.load_gen.specs.Asked.{id_of, size_of};
ghost use Rattle.load_gen.specs.Rows.{score};
ghost use Rattle.load_gen.specs.Generated.{gives, throttled, owner_reply, function_reply, row_reply, list_reply, call_reply, declaration};

use crate::asked::{id_of, size_of};
use crate::rows::{is_throttled, items, one_value, owner, score};
use serde_json::Value;
use sp_model::{Call, CallKey, Conditions, Ending, Reply, Version};
use sp_value::{Cell, Cells, Memory, Text};
use sp_world::World;
use std::alloc::Global;

/// A world of rows that are made of their numbers. It tells. A list of its table gives as many rows as the size that it is asked for, the
/// function `getOwner` an owner of each, but for some at the first attempt, and `getScore` a score.
pub struct Generated;

/// What it declares.
const DECLARATION: &str = r#"{"tables":[{"name":"row",
"columns":[
{"name":"id","kind":"int"},
{"name":"size","kind":"int"},
{"name":"owner","kind":"text","function":"getOwner"},
{"name":"score","kind":"int","function":"getScore"}],
"list":{"function":"listRows","keys":[{"column":"size","operators":["="],"require":"required","match":"exact"}]},
"functions":[
{"name":"getOwner","retry":{"patterns":["Throttled"],"attempts":2,"backoff":"constant","interval":5}},
{"name":"getScore","depends":["getOwner"]}]}]}"#;

fn gives(items: Cells) -> Reply
    ensures { result ≡ gives items }
{
    Reply {
        items,
        ending: Ending::End,
    }
}

fn throttled(alloc: Global) -> Result<Reply, Memory>
    ensures { IfOk result (λ reply. reply ≡ throttled) }
{
    let text = Text::from_str(alloc, "Throttled")?;
    Ok(Reply {
        items: Cells::new(alloc),
        ending: Ending::Error(text),
    })
}

fn owner_reply(alloc: Global, id: u64, attempt: u32) -> Result<Reply, Memory>
    ensures { IfOk result (λ reply. reply ≡ owner_reply id attempt) }
{
    if is_throttled(id, attempt) {
        return throttled(alloc);
    }
    let owner = owner(alloc, id)?;
    Ok(gives(one_value(alloc, owner)?))
}

fn score_items(alloc: Global, id: u64) -> Result<Cells, Memory>
    ensures { IfOk result (λ cells. cells ≡ score id ∷ []) }
{
    let score = score(alloc, id)?;
    one_value(alloc, score)
}

fn function_reply(alloc: Global, function: &Text, attempt: u32, id: u64) -> Result<Reply, Memory>
    ensures { IfOk result (λ reply. reply ≡ function_reply function.now attempt id) }
{
    match function.as_str() {
        "getOwner" => owner_reply(alloc, id, attempt),
        "getScore" => Ok(gives(score_items(alloc, id)?)),
        _ => Ok(gives(Cells::new(alloc))),
    }
}

fn row_reply(alloc: Global, function: &Text, attempt: u32, item: &Cell) -> Result<Reply, Memory>
    ensures { IfOk result (λ reply. reply ≡ row_reply function.now attempt (id_of item.now)) }
{
    match id_of(item) {
        Some(id) => function_reply(alloc, function, attempt, id),
        None => Ok(gives(Cells::new(alloc))),
    }
}

fn list_reply(alloc: Global, conditions: &Conditions) -> Result<Reply, Memory>
    ensures { IfOk result (λ reply. reply ≡ list_reply (size_of conditions.now)) }
{
    match size_of(conditions.as_slice()) {
        Some(size) => Ok(gives(items(alloc, size)?)),
        None => Ok(gives(Cells::new(alloc))),
    }
}

fn call_reply(alloc: Global, call: &Call, attempt: u32) -> Result<Reply, Memory>
    ensures { IfOk result (λ reply. reply ≡ call_reply call.now attempt) }
{
    match call {
        Call::List {
            conditions,
            parent: None,
            ..
        } => list_reply(alloc, conditions),
        Call::Hydrate { function, item, .. } => row_reply(alloc, function, attempt, item),
        _ => Ok(gives(Cells::new(alloc))),
    }
}

fn declaration(alloc: Global) -> Result<Value, Memory>
    ensures { IfOk result (λ v. view v ≡ declaration) }
{
    match Value::from_str(alloc, DECLARATION) {
        Ok(value) => Ok(value),
        Err(_) => Err(Memory),
    }
}

impl World for Generated {
    ghost use Rattle.std.specs.Prelude.{true};
    ghost use Rattle.load_gen.specs.Generated.{generated};

    ghost tells = { true };

    ghost book = { generated };

    fn answer(alloc: Global, key: &CallKey) -> Result<Reply, Memory> {
        call_reply(alloc, &key.call, key.attempt)
    }

    fn answer_version(_alloc: Global, _connection: &Text, _tick: u64) -> Result<Version, Memory> {
        Ok(Version::Is(1))
    }

    fn answer_declaration(alloc: Global, _connection: &Text) -> Result<Value, Memory> {
        declaration(alloc)
    }
}
