ghost use Rattle.std.specs.Prelude.{◌≡◌, ◌≤◌, Some, Ok, false, IfOk, IfSome};
ghost use Rattle.serde_json.specs.Data.{depth};
ghost use Rattle.serde_json.specs.View.{view};
ghost use Rattle.serde_json.specs.Read.{max_depth};
ghost use Rattle.serde_json.specs.Written.{has_float};
ghost use Rattle.sp_value.specs.Json.{has_odd_number};
ghost use Rattle.sp_world.specs.ReplyLines.{seen, item_reply, reply_data, reply_text, line_of_data, line_of, is_shallow_object, item_of, IsLineForm, IsSpellable};
ghost use Rattle.sp_world.specs.ReplyLines as replies;
ghost use Rattle.sp_model.specs.Sayable.{IsItem};

use crate::line::Line;
use crate::line_json::spell;
use serde_json::{Value, json};
use sp_value::{Cell, CellFault, Memory, from_json, nests, to_json};
use std::alloc::{AllocError, Global};

/// The compact text of a reply line. A line of the protocol's form is read as itself again: its numbers are below 2^63, an item
/// or a declaration is an object that nests at most 100 deep, and the numbers of a declaration are integers of 64 bits with a sign.
pub fn reply_line(alloc: Global, line: &Line) -> Result<Vec<u8>, Memory>
    ensures spelled { IfOk result (λ v. IsSpellable (seen line.now) → v.items ≡ reply_text (seen line.now)) }
    ensures read { IfOk result (λ v. IsLineForm (seen line.now) → line_of v.items ≡ Ok (seen line.now)) }
{
    let value = line_json(alloc, line)?;
    let text = spell(alloc, &value)?;
    Ok(text)
}

/// The JSON of a reply line.
fn line_json(alloc: Global, line: &Line) -> Result<Value, Memory>
    ensures value { IfOk result (λ v. view v ≡ reply_data (seen line.now)) }
    ensures no_float { IfOk result (λ v. IsSpellable (seen line.now) → has_float (view v) ≡ false) }
    ensures whole { IfOk result (λ v. IsLineForm (seen line.now) → has_odd_number (view v) ≡ false) }
    ensures back { IfOk result (λ v. IsLineForm (seen line.now) → line_of_data (view v) ≡ Some (seen line.now)) }
    ensures nests { IfOk result (λ v. IsLineForm (seen line.now) → depth (view v) ≤ max_depth) }
{
    match line {
        Line::Item { id, item } => {
            let item = to_json(alloc, item)?;
            made(item_json(alloc, *id, item))
        }
        Line::End { id } => made(end_json(alloc, *id)),
        Line::Error { id, text } => made(error_json(alloc, *id, text.as_str())),
        Line::Version { id, version } => made(version_json(alloc, *id, *version)),
        Line::Declaration { id, value } => made(declaration_json(alloc, *id, value)),
    }
}

/// Whether JSON is an object that nests at most 100 deep.
pub fn is_shallow_object(value: &Value) -> bool
    ensures { result ≡ is_shallow_object (view value.now) }
{
    value.is_object() && nests(value, 100)
}

/// The item that JSON is: an object that nests at most 100 deep, whose numbers are integers of 64 bits with a sign.
#[tactic(auto, using(crate::proofs::OddNumbers::odd_no_cell))]
pub fn item_from(alloc: Global, value: &Value) -> Result<Option<Cell>, Memory>
    ensures value { IfOk result (λ o. o ≡ item_of (view value.now)) }
    ensures form { IfOk result (λ o. IfSome o IsItem) }
{
    if !is_shallow_object(value) {
        return Ok(None);
    }
    match from_json(alloc, value) {
        Ok(cell) => Ok(Some(cell)),
        Err(CellFault::Memory) => Err(Memory),
        Err(CellFault::Number) => Ok(None),
        Err(CellFault::TooDeep) => unreachable!(),
    }
}

/// The value, unless it wanted memory.
pub fn made(value: Result<Value, AllocError>) -> Result<Value, Memory>
    ensures { IfOk result (λ v. value ≡ Ok v) }
{
    match value {
        Ok(value) => Ok(value),
        Err(_) => Err(Memory),
    }
}

fn item_json(alloc: Global, id: u64, item: Value) -> Result<Value, AllocError>
    ensures { IfOk result (λ v. view v ≡ item_reply id (view item)) }
{
    json!(in alloc; {"id": id, "item": item})
}

fn end_json(alloc: Global, id: u64) -> Result<Value, AllocError>
    ensures { IfOk result (λ v. view v ≡ reply_data (replies.End id)) }
{
    json!(in alloc; {"end": true, "id": id})
}

fn error_json(alloc: Global, id: u64, text: &str) -> Result<Value, AllocError>
    ensures { IfOk result (λ v. view v ≡ reply_data (replies.Error id text.now)) }
{
    json!(in alloc; {"error": text, "id": id})
}

fn version_json(alloc: Global, id: u64, version: u64) -> Result<Value, AllocError>
    ensures { IfOk result (λ v. view v ≡ reply_data (replies.Version id version)) }
{
    json!(in alloc; {"id": id, "version": version})
}

fn declaration_json(alloc: Global, id: u64, value: &Value) -> Result<Value, AllocError>
    ensures { IfOk result (λ v. view v ≡ reply_data (replies.Declaration id (view value.now))) }
{
    json!(in alloc; {"declaration": value, "id": id})
}
