ghost use Rattle.std.specs.Prelude.{◌≡◌, ◌<◌, ◌^◌, IfOk, IfSome, false, option_map};
ghost use Rattle.serde_json.specs.View.{view, members_view};
ghost use Rattle.serde_json.specs.Data.{object};
ghost use Rattle.sp_value.specs.Json.{has_odd_number};
ghost use Rattle.sp_world.specs.ReplyLines.{seen, line_of, line_of_data, line_with, item_line, end_line, error_line, version_line, declaration_line, has_two_members, SaysUnlessMemory, IsLineForm};

use crate::line::{Line, LineFault};
use crate::line_json::{flag_at, number_at, read_json, text_at};
use crate::reply_lines::{is_shallow_object, item_from};
use serde_json::Value;
use sp_value::Memory;
use std::alloc::Global;

/// The reply line that bytes are: `Json` where they are no JSON, else `Number` where a number is no integer of 64 bits with a sign, else
/// `Shape` where they are none of the five objects or have another member.
pub fn read_line(alloc: Global, line: &[u8]) -> Result<Line, LineFault>
    ensures answer { SaysUnlessMemory result (line_of line.now) }
    ensures form { IfOk result (λ l. IsLineForm (seen l)) }
{
    let value = read_json(alloc, line)?;
    match line_from(alloc, &value) {
        Ok(Some(line)) => Ok(line),
        Ok(None) => Err(LineFault::Shape),
        Err(_) => Err(LineFault::Memory),
    }
}

fn line_from(alloc: Global, value: &Value) -> Result<Option<Line>, Memory>
    requires { has_odd_number (view value.now) ≡ false }
    ensures value { IfOk result (λ o. option_map seen o ≡ line_of_data (view value.now)) }
    ensures form { IfOk result (λ o. IfSome o (λ l. IsLineForm (seen l))) }
{
    if !has_two_members(value) {
        return Ok(None);
    }
    let Some(id) = number_at(value, "id") else {
        return Ok(None);
    };
    let line = line_with(alloc, id, value)?;
    Ok(line)
}

fn has_two_members(value: &Value) -> bool
    ensures { result ≡ has_two_members (view value.now) }
{
    match value {
        Value::Object(members) => members.len() == 2,
        _ => false,
    }
}

fn line_with(alloc: Global, id: u64, value: &Value) -> Result<Option<Line>, Memory>
    requires whole { has_odd_number (view value.now) ≡ false }
    requires below { id < 2 ^ 63 }
    ensures value { IfOk result (λ o. option_map seen o ≡ line_with id (view value.now)) }
    ensures form { IfOk result (λ o. IfSome o (λ l. IsLineForm (seen l))) }
{
    if let Some(line) = item_line(alloc, id, value)? {
        return Ok(Some(line));
    }
    if let Some(line) = end_line(id, value) {
        return Ok(Some(line));
    }
    if let Some(line) = error_line(alloc, id, value)? {
        return Ok(Some(line));
    }
    if let Some(line) = version_line(id, value) {
        return Ok(Some(line));
    }
    let line = declaration_line(alloc, id, value)?;
    Ok(line)
}

fn item_line(alloc: Global, id: u64, value: &Value) -> Result<Option<Line>, Memory>
    requires { id < 2 ^ 63 }
    ensures value { IfOk result (λ o. option_map seen o ≡ item_line id (view value.now)) }
    ensures form { IfOk result (λ o. IfSome o (λ l. IsLineForm (seen l))) }
{
    let Some(found) = value.get("item") else {
        return Ok(None);
    };
    match item_from(alloc, found)? {
        Some(item) => Ok(Some(Line::Item { id, item })),
        None => Ok(None),
    }
}

fn end_line(id: u64, value: &Value) -> Option<Line>
    requires { id < 2 ^ 63 }
    ensures value { option_map seen result ≡ end_line id (view value.now) }
    ensures form { IfSome result (λ l. IsLineForm (seen l)) }
{
    match flag_at(value, "end") {
        Some(true) => Some(Line::End { id }),
        _ => None,
    }
}

fn error_line(alloc: Global, id: u64, value: &Value) -> Result<Option<Line>, Memory>
    requires { id < 2 ^ 63 }
    ensures value { IfOk result (λ o. option_map seen o ≡ error_line id (view value.now)) }
    ensures form { IfOk result (λ o. IfSome o (λ l. IsLineForm (seen l))) }
{
    match text_at(alloc, value, "error")? {
        Some(text) => Ok(Some(Line::Error { id, text })),
        None => Ok(None),
    }
}

fn version_line(id: u64, value: &Value) -> Option<Line>
    requires whole { has_odd_number (view value.now) ≡ false }
    requires below { id < 2 ^ 63 }
    ensures value { option_map seen result ≡ version_line id (view value.now) }
    ensures form { IfSome result (λ l. IsLineForm (seen l)) }
{
    match number_at(value, "version") {
        Some(version) => Some(Line::Version { id, version }),
        None => None,
    }
}

#[tactic(auto, using(crate::proofs::OddNumbers::whole_member))]
fn declaration_line(alloc: Global, id: u64, value: &Value) -> Result<Option<Line>, Memory>
    requires whole { has_odd_number (view value.now) ≡ false }
    requires below { id < 2 ^ 63 }
    ensures value { IfOk result (λ o. option_map seen o ≡ declaration_line id (view value.now)) }
    ensures form { IfOk result (λ o. IfSome o (λ l. IsLineForm (seen l))) }
{
    let Some(found) = value.get("declaration") else {
        return Ok(None);
    };
    if !is_shallow_object(found) {
        return Ok(None);
    }
    match found.clone() {
        Ok(value) => Ok(Some(Line::Declaration { id, value })),
        Err(_) => Err(Memory),
    }
}
