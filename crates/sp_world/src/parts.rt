// A request's line, spelled once for every number.

ghost use Rattle.std.specs.Prelude.{◌≡◌, ◌≤◌, ◌<◌, ◌+◌, ◌++◌, ◌∷◌, [], List, ℕ, length, decimal, false, IfOk, OnOk, vec_len, vec_capacity, codes, string_bytes};
ghost use Rattle.serde_json.specs.Data.{Data, depth, object};
ghost use Rattle.serde_json.specs.Read.{max_depth};
ghost use Rattle.serde_json.specs.View.{view};
ghost use Rattle.serde_json.specs.Written.{compact_text, has_float};
ghost use Rattle.sp_value.specs.Json.{members_from};
ghost use Rattle.sp_world.specs.RequestLines.{members_before, members_behind, IsAskedForm};
ghost use Rattle.sp_world.specs.LineParts.{AreParts, IsReadBack, IsRound, head_text, tail_text};

use crate::request_members::{members_before, members_behind};
use itoa::Buffer;
use serde_json::Value;
use sp_model::Asked;
use sp_value::{Memory, Text};
use std::alloc::Global;

/// A request's line but for its number: what stands before it, with room for the rest, and what stands behind it.
#[derive(Drop)]
pub struct LineParts {
    pub head: Vec<u8>,
    pub tail: Vec<u8>,
    pub ghost room: { vec_len head + (20 + vec_len tail) ≤ vec_capacity head },
}

impl LineParts {
    /// The line with a number. It takes no memory.
    pub fn fill(self, id: u64) -> Vec<u8>
        ensures { result.items ≡ self.head.items ++ (decimal id ++ self.tail.items) }
    {
        let LineParts { head, tail } = self;
        let mut line = head;
        let mut buffer = Buffer::new();
        append(&mut line, buffer.format(id).as_bytes());
        append(&mut line, &tail);
        line
    }
}

/// Appends what there is room for.
fn append(line: &mut Vec<u8>, more: &[u8])
    requires { vec_len line.old + length more.now ≤ vec_capacity line.old }
    ensures items { line.new.items ≡ line.old.items ++ more.now }
    ensures len { vec_len line.new ≡ vec_len line.old + length more.now }
    ensures capacity { vec_capacity line.old ≤ vec_capacity line.new }
{
    match line.extend_from_slice(more) {
        Ok(()) => {}
        Err(_) => unreachable!(),
    }
}

/// The text of JSON without floats, which is read as itself.
fn text_of(alloc: Global, value: &Value) -> Result<String, Memory>
    ensures text { IfOk result (λ s. has_float (view value.now) ≡ false → string_bytes s ≡ compact_text (view value.now)) }
    ensures round { OnOk result (has_float (view value.now) ≡ false → depth (view value.now) ≤ max_depth → IsRound (view value.now)) }
{
    let text = value.to_string(alloc)?;
    Ok(text)
}

/// A text without its last byte, a closing brace, and then the name of the number.
fn opened(alloc: Global, text: String) -> Result<String, Memory>
    requires { (before : List ℕ) × (string_bytes text ≡ before ++ 125 ∷ []) }
    ensures { IfOk result (λ s. (before : List ℕ) → string_bytes text ≡ before ++ 125 ∷ [] → string_bytes s ≡ before ++ codes ",\"id\":") }
{
    let (open, _) = text.as_str().split_at(text.len() - 1);
    let mut head = String::from_str(alloc, open)?;
    head.push_str(",\"id\":")?;
    Ok(head)
}

/// A text whose first byte, an opening brace, is a comma instead.
fn continued(alloc: Global, text: String) -> Result<String, Memory>
    requires { (behind : List ℕ) × (string_bytes text ≡ 123 ∷ behind) }
    ensures { IfOk result (λ s. (behind : List ℕ) → string_bytes text ≡ 123 ∷ behind → string_bytes s ≡ 44 ∷ behind) }
{
    let (_, rest) = text.as_str().split_at(1);
    let mut tail = String::from_str(alloc, ",")?;
    tail.push_str(rest)?;
    Ok(tail)
}

/// What stands before the number, which follows the members of an object.
fn head_of(alloc: Global, value: &Value) -> Result<String, Memory>
    requires object { (m : List ℕ × Data) × (ms : List (List ℕ × Data)) × (view value.now ≡ object (members_from (m ∷ ms))) }
    requires no_float { has_float (view value.now) ≡ false }
    ensures text { IfOk result (λ s. (ms : List (List ℕ × Data)) → view value.now ≡ object (members_from ms) → string_bytes s ≡ head_text ms) }
    ensures round { OnOk result (depth (view value.now) ≤ max_depth → IsRound (view value.now)) }
{
    let text = text_of(alloc, value)?;
    let head = opened(alloc, text)?;
    Ok(head)
}

/// What stands behind the number, which is followed by the members of an object.
fn tail_of(alloc: Global, value: &Value) -> Result<String, Memory>
    requires object { (m : List ℕ × Data) × (ms : List (List ℕ × Data)) × (view value.now ≡ object (members_from (m ∷ ms))) }
    requires no_float { has_float (view value.now) ≡ false }
    ensures text { IfOk result (λ s. (m : List ℕ × Data) (ms : List (List ℕ × Data)) → view value.now ≡ object (members_from (m ∷ ms)) → string_bytes s ≡ tail_text (m ∷ ms)) }
    ensures round { OnOk result (depth (view value.now) ≤ max_depth → IsRound (view value.now)) }
{
    let text = text_of(alloc, value)?;
    let tail = continued(alloc, text)?;
    Ok(tail)
}

/// Makes room in the head for a number and the tail.
fn with_room(head: String, tail: String) -> Result<LineParts, Memory>
    ensures { IfOk result (λ p. (p.head.items ≡ string_bytes head) × (p.tail.items ≡ string_bytes tail)) }
{
    let mut head = head.into_bytes();
    let tail = tail.into_bytes();
    head.reserve(tail.len().saturating_add(20))?;
    Ok(LineParts { head, tail })
}

/// The line of a request but for its number. Of the protocol's form, it is read as itself again under each number below 2^63.
pub fn line_parts(
    alloc: Global,
    asked: &Asked,
    function: &Option<Text>,
) -> Result<LineParts, Memory>
    ensures line { IfOk result (λ p. AreParts asked.now function.now p.head.items p.tail.items) }
    ensures read { OnOk result (IsAskedForm function.now asked.now → IsReadBack asked.now function.now) }
{
    let before = members_before(alloc, asked, function)?;
    let behind = members_behind(alloc, asked)?;
    let head = head_of(alloc, &before)?;
    let tail = tail_of(alloc, &behind)?;
    let parts = with_room(head, tail)?;
    Ok(parts)
}
