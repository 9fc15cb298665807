ghost use Rattle.std.specs.Prelude.{◌≡◌, ◌&&◌, ◌==◌, IfOk, bytes_eq};
ghost use Rattle.plain_program.specs.Script.{name_in, name_in_some, function_of, subject_of, find_reply};

use crate::replies::Replies;
use sp_model::{Call, Reply, field};
use sp_value::{Cell, Memory, Text, TryCopy};
use sqlite_items::Items;
use std::alloc::Global;

/// The reply to an attempt of a call: of a function for the item of a name, or, as `list`, `parents` and `get`, of such a call. The
/// subject of a list is the name of its parent; else it is empty.
#[derive(Drop)]
pub struct Written {
    pub function: Text,
    pub subject: Text,
    pub attempt: u32,
    pub reply: Reply,
}

/// Replies that are written down. Nothing is known of a call that isn't among them.
#[derive(Drop)]
pub struct Script {
    pub written: Items<Written>,
}

fn name_in(alloc: Global, item: &Cell) -> Result<Text, Memory>
    ensures { IfOk result (λ t. t ≡ name_in item.now) }
{
    let name = Text::from_str(alloc, "name")?;
    match field(&name, item) {
        Some(Cell::Text(text)) => text.copy(alloc),
        _ => Text::from_str(alloc, ""),
    }
}

fn name_in_some(alloc: Global, item: &Option<Cell>) -> Result<Text, Memory>
    ensures { IfOk result (λ t. t ≡ name_in_some item.now) }
{
    match item {
        None => Text::from_str(alloc, ""),
        Some(item) => name_in(alloc, item),
    }
}

fn function_of(alloc: Global, call: &Call) -> Result<Text, Memory>
    ensures { IfOk result (λ t. t ≡ function_of call.now) }
{
    match call {
        Call::List { .. } => Text::from_str(alloc, "list"),
        Call::Parents { .. } => Text::from_str(alloc, "parents"),
        Call::Get { .. } => Text::from_str(alloc, "get"),
        Call::Hydrate { function, .. } => function.copy(alloc),
    }
}

fn subject_of(alloc: Global, call: &Call) -> Result<Text, Memory>
    ensures { IfOk result (λ t. t ≡ subject_of call.now) }
{
    match call {
        Call::List { parent, .. } => name_in_some(alloc, parent),
        Call::Parents { .. } => Text::from_str(alloc, ""),
        Call::Get { .. } => Text::from_str(alloc, ""),
        Call::Hydrate { item, .. } => name_in(alloc, item),
    }
}

fn is_for(written: &Written, function: &Text, subject: &Text, attempt: u32) -> bool
    ensures { result ≡ (bytes_eq written.now.function function.now && bytes_eq written.now.subject subject.now && written.now.attempt == attempt) }
{
    written.function == *function && written.subject == *subject && written.attempt == attempt
}

fn find_reply(
    alloc: Global,
    written: &[Written],
    function: &Text,
    subject: &Text,
    attempt: u32,
) -> Result<Option<Reply>, Memory>
    ensures { IfOk result (λ r. r ≡ find_reply function.now subject.now attempt written.now) }
{
    for known in written {
        if is_for(known, function, subject, attempt) {
            let reply = known.reply.copy(alloc)?;
            return Ok(Some(reply));
        }
    }
    Ok(None)
}

impl Replies for Script {
    ghost use Rattle.plain_program.specs.Known.{seen_of};
    ghost use Rattle.plain_program.specs.Script.{scripted};

    ghost answers = { λ s call attempt. seen_of (scripted s.written call attempt) };

    fn reply(&self, alloc: Global, call: &Call, attempt: u32) -> Result<Option<Reply>, Memory> {
        let function = function_of(alloc, call)?;
        let subject = subject_of(alloc, call)?;
        let reply = find_reply(alloc, self.written.as_slice(), &function, &subject, attempt)?;
        Ok(reply)
    }
}
