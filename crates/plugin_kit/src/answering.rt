ghost use Rattle.std.specs.Prelude.{◌≡◌, ◌≤◌, ◌++◌, ◌∷◌, [], OnOk, OnErr, IfOk, IfSome, Err, List};
ghost use Rattle.std.specs.Io.KnownBytes.{Appends};
ghost use Rattle.sp_world.specs.ReplyLines.{seen, IsSpellable};
ghost use Rattle.sp_world.specs.ReplyLines as replies;
ghost use Rattle.sp_world.specs.declared.line.Request.{Request};
ghost use Rattle.sp_outside.specs.Causes.{Rose};
ghost use Rattle.sp_outside.specs.Writing.{GrewByPrefix};
ghost use Rattle.plugin_kit.specs.Replies.{line_text, Answered, AnsweredInPart};
ghost use Rattle.plugin_kit.specs.Said.{items_text, ending_line, reply_lines, version_line, asked_text};

use crate::routes::Routes;
use crate::stop::Unwritten;
use sp_model::{Asked, CallKey, Ending, Reply, Version};
use sp_outside::{Sink, write_all};
use sp_value::{Cell, Memory, Text, TryCopy};
use sp_world::{Line, Request, reply_line};
use std::alloc::Global;

/// The bytes of a line, with its line feed.
#[tactic(auto, unfolding(crate::specs::Replies::line_text))]
fn line_bytes(alloc: Global, line: &Line) -> Result<Vec<u8>, Memory>
    requires { IsSpellable (seen line.now) }
    ensures { IfOk result (λ v. v.items ≡ line_text (seen line.now)) }
{
    let mut bytes = reply_line(alloc, line)?;
    bytes.push(b'\n')?;
    Ok(bytes)
}

/// Writes a line.
fn say<O: Sink>(alloc: Global, sink: &mut O, line: &Line) -> Result<(), Unwritten>
    requires { IsSpellable (seen line.now) }
    ensures whole { OnOk result (Appends (O.held sink.old) (O.held sink.new) (line_text (seen line.now))) }
    ensures part { OnErr result (GrewByPrefix (O.held sink.old) (O.held sink.new) (line_text (seen line.now))) }
    ensures later { O.faulted sink.old ≤ O.faulted sink.new }
    ensures cause { result ≡ Err Unwritten.Fault → Rose (O.faulted sink.old) (O.faulted sink.new) }
{
    let Ok(bytes) = line_bytes(alloc, line) else {
        return Err(Unwritten::Memory);
    };
    match write_all(sink, &bytes) {
        Ok(()) => Ok(()),
        Err(_) => Err(Unwritten::Fault),
    }
}

/// The line of an item.
fn item_line(alloc: Global, id: u64, item: &Cell) -> Result<Line, Memory>
    ensures item { IfOk result (λ l. seen l ≡ replies.Item id item.now) }
    ensures spellable { IfOk result (λ l. IsSpellable (seen l)) }
{
    let item = item.copy(alloc)?;
    Ok(Line::Item { id, item })
}

/// Writes the line of an item.
fn say_item<O: Sink>(alloc: Global, sink: &mut O, id: u64, item: &Cell) -> Result<(), Unwritten>
    ensures whole { OnOk result (Appends (O.held sink.old) (O.held sink.new) (line_text (replies.Item id item.now))) }
    ensures part { OnErr result (GrewByPrefix (O.held sink.old) (O.held sink.new) (line_text (replies.Item id item.now))) }
    ensures later { O.faulted sink.old ≤ O.faulted sink.new }
    ensures cause { result ≡ Err Unwritten.Fault → Rose (O.faulted sink.old) (O.faulted sink.new) }
{
    let Ok(line) = item_line(alloc, id, item) else {
        return Err(Unwritten::Memory);
    };
    say(alloc, sink, &line)
}

/// Writes the lines of items, in order.
fn say_items<O: Sink>(alloc: Global, sink: &mut O, id: u64, items: &[Cell]) -> Result<(), Unwritten>
    ensures whole { OnOk result (Appends (O.held sink.old) (O.held sink.new) (items_text id items.now)) }
    ensures part { OnErr result (GrewByPrefix (O.held sink.old) (O.held sink.new) (items_text id items.now)) }
    ensures later { O.faulted sink.old ≤ O.faulted sink.new }
    ensures cause { result ≡ Err Unwritten.Fault → Rose (O.faulted sink.old) (O.faulted sink.new) }
{
    for item in items {
        say_item(alloc, sink, id, item)?;
    }
    Ok(())
}

/// The line that ends a reply.
fn ending_line(alloc: Global, id: u64, ending: &Ending) -> Result<Line, Memory>
    ensures ending { IfOk result (λ l. seen l ≡ ending_line id ending.now) }
    ensures spellable { IfOk result (λ l. IsSpellable (seen l)) }
{
    match ending {
        Ending::End => Ok(Line::End { id }),
        Ending::Error(text) => {
            let text = text.copy(alloc)?;
            Ok(Line::Error { id, text })
        }
    }
}

/// Writes the line that ends a reply.
fn say_ending<O: Sink>(
    alloc: Global,
    sink: &mut O,
    id: u64,
    ending: &Ending,
) -> Result<(), Unwritten>
    ensures whole { OnOk result (Appends (O.held sink.old) (O.held sink.new) (line_text (ending_line id ending.now))) }
    ensures part { OnErr result (GrewByPrefix (O.held sink.old) (O.held sink.new) (line_text (ending_line id ending.now))) }
    ensures later { O.faulted sink.old ≤ O.faulted sink.new }
    ensures cause { result ≡ Err Unwritten.Fault → Rose (O.faulted sink.old) (O.faulted sink.new) }
{
    let Ok(line) = ending_line(alloc, id, ending) else {
        return Err(Unwritten::Memory);
    };
    say(alloc, sink, &line)
}

/// Writes the lines of a reply.
#[tactic(auto, using(crate::proofs::Writing::begun_after, crate::proofs::Writing::begun_more))]
fn say_reply<O: Sink>(alloc: Global, sink: &mut O, id: u64, reply: &Reply) -> Result<(), Unwritten>
    ensures whole { OnOk result (Appends (O.held sink.old) (O.held sink.new) (reply_lines id reply.now)) }
    ensures part { OnErr result (GrewByPrefix (O.held sink.old) (O.held sink.new) (reply_lines id reply.now)) }
    ensures later { O.faulted sink.old ≤ O.faulted sink.new }
    ensures cause { result ≡ Err Unwritten.Fault → Rose (O.faulted sink.old) (O.faulted sink.new) }
{
    say_items(alloc, sink, id, reply.items.as_slice())?;
    say_ending(alloc, sink, id, &reply.ending)
}

/// The line of a version, or of the error why there is none.
fn version_line(id: u64, version: Version) -> Line
    ensures version { seen result ≡ version_line id version }
    ensures spellable { IsSpellable (seen result) }
{
    match version {
        Version::Is(version) => Line::Version { id, version },
        Version::Bad(text) => Line::Error { id, text },
    }
}

/// Writes the version of a connection at a tick.
#[tactic(auto, using(crate::proofs::Writing::version_written, crate::proofs::Writing::version_begun))]
fn say_version<R: Routes, O: Sink>(
    alloc: Global,
    sink: &mut O,
    routes: &R,
    id: u64,
    connection: &Text,
    tick: u64,
) -> Result<(), Unwritten>
    ensures whole { OnOk result (IfSome (R.book routes.now) (λ b. Appends (O.held sink.old) (O.held sink.new) (line_text (version_line id (b.version connection.now tick))))) }
    ensures part { OnErr result (IfSome (R.book routes.now) (λ b. GrewByPrefix (O.held sink.old) (O.held sink.new) (line_text (version_line id (b.version connection.now tick))))) }
    ensures later { O.faulted sink.old ≤ O.faulted sink.new }
    ensures cause { result ≡ Err Unwritten.Fault → Rose (O.faulted sink.old) (O.faulted sink.new) }
{
    let Ok(version) = routes.version(alloc, connection, tick) else {
        return Err(Unwritten::Memory);
    };
    let line = version_line(id, version);
    say(alloc, sink, &line)
}

/// Writes the declaration of a connection.
#[tactic(auto, using(crate::proofs::Writing::declaration_written, crate::proofs::Writing::declaration_begun, sp_value::proofs::JsonLaws::no_float))]
fn say_declaration<R: Routes, O: Sink>(
    alloc: Global,
    sink: &mut O,
    routes: &R,
    id: u64,
    connection: &Text,
) -> Result<(), Unwritten>
    ensures whole { OnOk result (IfSome (R.book routes.now) (λ b. Appends (O.held sink.old) (O.held sink.new) (line_text (replies.Declaration id (b.declaration connection.now))))) }
    ensures part { OnErr result (IfSome (R.book routes.now) (λ b. GrewByPrefix (O.held sink.old) (O.held sink.new) (line_text (replies.Declaration id (b.declaration connection.now))))) }
    ensures later { O.faulted sink.old ≤ O.faulted sink.new }
    ensures cause { result ≡ Err Unwritten.Fault → Rose (O.faulted sink.old) (O.faulted sink.new) }
{
    let Ok(value) = routes.declaration(alloc, connection) else {
        return Err(Unwritten::Memory);
    };
    let line = Line::Declaration { id, value };
    say(alloc, sink, &line)
}

/// Writes the reply to a call.
#[tactic(auto, using(crate::proofs::Writing::call_written, crate::proofs::Writing::call_begun))]
fn say_call<R: Routes, O: Sink>(
    alloc: Global,
    sink: &mut O,
    routes: &R,
    id: u64,
    key: &CallKey,
) -> Result<(), Unwritten>
    ensures whole { OnOk result (IfSome (R.book routes.now) (λ b. Appends (O.held sink.old) (O.held sink.new) (reply_lines id (b.reply key.now)))) }
    ensures part { OnErr result (IfSome (R.book routes.now) (λ b. GrewByPrefix (O.held sink.old) (O.held sink.new) (reply_lines id (b.reply key.now)))) }
    ensures later { O.faulted sink.old ≤ O.faulted sink.new }
    ensures cause { result ≡ Err Unwritten.Fault → Rose (O.faulted sink.old) (O.faulted sink.new) }
{
    let Ok(reply) = routes.reply(alloc, key) else {
        return Err(Unwritten::Memory);
    };
    say_reply(alloc, sink, id, &reply)
}

/// Writes what the routes answer to what is asked under a number.
fn say_asked<R: Routes, O: Sink>(
    alloc: Global,
    sink: &mut O,
    routes: &R,
    id: u64,
    asked: &Asked,
) -> Result<(), Unwritten>
    ensures whole { OnOk result (IfSome (R.book routes.now) (λ b. Appends (O.held sink.old) (O.held sink.new) (asked_text b id asked.now))) }
    ensures part { OnErr result (IfSome (R.book routes.now) (λ b. GrewByPrefix (O.held sink.old) (O.held sink.new) (asked_text b id asked.now))) }
    ensures later { O.faulted sink.old ≤ O.faulted sink.new }
    ensures cause { result ≡ Err Unwritten.Fault → Rose (O.faulted sink.old) (O.faulted sink.new) }
{
    match asked {
        Asked::Call(key) => say_call(alloc, sink, routes, id, key),
        Asked::Version { connection, tick } => {
            say_version(alloc, sink, routes, id, connection, *tick)
        }
        Asked::Declare { connection } => say_declaration(alloc, sink, routes, id, connection),
    }
}

/// Writes what the routes answer to a request.
#[tactic(auto, using(crate::proofs::Writing::one_answered, crate::proofs::Writing::one_begun))]
pub(crate) fn answer<R: Routes, O: Sink>(
    alloc: Global,
    sink: &mut O,
    routes: &R,
    request: Request,
) -> Result<(), Unwritten>
    ensures whole { OnOk result (Answered (R.book routes.now) (O.held sink.old) (O.held sink.new) (request ∷ [])) }
    ensures part { OnErr result ((later : List Request) → AnsweredInPart (R.book routes.now) (O.held sink.old) (O.held sink.new) (request ∷ later)) }
    ensures later { O.faulted sink.old ≤ O.faulted sink.new }
    ensures cause { result ≡ Err Unwritten.Fault → Rose (O.faulted sink.old) (O.faulted sink.new) }
{
    let Request::Ask {
        id,
        asked,
        function: _function,
    } = request;
    say_asked(alloc, sink, routes, id, &asked)
}
