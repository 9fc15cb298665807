ghost use Rattle.std.specs.Prelude.{ℕ, ◌+◌, ◌^◌, ◌≡◌, ◌≢◌, ◌++◌, ◌∷◌, [], ◌≤◌, ◌<◌, length, vec_len, nat_lt, IsTrue, IfOk, OnOk, OnErr, Ok, slice_get};
ghost use Rattle.sp_model.specs.Sayable.{KeepsForms};
ghost use Rattle.sp_world.specs.Fits.{piece_or, line_for};
ghost use Rattle.sp_world.specs.Told as told;
ghost use Rattle.sp_world.specs.ReplyLines.{seen, line_of};
ghost use Rattle.sp_model.specs.declared.call.Piece.TheVariants as piece;
ghost use Rattle.sp_outside.specs.Log.{pending, next_line, IsNextLine, IsPickedLine};
ghost use Rattle.sp_outside.specs.BookLog.{IsAnswered, Opens, IsFirstLike, advanced, reply_of};

use crate::log::{Event, OpenCall};
use sp_model::{Asked, Ending, Reply, Version};
use sp_value::{Memory, TryCopy};
use sp_world::{Line, LineFault, Request, World, read_request, reply_line};
use sqlite_items::Items;
use std::alloc::Global;
use std::marker::{Model, PhantomData};

/// How many bytes a line may have.
const LIMIT: usize = 1_048_576;

/// An open call and the book's reply to it. What isn't answered by a reply has an empty one.
#[derive(Drop)]
pub(crate) struct Answering {
    call: OpenCall,
    reply: Reply,
}

/// Why the book's next line was not given.
pub(crate) enum Unsaid {
    TooLong,
    Memory,
}

/// What a child that answers from W's book heard and gave, with its open calls. Contracts see the events.
#[derive(Drop)]
pub(crate) struct BookLog<W: World> {
    events: Items<Event>,
    calls: Vec<Answering>,
    of: PhantomData<W>,
}

impl<W: World> Model for BookLog<W> {
    ghost use Rattle.std.specs.Prelude.{List, IsTrue};
    ghost use Rattle.sp_outside.specs.declared.log.Event.{Event};
    ghost use Rattle.sp_model.specs.Sayable.{KeepsForms};
    ghost use Rattle.sp_outside.specs.BookLog.{Stands};

    ghost Value = { List Event };

    ghost view = { λ b. b.events };

    ghost invariant = { λ b. IsTrue W.tells × KeepsForms W.book × Stands W.book b.events b.calls.items };
}

impl<W: World> BookLog<W> {
    pub(crate) fn new(alloc: Global) -> BookLog<W>
        requires tells { IsTrue W.tells }
        requires sayable { KeepsForms W.book }
        ensures { result ≡ [] }
    {
        BookLog {
            events: Items::new(alloc),
            calls: Vec::new(alloc),
            of: PhantomData,
        }
    }

    pub(crate) fn events(&self) -> &[Event]
        ensures { result.now ≡ self.now }
    {
        self.events.as_slice()
    }

    /// Ends all open calls.
    pub(crate) fn start(&mut self) -> Result<(), Memory>
        ensures ok { OnOk result (self.new ≡ self.old ++ Event.Started ∷ []) }
        ensures err { OnErr result (self.new ≡ self.old) }
    {
        let Ok(()) = self.events.push(Event::Started) else {
            return Err(Memory);
        };
        self.calls.clear();
        Ok(())
    }

    /// Takes a line in, with the call that it opens.
    pub(crate) fn hear(&mut self, alloc: Global, line: &[u8]) -> Result<(), Memory>
        ensures ok { OnOk result (self.new ≡ self.old ++ Event.Heard line.now ∷ []) }
        ensures err { OnErr result (self.new ≡ self.old) }
    {
        let Ok(()) = self.calls.reserve(1) else {
            return Err(Memory);
        };
        let answering = answer::<W>(alloc, line)?;
        let Ok(heard) = Items::from_slice(alloc, line) else {
            return Err(Memory);
        };
        let Ok(()) = self.events.push(Event::Heard(heard)) else {
            return Err(Memory);
        };
        match answering {
            Some(answering) => {
                let _ = self.calls.push(answering);
            }
            None => {}
        }
        Ok(())
    }

    /// Gives the next line of an open call: of that at `pick`, counted around the open calls, or of the first of the same number.
    /// The line comes twice, so that one can be kept.
    pub(crate) fn give(&mut self, alloc: Global, pick: u64) -> Result<(Vec<u8>, Items<u8>), Unsaid>
        requires { pending self.old ≢ [] }
        ensures told { IfOk result (λ given. IsNextLine W.book (pending self.old) given.0.items) }
        ensures order { IfOk result (λ given. IsPickedLine W.book pick (pending self.old) given.0.items) }
        ensures ok { IfOk result (λ given. self.new ≡ self.old ++ Event.Given given.0.items ∷ []) }
        ensures err { OnErr result (self.new ≡ self.old) }
        ensures twice { IfOk result (λ given. given.1 ≡ given.0.items) }
        ensures short { IfOk result (λ given. length given.0.items ≤ 1048576) }
    {
        let picked = pick % self.calls.len() as u64;
        let place = first_like(&self.calls, picked as usize);
        let Ok(line) = say::<W>(alloc, &self.calls[place]) else {
            return Err(Unsaid::Memory);
        };
        if line.len() > LIMIT {
            return Err(Unsaid::TooLong);
        }
        let Ok(given) = Items::from_slice(alloc, &line) else {
            return Err(Unsaid::Memory);
        };
        let Ok(kept) = Items::from_slice(alloc, &line) else {
            return Err(Unsaid::Memory);
        };
        let Ok(()) = self.events.push(Event::Given(given)) else {
            return Err(Unsaid::Memory);
        };
        advance(&mut self.calls, place);
        Ok((line, kept))
    }
}

/// The place of the first call that has the number of the call at this place.
fn first_like(calls: &[Answering], at: usize) -> usize
    requires { at < length calls.now }
    ensures within { result < length calls.now }
    ensures first { IsFirstLike at calls.now result }
{
    let id = calls[at].call.id;
    for place in 0..at {
        if calls[place].call.id == id {
            return place;
        }
    }
    at
}

/// Whether the next line of the call is an item.
fn has_more(answering: &Answering) -> bool
    ensures value { result ≡ nat_lt answering.now.call.taken (length answering.now.reply.items) }
    ensures room { IsTrue result → answering.now.call.taken + 1 < 2 ^ 64 }
{
    answering.call.taken < answering.reply.items.len() as u64
}

/// The call at this place has given one line more.
fn advance(calls: &mut Vec<Answering>, place: usize)
    requires { place < vec_len calls.old }
    ensures { calls.new.items ≡ advanced place calls.old.items }
{
    if has_more(&calls[place]) {
        calls[place].call.taken += 1;
    } else {
        drop(calls.remove(place));
    }
}

/// The call that a line opens, if it is a request.
fn answer<W: World>(alloc: Global, line: &[u8]) -> Result<Option<Answering>, Memory>
    requires { IsTrue W.tells }
    ensures { IfOk result (λ call. Opens W.book line.now call) }
{
    let request = match read_request(alloc, line) {
        Ok(request) => request,
        Err(LineFault::Memory) => return Err(Memory),
        Err(_fault) => return Ok(None),
    };
    let Request::Ask {
        id,
        asked,
        function: _function,
    } = request;
    let reply = reply_to::<W>(alloc, &asked)?;
    let call = OpenCall {
        id,
        asked,
        taken: 0,
    };
    Ok(Some(Answering { call, reply }))
}

/// The book's reply to a call, an empty one to what is no call.
fn reply_to<W: World>(alloc: Global, asked: &Asked) -> Result<Reply, Memory>
    requires { IsTrue W.tells }
    ensures { IfOk result (λ reply. reply ≡ reply_of W.book asked.now) }
{
    match asked {
        Asked::Call(key) => {
            let reply = W::answer(alloc, key)?;
            Ok(reply)
        }
        _ => Ok(Reply {
            items: Items::new(alloc),
            ending: Ending::End,
        }),
    }
}

/// The bytes of the next line of an open call.
fn say<W: World>(alloc: Global, answering: &Answering) -> Result<Vec<u8>, Memory>
    requires tells { IsTrue W.tells }
    requires sayable { KeepsForms W.book }
    requires answered { IsAnswered W.book answering.now }
    ensures { IfOk result (λ line. line_of line.items ≡ Ok (next_line W.book answering.now.call)) }
{
    let line = next_of::<W>(alloc, answering)?;
    let bytes = reply_line(alloc, &line);
    drop(line);
    bytes
}

/// The next line of an open call.
fn next_of<W: World>(alloc: Global, answering: &Answering) -> Result<Line, Memory>
    requires tells { IsTrue W.tells }
    requires answered { IsAnswered W.book answering.now }
    ensures { IfOk result (λ line. seen line ≡ next_line W.book answering.now.call) }
{
    let id = answering.call.id;
    match &answering.call.asked {
        Asked::Call(_) => {
            let line = piece_line(alloc, id, &answering.reply, answering.call.taken)?;
            Ok(line)
        }
        Asked::Version { connection, tick } => {
            let version = W::answer_version(alloc, connection, *tick)?;
            Ok(version_line(id, version))
        }
        Asked::Declare { connection } => {
            let value = W::answer_declaration(alloc, connection)?;
            Ok(Line::Declaration { id, value })
        }
    }
}

/// The line of the item at a place, or of the ending where there is none.
fn piece_line(alloc: Global, id: u64, reply: &Reply, place: u64) -> Result<Line, Memory>
    ensures { IfOk result (λ line. seen line ≡ line_for id (piece_or place reply.now (slice_get reply.now.items place))) }
{
    match reply.items.get(place as usize) {
        Some(item) => {
            let item = item.copy(alloc)?;
            Ok(Line::Item { id, item })
        }
        None => {
            let line = ending_line(alloc, id, &reply.ending)?;
            Ok(line)
        }
    }
}

fn ending_line(alloc: Global, id: u64, ending: &Ending) -> Result<Line, Memory>
    ensures { IfOk result (λ line. (count : ℕ) → seen line ≡ line_for id (told.Piece (piece.Ending count ending.now))) }
{
    match ending {
        Ending::End => Ok(Line::End { id }),
        Ending::Error(text) => {
            let text = text.copy(alloc)?;
            Ok(Line::Error { id, text })
        }
    }
}

fn version_line(id: u64, version: Version) -> Line
    ensures { seen result ≡ line_for id (told.Version version) }
{
    match version {
        Version::Is(version) => Line::Version { id, version },
        Version::Bad(text) => Line::Error { id, text },
    }
}
