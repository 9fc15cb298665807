//! What comes of the calls of `row_stream`.

ghost use Rattle.std.specs.Prelude.{◌≡◌, IfSome};
ghost use Rattle.std.specs.Arc.{arc_value};
ghost use Rattle.sp_model.specs.declared.call.Asked.TheVariants as asks;
ghost use Rattle.sp_world.specs.Pieces.{IsSoundPiece};

use crate::tables::spelled;
use case_tables::{push_word, str_at, word};
use row_stream::{FeedFault, ListStream};
use sp_model::{Asked, Call, CallKey, Ending, Piece};
use sp_value::{Text, TryCopy};
use sp_world::{Line, Told, Untold, read_line};
use sqlite_items::Items;
use std::alloc::Global;
use std::sync::Arc;

pub fn outcome(alloc: Global, call: &str, given: &[Vec<u8>]) -> Option<String> {
    match call {
        "steps" => steps(alloc, given),
        _ => None,
    }
}

/// The call of a list without conditions.
fn list_call(alloc: Global) -> Option<CallKey> {
    Some(CallKey {
        connection: Text::from_str(alloc, "c").ok()?,
        version: 7,
        call: Call::List {
            table: Text::from_str(alloc, "item").ok()?,
            conditions: Items::new(alloc),
            parent: None,
        },
        attempt: 1,
    })
}

fn asked_of(alloc: Global, call: &CallKey) -> Option<Arc<Asked, Global>>
    ensures { IfSome result (λ a. arc_value a ≡ asks.Call call.now) }
{
    let call = call.copy(alloc).ok()?;
    Arc::new(alloc, Asked::Call(call)).ok()
}

/// Steps over the stream of a call: a number feeds the item of this place, `end N` the ending after N items; `again` restarts, and
/// `next` takes an item.
fn steps(alloc: Global, given: &[Vec<u8>]) -> Option<String> {
    let call = list_call(alloc)?;
    let asked = asked_of(alloc, &call)?;
    let mut stream: ListStream<Untold> = ListStream::begin(alloc, call);
    run(alloc, &asked, &mut stream, str_at(given, 0)?)
}

fn run(
    alloc: Global,
    asked: &Arc<Asked, Global>,
    stream: &mut ListStream<Untold>,
    steps: &str,
) -> Option<String>
    requires { arc_value asked.now ≡ asks.Call stream.old.call }
{
    let mut words = String::new(alloc);
    for text in steps.split(", ") {
        let came = step(alloc, asked, stream, text)?;
        push_word(&mut words, ", ", came.as_str())?;
    }
    Some(words)
}

fn step(
    alloc: Global,
    asked: &Arc<Asked, Global>,
    stream: &mut ListStream<Untold>,
    text: &str,
) -> Option<String>
    requires { arc_value asked.now ≡ asks.Call stream.old.call }
    ensures { stream.new.call ≡ stream.old.call }
{
    match text {
        "again" => {
            stream.again();
            word(alloc, "again")
        }
        "next" => next(alloc, stream),
        _ => feed(alloc, asked, stream, text),
    }
}

fn next(alloc: Global, stream: &mut ListStream<Untold>) -> Option<String>
    ensures { stream.new.call ≡ stream.old.call }
{
    match stream.next() {
        Some(item) => spelled(alloc, &item),
        None => match stream.ended() {
            Some(_) => word(alloc, "ended"),
            None => word(alloc, "none"),
        },
    }
}

fn feed(
    alloc: Global,
    asked: &Arc<Asked, Global>,
    stream: &mut ListStream<Untold>,
    text: &str,
) -> Option<String>
    requires { arc_value asked.now ≡ asks.Call stream.old.call }
    ensures { stream.new.call ≡ stream.old.call }
{
    let asked = Arc::try_clone(asked).ok()?;
    match stream.feed(Told::of(asked, piece_of(alloc, text)?)) {
        Ok(()) => word(alloc, "fed"),
        Err(FeedFault::OutOfPlace) => word(alloc, "out of place"),
        Err(FeedFault::Memory) => None,
    }
}

/// The item of a place, or the ending after so many items.
fn piece_of(alloc: Global, text: &str) -> Option<Piece>
    ensures { IfSome result IsSoundPiece }
{
    match text.split_once(" ") {
        Some((_, count)) => Some(Piece::Ending {
            count: count.parse::<u64>().ok()?,
            ending: Ending::End,
        }),
        None => item_of(alloc, text.parse::<u64>().ok()?),
    }
}

fn item_of(alloc: Global, place: u64) -> Option<Piece>
    ensures { IfSome result IsSoundPiece }
{
    if place >= 999_999 {
        return None;
    }
    let line = format!(in alloc; "{{\"id\":1,\"item\":{{\"place\":{place}}}}}").ok()?;
    match read_line(alloc, line.as_bytes()).ok()? {
        Line::Item { item, .. } => Some(Piece::Item { place, item }),
        _ => None,
    }
}
