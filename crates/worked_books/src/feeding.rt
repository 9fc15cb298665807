//! A scan, fed pieces of the replies to its calls in any order.

ghost use Rattle.std.specs.Prelude.{IfSome};
ghost use Rattle.sp_world.specs.Pieces.{IsSoundPiece};

use crate::random::Random;
use one_scan::Scan;
use plain_program::{Replies, Script, hydrated};
use row_flight::{Taken, Wanted};
use sp_model::{Asked, Call, Outcome, Piece, Reply, Seat, TableDecl};
use sp_value::{Cell, Members, TryCopy, same_cell, to_json};
use sp_world::{Told, Untold, item_from};
use sqlite_items::Items;
use std::alloc::Global;
use std::sync::Arc;

/// A call of a scan, its reply, how many pieces of that were given, and whether one of them came late.
#[derive(Drop)]
struct OpenCall {
    asked: Arc<Asked, Global>,
    seat: Seat,
    due: u64,
    reply: Reply,
    given: usize,
    late: bool,
}

/// A scan that is fed, with its open calls.
#[derive(Drop)]
pub struct Feeding<'a> {
    alloc: Global,
    random: Random,
    script: &'a Script,
    table: &'a TableDecl,
    open: Vec<OpenCall>,
    tick: u64,
    fed: Fed,
}

/// A scan that was fed.
#[derive(Drop)]
pub struct Fed {
    pub scan: Scan<Untold>,
    /// How many calls it made.
    pub calls: u64,
    /// How many pieces came late.
    pub late: u64,
    /// What it did that it mustn't do.
    pub fault: Option<&'static str>,
}

fn item_piece(alloc: Global, place: usize, item: &Cell) -> Option<Piece>
    ensures { IfSome result IsSoundPiece }
{
    if place >= 999_999 {
        return None;
    }
    let item = item_from(alloc, &to_json(alloc, item).ok()?).ok()??;
    Some(Piece::Item {
        place: place as u64,
        item,
    })
}

/// The item at a place of a reply, or its ending.
fn piece_at(alloc: Global, reply: &Reply, place: usize) -> Option<Piece>
    ensures { IfSome result IsSoundPiece }
{
    match reply.items.get(place) {
        Some(item) => item_piece(alloc, place, item),
        None => Some(Piece::Ending {
            count: reply.items.len() as u64,
            ending: reply.ending.copy(alloc).ok()?,
        }),
    }
}

fn is_given(outcome: &Option<Outcome>, value: &Cell) -> bool {
    match outcome {
        Some(Outcome::Gave(given)) => same_cell(given, value),
        _ => false,
    }
}

impl<'a> Feeding<'a> {
    pub fn new(
        alloc: Global,
        random: Random,
        script: &'a Script,
        table: &'a TableDecl,
        scan: Scan<Untold>,
    ) -> Feeding<'a> {
        Feeding {
            alloc,
            random,
            script,
            table,
            open: Vec::new(alloc),
            tick: 0,
            fed: Fed {
                scan,
                calls: 0,
                late: 0,
                fault: None,
            },
        }
    }

    /// Whether a call is handed what the plain program has for the functions that its own depends on.
    fn has_results(&self, item: &Cell, results: &Members) -> Option<bool> {
        let values = results.values();
        for (place, name) in results.names().iter().enumerate() {
            let value = values.get(place)?;
            let outcome = hydrated(self.alloc, self.script, self.table, item, name).ok()?;
            if !is_given(&outcome, value) {
                return Some(false);
            }
        }
        Some(true)
    }

    /// Takes a call up.
    fn take(&mut self, wanted: Wanted) -> Option<()> {
        let Wanted { call, seat, due } = wanted;
        if let Call::Hydrate { item, results, .. } = &call.call {
            if !self.has_results(item, results)? {
                self.fed.fault = Some("a function was handed other results");
            }
        }
        let reply = self.script.reply(self.alloc, &call.call, call.attempt);
        let reply = reply.ok()??;
        let call = OpenCall {
            asked: Arc::new(self.alloc, Asked::Call(call)).ok()?,
            seat,
            due,
            reply,
            given: 0,
            late: false,
        };
        self.fed.calls = self.fed.calls.wrapping_add(1);
        self.open.push(call).ok()
    }

    /// Takes up the calls that the scan wants now.
    fn take_wanted(&mut self) -> Option<()> {
        let mut calls = Items::new(self.alloc);
        self.fed.scan.wanted(self.alloc, 1, &mut calls).ok()?;
        for _ in 0..calls.len() {
            self.take(calls.pop()?)?;
        }
        Some(())
    }

    /// Gives a piece of a call: whether it was used.
    fn give(&mut self, call: &OpenCall, place: usize) -> Option<bool> {
        let piece = piece_at(self.alloc, &call.reply, place)?;
        let asked = Arc::try_clone(&call.asked).ok()?;
        let told = Told::of(asked, piece);
        match self
            .fed
            .scan
            .answered(self.alloc, call.seat, told, self.tick)
        {
            Taken::Used => Some(true),
            Taken::Late => Some(false),
            Taken::Memory => None,
        }
    }

    /// Gives a piece that isn't the next one, which has to come late.
    fn give_other(&mut self, call: &OpenCall, place: usize) -> Option<()> {
        if self.give(call, place)? {
            self.fed.fault = Some("a piece was taken that wasn't next");
        }
        Some(())
    }

    /// Gives the next piece of a call. None is taken of a call that is over.
    fn give_next(&mut self, call: &mut OpenCall) -> Option<()> {
        let is_over = call.late || self.fed.scan.result().is_some();
        let used = self.give(call, call.given)?;
        if used && is_over {
            self.fed.fault = Some("a piece was taken of a call that is over");
        }
        if !used {
            call.late = true;
            self.fed.late = self.fed.late.wrapping_add(1);
        }
        Some(())
    }

    /// Gives the next piece of a call, now and then one ahead before it, or the same again. A call may begin again with its first.
    fn feed(&mut self, call: &mut OpenCall) -> Option<()> {
        if self.random.one_in(8) && call.given < call.reply.items.len() {
            self.give_other(call, call.given.wrapping_add(1))?;
        }
        if self.random.one_in(16) {
            call.given = 0;
        }
        self.give_next(call)?;
        if self.random.one_in(8) && call.given > 0 {
            self.give_other(call, call.given)?;
        }
        call.given = call.given.wrapping_add(1);
        Some(())
    }

    /// Gives a piece of one of the open calls.
    fn step(&mut self) -> Option<()> {
        let place = self.random.below(1 << 30) as usize;
        let place = place.checked_rem(self.open.len())?;
        let mut call = self.open.swap_remove(place);
        self.tick = self.tick.wrapping_add(1).max(call.due);
        self.feed(&mut call)?;
        if call.given <= call.reply.items.len() {
            self.open.push(call).ok()?;
        }
        Some(())
    }

    /// Feeds the scan to its end, and what is still open then.
    fn feed_all(&mut self) -> Option<()> {
        for _ in 0..100_000 {
            self.take_wanted()?;
            if self.open.is_empty() {
                return Some(());
            }
            self.step()?;
        }
        self.fed.fault = Some("the scan doesn't end");
        Some(())
    }

    /// The scan, fed to its end.
    pub fn run(mut self) -> Option<Fed> {
        self.feed_all()?;
        Some(self.fed)
    }
}
