ghost use Rattle.std.specs.Prelude.{◌≡◌, ◌≢◌, ◌≤◌, [], None, Some, Ok, true, false, IsTrue, IsSome, IfOk, OnOk, OnErr, List, ℕ, vec_len, vec_capacity};
ghost use Rattle.std.specs.Arc.{arc_value};
ghost use Rattle.sp_model.specs.Sayable.{KeepsForms};
ghost use Rattle.sp_world.specs.ReplyLines.{seen};
ghost use Rattle.sp_outside.specs.Log.{line_taken};
ghost use Rattle.sp_outside.specs.declared.log.OpenCall.{OpenCall};
ghost use Rattle.child_link.specs.Open.{calls_of, next_in, ahead, looked_at};
ghost use Rattle.child_link.specs.Holds.{Holds, all_within};
ghost use Rattle.child_link.specs.Looked.{IsFit};
ghost use Rattle.child_link.specs.Ledger.{Moves};
ghost use Rattle.child_link.specs.Arrived.{IsArrival, is_item, still_up, is_memory, IsCounted, IsMisfit, IsFitting, HasLooked, GrewBy, GrewByGiven};

use crate::arrival::{Arrived, RecvEnd};
use crate::fitting::tell;
use crate::flight::{Flight, close, count_item, flight_at};
use crate::looked::Looked;
use crate::looking::look;
use crate::parts::Parts;
use sp_model::Asked;
use sp_outside::{Child, ChildEnd, Loss};
use sp_world::{Line, World};
use sqlite_items::Items;
use std::alloc::Global;
use std::sync::Arc;

fn is_item(line: &Line) -> bool
    ensures { result ≡ is_item (seen line.now) }
{
    match line {
        Line::Item { id: _, item: _ } => true,
        _ => false,
    }
}

/// A line that fits the call at a place is taken in.
fn arrive<W: World>(
    flights: &mut Vec<Flight>,
    at: usize,
    asked: Arc<Asked, Global>,
    line: Line,
) -> Arrived<W>
    requires fit { (bytes : List ℕ) × IsFit (calls_of flights.old.items) bytes at (arc_value asked) (seen line) }
    requires next { IsTrue W.tells → next_in W.book (calls_of flights.old.items) (Ok (seen line)) ≡ Some (Ok (seen line)) }
    requires within { IsTrue W.tells → all_within W.book (calls_of flights.old.items) ≡ true }
    ensures calls { calls_of flights.new.items ≡ line_taken (Ok (seen line)) (calls_of flights.old.items) }
    ensures arrival { (bytes : List ℕ) → IsFit (calls_of flights.old.items) bytes at (arc_value asked) (seen line) → IsArrival bytes flights.old.items flights.new.items result }
    ensures len { vec_len flights.new ≤ vec_len flights.old }
    ensures room { vec_capacity flights.new ≡ vec_capacity flights.old }
{
    let flight = flight_at(flights, at);
    let seat = flight.job.seat;
    let session = flight.job.session;
    let place = flight.taken;
    let more = is_item(&line);
    let told = tell::<W>(asked, place, line);
    if more {
        count_item(flights, at);
        return Arrived {
            seat,
            session,
            told,
            used: None,
        };
    }
    let used = close(flights, at);
    Arrived {
        seat,
        session,
        told,
        used: Some(used),
    }
}

/// Has a line wait, where none does.
fn fill<W: World, C: Child<W>>(alloc: Global, parts: &mut Parts<C>) -> Result<(), RecvEnd>
    requires up { parts.old.up ≡ true }
    requires some { parts.old.flights.items ≢ [] }
    requires holds { Holds W.tells W.book (C.log parts.old.child) (C.last parts.old.child) (C.gives parts.old.child) parts.old.kept parts.old.up (calls_of parts.old.flights.items) }
    ensures holds { Holds W.tells W.book (C.log parts.new.child) (C.last parts.new.child) (C.gives parts.new.child) parts.new.kept parts.new.up (calls_of parts.new.flights.items) }
    ensures waits { OnOk result (IsSome parts.new.kept) }
    ensures up { parts.new.up ≡ still_up result }
    ensures same { parts.new.flights ≡ parts.old.flights }
    ensures prepared { parts.new.prepared ≡ parts.old.prepared }
    ensures counted { IsCounted result (C.faulted parts.old.child) (C.faulted parts.new.child) }
    ensures later { C.faulted parts.old.child ≤ C.faulted parts.new.child }
    ensures looked { looked_at (C.gives parts.old.child) parts.old.kept ≤ looked_at (C.gives parts.new.child) parts.new.kept }
    ensures fault { (last : List ℕ) (calls : List OpenCall) → IsMisfit result last calls }
    ensures fitting { IsFitting result }
    ensures grew { IsTrue W.tells → parts.old.kept ≡ None → GrewBy parts.new.kept (C.log parts.old.child) (C.log parts.new.child) }
    ensures err { OnErr result (parts.new.kept ≡ None) }
    ensures log { IsTrue W.tells → GrewByGiven (C.log parts.old.child) (C.log parts.new.child) }
    ensures own { (C.connection parts.new.child ≡ C.connection parts.old.child) × (C.sends parts.new.child ≡ C.sends parts.old.child) }
{
    if parts.kept.is_some() {
        return Ok(());
    }
    let _given = parts.child.given();
    match parts.child.receive(alloc) {
        Ok(line) => {
            parts.kept = Some(Items::from_vec(line));
            Ok(())
        }
        Err(ChildEnd::Failed) => {
            parts.up = false;
            Err(RecvEnd::Lost(Loss::Fault))
        }
        Err(ChildEnd::Memory) => Err(RecvEnd::Memory),
    }
}

/// Looks at the line that waits.
fn settle<W: World, C: Child<W>>(alloc: Global, parts: &mut Parts<C>) -> Result<Arrived<W>, RecvEnd>
    requires up { parts.old.up ≡ true }
    requires waits { IsSome parts.old.kept }
    requires holds { Holds W.tells W.book (C.log parts.old.child) (C.last parts.old.child) (C.gives parts.old.child) parts.old.kept parts.old.up (calls_of parts.old.flights.items) }
    ensures holds { Holds W.tells W.book (C.log parts.new.child) (C.last parts.new.child) (C.gives parts.new.child) parts.new.kept parts.new.up (calls_of parts.new.flights.items) }
    ensures child { parts.new.child ≡ parts.old.child }
    ensures up { parts.new.up ≡ still_up result }
    ensures calls { OnOk result (calls_of parts.new.flights.items ≡ ahead parts.old.kept (calls_of parts.old.flights.items)) }
    ensures arrival { IfOk result (IsArrival (C.last parts.old.child) parts.old.flights.items parts.new.flights.items) }
    ensures misfit { IsMisfit result (C.last parts.old.child) (calls_of parts.old.flights.items) }
    ensures counted { (before now : ℕ) → IsCounted result before now }
    ensures looked { HasLooked result (looked_at (C.gives parts.old.child) parts.old.kept) (looked_at (C.gives parts.new.child) parts.new.kept) }
    ensures err { OnErr result (parts.new.flights.items ≡ parts.old.flights.items) }
    ensures kept { is_memory result ≡ false → parts.new.kept ≡ None }
    ensures room { (vec_len parts.new.flights ≤ vec_len parts.old.flights) × (vec_capacity parts.new.flights ≡ vec_capacity parts.old.flights) }
    ensures prepared { parts.new.prepared ≡ parts.old.prepared }
{
    let looked = match &parts.kept {
        Some(bytes) => look(alloc, &parts.flights, bytes.as_slice()),
        None => unreachable!(),
    };
    match looked {
        Ok(Looked::Fit { at, asked, line }) => {
            parts.kept = None;
            Ok(arrive::<W>(&mut parts.flights, at, asked, line))
        }
        Ok(Looked::Bad(pending)) => match parts.kept.take() {
            Some(line) => {
                parts.up = false;
                Err(RecvEnd::Lost(Loss::Bad { line, pending }))
            }
            None => unreachable!(),
        },
        Err(_) => Err(RecvEnd::Memory),
    }
}

/// Receives what the next line tells.
pub(crate) fn receive_line<W: World, C: Child<W>>(
    alloc: Global,
    parts: &mut Parts<C>,
) -> Result<Arrived<W>, RecvEnd>
    requires up { parts.old.up ≡ true }
    requires some { parts.old.flights.items ≢ [] }
    requires holds { Holds W.tells W.book (C.log parts.old.child) (C.last parts.old.child) (C.gives parts.old.child) parts.old.kept parts.old.up (calls_of parts.old.flights.items) }
    ensures holds { Holds W.tells W.book (C.log parts.new.child) (C.last parts.new.child) (C.gives parts.new.child) parts.new.kept parts.new.up (calls_of parts.new.flights.items) }
    ensures up { parts.new.up ≡ still_up result }
    ensures arrival { IfOk result (IsArrival (C.last parts.new.child) parts.old.flights.items parts.new.flights.items) }
    ensures counted { IsCounted result (C.faulted parts.old.child) (C.faulted parts.new.child) }
    ensures later { C.faulted parts.old.child ≤ C.faulted parts.new.child }
    ensures misfit { IsMisfit result (C.last parts.new.child) (calls_of parts.old.flights.items) }
    ensures looked { HasLooked result (looked_at (C.gives parts.old.child) parts.old.kept) (looked_at (C.gives parts.new.child) parts.new.kept) }
    ensures honest { IsTrue W.tells → KeepsForms W.book → IsFitting result }
    ensures err { OnErr result (parts.new.flights.items ≡ parts.old.flights.items) }
    ensures room { (vec_len parts.new.flights ≤ vec_len parts.old.flights) × (vec_capacity parts.new.flights ≡ vec_capacity parts.old.flights) }
    ensures prepared { parts.new.prepared ≡ parts.old.prepared }
    ensures kept { is_memory result ≡ false → parts.new.kept ≡ None }
    ensures log { IsTrue W.tells → GrewByGiven (C.log parts.old.child) (C.log parts.new.child) }
    ensures own { (C.connection parts.new.child ≡ C.connection parts.old.child) × (C.sends parts.new.child ≡ C.sends parts.old.child) }
    ensures ledger { IsTrue W.tells → parts.old.kept ≡ None → is_memory result ≡ false → Moves (C.log parts.old.child) (calls_of parts.old.flights.items) (C.log parts.new.child) (calls_of parts.new.flights.items) [] [] }
{
    match fill::<W, C>(alloc, parts) {
        Ok(()) => settle::<W, C>(alloc, parts),
        Err(end) => Err(end),
    }
}
