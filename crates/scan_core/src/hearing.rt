ghost use Rattle.std.specs.Prelude.{◌≡◌, ◌↔◌, ◌==◌, ◌++◌, [], true, Option, Some, None, Err, OnOk, OnErr};
ghost use Rattle.sp_model.specs.declared.call.Asked.TheVariants as asks;
ghost use Rattle.row_stream.specs.Streams.{fed, is_out, place_of};
ghost use Rattle.row_stream.specs.declared.fault.FeedFault.TheVariants.{OutOfPlace};
ghost use Rattle.row_flight.specs.declared.frame.Taken.TheVariants as taken;
ghost use Rattle.scan_laws.specs.States.{Outer, Inner};
ghost use Rattle.scan_core.specs.Courses.{state_of, IsCourse};
ghost use Rattle.scan_core.specs.declared.calls.ItemsCall.{ItemsCall as Items};
ghost use Rattle.scan_core.specs.declared.calls.ParentsCall.{ParentsCall as Parents};
ghost use Rattle.scan_core.specs.Hearing.{anew, ended_at, open_heard, items_heard, handed_on, MayBeginAnew, inner_heard, InnerTakes, outer_heard, OuterTakes, IsUnchanged};

use crate::calls::{ItemsCall, OpenCall, ParentsCall};
use crate::course::Course;
use crate::scope::ScanScope;
use row_flight::Taken;
use row_stream::{FeedFault, ListStream};
use sp_model::Piece;
use sp_value::Cell;
use sp_world::{Told, World};
use std::collections::VecDeque;

/// Whether the piece is of place 0. The place of an ending is its count.
fn is_first(piece: &Piece) -> bool
    ensures { result ≡ (place_of piece.now == 0) }
{
    match piece {
        Piece::Item { place, item: _ } => *place == 0,
        Piece::Ending { count, ending: _ } => *count == 0,
    }
}

/// The tick at which the ending is taken in, once it is.
fn ended_at(piece: &Piece, tick: u64, before: u64) -> u64
    ensures { result ≡ ended_at piece.now tick before }
{
    match piece {
        Piece::Item { place: _, item: _ } => before,
        Piece::Ending {
            count: _,
            ending: _,
        } => tick,
    }
}

/// Feeds a piece, which begins the call anew where its place is 0.
fn feed<W: World>(stream: &mut ListStream<W>, piece: Told<W, Piece>) -> Result<(), FeedFault>
    requires { piece.0 ≡ asks.Call stream.old.call }
    ensures ok { OnOk result (stream.new ≡ fed (anew stream.old piece.1) piece.1) }
    ensures err { OnErr result (stream.new ≡ anew stream.old piece.1) }
    ensures out { (result ≡ Err OutOfPlace) ↔ (is_out (anew stream.old piece.1) piece.1 ≡ true) }
{
    if is_first(piece.get()) {
        stream.again();
        return stream.feed(piece);
    }
    stream.feed(piece)
}

impl<W: World> OpenCall<W> {
    /// Takes in a piece of the call, at this tick, and hands its items on to those that wait. It is late where the present attempt isn't
    /// listed, its ending came, or the piece isn't next.
    pub(crate) fn hear(
        &mut self,
        waiting: &mut VecDeque<Cell>,
        piece: Told<W, Piece>,
        tick: u64,
    ) -> Taken
        requires asked { piece.0 ≡ asks.Call self.old.stream.call }
        requires drained { self.old.stream.waiting ≡ [] }
        ensures used { result ≡ taken.Used → (self.new ≡ open_heard self.old piece.1 tick) × (waiting.new.items ≡ waiting.old.items ++ handed_on self.old.stream piece.1) × (self.old.listed ≡ true) × (self.old.stream.ending ≡ None) × (is_out (anew self.old.stream piece.1) piece.1 ≡ true → ⊥) }
        ensures late { result ≡ taken.Late → (self.new ≡ self.old) × (waiting.new.items ≡ waiting.old.items) }
        ensures exact { result ≡ taken.Late → self.old.listed ≡ true → is_out (anew self.old.stream piece.1) piece.1 ≡ true }
        // Where memory is wanting the call may have begun anew.
        ensures memory { result ≡ taken.Memory → MayBeginAnew self.old piece.1 self.new × (waiting.new.items ≡ waiting.old.items) }
    {
        if !self.listed || self.stream.ended().is_some() {
            return Taken::Late;
        }
        if waiting.reserve(1).is_err() {
            return Taken::Memory;
        }
        let ended = ended_at(piece.get(), tick, self.ended_at);
        match feed(&mut self.stream, piece) {
            Ok(()) => {
                self.ended_at = ended;
                if let Some(item) = self.stream.next() {
                    waiting.push_back_reserved(item);
                }
                Taken::Used
            }
            Err(FeedFault::OutOfPlace) => Taken::Late,
            Err(FeedFault::Memory) => Taken::Memory,
        }
    }
}

impl<W: World> ItemsCall<W> {
    fn hear(&mut self, waiting: &mut VecDeque<Cell>, piece: Told<W, Piece>, tick: u64) -> Taken
        requires asked { piece.0 ≡ asks.Call self.old.call.stream.call }
        requires drained { self.old.call.stream.waiting ≡ [] }
        ensures used { result ≡ taken.Used → (self.new ≡ items_heard self.old piece.1 tick) × (waiting.new.items ≡ waiting.old.items ++ handed_on self.old.call.stream piece.1) × (self.old.call.listed ≡ true) × (self.old.call.stream.ending ≡ None) × (is_out (anew self.old.call.stream piece.1) piece.1 ≡ true → ⊥) }
        ensures late { result ≡ taken.Late → (self.new ≡ self.old) × (waiting.new.items ≡ waiting.old.items) }
        ensures exact { result ≡ taken.Late → self.old.call.listed ≡ true → is_out (anew self.old.call.stream piece.1) piece.1 ≡ true }
        ensures memory { result ≡ taken.Memory → (self.new.entered ≡ self.old.entered) × MayBeginAnew self.old.call piece.1 self.new.call × (waiting.new.items ≡ waiting.old.items) }
    {
        self.call.hear(waiting, piece, tick)
    }
}

impl<W: World> ParentsCall<W> {
    fn hear(&mut self, piece: Told<W, Piece>, tick: u64) -> Taken
        requires asked { piece.0 ≡ asks.Call self.old.call.stream.call }
        requires drained { self.old.call.stream.waiting ≡ [] }
        ensures used { result ≡ taken.Used → (self.new.call ≡ open_heard self.old.call piece.1 tick) × (self.new.waiting.items ≡ self.old.waiting.items ++ handed_on self.old.call.stream piece.1) × (self.old.call.listed ≡ true) × (self.old.call.stream.ending ≡ None) × (is_out (anew self.old.call.stream piece.1) piece.1 ≡ true → ⊥) }
        ensures late { result ≡ taken.Late → (self.new.call ≡ self.old.call) × (self.new.waiting.items ≡ self.old.waiting.items) }
        ensures exact { result ≡ taken.Late → self.old.call.listed ≡ true → is_out (anew self.old.call.stream piece.1) piece.1 ≡ true }
        ensures memory { result ≡ taken.Memory → MayBeginAnew self.old.call piece.1 self.new.call × (self.new.waiting.items ≡ self.old.waiting.items) }
    {
        self.call.hear(&mut self.waiting, piece, tick)
    }
}

impl<W: World> Course<W> {
    /// Takes in a piece of the get, list or child list.
    pub(crate) fn hear_items(
        &mut self,
        scope: &ScanScope,
        piece: Told<W, Piece>,
        tick: u64,
    ) -> Taken
        requires form { IsCourse scope.now self.old }
        requires asked { (i : Items _) → self.old.items ≡ Some i → piece.0 ≡ asks.Call i.call.stream.call }
        ensures used { result ≡ taken.Used → (i : Inner) × ((state_of scope.now self.old).inner ≡ Some i) × (state_of scope.now self.new ≡ inner_heard (state_of scope.now self.old) i piece.1) × InnerTakes (state_of scope.now self.old) i piece.1 }
        ensures next { result ≡ taken.Used → (i : Items _) → self.old.items ≡ Some i → (i.call.listed ≡ true) × (is_out (anew i.call.stream piece.1) piece.1 ≡ true → ⊥) }
        ensures exact { result ≡ taken.Late → (i : Items _) → self.old.items ≡ Some i → i.call.listed ≡ true → is_out (anew i.call.stream piece.1) piece.1 ≡ true }
        ensures late { result ≡ taken.Late → IsUnchanged self.old self.new }
        ensures rest { (self.new.flight ≡ self.old.flight) × (self.new.end ≡ self.old.end) }
        ensures kept { (result ≡ taken.Used → ⊥) → state_of scope.now self.new ≡ state_of scope.now self.old }
        ensures form { IsCourse scope.now self.new }
    {
        let _sound = piece.get();
        let Some(call) = &mut self.items else {
            return Taken::Late;
        };
        match call.hear(&mut self.waiting, piece, tick) {
            Taken::Used => Taken::Used,
            Taken::Late => Taken::Late,
            Taken::Memory => Taken::Memory,
        }
    }

    /// Takes in a piece of the parents call.
    pub(crate) fn hear_parents(
        &mut self,
        scope: &ScanScope,
        piece: Told<W, Piece>,
        tick: u64,
    ) -> Taken
        requires form { IsCourse scope.now self.old }
        requires asked { (o : Parents _) → self.old.parents ≡ Some o → piece.0 ≡ asks.Call o.call.stream.call }
        ensures used { result ≡ taken.Used → (o : Outer) × ((state_of scope.now self.old).outer ≡ Some o) × (state_of scope.now self.new ≡ outer_heard (state_of scope.now self.old) o piece.1) × OuterTakes o piece.1 }
        ensures next { result ≡ taken.Used → (o : Parents _) → self.old.parents ≡ Some o → (o.call.listed ≡ true) × (is_out (anew o.call.stream piece.1) piece.1 ≡ true → ⊥) }
        ensures exact { result ≡ taken.Late → (o : Parents _) → self.old.parents ≡ Some o → o.call.listed ≡ true → is_out (anew o.call.stream piece.1) piece.1 ≡ true }
        ensures late { result ≡ taken.Late → IsUnchanged self.old self.new }
        ensures rest { (self.new.flight ≡ self.old.flight) × (self.new.end ≡ self.old.end) }
        ensures kept { (result ≡ taken.Used → ⊥) → state_of scope.now self.new ≡ state_of scope.now self.old }
        ensures form { IsCourse scope.now self.new }
    {
        let _sound = piece.get();
        let Some(call) = &mut self.parents else {
            return Taken::Late;
        };
        match call.hear(piece, tick) {
            Taken::Used => Taken::Used,
            Taken::Late => Taken::Late,
            Taken::Memory => Taken::Memory,
        }
    }
}
