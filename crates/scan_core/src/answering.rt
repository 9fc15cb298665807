ghost use Rattle.std.specs.Prelude.{◌≡◌, ◌⊎◌, None};
ghost use Rattle.row_flight.specs.declared.frame.Taken.TheVariants as taken;
ghost use Rattle.scan_core.specs.Courses.{state_of, table_of, IsScope, IsCourse};
ghost use Rattle.scan_core.specs.Hearing.{seat_of, ItemsAwait, ItemsHear, ParentsAwait, ParentsHear, AwaitsBy, Awaits, Hears, TakesIn, IsUnchanged, StandsStill};
ghost use Rattle.scan_core.specs.Next.{IsStill};

use crate::course::Course;
use crate::scope::ScanScope;
use crate::seat::{SeatOf, seat_of};
use row_flight::Taken;
use sp_model::{Piece, Seat};
use sp_world::{Told, World};
use std::alloc::Global;

impl<W: World> Course<W> {
    /// Takes in a piece of the get, list or child list, for the seat that waits for it.
    fn hear_items_at(
        &mut self,
        scope: &ScanScope,
        seat: Seat,
        piece: Told<W, Piece>,
        tick: u64,
    ) -> Taken
        requires form { IsCourse scope.now self.old }
        ensures used { result ≡ taken.Used → ItemsAwait scope.now self.old seat piece.0 piece.1 × ItemsHear scope.now self.old piece.1 self.new × (self.new.flight ≡ self.old.flight) }
        ensures late { result ≡ taken.Late → (ItemsAwait scope.now self.old seat piece.0 piece.1 → ⊥) × IsUnchanged self.old self.new }
        ensures kept { (result ≡ taken.Used → ⊥) → StandsStill scope.now self.old self.new }
        ensures form { IsCourse scope.now self.new }
    {
        if !self.items_at(scope, seat, piece.asked()) {
            return Taken::Late;
        }
        self.hear_items(scope, piece, tick)
    }

    /// Takes in a piece of the parents call, for the seat that waits for it.
    fn hear_parents_at(
        &mut self,
        scope: &ScanScope,
        seat: Seat,
        piece: Told<W, Piece>,
        tick: u64,
    ) -> Taken
        requires form { IsCourse scope.now self.old }
        ensures used { result ≡ taken.Used → ParentsAwait self.old seat piece.0 piece.1 × ParentsHear scope.now self.old piece.1 self.new × (self.new.flight ≡ self.old.flight) }
        ensures late { result ≡ taken.Late → (ParentsAwait self.old seat piece.0 piece.1 → ⊥) × IsUnchanged self.old self.new }
        ensures kept { (result ≡ taken.Used → ⊥) → StandsStill scope.now self.old self.new }
        ensures form { IsCourse scope.now self.new }
    {
        if !self.parents_at(seat, piece.asked()) {
            return Taken::Late;
        }
        self.hear_parents(scope, piece, tick)
    }

    /// Takes in a piece for the seat that waits for it.
    fn hear(
        &mut self,
        alloc: Global,
        scope: &ScanScope,
        seat: Seat,
        piece: Told<W, Piece>,
        tick: u64,
    ) -> Taken
        requires form { IsCourse scope.now self.old }
        ensures used { result ≡ taken.Used → Hears scope.now self.old seat piece.0 piece.1 tick self.new }
        ensures late { result ≡ taken.Late → (AwaitsBy (seat_of scope.now.request.access seat.function) scope.now self.old seat piece.0 piece.1 → ⊥) × IsUnchanged self.old self.new }
        ensures kept { (result ≡ taken.Used → ⊥) → StandsStill scope.now self.old self.new }
        ensures form { IsCourse scope.now self.new }
    {
        match seat_of(scope.request.access, seat.function) {
            SeatOf::Items => self.hear_items_at(scope, seat, piece, tick),
            SeatOf::Parents => self.hear_parents_at(scope, seat, piece, tick),
            SeatOf::Row => self.hear_rows(alloc, scope, seat, piece, tick),
        }
    }

    /// Takes in a piece that was told of a call, at this tick, for the seat that waits for it, and goes on as far as that leads. After
    /// `Late` nothing changed. After `Memory` the scan stands as before, or the piece is taken in and some steps may be left to take.
    pub fn answered(
        &mut self,
        alloc: Global,
        scope: &ScanScope,
        seat: Seat,
        piece: Told<W, Piece>,
        tick: u64,
    ) -> Taken
        requires form { IsCourse scope.now self.old }
        requires sources { IsScope scope.now }
        ensures used { result ≡ taken.Used → TakesIn scope.now self.old seat piece.0 piece.1 tick self.new }
        ensures still { result ≡ taken.Used → self.new.end ≡ None → IsStill (table_of scope.now) scope.now.request scope.now.window (state_of scope.now self.new) }
        ensures late { result ≡ taken.Late → (Awaits scope.now self.old seat piece.0 piece.1 → ⊥) × IsUnchanged self.old self.new }
        ensures kept { result ≡ taken.Late → StandsStill scope.now self.old self.new }
        ensures memory { result ≡ taken.Memory → StandsStill scope.now self.old self.new ⊎ TakesIn scope.now self.old seat piece.0 piece.1 tick self.new }
        ensures form { IsCourse scope.now self.new }
    {
        if self.end.is_some() {
            return Taken::Late;
        }
        match self.hear(alloc, scope, seat, piece, tick) {
            Taken::Used => match self.advance(alloc, scope) {
                Ok(()) => Taken::Used,
                Err(_) => Taken::Memory,
            },
            Taken::Late => Taken::Late,
            Taken::Memory => Taken::Memory,
        }
    }
}
