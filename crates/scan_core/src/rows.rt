ghost use Rattle.std.specs.Prelude.{◌≡◌, ◌↔◌, IsTrue, IfOk};
ghost use Rattle.sp_model.specs.declared.call.Asked.TheVariants as asks;
ghost use Rattle.sp_model.specs.declared.call.CallKey.{CallKey};
ghost use Rattle.row_flight.specs.Flying.{IsAwaited, heard_at};
ghost use Rattle.row_flight.specs.declared.frame.Taken.TheVariants as taken;
ghost use Rattle.scan_core.specs.Courses.{IsCourse};
ghost use Rattle.scan_core.specs.Hearing.{RowAwaits, RowsKeep};

use crate::course::Course;
use crate::scope::ScanScope;
use row_flight::{Flight, Taken};
use sp_model::{Asked, Piece, Seat};
use sp_value::Memory;
use sp_world::{Told, World};
use std::alloc::Global;

/// Whether a seat waits for this piece of a function's call.
fn is_awaited<W: World>(
    flight: &Flight,
    alloc: Global,
    seat: Seat,
    piece: &Told<W, Piece>,
) -> Result<bool, Memory>
    ensures { IfOk result (λ awaited. IsTrue awaited ↔ ((key : CallKey) × (piece.now.0 ≡ asks.Call key) × IsAwaited flight.now seat key piece.now.1)) }
{
    match piece.asked() {
        Asked::Call(key) => flight.awaits(alloc, seat, key, piece.get()),
        _ => Ok(false),
    }
}

impl<W: World> Course<W> {
    /// Takes in a piece of a function's call, at this tick, for the seat that waits for it.
    pub(crate) fn hear_rows(
        &mut self,
        alloc: Global,
        scope: &ScanScope,
        seat: Seat,
        piece: Told<W, Piece>,
        tick: u64,
    ) -> Taken
        requires form { IsCourse scope.now self.old }
        ensures used { result ≡ taken.Used → RowAwaits self.old seat piece.0 piece.1 × (self.new ≡ record self.old { flight = heard_at self.old.flight seat piece.1 tick }) × RowsKeep scope.now self.old piece.0 piece.1 self.new }
        ensures late { result ≡ taken.Late → RowAwaits self.old seat piece.0 piece.1 → ⊥ }
        ensures kept { (result ≡ taken.Used → ⊥) → self.new ≡ self.old }
        ensures form { IsCourse scope.now self.new }
    {
        match is_awaited(&self.flight, alloc, seat, &piece) {
            Err(_) => Taken::Memory,
            Ok(false) => Taken::Late,
            Ok(true) => match self.flight.hear(alloc, seat, piece.into_value(), tick) {
                Ok(()) => Taken::Used,
                Err(_) => Taken::Memory,
            },
        }
    }
}
