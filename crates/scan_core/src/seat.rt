ghost use Rattle.std.specs.Prelude.{◌≡◌, ◌↔◌, Some, IsTrue};
ghost use Rattle.scan_core.specs.Hearing.{seat_of, IsAskedAt};
ghost use Rattle.scan_core.specs.Listing.{items_slot};
ghost use Rattle.scan_core.specs.declared.calls.ItemsCall.{ItemsCall as Items};
ghost use Rattle.scan_core.specs.declared.calls.ParentsCall.{ParentsCall as Parents};

use crate::calls::OpenCall;
use crate::course::Course;
use crate::listing::{items_function, items_slot};
use crate::scope::ScanScope;
use sp_model::{Access, Asked, Seat, same_key};
use sp_world::World;

/// Who waits at a seat.
#[derive(Clone, Copy, Debug, PartialEq, Eq)]
pub enum SeatOf {
    /// The get, list or child list.
    Items,
    /// The parents call.
    Parents,
    /// A function of a row in flight.
    Row,
}

/// Who waits at a seat with this number of a function.
pub(crate) fn seat_of(access: Access, function: u32) -> SeatOf
    ensures { result ≡ seat_of access function }
{
    if function == items_function(access) {
        return SeatOf::Items;
    }
    if function == 64 {
        return SeatOf::Parents;
    }
    SeatOf::Row
}

impl<W: World> OpenCall<W> {
    /// Whether a seat waits for this call, in its present attempt.
    fn is_asked_at(&self, slot: usize, seat: Seat, asked: &Asked) -> bool
        ensures { IsTrue result ↔ IsAskedAt self.now slot seat asked.now }
    {
        match asked {
            Asked::Call(key) => {
                seat.slot == slot
                    && seat.generation == self.generation
                    && same_key(key, self.stream.call())
            }
            _ => false,
        }
    }
}

impl<W: World> Course<W> {
    /// Whether a seat waits for the get, list or child list.
    pub(crate) fn items_at(&self, scope: &ScanScope, seat: Seat, asked: &Asked) -> bool
        ensures { IsTrue result ↔ ((i : Items _) × (self.now.items ≡ Some i) × IsAskedAt i.call (items_slot scope.now.request.access) seat asked.now) }
    {
        match &self.items {
            Some(items) => {
                items
                    .call
                    .is_asked_at(items_slot(scope.request.access), seat, asked)
            }
            None => false,
        }
    }

    /// Whether a seat waits for the parents call.
    pub(crate) fn parents_at(&self, seat: Seat, asked: &Asked) -> bool
        ensures { IsTrue result ↔ ((o : Parents _) × (self.now.parents ≡ Some o) × IsAskedAt o.call 0 seat asked.now) }
    {
        match &self.parents {
            Some(parents) => parents.call.is_asked_at(0, seat, asked),
            None => false,
        }
    }
}
