ghost use Rattle.std.specs.Prelude.{◌≡◌, ◌≤◌, ◌^◌, [], true, Some, IfSome};
ghost use Rattle.rate_gate.specs.Journal.{IsOpen, last_tick};
ghost use Rattle.plain_desk.specs.Grants.{AreHeld};
ghost use Rattle.plain_desk.specs.Hearing.{IsLawfulSlot};
ghost use Rattle.plain_desk.specs.Lost.{HasLost};
ghost use Rattle.plain_desk.specs.Slots.{IsSlot, Keeps, is_gone, returned};

use crate::slot_parts::SlotParts;
use crate::stage::Stage;
use child_link::Flight;
use rate_gate::{Gate, Used};
use sp_outside::Child;
use sp_world::World;
use std::alloc::Global;

/// Returns a grant, where there is one.
pub(crate) fn return_grant(gate: &mut Gate, used: Option<Used>, tick: u64)
    requires grant { IfSome used (λ u. IsOpen gate.old.journal u.number u.tags) }
    requires clock { last_tick gate.old.journal ≤ tick }
    requires small { tick ≤ 2 ^ 62 }
    ensures { gate.new.journal ≡ returned gate.old.journal used tick }
{
    match used {
        Some(used) => gate.give_back(used, tick),
        None => {}
    }
}

/// Ends an open call: returns its grant, and drops its job.
fn end_flight(gate: &mut Gate, flight: Flight, tick: u64)
    requires grant { IsOpen gate.old.journal flight.used.number flight.used.tags }
    requires clock { last_tick gate.old.journal ≤ tick }
    requires small { tick ≤ 2 ^ 62 }
    ensures { gate.new.journal ≡ returned gate.old.journal (Some flight.used) tick }
{
    let Flight {
        id: _,
        job,
        taken: _,
        used,
        length: _,
    } = flight;
    drop(job);
    gate.give_back(used, tick);
}

/// Ends open calls.
pub(crate) fn end_flights(gate: &mut Gate, flights: Vec<Flight>, tick: u64)
    requires held { AreHeld gate.old.journal flights.items }
    requires clock { last_tick gate.old.journal ≤ tick }
    requires small { tick ≤ 2 ^ 62 }
    ensures { last_tick gate.new.journal ≤ tick }
{
    let mut flights = flights;
    let count = flights.len();
    for i in 0..count {
        let flight = flights.take_last();
        end_flight(gate, flight, tick);
    }
    flights.destroy_empty();
}

/// A child that was lost is gone: its open calls end, and what waits for it is dropped.
pub(crate) fn lose<W: World, C: Child<W>>(alloc: Global, parts: &mut SlotParts<W, C>)
    requires keeps { Keeps parts.old.link.flights.items parts.old.gate.journal parts.old.tick }
    requires lost { HasLost W.tells W.book C.faulted C.gives parts.old.link.child }
    requires lawful { IsLawfulSlot W.tells W.book C.connection C.log parts.old }
    ensures slot { IsSlot (HasLost W.tells W.book C.faulted C.gives) parts.new }
    ensures lawful { IsLawfulSlot W.tells W.book C.connection C.log parts.new }
    ensures gone { is_gone parts.new.stage ≡ true }
    ensures own { C.connection parts.new.link.child ≡ C.connection parts.old.link.child }
{
    let flights = parts.link.reissue(alloc);
    end_flights(&mut parts.gate, flights, parts.tick);
    parts.waiting.clear();
    parts.stage = Stage::Gone;
}
