ghost use Rattle.std.specs.Prelude.{◌≡◌, ◌≢◌, ◌≤◌, ◌^◌, [], true};
ghost use Rattle.plain_desk.specs.Hearing.{IsLawfulSlot};
ghost use Rattle.plain_desk.specs.Lost.{HasLost, is_loss};
ghost use Rattle.plain_desk.specs.Slots.{IsSlot, is_gone};

use crate::losing::{lose, return_grant};
use crate::sending::{Unsent, send_due};
use crate::slot_parts::SlotParts;
use child_link::{Arrived, RecvEnd};
use sp_model::Seat;
use sp_outside::Child;
use sp_world::{ToldLine, World};
use std::alloc::Global;

/// What a slot did: it received what is told for a seat, its child is lost, it has nothing to receive, or memory is wanting.
#[derive(Drop)]
pub(crate) enum Stepped<W: World> {
    Told { seat: Seat, told: ToldLine<W> },
    Lost,
    Idle,
    Memory,
}

/// Receives one line of a child that has open calls.
fn receive_one<W: World, C: Child<W>>(alloc: Global, parts: &mut SlotParts<W, C>) -> Stepped<W>
    requires some { parts.old.link.flights.items ≢ [] }
    requires slot { IsSlot (HasLost W.tells W.book C.faulted C.gives) parts.old }
    requires lawful { IsLawfulSlot W.tells W.book C.connection C.log parts.old }
    ensures slot { IsSlot (HasLost W.tells W.book C.faulted C.gives) parts.new }
    ensures lawful { IsLawfulSlot W.tells W.book C.connection C.log parts.new }
    ensures gone { is_loss result ≡ true → is_gone parts.new.stage ≡ true }
    ensures own { C.connection parts.new.link.child ≡ C.connection parts.old.link.child }
{
    match parts.link.receive(alloc) {
        Ok(arrived) => {
            let Arrived {
                seat,
                session: _,
                told,
                used,
            } = arrived;
            return_grant(&mut parts.gate, used, parts.tick);
            Stepped::Told { seat, told }
        }
        Err(RecvEnd::Lost(loss)) => {
            drop(loss);
            lose(alloc, parts);
            Stepped::Lost
        }
        Err(RecvEnd::Memory) => Stepped::Memory,
    }
}

/// Sends the calls that are due at a tick and for which there is room, and receives one line where calls are open.
pub(crate) fn step_slot<W: World, C: Child<W>>(
    alloc: Global,
    parts: &mut SlotParts<W, C>,
    tick: u64,
) -> Stepped<W>
    requires small { tick ≤ 2 ^ 62 }
    requires slot { IsSlot (HasLost W.tells W.book C.faulted C.gives) parts.old }
    requires lawful { IsLawfulSlot W.tells W.book C.connection C.log parts.old }
    ensures slot { IsSlot (HasLost W.tells W.book C.faulted C.gives) parts.new }
    ensures lawful { IsLawfulSlot W.tells W.book C.connection C.log parts.new }
    ensures gone { is_loss result ≡ true → is_gone parts.new.stage ≡ true }
    ensures own { C.connection parts.new.link.child ≡ C.connection parts.old.link.child }
{
    parts.tick = parts.tick.max(tick);
    match send_due(alloc, parts) {
        Ok(()) => {}
        Err(Unsent::Lost) => return Stepped::Lost,
        Err(Unsent::Memory) => return Stepped::Memory,
    }
    if parts.link.flights().is_empty() {
        return Stepped::Idle;
    }
    receive_one(alloc, parts)
}
