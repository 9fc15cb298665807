ghost use Rattle.std.specs.Prelude.{◌≡◌, ◌≤◌, ◌<◌, [], true, length, Some, Err, IfSome, OnOk, slice_get};
ghost use Rattle.plain_desk.specs.Hearing.{IsLawfulSlot};
ghost use Rattle.plain_desk.specs.Lost.{HasLost};
ghost use Rattle.plain_desk.specs.Slots.{IsSlot, is_gone, is_running};
ghost use Rattle.plain_desk.specs.declared.sending.Unsent.TheVariants as unsent;

use crate::losing::lose;
use crate::slot_parts::SlotParts;
use crate::stage::Stage;
use child_link::{Flight, Prepared};
use sp_outside::Child;
use sp_world::World;
use std::alloc::Global;

/// How many bytes of request lines may be open at a child before a further call waits.
const OPEN_BYTES: usize = 16_384;

/// The greatest number of a call.
const LAST_CALL: u64 = (1 << 63) - 1;

/// Why no call was sent: the child is lost, or memory is wanting.
#[derive(Clone, Copy, Debug, PartialEq, Eq)]
pub(crate) enum Unsent {
    Lost,
    Memory,
}

/// The place of the first call that is due.
fn first_due(waiting: &[Prepared], tick: u64) -> Option<usize>
    ensures within { IfSome result (λ at. at < length waiting.now) }
    ensures due { IfSome result (λ at. (p : Prepared) → slice_get waiting.now at ≡ Some p → p.job.due ≤ tick) }
{
    for (at, call) in waiting.iter().enumerate() {
        if call.job.due <= tick {
            return Some(at);
        }
    }
    None
}

/// The bytes of the lines of open calls.
fn open_bytes(flights: &[Flight]) -> usize {
    let mut bytes: usize = 0;
    for flight in flights {
        bytes = bytes.saturating_add(flight.length);
    }
    bytes
}

/// Whether a call may be sent now: it is the only one, or its line and those of the open calls are short enough together.
fn has_room(flights: &[Flight], call: &Prepared) -> bool {
    flights.is_empty() || open_bytes(flights).saturating_add(call.length) <= OPEN_BYTES
}

/// Starts a child that isn't started.
fn start_up<W: World, C: Child<W>>(alloc: Global, parts: &mut SlotParts<W, C>) -> Result<(), Unsent>
    requires slot { IsSlot (HasLost W.tells W.book C.faulted C.gives) parts.old }
    requires lawful { IsLawfulSlot W.tells W.book C.connection C.log parts.old }
    ensures slot { IsSlot (HasLost W.tells W.book C.faulted C.gives) parts.new }
    ensures lawful { IsLawfulSlot W.tells W.book C.connection C.log parts.new }
    ensures gone { result ≡ Err unsent.Lost → is_gone parts.new.stage ≡ true }
    ensures running { OnOk result (is_running parts.new.stage ≡ true) }
    ensures same { OnOk result ((parts.new.waiting ≡ parts.old.waiting) × (parts.new.tick ≡ parts.old.tick)) }
    ensures own { C.connection parts.new.link.child ≡ C.connection parts.old.link.child }
{
    match parts.stage {
        Stage::Running => Ok(()),
        Stage::Gone => Err(Unsent::Lost),
        Stage::Unstarted => match parts.link.restart() {
            Ok(()) => {
                parts.stage = Stage::Running;
                Ok(())
            }
            Err(loss) => {
                drop(loss);
                lose(alloc, parts);
                Err(Unsent::Lost)
            }
        },
    }
}

/// Sends the call at a place, which is due.
fn send_at<W: World, C: Child<W>>(
    alloc: Global,
    parts: &mut SlotParts<W, C>,
    at: usize,
) -> Result<(), Unsent>
    requires within { at < length parts.old.waiting.items }
    requires due { (p : Prepared) → slice_get parts.old.waiting.items at ≡ Some p → p.job.due ≤ parts.old.tick }
    requires running { is_running parts.old.stage ≡ true }
    requires slot { IsSlot (HasLost W.tells W.book C.faulted C.gives) parts.old }
    requires lawful { IsLawfulSlot W.tells W.book C.connection C.log parts.old }
    ensures slot { IsSlot (HasLost W.tells W.book C.faulted C.gives) parts.new }
    ensures lawful { IsLawfulSlot W.tells W.book C.connection C.log parts.new }
    ensures gone { result ≡ Err unsent.Lost → is_gone parts.new.stage ≡ true }
    ensures own { C.connection parts.new.link.child ≡ C.connection parts.old.link.child }
{
    if parts.link.child().sent() >= LAST_CALL {
        return Err(Unsent::Memory);
    }
    let _journal = parts.gate.journal();
    let asked = parts
        .gate
        .ask(alloc, &parts.waiting[at].job.tags, parts.tick);
    let Ok(permit) = asked else {
        return Err(Unsent::Memory);
    };
    let call = parts.waiting.remove(at);
    match parts.link.send(permit, call) {
        Ok(()) => Ok(()),
        Err(loss) => {
            drop(loss);
            lose(alloc, parts);
            Err(Unsent::Lost)
        }
    }
}

/// Sends the first call that is due, where there is room. Whether one was sent.
fn send_next<W: World, C: Child<W>>(
    alloc: Global,
    parts: &mut SlotParts<W, C>,
) -> Result<bool, Unsent>
    requires slot { IsSlot (HasLost W.tells W.book C.faulted C.gives) parts.old }
    requires lawful { IsLawfulSlot W.tells W.book C.connection C.log parts.old }
    ensures slot { IsSlot (HasLost W.tells W.book C.faulted C.gives) parts.new }
    ensures lawful { IsLawfulSlot W.tells W.book C.connection C.log parts.new }
    ensures gone { result ≡ Err unsent.Lost → is_gone parts.new.stage ≡ true }
    ensures own { C.connection parts.new.link.child ≡ C.connection parts.old.link.child }
{
    let Some(at) = first_due(&parts.waiting, parts.tick) else {
        return Ok(false);
    };
    if !has_room(parts.link.flights(), &parts.waiting[at]) {
        return Ok(false);
    }
    start_up(alloc, parts)?;
    send_at(alloc, parts, at)?;
    Ok(true)
}

/// Sends the calls that are due, in the order in which they came, as long as there is room.
pub(crate) fn send_due<W: World, C: Child<W>>(
    alloc: Global,
    parts: &mut SlotParts<W, C>,
) -> Result<(), Unsent>
    requires slot { IsSlot (HasLost W.tells W.book C.faulted C.gives) parts.old }
    requires lawful { IsLawfulSlot W.tells W.book C.connection C.log parts.old }
    ensures slot { IsSlot (HasLost W.tells W.book C.faulted C.gives) parts.new }
    ensures lawful { IsLawfulSlot W.tells W.book C.connection C.log parts.new }
    ensures gone { result ≡ Err unsent.Lost → is_gone parts.new.stage ≡ true }
    ensures own { C.connection parts.new.link.child ≡ C.connection parts.old.link.child }
{
    for _ in 0..parts.waiting.len() {
        if !send_next(alloc, parts)? {
            return Ok(());
        }
    }
    Ok(())
}
