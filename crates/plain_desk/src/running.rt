ghost use Rattle.std.specs.Prelude.{◌≡◌, ◌≤◌, ◌<◌, ◌^◌, length, map, IfSome};
ghost use Rattle.plain_desk.specs.Lost.{HasLost, IsGoneAt, KeepGone, IfLoss};

use crate::slot::Slot;
use crate::stepping::Stepped;
use sp_model::Seat;
use sp_outside::Child;
use sp_world::{ToldLine, World};
use std::alloc::Global;

/// What one of the slots did: it received what is told for a seat, its child is lost, or memory is wanting; or none has anything to receive,
/// and the next call is due then.
#[derive(Drop)]
pub(crate) enum Ran<W: World> {
    Told { seat: Seat, told: ToldLine<W> },
    Lost(usize),
    Idle(Option<u64>),
    Memory,
}

/// Has the slot at a place do what it can, if anything.
fn step_at<W: World, C: Child<W>>(
    alloc: Global,
    slots: &mut Vec<Slot<W, C>>,
    at: usize,
    tick: u64,
) -> Option<Ran<W>>
    requires within { at < length slots.old.items }
    requires small { tick ≤ 2 ^ 62 }
    ensures len { length slots.new.items ≡ length slots.old.items }
    ensures own { map (λ s. C.connection s.link.child) slots.new.items ≡ map (λ s. C.connection s.link.child) slots.old.items }
    ensures gone { KeepGone (HasLost W.tells W.book C.faulted C.gives) slots.old.items slots.new.items }
    ensures lost { IfSome result (λ ran. IfLoss ran (IsGoneAt (HasLost W.tells W.book C.faulted C.gives) slots.new.items)) }
{
    let slot = &mut slots[at];
    match slot.step(alloc, tick) {
        Stepped::Told { seat, told } => Some(Ran::Told { seat, told }),
        Stepped::Lost => Some(Ran::Lost(at)),
        Stepped::Memory => Some(Ran::Memory),
        Stepped::Idle => None,
    }
}

/// The least tick at which a call that waits is due.
fn least_due<W: World, C: Child<W>>(slots: &[Slot<W, C>]) -> Option<u64> {
    let mut least: Option<u64> = None;
    for slot in slots {
        least = sooner(least, slot.due());
    }
    least
}

fn sooner(one: Option<u64>, other: Option<u64>) -> Option<u64> {
    match (one, other) {
        (Some(a), Some(b)) => Some(a.min(b)),
        (Some(a), None) => Some(a),
        (None, b) => b,
    }
}

/// Has the first slot that can do something do it, and before all others the one at a place.
pub(crate) fn run_slots<W: World, C: Child<W>>(
    alloc: Global,
    slots: &mut Vec<Slot<W, C>>,
    first: usize,
    tick: u64,
) -> Ran<W>
    requires { tick ≤ 2 ^ 62 }
    ensures len { length slots.new.items ≡ length slots.old.items }
    ensures own { map (λ s. C.connection s.link.child) slots.new.items ≡ map (λ s. C.connection s.link.child) slots.old.items }
    ensures gone { KeepGone (HasLost W.tells W.book C.faulted C.gives) slots.old.items slots.new.items }
    ensures lost { IfLoss result (IsGoneAt (HasLost W.tells W.book C.faulted C.gives) slots.new.items) }
{
    if first < slots.len() {
        if let Some(ran) = step_at(alloc, slots, first, tick) {
            return ran;
        }
    }
    for at in 0..slots.len() {
        if let Some(ran) = step_at(alloc, slots, at, tick) {
            return ran;
        }
    }
    Ran::Idle(least_due(slots))
}

/// Drops what waits at a place.
fn forget_at<W: World, C: Child<W>>(slots: &mut Vec<Slot<W, C>>, at: usize)
    requires { at < length slots.old.items }
    ensures len { length slots.new.items ≡ length slots.old.items }
    ensures own { map (λ s. C.connection s.link.child) slots.new.items ≡ map (λ s. C.connection s.link.child) slots.old.items }
    ensures gone { KeepGone (HasLost W.tells W.book C.faulted C.gives) slots.old.items slots.new.items }
{
    let slot = &mut slots[at];
    slot.forget();
}

/// Drops what waits.
pub(crate) fn forget_all<W: World, C: Child<W>>(slots: &mut Vec<Slot<W, C>>)
    ensures own { map (λ s. C.connection s.link.child) slots.new.items ≡ map (λ s. C.connection s.link.child) slots.old.items }
    ensures gone { KeepGone (HasLost W.tells W.book C.faulted C.gives) slots.old.items slots.new.items }
{
    for at in 0..slots.len() {
        forget_at(slots, at);
    }
}
