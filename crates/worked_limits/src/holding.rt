//! A gate with the grants of it that are held.

ghost use Rattle.std.specs.Prelude.{◌≡◌, ◌≤◌, ◌<◌, ◌+◌, ◌^◌, [], ◌∷◌, ◌++◌, true, Some, None, slice_get, slice_set, vec_len};
ghost use Rattle.rate_gate.specs.Journal.{last_tick};
ghost use Rattle.worked_limits.specs.Held.{AreOpen, AreHeld};

use call_jobs::Job;
use call_queue::{Picked, Queue};
use rate_gate::{CallTags, Gate, Used, Wait};
use sp_value::Text;
use std::alloc::Global;

/// The last tick.
pub const LAST: u64 = 4_611_686_018_427_387_904;

/// Whether something may happen at a gate at a tick.
pub fn may_be(gate: &Gate, tick: u64) -> bool
    ensures { result ≡ true → (last_tick gate.now.journal ≤ tick) × (tick ≤ 2 ^ 62) }
{
    gate.journal().last() <= tick && tick <= LAST
}

/// Asks for a call, and holds its grant.
pub fn ask(
    alloc: Global,
    gate: &mut Gate,
    held: &mut Vec<Option<Used>>,
    tags: &CallTags,
    tick: u64,
) -> Result<(), Wait>
    requires held { AreHeld gate.old.journal held.old.items }
    requires since { last_tick gate.old.journal ≤ tick }
    requires range { tick ≤ 2 ^ 62 }
    ensures { AreHeld gate.new.journal held.new.items }
{
    let Ok(()) = held.reserve(1) else {
        return Err(Wait::Memory);
    };
    let _ = gate.journal().entries();
    let permit = gate.ask(alloc, tags, tick)?;
    held.push_reserved(Some(permit.into_used()));
    Ok(())
}

/// Picks a job of a connection, and holds its grant; else the least tick at which there may be one, where one is known.
pub fn pick(
    alloc: Global,
    queue: &mut Queue,
    gate: &mut Gate,
    held: &mut Vec<Option<Used>>,
    connection: &Text,
    tick: u64,
) -> Option<Result<Job, Option<u64>>>
    requires held { AreHeld gate.old.journal held.old.items }
    requires since { last_tick gate.old.journal ≤ tick }
    requires range { tick ≤ 2 ^ 62 }
    ensures { AreHeld gate.new.journal held.new.items }
{
    let Ok(()) = held.reserve(1) else {
        return None;
    };
    let _ = gate.journal().entries();
    match queue.pick(alloc, connection, gate, tick) {
        Picked::Job(job, permit) => {
            held.push_reserved(Some(permit.into_used()));
            Some(Ok(job))
        }
        Picked::NoneReady { next } => Some(Err(next)),
        Picked::Memory => None,
    }
}

/// Takes out what stands at a place.
fn take_at(held: &mut Vec<Option<Used>>, place: usize) -> Option<Used>
    requires { place < vec_len held.old }
    ensures there { slice_get held.old.items place ≡ Some result }
    ensures left { held.new.items ≡ slice_set held.old.items place None }
{
    held[place].take()
}

/// Gives a grant back, where it is held.
#[tactic(auto, using(crate::proofs::Places::is_open_at, crate::proofs::Places::none_there))]
pub fn give(gate: &mut Gate, held: &mut Vec<Option<Used>>, number: usize, tick: u64) -> Option<()>
    requires held { AreHeld gate.old.journal held.old.items }
    requires since { last_tick gate.old.journal ≤ tick }
    requires range { tick ≤ 2 ^ 62 }
    ensures { AreHeld gate.new.journal held.new.items }
{
    if number >= held.len() {
        return None;
    }
    match take_at(held, number) {
        Some(used) => {
            gate.give_back(used, tick);
            Some(())
        }
        None => None,
    }
}

/// Gives a grant back that was taken after the others that are held.
#[tactic(auto, using(crate::proofs::Places::last_open))]
fn give_beside(gate: &mut Gate, others: &Vec<Option<Used>>, last: Option<Used>, tick: u64)
    requires open { AreOpen gate.old.journal (others.now.items ++ last ∷ []) }
    requires since { last_tick gate.old.journal ≤ tick }
    requires range { tick ≤ 2 ^ 62 }
    ensures open { AreOpen gate.new.journal others.now.items }
    ensures since { last_tick gate.new.journal ≤ tick }
{
    match last {
        Some(used) => gate.give_back(used, tick),
        None => {}
    }
}

/// Gives the grant back that was taken last, where it is held.
fn give_last(gate: &mut Gate, held: &mut Vec<Option<Used>>, tick: u64)
    requires some { 0 < vec_len held.old }
    requires open { AreOpen gate.old.journal held.old.items }
    requires since { last_tick gate.old.journal ≤ tick }
    requires range { tick ≤ 2 ^ 62 }
    ensures open { AreOpen gate.new.journal held.new.items }
    ensures since { last_tick gate.new.journal ≤ tick }
    ensures len { vec_len held.new + 1 ≡ vec_len held.old }
{
    let last = held.take_last();
    give_beside(gate, held, last, tick);
}

/// Gives all back.
pub fn close(gate: Gate, held: Vec<Option<Used>>)
    requires { AreHeld gate.journal held.items }
{
    let mut gate = gate;
    let mut held = held;
    let tick = gate.journal().last();
    let count = held.len();
    for _place in 0..count {
        give_last(&mut gate, &mut held, tick);
    }
    held.destroy_empty();
}
