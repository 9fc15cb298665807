ghost use Rattle.std.specs.Prelude.{◌≡◌, ◌≤◌, ◌<◌, ◌+◌, ◌-◌, ◌^◌, ◌++◌, ◌∷◌, [], ◌⊎◌, ◌&&◌, None, Ok, Err, is_ok, IsTrue, IfOk, IfErr, OnOk, OnErr, true, false, if◌then◌else◌, vec_len, vec_capacity};
ghost use Rattle.call_jobs.specs.Jobs.{asked_by, function_by};
ghost use Rattle.sp_world.specs.RequestLines.{IsAskedForm};
ghost use Rattle.sp_outside.specs.Causes.{Rose};
ghost use Rattle.sp_outside.specs.declared.log.Loss.TheVariants as loss;
ghost use Rattle.sp_outside.specs.declared.log.Event.TheVariants as event;
ghost use Rattle.child_link.specs.Sent.{flight_of, IsHeardIf};
ghost use Rattle.child_link.specs.Open.{calls_of};
ghost use Rattle.child_link.specs.Holds.{Holds};

use crate::flight::Flight;
use crate::prepared::Prepared;
use crate::preparing::prepared;
use call_jobs::Job;
use rate_gate::Permit;
use sp_outside::{Child, Loss};
use sp_world::World;
use sqlite_items::Items;
use std::alloc::Global;
use std::mem;

/// A child, its open calls in order of their numbers, a line that it gave and that isn't looked at yet, whether it was started and not
/// lost since, and for how many calls more there is room.
pub struct Parts<C> {
    pub child: C,
    pub flights: Vec<Flight>,
    pub kept: Option<Items<u8>>,
    pub up: bool,
    pub prepared: usize,
}

/// Makes the line of a job but for its number, and room for one open call more.
pub(crate) fn prepare_call<C>(
    alloc: Global,
    parts: &mut Parts<C>,
    job: Job,
) -> Result<Prepared, Job>
    requires form { IsAskedForm (function_by job) (asked_by job) }
    requires room { vec_len parts.old.flights + parts.old.prepared ≤ vec_capacity parts.old.flights }
    ensures ok { IfOk result (λ p. p.job ≡ job) }
    ensures err { IfErr result (λ back. back ≡ job) }
    ensures prepared { OnOk result (parts.new.prepared ≡ parts.old.prepared + 1) }
    ensures refused { OnErr result (parts.new.prepared ≡ parts.old.prepared) }
    ensures room { vec_len parts.new.flights + parts.new.prepared ≤ vec_capacity parts.new.flights }
    ensures same { (parts.new.child ≡ parts.old.child) × (parts.new.flights.items ≡ parts.old.flights.items) × (parts.new.kept ≡ parts.old.kept) × (parts.new.up ≡ parts.old.up) }
{
    let Some(more) = parts.prepared.checked_add(1) else {
        return Err(job);
    };
    let Ok(()) = parts.flights.reserve(more) else {
        return Err(job);
    };
    match prepared(alloc, job) {
        Ok(ready) => {
            parts.prepared = more;
            Ok(ready)
        }
        Err(job) => Err(job),
    }
}

/// Sends a call, which is open afterwards in both cases.
pub(crate) fn send_call<W: World, C: Child<W>>(
    parts: &mut Parts<C>,
    permit: Permit,
    prepared: Prepared,
) -> Result<(), Loss>
    requires room { vec_len parts.old.flights + 1 ≤ vec_capacity parts.old.flights }
    requires prepared { 1 ≤ parts.old.prepared }
    requires small { C.sends parts.old.child < 2 ^ 63 - 1 }
    requires holds { Holds W.tells W.book (C.log parts.old.child) (C.last parts.old.child) (C.gives parts.old.child) parts.old.kept parts.old.up (calls_of parts.old.flights.items) }
    ensures holds { Holds W.tells W.book (C.log parts.new.child) (C.last parts.new.child) (C.gives parts.new.child) parts.new.kept parts.new.up (calls_of parts.new.flights.items) }
    ensures sends { C.sends parts.new.child ≡ C.sends parts.old.child + 1 }
    ensures flights { parts.new.flights.items ≡ parts.old.flights.items ++ flight_of (C.sends parts.new.child) prepared permit ∷ [] }
    ensures log { IsTrue W.tells → IsHeardIf result (C.sends parts.new.child) prepared.job (C.log parts.old.child) (C.log parts.new.child) }
    ensures lost { result ≡ Ok tt ⊎ ((result ≡ Err loss.Fault) × Rose (C.faulted parts.old.child) (C.faulted parts.new.child)) }
    ensures later { C.faulted parts.old.child ≤ C.faulted parts.new.child }
    ensures up { parts.new.up ≡ (parts.old.up && is_ok result) }
    ensures kept { parts.new.kept ≡ parts.old.kept }
    ensures own { (C.connection parts.new.child ≡ C.connection parts.old.child) × (C.gives parts.new.child ≡ C.gives parts.old.child) }
    ensures room { (vec_len parts.new.flights ≡ vec_len parts.old.flights + 1) × (vec_capacity parts.old.flights ≤ vec_capacity parts.new.flights) × (parts.new.prepared + 1 ≡ parts.old.prepared) }
{
    let Prepared { job, line, length } = prepared;
    let id = parts.child.sent() + 1;
    let line = line.fill(id);
    let sent = parts.child.send(&line);
    let flight = Flight {
        id,
        job,
        taken: 0,
        used: permit.into_used(),
        length,
    };
    parts.flights.push_reserved(flight);
    parts.prepared -= 1;
    match sent {
        Ok(()) => Ok(()),
        Err(_) => {
            parts.up = false;
            Err(Loss::Fault)
        }
    }
}

/// Hands back the open calls.
pub(crate) fn end_calls<C>(alloc: Global, parts: &mut Parts<C>) -> Vec<Flight>
    ensures back { result.items ≡ parts.old.flights.items }
    ensures none { (parts.new.flights.items ≡ []) × (parts.new.up ≡ false) × (parts.new.prepared ≡ 0) }
    ensures child { (parts.new.child ≡ parts.old.child) × (parts.new.kept ≡ parts.old.kept) }
    ensures room { vec_len parts.new.flights + parts.new.prepared ≤ vec_capacity parts.new.flights }
{
    parts.up = false;
    parts.prepared = 0;
    mem::replace(&mut parts.flights, Vec::new(alloc))
}

/// Starts the child anew, where no call is open.
pub(crate) fn start_child<W: World, C: Child<W>>(parts: &mut Parts<C>) -> Result<(), Loss>
    requires none { parts.old.flights.items ≡ [] }
    ensures holds { Holds W.tells W.book (C.log parts.new.child) (C.last parts.new.child) (C.gives parts.new.child) parts.new.kept parts.new.up (calls_of parts.new.flights.items) }
    ensures up { parts.new.up ≡ is_ok result }
    ensures log { IsTrue W.tells → C.log parts.new.child ≡ (if is_ok result then C.log parts.old.child ++ event.Started ∷ [] else C.log parts.old.child) }
    ensures lost { result ≡ Ok tt ⊎ ((result ≡ Err loss.Fault) × Rose (C.faulted parts.old.child) (C.faulted parts.new.child)) }
    ensures later { C.faulted parts.old.child ≤ C.faulted parts.new.child }
    ensures same { (parts.new.flights ≡ parts.old.flights) × (parts.new.prepared ≡ parts.old.prepared) }
    ensures kept { parts.new.kept ≡ None }
    ensures counts { (C.sends parts.new.child ≡ C.sends parts.old.child) × (C.gives parts.new.child ≡ C.gives parts.old.child) }
    ensures own { C.connection parts.new.child ≡ C.connection parts.old.child }
{
    parts.kept = None;
    match parts.child.start() {
        Ok(()) => {
            parts.up = true;
            Ok(())
        }
        Err(_) => {
            parts.up = false;
            Err(Loss::Fault)
        }
    }
}
