// The jobs of a line ask a gate in their order.

ghost use Rattle.std.specs.Prelude.{◌≡◌, ◌≤◌, ◌^◌};
ghost use Rattle.std.specs.VecDeque.{deque_len};
ghost use Rattle.rate_gate.specs.Journal.{last_tick};
ghost use Rattle.call_queue.specs.Picking.{sooner};
ghost use Rattle.call_queue.specs.Turns.{IsReplied, HasTurned, IsWithin};

use call_jobs::Job;
use rate_gate::{Gate, Permit, Wait};
use std::alloc::Global;
use std::collections::VecDeque;

/// What a gate replies to one job: a permit; or that it holds the job, until a tick where that is known; or want of memory.
pub(crate) enum Reply {
    Granted(Permit),
    Held(Option<u64>),
    Memory,
}

/// The first job that is granted, with its place; or the least tick until which one is held; or want of memory.
pub(crate) enum Turn {
    Granted { place: usize, permit: Permit },
    Held { next: Option<u64> },
    Memory,
}

/// The least of the ticks that there are.
pub(crate) fn sooner(left: Option<u64>, right: Option<u64>) -> Option<u64>
    ensures { result ≡ sooner left right }
{
    match (left, right) {
        (Some(a), Some(b)) => Some(a.min(b)),
        (Some(a), None) => Some(a),
        (None, other) => other,
    }
}

fn reply_to(alloc: Global, job: &Job, gate: &mut Gate, tick: u64) -> Reply
    requires since { last_tick gate.old.journal ≤ tick }
    requires range { tick ≤ 2 ^ 62 }
    ensures { IsReplied gate.old tick job.now result gate.new }
{
    match gate.ask(alloc, &job.tags, tick) {
        Ok(permit) => Reply::Granted(permit),
        Err(Wait::Places) => Reply::Held(None),
        Err(Wait::Until(until)) => Reply::Held(Some(until)),
        Err(Wait::Memory) => Reply::Memory,
    }
}

/// Asks for one job after another, until one is granted.
pub(crate) fn ask_in_turn(alloc: Global, jobs: &VecDeque<Job>, gate: &mut Gate, tick: u64) -> Turn
    requires since { last_tick gate.old.journal ≤ tick }
    requires range { tick ≤ 2 ^ 62 }
    ensures turned { HasTurned gate.old tick jobs.now.items result gate.new }
    ensures within { IsWithin (deque_len jobs.now) result }
{
    let mut next = None;
    for place in 0..jobs.len() {
        match reply_to(alloc, &jobs[place], gate, tick) {
            Reply::Granted(permit) => return Turn::Granted { place, permit },
            Reply::Held(until) => next = sooner(next, until),
            Reply::Memory => return Turn::Memory,
        }
    }
    Turn::Held { next }
}
