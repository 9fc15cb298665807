ghost use Rattle.std.specs.Prelude.{◌≡◌, ◌+◌, ◌≤◌, ◌<◌, ◌^◌, [], ◌∷◌, ◌++◌, filter, not, nat_eq, if◌then◌else◌, IsOk, IfErr, OnOk, OnErr};
ghost use Rattle.std.specs.VecDeque.{deque_len, deque_capacity};
ghost use Rattle.rate_gate.specs.Journal.{last_tick};
ghost use Rattle.call_queue.specs.Lines.{LineView, no_jobs, put_by_due, with_job, with_room, without_session, emptied};
ghost use Rattle.call_queue.specs.Order.{IsByDue};
ghost use Rattle.call_queue.specs.Picking.{HasPicked};

use crate::jobs::{first_tick, join_due, put_by_due, take_out};
use crate::picked::Picked;
use crate::turns::{Turn, ask_in_turn, sooner};
use call_jobs::Job;
use rate_gate::Gate;
use sp_value::Memory;
use std::alloc::Global;
use std::collections::VecDeque;
use std::marker::Model;

/// The jobs of a connection: those in line, those that wait for a later tick, and how many more may come without memory.
#[derive(Drop)]
pub(crate) struct Line {
    ready: VecDeque<Job>,
    waiting: VecDeque<Job>,
    room: usize,
}

impl Model for Line {
    ghost use Rattle.std.specs.Prelude.{ℕ, ◌+◌, ◌≤◌};
    ghost use Rattle.std.specs.Coded.{codes};
    ghost use Rattle.std.specs.VecDeque.{deque_len, deque_capacity};
    ghost use Rattle.call_jobs.specs.contracts.job.Job as jobs;
    ghost use Rattle.call_queue.specs.Lines.{LineView};
    ghost use Rattle.call_queue.specs.Order.{IsByDue};

    ghost Value = { LineView };

    ghost coded = { Prim.hlevel (codes, jobs.the_row.coded) };

    ghost view = { λ l. record { ready = l.ready.items; waiting = l.waiting.items; room = l.room } };

    ghost invariant = { λ l. IsByDue l.waiting.items × (deque_len l.ready + deque_len l.waiting + l.room ≤ deque_capacity l.ready) × (deque_len l.ready + deque_len l.waiting + l.room ≤ deque_capacity l.waiting) };
}

impl Line {
    pub(crate) fn empty(alloc: Global) -> Line
        ensures { result ≡ no_jobs }
    {
        Line {
            ready: VecDeque::new(alloc),
            waiting: VecDeque::new(alloc),
            room: 0,
        }
    }

    /// Makes room for more jobs.
    pub(crate) fn reserve(&mut self, more: u32) -> Result<(), Memory>
        ensures ok { OnOk result (self.new ≡ with_room more self.old) }
        ensures err { OnErr result (self.new ≡ self.old) }
    {
        make_room(&mut self.ready, &mut self.waiting, more)?;
        self.room = self.room.max(more as usize);
        Ok(())
    }

    /// Puts a job in its place. It is refused for memory alone, and not where there is room.
    pub(crate) fn push(&mut self, job: Job) -> Result<(), Job>
        ensures ok { OnOk result (self.new ≡ with_job job self.old) }
        ensures job { IfErr result (λ back. back ≡ job) }
        ensures err { OnErr result (self.new ≡ self.old) }
        ensures room { 0 < self.old.room → IsOk result }
    {
        if self.room == 0 && make_room(&mut self.ready, &mut self.waiting, 1).is_err() {
            return Err(job);
        }
        put(&mut self.ready, &mut self.waiting, job);
        self.room = self.room.saturating_sub(1);
        Ok(())
    }

    /// Takes out the first job that is due and granted. Its room is kept.
    pub(crate) fn pick(&mut self, alloc: Global, gate: &mut Gate, tick: u64) -> Picked
        requires since { last_tick gate.old.journal ≤ tick }
        requires range { tick ≤ 2 ^ 62 }
        ensures { HasPicked gate.old tick self.old result self.new gate.new }
    {
        join_due(&mut self.ready, &mut self.waiting, tick);
        match ask_in_turn(alloc, &self.ready, gate, tick) {
            Turn::Granted { place, permit } => {
                let job = take_out(&mut self.ready, place);
                self.room += 1;
                Picked::Job(job, permit)
            }
            Turn::Held { next } => Picked::NoneReady {
                next: sooner(next, first_tick(&self.waiting)),
            },
            Turn::Memory => Picked::Memory,
        }
    }

    /// Drops the jobs of a session.
    pub(crate) fn forget(&mut self, session: u32)
        ensures { self.new ≡ without_session session self.old }
    {
        drop_session(&mut self.ready, session);
        drop_session(&mut self.waiting, session);
    }

    /// Drops the jobs.
    pub(crate) fn clear(&mut self)
        ensures { self.new ≡ emptied self.old }
    {
        self.ready.clear();
        self.waiting.clear();
    }
}

/// Makes room for more jobs, wherever their places are.
fn make_room(
    ready: &mut VecDeque<Job>,
    waiting: &mut VecDeque<Job>,
    more: u32,
) -> Result<(), Memory>
    ensures ready { ready.new.items ≡ ready.old.items }
    ensures waiting { waiting.new.items ≡ waiting.old.items }
    ensures ready_len { deque_len ready.new ≡ deque_len ready.old }
    ensures waiting_len { deque_len waiting.new ≡ deque_len waiting.old }
    ensures ready_capacity { deque_capacity ready.old ≤ deque_capacity ready.new }
    ensures waiting_capacity { deque_capacity waiting.old ≤ deque_capacity waiting.new }
    ensures ready_room { OnOk result (deque_len ready.new + deque_len waiting.new + more ≤ deque_capacity ready.new) }
    ensures waiting_room { OnOk result (deque_len ready.new + deque_len waiting.new + more ≤ deque_capacity waiting.new) }
{
    ready.reserve(waiting.len() + more as usize)?;
    waiting.reserve(ready.len() + more as usize)?;
    Ok(())
}

/// Puts a job in its place, for which there is room.
fn put(ready: &mut VecDeque<Job>, waiting: &mut VecDeque<Job>, job: Job)
    requires order { IsByDue waiting.old.items }
    requires ready_room { deque_len ready.old + deque_len waiting.old < deque_capacity ready.old }
    requires waiting_room { deque_len waiting.old < deque_capacity waiting.old }
    ensures ready { ready.new.items ≡ (if nat_eq job.due 0 then ready.old.items ++ job ∷ [] else ready.old.items) }
    ensures waiting { waiting.new.items ≡ (if nat_eq job.due 0 then waiting.old.items else put_by_due job waiting.old.items) }
    ensures order { IsByDue waiting.new.items }
    ensures len { deque_len ready.new + deque_len waiting.new ≡ deque_len ready.old + deque_len waiting.old + 1 }
    ensures ready_capacity { deque_capacity ready.old ≤ deque_capacity ready.new }
    ensures waiting_capacity { deque_capacity waiting.old ≤ deque_capacity waiting.new }
{
    if job.due == 0 {
        ready.push_back_reserved(job);
    } else {
        put_by_due(waiting, job);
    }
}

fn drop_session(jobs: &mut VecDeque<Job>, session: u32)
    ensures items { jobs.new.items ≡ filter (λ job. not (nat_eq job.session session)) jobs.old.items }
    ensures len { deque_len jobs.new ≤ deque_len jobs.old }
    ensures capacity { deque_capacity jobs.new ≡ deque_capacity jobs.old }
{
    jobs.retain(|job| job.session != session);
}
