ghost use Rattle.std.specs.Prelude.{◌≡◌, ◌≤◌, ◌^◌, [], true, IsTrue, IfErr, IfOk};
ghost use Rattle.call_jobs.specs.Jobs.{asked_by, function_by};
ghost use Rattle.sp_world.specs.RequestLines.{IsAskedForm};
ghost use Rattle.child_link.specs.Heard.{MayHear, HeardLawfully};
ghost use Rattle.plain_desk.specs.Hearing.{IsLawfulSlot};
ghost use Rattle.plain_desk.specs.Lost.{HasLost, IsGone, is_loss};
ghost use Rattle.plain_desk.specs.Slots.{IsSlot, is_gone};

use crate::losing::end_flights;
use crate::slot_parts::SlotParts;
use crate::stage::Stage;
use crate::stepping::{Stepped, step_slot};
use call_jobs::Job;
use child_link::Link;
use rate_gate::Gate;
use sp_outside::Child;
use sp_world::World;
use std::alloc::Global;
use std::marker::Model;

/// The child of a connection, with the calls that are open at it and those that wait.
pub struct Slot<W: World, C: Child<W>> {
    parts: SlotParts<W, C>,
}

impl<W: World, C: Child<W>> Model for Slot<W, C> {
    ghost use Rattle.std.specs.Coded.{codes};
    ghost use Rattle.sp_value.specs.contracts.cell.Cell as cells;
    ghost use Rattle.plain_desk.specs.Hearing.{IsLawfulSlot};
    ghost use Rattle.plain_desk.specs.Lost.{HasLost};
    ghost use Rattle.plain_desk.specs.Slots.{IsSlot};
    ghost use Rattle.plain_desk.specs.declared.slot_parts.SlotParts.{SlotParts};

    ghost Value = { SlotParts W C };

    ghost coded = { Prim.hlevel (codes, cells.the_row.coded, C.code) };

    ghost view = { λ s. s.parts };

    ghost invariant = { λ s. IsSlot (HasLost W.tells W.book C.faulted C.gives) s.parts × IsLawfulSlot W.tells W.book C.connection C.log s.parts };
}

/// Has a job wait.
fn wait_for<W: World, C: Child<W>>(
    alloc: Global,
    parts: &mut SlotParts<W, C>,
    job: Job,
) -> Result<(), Job>
    requires form { IsAskedForm (function_by job) (asked_by job) }
    requires may { MayHear W.tells W.book (C.connection parts.old.link.child) (asked_by job) (function_by job) }
    requires slot { IsSlot (HasLost W.tells W.book C.faulted C.gives) parts.old }
    requires lawful { IsLawfulSlot W.tells W.book C.connection C.log parts.old }
    ensures slot { IsSlot (HasLost W.tells W.book C.faulted C.gives) parts.new }
    ensures lawful { IsLawfulSlot W.tells W.book C.connection C.log parts.new }
    ensures err { IfErr result (λ back. back ≡ job) }
    ensures same { (parts.new.stage ≡ parts.old.stage) × (parts.new.link.child ≡ parts.old.link.child) }
{
    let Ok(()) = parts.waiting.reserve(1) else {
        return Err(job);
    };
    match parts.link.prepare(alloc, job) {
        Ok(call) => {
            parts.waiting.push_reserved(call);
            Ok(())
        }
        Err(job) => Err(job),
    }
}

/// Drops what waits.
fn forget_all<W: World, C: Child<W>>(parts: &mut SlotParts<W, C>)
    requires slot { IsSlot (HasLost W.tells W.book C.faulted C.gives) parts.old }
    requires lawful { IsLawfulSlot W.tells W.book C.connection C.log parts.old }
    ensures slot { IsSlot (HasLost W.tells W.book C.faulted C.gives) parts.new }
    ensures lawful { IsLawfulSlot W.tells W.book C.connection C.log parts.new }
    ensures same { (parts.new.stage ≡ parts.old.stage) × (parts.new.link.child ≡ parts.old.link.child) }
{
    parts.waiting.clear();
}

impl<W: World, C: Child<W>> Slot<W, C> {
    /// The slot of a child that isn't started, and that heard only lawful requests. It is handed back for want of memory alone.
    pub fn new(alloc: Global, child: C) -> Result<Slot<W, C>, C>
        requires heard { IsTrue W.tells → HeardLawfully W.tells W.book (C.connection child) (C.log child) }
        ensures ok { IfOk result (λ s. s.link.child ≡ child) }
        ensures err { IfErr result (λ back. back ≡ child) }
    {
        match Gate::of(alloc, &[]) {
            Ok(gate) => Ok(Slot::over(alloc, child, gate)),
            Err(_) => Err(child),
        }
    }

    /// The slot of a child that isn't started, and that heard only lawful requests, with a gate that has granted nothing.
    pub fn over(alloc: Global, child: C, gate: Gate) -> Slot<W, C>
        requires fresh { gate.journal ≡ [] }
        requires heard { IsTrue W.tells → HeardLawfully W.tells W.book (C.connection child) (C.log child) }
        ensures { result.link.child ≡ child }
    {
        Slot {
            parts: SlotParts {
                link: Link::with(alloc, child),
                gate,
                waiting: Vec::new(alloc),
                stage: Stage::Unstarted,
                tick: 0,
            },
        }
    }

    /// Its parts. Calls are open at a running child alone; each was due when it was sent, and has a grant of its own that is open. A child
    /// that is gone was lost. The child heard only lawful requests of its own connection, and only such wait for it.
    pub fn parts(&self) -> &SlotParts<W, C>
        ensures value { result.now ≡ self.now }
        ensures slot { IsSlot (HasLost W.tells W.book C.faulted C.gives) self.now }
        ensures lawful { IsLawfulSlot W.tells W.book C.connection C.log self.now }
    {
        &self.parts
    }

    /// Has a job wait. It is handed back for want of memory alone.
    pub(crate) fn submit(&mut self, alloc: Global, job: Job) -> Result<(), Job>
        requires form { IsAskedForm (function_by job) (asked_by job) }
        requires may { MayHear W.tells W.book (C.connection self.old.link.child) (asked_by job) (function_by job) }
        ensures err { IfErr result (λ back. back ≡ job) }
        ensures own { C.connection self.new.link.child ≡ C.connection self.old.link.child }
        ensures gone { IsGone (HasLost W.tells W.book C.faulted C.gives) self.old → IsGone (HasLost W.tells W.book C.faulted C.gives) self.new }
    {
        wait_for(alloc, &mut self.parts, job)
    }

    /// Drops what waits.
    pub(crate) fn forget(&mut self)
        ensures own { C.connection self.new.link.child ≡ C.connection self.old.link.child }
        ensures gone { IsGone (HasLost W.tells W.book C.faulted C.gives) self.old → IsGone (HasLost W.tells W.book C.faulted C.gives) self.new }
    {
        forget_all(&mut self.parts);
    }

    /// Sends the calls that are due at a tick and for which there is room, and receives one line where calls are open. Where the child is
    /// gone nothing is done.
    pub(crate) fn step(&mut self, alloc: Global, tick: u64) -> Stepped<W>
        requires { tick ≤ 2 ^ 62 }
        ensures own { C.connection self.new.link.child ≡ C.connection self.old.link.child }
        ensures gone { IsGone (HasLost W.tells W.book C.faulted C.gives) self.old → IsGone (HasLost W.tells W.book C.faulted C.gives) self.new }
        ensures lost { is_loss result ≡ true → IsGone (HasLost W.tells W.book C.faulted C.gives) self.new }
    {
        if self.is_gone() {
            return Stepped::Idle;
        }
        step_slot(alloc, &mut self.parts, tick)
    }

    /// Whether the child was lost.
    pub(crate) fn is_gone(&self) -> bool
        ensures { result ≡ is_gone self.now.stage }
    {
        self.parts.stage == Stage::Gone
    }

    /// The least tick at which a call that waits is due.
    pub(crate) fn due(&self) -> Option<u64> {
        self.parts.waiting.iter().map(|call| call.job.due).min()
    }

    /// The child. What is open or waits is dropped.
    pub fn into_child(self, alloc: Global) -> C
        ensures child { result ≡ self.link.child }
        ensures heard { IsTrue W.tells → HeardLawfully W.tells W.book (C.connection result) (C.log result) }
    {
        let Slot { parts } = self;
        let SlotParts {
            mut link,
            mut gate,
            waiting,
            stage: _,
            tick,
        } = parts;
        let flights = link.reissue(alloc);
        end_flights(&mut gate, flights, tick);
        drop(waiting);
        drop(gate);
        link.into_child()
    }
}
