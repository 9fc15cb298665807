ghost use Rattle.std.specs.Prelude.{◌≡◌, ◌≢◌, ◌≤◌, ◌<◌, ◌+◌, ◌-◌, ◌^◌, ◌++◌, ◌∷◌, [], ◌⊎◌, ◌&&◌, None, Ok, Err, true, false, is_ok, IsTrue, IfOk, IfErr, OnOk, OnErr, if◌then◌else◌};
ghost use Rattle.call_jobs.specs.Jobs.{asked_by, function_by};
ghost use Rattle.sp_model.specs.Sayable.{KeepsForms};
ghost use Rattle.sp_world.specs.RequestLines.{IsAskedForm};
ghost use Rattle.sp_outside.specs.Causes.{Rose};
ghost use Rattle.sp_outside.specs.declared.log.Event.TheVariants as event;
ghost use Rattle.sp_outside.specs.declared.log.Loss.TheVariants as loss;
ghost use Rattle.child_link.specs.Open.{calls_of, jobs_of, looked_at};
ghost use Rattle.child_link.specs.Arrived.{IsArrival, still_up, is_memory, IsCounted, IsMisfit, IsFitting, HasLooked, GrewByGiven};
ghost use Rattle.child_link.specs.Ledger.{Moves};
ghost use Rattle.child_link.specs.Sent.{flight_of, IsHeardIf};

use crate::arrival::{Arrived, RecvEnd};
use crate::flight::Flight;
use crate::parts::{Parts, end_calls, prepare_call, send_call, start_child};
use crate::prepared::Prepared;
use crate::receiving::receive_line;
use call_jobs::Job;
use rate_gate::Permit;
use sp_outside::{Child, Loss};
use sp_world::World;
use std::alloc::Global;
use std::marker::{Model, PhantomData};

/// A child with its open calls. A call's number is the number of sends up to and with it. Contracts see its parts.
pub struct Link<W: World, C: Child<W>> {
    parts: Parts<C>,
    of: PhantomData<W>,
}

impl<W: World, C: Child<W>> Model for Link<W, C> {
    ghost use Rattle.std.specs.Prelude.{◌+◌, ◌≤◌, vec_len, vec_capacity};
    ghost use Rattle.child_link.specs.Open.{calls_of};
    ghost use Rattle.child_link.specs.Holds.{Holds};
    ghost use Rattle.child_link.specs.declared.parts.Parts.{Parts};
    ghost use Rattle.std.specs.Coded.{codes};
    ghost use Rattle.sp_value.specs.contracts.cell.Cell as cells;

    ghost Value = { Parts C };

    ghost coded = { Prim.hlevel (codes, cells.the_row.coded, C.code) };

    ghost view = { λ l. l.parts };

    ghost invariant = { λ l. Holds W.tells W.book (C.log l.parts.child) (C.last l.parts.child) (C.gives l.parts.child) l.parts.kept l.parts.up (calls_of l.parts.flights.items) × (vec_len l.parts.flights + l.parts.prepared ≤ vec_capacity l.parts.flights) };
}

impl<W: World, C: Child<W>> Link<W, C> {
    /// A child that wasn't started.
    pub fn with(alloc: Global, child: C) -> Link<W, C>
        ensures child { result.child ≡ child }
        ensures none { (result.flights.items ≡ []) × (result.kept ≡ None) × (result.up ≡ false) × (result.prepared ≡ 0) }
    {
        Link {
            parts: Parts {
                child,
                flights: Vec::new(alloc),
                kept: None,
                up: false,
                prepared: 0,
            },
            of: PhantomData,
        }
    }

    /// Makes the line of a job but for its number, with the room for the number and for the open call. The job is handed back for want
    /// of memory alone.
    pub fn prepare(&mut self, alloc: Global, job: Job) -> Result<Prepared, Job>
        requires form { IsAskedForm (function_by job) (asked_by job) }
        ensures ok { IfOk result (λ p. p.job ≡ job) }
        ensures err { IfErr result (λ back. back ≡ job) }
        ensures prepared { OnOk result (self.new.prepared ≡ self.old.prepared + 1) }
        ensures refused { OnErr result (self.new.prepared ≡ self.old.prepared) }
        ensures same { (self.new.child ≡ self.old.child) × (self.new.flights.items ≡ self.old.flights.items) × (self.new.kept ≡ self.old.kept) × (self.new.up ≡ self.old.up) }
    {
        prepare_call(alloc, &mut self.parts, job)
    }

    /// Sends a call with the permit that it was granted. It is open afterwards, also where the child is lost. It takes no memory.
    pub fn send(&mut self, permit: Permit, prepared: Prepared) -> Result<(), Loss>
        requires prepared { 1 ≤ self.old.prepared }
        requires tags { permit.tags ≡ prepared.job.tags }
        requires small { C.sends self.old.child < 2 ^ 63 - 1 }
        ensures sends { C.sends self.new.child ≡ C.sends self.old.child + 1 }
        ensures flights { self.new.flights.items ≡ self.old.flights.items ++ flight_of (C.sends self.new.child) prepared permit ∷ [] }
        ensures log { IsTrue W.tells → IsHeardIf result (C.sends self.new.child) prepared.job (C.log self.old.child) (C.log self.new.child) }
        ensures lost { result ≡ Ok tt ⊎ ((result ≡ Err loss.Fault) × Rose (C.faulted self.old.child) (C.faulted self.new.child)) }
        ensures later { C.faulted self.old.child ≤ C.faulted self.new.child }
        ensures up { self.new.up ≡ (self.old.up && is_ok result) }
        ensures kept { self.new.kept ≡ self.old.kept }
        ensures own { (C.connection self.new.child ≡ C.connection self.old.child) × (C.gives self.new.child ≡ C.gives self.old.child) }
        ensures left { self.new.prepared + 1 ≡ self.old.prepared }
        ensures ledger { IsTrue W.tells → Moves (C.log self.old.child) (calls_of self.old.flights.items) (C.log self.new.child) (calls_of self.new.flights.items) (prepared.job ∷ []) [] }
    {
        send_call::<W, C>(&mut self.parts, permit, prepared)
    }

    /// Receives what the next line tells. A `Fault` is answered only where the child's count of faults rose; a `Bad` line is the last that
    /// the child gave, and answers none of the open calls; after `Memory` a line that it gave waits for the next call.
    pub fn receive(&mut self, alloc: Global) -> Result<Arrived<W>, RecvEnd>
        requires up { self.old.up ≡ true }
        requires some { self.old.flights.items ≢ [] }
        ensures up { self.new.up ≡ still_up result }
        ensures arrival { IfOk result (IsArrival (C.last self.new.child) self.old.flights.items self.new.flights.items) }
        ensures counted { IsCounted result (C.faulted self.old.child) (C.faulted self.new.child) }
        ensures later { C.faulted self.old.child ≤ C.faulted self.new.child }
        ensures misfit { IsMisfit result (C.last self.new.child) (calls_of self.old.flights.items) }
        ensures looked { HasLooked result (looked_at (C.gives self.old.child) self.old.kept) (looked_at (C.gives self.new.child) self.new.kept) }
        ensures honest { IsTrue W.tells → KeepsForms W.book → IsFitting result }
        ensures err { OnErr result (self.new.flights.items ≡ self.old.flights.items) }
        ensures prepared { self.new.prepared ≡ self.old.prepared }
        ensures kept { is_memory result ≡ false → self.new.kept ≡ None }
        ensures log { IsTrue W.tells → GrewByGiven (C.log self.old.child) (C.log self.new.child) }
        ensures own { (C.connection self.new.child ≡ C.connection self.old.child) × (C.sends self.new.child ≡ C.sends self.old.child) }
        ensures ledger { IsTrue W.tells → self.old.kept ≡ None → is_memory result ≡ false → Moves (C.log self.old.child) (calls_of self.old.flights.items) (C.log self.new.child) (calls_of self.new.flights.items) [] [] }
    {
        receive_line::<W, C>(alloc, &mut self.parts)
    }

    /// Hands back the open calls in order of their numbers; none is open then. It takes no memory.
    pub fn reissue(&mut self, alloc: Global) -> Vec<Flight>
        ensures back { result.items ≡ self.old.flights.items }
        ensures none { (self.new.flights.items ≡ []) × (self.new.up ≡ false) × (self.new.prepared ≡ 0) }
        ensures child { (self.new.child ≡ self.old.child) × (self.new.kept ≡ self.old.kept) }
        ensures ledger { Moves (C.log self.old.child) (calls_of self.old.flights.items) (C.log self.new.child) (calls_of self.new.flights.items) [] (jobs_of result.items) }
    {
        end_calls(alloc, &mut self.parts)
    }

    /// Starts the child anew. A line that waits is let go.
    pub fn restart(&mut self) -> Result<(), Loss>
        requires none { self.old.flights.items ≡ [] }
        ensures up { self.new.up ≡ is_ok result }
        ensures log { IsTrue W.tells → C.log self.new.child ≡ (if is_ok result then C.log self.old.child ++ event.Started ∷ [] else C.log self.old.child) }
        ensures lost { result ≡ Ok tt ⊎ ((result ≡ Err loss.Fault) × Rose (C.faulted self.old.child) (C.faulted self.new.child)) }
        ensures later { C.faulted self.old.child ≤ C.faulted self.new.child }
        ensures same { (self.new.flights ≡ self.old.flights) × (self.new.prepared ≡ self.old.prepared) }
        ensures kept { self.new.kept ≡ None }
        ensures counts { (C.sends self.new.child ≡ C.sends self.old.child) × (C.gives self.new.child ≡ C.gives self.old.child) }
        ensures own { C.connection self.new.child ≡ C.connection self.old.child }
        ensures ledger { IsTrue W.tells → Moves (C.log self.old.child) (calls_of self.old.flights.items) (C.log self.new.child) (calls_of self.new.flights.items) [] [] }
    {
        start_child::<W, C>(&mut self.parts)
    }

    /// Whether the child was started and not lost since.
    pub fn is_up(&self) -> bool
        ensures { result ≡ self.now.up }
    {
        self.parts.up
    }

    /// The open calls, in order of their numbers.
    pub fn flights(&self) -> &[Flight]
        ensures { result.now ≡ self.now.flights.items }
    {
        self.parts.flights.as_slice()
    }

    /// The child itself, for its counts.
    pub fn child(&self) -> &C
        ensures { result.now ≡ self.now.child }
    {
        &self.parts.child
    }

    /// The child, while no call is open.
    pub fn into_child(self) -> C
        requires { self.flights.items ≡ [] }
        ensures { result ≡ self.child }
    {
        let Link { parts, of: _ } = self;
        let Parts {
            child,
            flights,
            kept,
            up: _,
            prepared: _,
        } = parts;
        flights.destroy_empty();
        drop(kept);
        child
    }
}
