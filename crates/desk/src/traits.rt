ghost use Rattle.std.specs.Prelude.{◌≡◌, ◌≤◌, ◌^◌, None, IfOk, IfSome, OnOk, OnErr};
ghost use Rattle.std.specs.Arc.{arc_value};
ghost use Rattle.call_jobs.specs.Jobs.{asked_by};
ghost use Rattle.call_jobs.specs.Lawful.{IsLawfulJob};
ghost use Rattle.desk.specs.Events.{Event, Reads, Counts, Submits, Refuses, Drives, Finds, Keeps, Clears, Ends};
ghost use Rattle.desk.specs.States.{DeskState, at_tick, scan_counted, IsStill};
ghost use Rattle.desk.specs.Posted.{event_of, IsKnown};
ghost use Rattle.desk.specs.Found.{IsFound, note_found, kept_note};

use crate::mail::Mail;
use call_jobs::Job;
use sp_model::ScanRequest;
use sp_value::Memory;
use sp_world::{Kept, World};
use std::alloc::Global;
use std::sync::Arc;

/// Whether a drive may have changed something, or memory is wanting.
#[derive(Clone, Copy, Debug, PartialEq, Eq)]
pub enum Driven {
    Moved,
    Memory,
}

/// What a session asks for calls, mail and kept scans.
pub trait Desk<W: World> {
    /// What the desk has of its own.
    ghost state: { Self → DeskState };

    /// What the desk may do in one step. One that can't tell allows every step.
    ghost does: { Self → Event → Self → Type 0 };

    /// Reads the clock.
    fn now(&mut self) -> u64
        ensures later { (state self.old).tick ≤ result }
        ensures range { result ≤ 2 ^ 62 }
        ensures state { state self.new ≡ at_tick result (state self.old) }
        ensures step { does self.old (Reads result) self.new };

    /// The number of the next scan of the session, from 1. It stays at `u64::MAX`.
    fn next_scan(&mut self) -> u64
        ensures state { state self.new ≡ scan_counted (state self.old) }
        ensures value { result ≡ (state self.new).scans }
        ensures step { does self.old (Counts result) self.new };

    /// Hands in a job, as one of this desk's session. It is refused for memory alone.
    fn submit(&mut self, job: Job) -> Result<(), Job>
        requires lawful { IsLawfulJob W.tells W.book (state self.old).settings.connections job }
        ensures state { IsStill (state self.old) (state self.new) }
        ensures ok { OnOk result (does self.old (Submits (asked_by job) job.seat job.due) self.new) }
        ensures err { OnErr result (does self.old Refuses self.new) };

    /// The next mail, if there is one.
    fn take_mail(&mut self) -> Option<Mail<W>>
        ensures state { IsStill (state self.old) (state self.new) }
        ensures gone { IfSome result (IsKnown (state self.new).gone) }
        ensures step { does self.old (event_of result) self.new };

    /// Moves calls on, or waits until something may have changed.
    fn drive(&mut self) -> Driven
        ensures state { IsStill (state self.old) (state self.new) }
        ensures step { does self.old Drives self.new };

    /// A kept scan that serves a request at the tick of the last reading of the clock.
    fn look(&mut self, request: &ScanRequest) -> Result<Option<Arc<Kept<W>, Global>>, Memory>
        ensures state { IsStill (state self.old) (state self.new) }
        ensures found { IfOk result (λ r. IfSome r (λ kept. IsFound (state self.old) request.now (arc_value kept))) }
        ensures ok { IfOk result (λ r. does self.old (Finds request.now (note_found r)) self.new) }
        ensures err { OnErr result (does self.old (Finds request.now None) self.new) };

    /// Keeps a scan. It is refused for memory alone.
    fn keep_scan(&mut self, kept: &Arc<Kept<W>, Global>) -> Result<(), Memory>
        ensures state { IsStill (state self.old) (state self.new) }
        ensures ok { OnOk result (does self.old (Keeps (kept_note kept.now)) self.new) }
        ensures err { OnErr result (does self.old Refuses self.new) };

    /// Forgets the kept scans.
    fn clear(&mut self)
        ensures state { IsStill (state self.old) (state self.new) }
        ensures step { does self.old Clears self.new };

    /// Drops the jobs of this desk's session that wait.
    fn end_statement(&mut self)
        ensures state { IsStill (state self.old) (state self.new) }
        ensures step { does self.old Ends self.new };
}
