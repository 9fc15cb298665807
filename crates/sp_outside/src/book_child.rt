ghost use Rattle.std.specs.Prelude.{◌≡◌, ◌≢◌, ◌≤◌, ◌++◌, ◌∷◌, [], length, IsTrue, IsErr, IfOk, OnErr, Err, is_ok, Contains, false, if◌then◌else◌};
ghost use Rattle.sp_model.specs.Sayable.{KeepsForms};
ghost use Rattle.sp_outside.specs.Causes.{HasCause, Rose, up};
ghost use Rattle.sp_outside.specs.ChildState.{pick_of, new_child};
ghost use Rattle.sp_outside.specs.Log.{pending, IsNextLine, IsPickedLine};

use crate::book_log::{BookLog, Unsaid};
use crate::child::{Child, ChildEnd};
use crate::failing::{Failed, fails_now};
use crate::log::Event;
use sp_value::Text;
use sp_world::World;
use sqlite_items::Items;
use std::alloc::Global;
use std::marker::Model;

/// A child that answers a connection's calls from W's book. Of its calls of `start`, `send` and `receive` together those of the listed numbers, from 0,
/// fail. The line that it gives as number k, from 0, is the next one of the open call at the place that the list of picks has at k,
/// counted around the open calls, or of the first one where the list has ended.
#[derive(Drop)]
pub struct BookChild<W: World> {
    alloc: Global,
    connection: Text,
    log: BookLog<W>,
    picks: Items<u64>,
    fails: Items<u64>,
    calls: u64,
    runs: bool,
    last: Items<u8>,
    faulted: u64,
    sends: u64,
    gives: u64,
}

impl<W: World> Model for BookChild<W> {
    ghost use Rattle.std.specs.Prelude.{IsTrue};
    ghost use Rattle.sp_outside.specs.ChildState.{ChildState};

    ghost Value = { ChildState };

    ghost view = { λ c. record { connection = c.connection; picks = c.picks; fails = c.fails; calls = c.calls; log = c.log; last = c.last; faulted = c.faulted; sends = c.sends; gives = c.gives; runs = c.runs } };

    ghost invariant = { λ _. IsTrue W.tells };
}

impl<W: World> BookChild<W> {
    /// A child that was not started, with counts of 0.
    pub fn new(
        alloc: Global,
        connection: Text,
        picks: Items<u64>,
        fails: Items<u64>,
    ) -> BookChild<W>
        requires tells { IsTrue W.tells }
        requires sayable { KeepsForms W.book }
        ensures { result ≡ new_child connection picks fails }
    {
        BookChild {
            alloc,
            connection,
            log: BookLog::new(alloc),
            picks,
            fails,
            calls: 0,
            runs: false,
            last: Items::new(alloc),
            faulted: 0,
            sends: 0,
            gives: 0,
        }
    }

    /// What happened at it, in order: lines heard and given, and starts.
    pub fn events(&self) -> &[Event]
        ensures { result.now ≡ self.now.log }
    {
        self.log.events()
    }
}

/// The place in the list of picks, or the first.
fn pick_at(picks: &Items<u64>, number: u64) -> u64
    ensures { result ≡ pick_of picks.now number }
{
    match picks.get(number as usize) {
        Some(pick) => *pick,
        None => 0,
    }
}

impl<W: World> Child<W> for BookChild<W> {
    ghost connection = { λ c. c.connection };

    ghost log = { λ c. c.log };

    ghost last = { λ c. c.last };

    ghost faulted = { λ c. c.faulted };

    ghost sends = { λ c. c.sends };

    ghost gives = { λ c. c.gives };

    ghost runs = { λ c. c.runs };

    fn start(&mut self) -> Result<(), Failed>
        ensures log { self.new.log ≡ (if is_ok result then self.old.log ++ Event.Started ∷ [] else self.old.log) }
        ensures runs { self.new.runs ≡ is_ok result }
        ensures kept { (self.new.sends ≡ self.old.sends) × (self.new.gives ≡ self.old.gives) × (self.new.last ≡ self.old.last) }
        ensures own { self.new.connection ≡ self.old.connection }
        ensures cause { HasCause self.old.faulted self.new.faulted result }
        ensures fails { Contains self.old.fails self.old.calls → IsErr result }
        ensures script { (self.new.picks ≡ self.old.picks) × (self.new.fails ≡ self.old.fails) × (self.new.calls ≡ up self.old.calls) }
    {
        if !fails_now(&self.fails, &mut self.calls) && self.log.start().is_ok() {
            self.runs = true;
            return Ok(());
        }
        self.runs = false;
        self.faulted = self.faulted.saturating_add(1);
        Err(Failed)
    }

    fn send(&mut self, line: &[u8]) -> Result<(), Failed>
        ensures log { self.new.log ≡ (if is_ok result then self.old.log ++ Event.Heard line.now ∷ [] else self.old.log) }
        ensures sent { self.new.sends ≡ up self.old.sends }
        ensures stopped { self.old.runs ≡ false → IsErr result }
        ensures kept { (self.new.runs ≡ self.old.runs) × (self.new.gives ≡ self.old.gives) × (self.new.last ≡ self.old.last) }
        ensures own { self.new.connection ≡ self.old.connection }
        ensures cause { HasCause self.old.faulted self.new.faulted result }
        ensures fails { Contains self.old.fails self.old.calls → IsErr result }
        ensures script { (self.new.picks ≡ self.old.picks) × (self.new.fails ≡ self.old.fails) × (self.new.calls ≡ up self.old.calls) }
    {
        self.sends = self.sends.saturating_add(1);
        let refused = fails_now(&self.fails, &mut self.calls) || !self.runs;
        if !refused && self.log.hear(self.alloc, line).is_ok() {
            return Ok(());
        }
        self.faulted = self.faulted.saturating_add(1);
        Err(Failed)
    }

    fn receive(&mut self, alloc: Global) -> Result<Vec<u8>, ChildEnd>
        requires { IsTrue W.tells → pending self.old.log ≢ [] }
        ensures told { IfOk result (λ line. IsNextLine W.book (pending self.old.log) line.items) }
        ensures order { IfOk result (λ line. IsPickedLine W.book (pick_of self.old.picks self.old.gives) (pending self.old.log) line.items) }
        ensures log { IfOk result (λ line. self.new.log ≡ self.old.log ++ Event.Given line.items ∷ []) }
        ensures log_kept { OnErr result (self.new.log ≡ self.old.log) }
        ensures given { self.new.gives ≡ (if is_ok result then up self.old.gives else self.old.gives) }
        ensures last { IfOk result (λ line. self.new.last ≡ line.items) }
        ensures last_kept { OnErr result (self.new.last ≡ self.old.last) }
        ensures short { IfOk result (λ line. length line.items ≤ 1048576) }
        ensures stopped { self.old.runs ≡ false → result ≡ Err ChildEnd.Failed }
        ensures kept { (self.new.runs ≡ self.old.runs) × (self.new.sends ≡ self.old.sends) }
        ensures own { self.new.connection ≡ self.old.connection }
        ensures later { self.old.faulted ≤ self.new.faulted }
        ensures failed { result ≡ Err ChildEnd.Failed → Rose self.old.faulted self.new.faulted }
        ensures fails { Contains self.old.fails self.old.calls → IsErr result }
        ensures script { (self.new.picks ≡ self.old.picks) × (self.new.fails ≡ self.old.fails) × (self.new.calls ≡ up self.old.calls) }
    {
        if fails_now(&self.fails, &mut self.calls) || !self.runs {
            self.faulted = self.faulted.saturating_add(1);
            return Err(ChildEnd::Failed);
        }
        let pick = pick_at(&self.picks, self.gives);
        match self.log.give(alloc, pick) {
            Ok((line, kept)) => {
                self.last = kept;
                self.gives = self.gives.saturating_add(1);
                Ok(line)
            }
            Err(Unsaid::Memory) => Err(ChildEnd::Memory),
            Err(Unsaid::TooLong) => {
                self.faulted = self.faulted.saturating_add(1);
                Err(ChildEnd::Failed)
            }
        }
    }

    fn faults(&self) -> u64 {
        self.faulted
    }

    fn sent(&self) -> u64 {
        self.sends
    }

    fn given(&self) -> u64 {
        self.gives
    }
}
