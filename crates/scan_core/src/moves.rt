ghost use Rattle.std.specs.Prelude.{◌≡◌, ◌+◌, ◌<◌, ◌^◌, [], suc, length, Option, Some, None, OnOk, OnErr};
ghost use Rattle.sp_model.specs.Walk.{unsteady};
ghost use Rattle.scan_laws.specs.Rests.{entry_of};
ghost use Rattle.scan_laws.specs.States.{Inner, Outer};
ghost use Rattle.scan_laws.specs.Steps.{inner_accepted, inner_again, outer_accepted, outer_again, finished, ended_so};
ghost use Rattle.sp_model.specs.declared.outcome.Walk.TheVariants.{Failed};
ghost use Rattle.scan_core.specs.Advances.{Fills};
ghost use Rattle.scan_core.specs.Going.{GoesOn};
ghost use Rattle.scan_core.specs.Next.{HasItem};
ghost use Rattle.scan_core.specs.Calls.{entry_view};
ghost use Rattle.scan_core.specs.Courses.{undecided, state_of, table_of, IsScope, IsCourse};
ghost use Rattle.scan_core.specs.declared.calls.ItemsCall.{ItemsCall};
ghost use Rattle.scan_core.specs.declared.calls.ParentsCall.{ParentsCall};

use crate::calls::Entry;
use crate::course::{Course, CourseEnd};
use crate::scope::ScanScope;
use sp_model::{Cause, WalkState};
use sp_value::Memory;
use sp_world::World;
use std::alloc::Global;

/// Drops what was kept since the entry, if there is one. A call was asked again.
fn back_to(walk: &mut WalkState, entry: Option<Entry>)
    ensures { walk.new ≡ unsteady (entry_of (entry_view walk.old entry) walk.old) }
{
    if let Some(entry) = entry {
        walk.rows.truncate(entry.rows);
        walk.items = entry.items;
        walk.steady = false;
    } else {
        walk.steady = false;
    }
}

impl<W: World> Course<W> {
    /// The get, list or child list is accepted: its items stand in front of what comes after it.
    pub(crate) fn accept_items(&mut self, scope: &ScanScope)
        requires { IsCourse scope.now self.old }
        ensures state { state_of scope.now self.new ≡ inner_accepted (state_of scope.now self.old) }
        ensures form { IsCourse scope.now self.new }
        ensures kept { (self.new.flight ≡ self.old.flight) × (self.new.waiting ≡ self.old.waiting) }
    {
        self.before = self.undecided_len(scope);
        self.items = None;
    }

    /// The get, list or child list is asked again after a delay, once all items are decided: the rows of its attempt are dropped.
    pub(crate) fn ask_items(
        &mut self,
        alloc: Global,
        scope: &ScanScope,
        delay: u64,
    ) -> Result<(), Memory>
        requires form { IsCourse scope.now self.old }
        requires going { self.old.end ≡ None }
        requires decided { undecided self.old ≡ [] }
        ensures state { OnOk result ((i : Inner) → (state_of scope.now self.old).inner ≡ Some i → state_of scope.now self.new ≡ inner_again (state_of scope.now self.old) i) }
        ensures form { IsCourse scope.now self.new }
        ensures kept { (self.new.flight ≡ self.old.flight) × (self.new.waiting ≡ self.old.waiting) }
        ensures err { OnErr result (self.new ≡ self.old) }
    {
        let generation = self.drawn.saturating_add(1);
        let Some(call) = &mut self.items else {
            return Ok(());
        };
        let entered = call.entered;
        let Ok(()) = call.again(alloc, delay, generation) else {
            return Err(Memory);
        };
        back_to(&mut self.walk, entered);
        self.drawn = generation;
        Ok(())
    }

    /// The parents call is asked again after a delay, once all items are decided: the rows of all its child lists are dropped.
    pub(crate) fn ask_parents(
        &mut self,
        alloc: Global,
        scope: &ScanScope,
        delay: u64,
    ) -> Result<(), Memory>
        requires form { IsCourse scope.now self.old }
        requires going { self.old.end ≡ None }
        requires decided { undecided self.old ≡ [] }
        requires walked { (o : ParentsCall _) → self.old.parents ≡ Some o → o.waiting.items ≡ [] }
        requires closed { self.old.items ≡ None }
        ensures state { OnOk result ((o : Outer) → (state_of scope.now self.old).outer ≡ Some o → state_of scope.now self.new ≡ outer_again (state_of scope.now self.old) o) }
        ensures form { IsCourse scope.now self.new }
        ensures kept { (self.new.flight ≡ self.old.flight) × (self.new.waiting ≡ self.old.waiting) }
        ensures err { OnErr result (self.new ≡ self.old) }
    {
        let generation = self.drawn.saturating_add(1);
        let Some(parents) = &mut self.parents else {
            return Ok(());
        };
        let Ok(()) = parents.again(alloc, delay, generation) else {
            return Err(Memory);
        };
        self.walk.rows.truncate(0);
        self.walk.items = 0;
        self.walk.steady = false;
        self.drawn = generation;
        Ok(())
    }

    /// Puts the first item that waits into flight.
    pub(crate) fn fill(&mut self, alloc: Global, scope: &ScanScope) -> Result<(), Memory>
        requires form { IsCourse scope.now self.old }
        requires item { HasItem scope.now.window (state_of scope.now self.old) }
        ensures state { OnOk result (Fills scope.now.window (state_of scope.now self.old) (state_of scope.now self.new)) }
        ensures err { OnErr result (state_of scope.now self.new ≡ state_of scope.now self.old) }
        ensures form { IsCourse scope.now self.new }
        ensures same { (self.new.parents ≡ self.old.parents) × (self.new.items ≡ self.old.items) }
        ensures goes { GoesOn self.old self.new }
    {
        let Some(item) = self.waiting.pop_front() else {
            return Ok(());
        };
        match self.flight.put(alloc, item) {
            Ok(()) => Ok(()),
            Err(item) => {
                self.waiting.push_front_reserved(item);
                Err(Memory)
            }
        }
    }

    /// Ends the scan with a failure after the last item that is decided.
    pub(crate) fn fail(&mut self, scope: &ScanScope, cause: Cause) -> Result<(), Memory>
        requires form { IsCourse scope.now self.old }
        ensures state { OnOk result (state_of scope.now self.new ≡ ended_so (state_of scope.now self.old) (Failed (suc self.old.walk.items) None cause)) }
        ensures form { IsCourse scope.now self.new }
        ensures kept { (self.new.flight ≡ self.old.flight) × (self.new.waiting ≡ self.old.waiting) }
        ensures err { OnErr result (self.new ≡ self.old) }
    {
        let Some(row) = self.walk.items.checked_add(1) else {
            return Err(Memory);
        };
        self.end = Some(CourseEnd::Failed {
            row,
            column: None,
            cause,
        });
        Ok(())
    }

    /// The parents call is accepted.
    pub(crate) fn accept_parents(&mut self, scope: &ScanScope)
        requires { IsCourse scope.now self.old }
        ensures state { state_of scope.now self.new ≡ outer_accepted (state_of scope.now self.old) }
        ensures form { IsCourse scope.now self.new }
        ensures kept { (self.new.flight ≡ self.old.flight) × (self.new.waiting ≡ self.old.waiting) }
    {
        self.parents = None;
    }

    /// Nothing is left.
    pub(crate) fn finish(&mut self, scope: &ScanScope)
        requires { IsCourse scope.now self.old }
        ensures state { state_of scope.now self.new ≡ finished (state_of scope.now self.old) }
        ensures form { IsCourse scope.now self.new }
        ensures kept { (self.new.flight ≡ self.old.flight) × (self.new.waiting ≡ self.old.waiting) }
    {
        self.end = Some(CourseEnd::Complete);
    }
}
