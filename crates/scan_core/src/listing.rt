ghost use Rattle.std.specs.Prelude.{◌≡◌, ◌∷◌, ◌++◌, [], true, false, Option, Some, None, IsSome, IfOk, OnOk, OnErr};
ghost use Rattle.scan_core.specs.Courses.{IsCourse};
ghost use Rattle.scan_core.specs.Listing.{items_slot, items_function, items_listed, parents_listed, IsPut, CallLists, CourseLists, CallIsListed, NoneIsLeft};
ghost use Rattle.scan_core.specs.declared.calls.ItemsCall.{ItemsCall as Items};
ghost use Rattle.scan_core.specs.declared.calls.ParentsCall.{ParentsCall as Parents};

use crate::calls::{ItemsCall, OpenCall, ParentsCall};
use crate::course::Course;
use crate::scope::ScanScope;
use row_flight::{JobList, Wanted};
use sp_model::{Access, Seat};
use sp_value::{Memory, TryCopy};
use sp_world::World;
use std::alloc::Global;

/// The slot of the get, list or child list.
pub(crate) fn items_slot(access: Access) -> usize
    ensures { result ≡ items_slot access }
{
    match access {
        Access::Get | Access::List => 0,
        Access::Parents => 1,
    }
}

/// The number of its function in a seat.
pub(crate) fn items_function(access: Access) -> u32
    ensures { result ≡ items_function access }
{
    match access {
        Access::Get | Access::List => 64,
        Access::Parents => 65,
    }
}

impl<W: World> OpenCall<W> {
    /// Puts the present attempt at the end of a list, as a call of the scan of this number.
    fn put(
        &self,
        alloc: Global,
        scan: u64,
        slot: usize,
        function: u32,
        into: &mut JobList,
    ) -> Result<(), Memory>
        ensures ok { OnOk result (IsPut self.now scan slot function into.old into.new) }
        ensures err { OnErr result (into.new ≡ into.old) }
    {
        let Ok(call) = self.stream.call().copy(alloc) else {
            return Err(Memory);
        };
        let wanted = Wanted {
            call,
            seat: Seat {
                scan,
                slot,
                generation: self.generation,
                function,
            },
            due: self.due,
        };
        let Ok(()) = into.push(wanted) else {
            return Err(Memory);
        };
        Ok(())
    }
}

impl<W: World> ItemsCall<W> {
    /// Lists the present attempt, unless it is listed.
    fn list(
        &mut self,
        alloc: Global,
        scan: u64,
        slot: usize,
        function: u32,
        into: &mut JobList,
    ) -> Result<(), Memory>
        ensures lists { OnOk result (self.old.call.listed ≡ false → (self.new ≡ items_listed self.old) × IsPut self.old.call scan slot function into.old into.new) }
        ensures listed { OnOk result (self.old.call.listed ≡ true → (self.new ≡ self.old) × (into.new ≡ into.old)) }
        ensures err { OnErr result ((self.new ≡ self.old) × (into.new ≡ into.old)) }
    {
        if self.call.listed {
            return Ok(());
        }
        let Ok(()) = self.call.put(alloc, scan, slot, function, into) else {
            return Err(Memory);
        };
        self.call.listed = true;
        Ok(())
    }
}

impl<W: World> ParentsCall<W> {
    /// Lists the present attempt, unless it is listed.
    fn list(&mut self, alloc: Global, scan: u64, into: &mut JobList) -> Result<(), Memory>
        ensures lists { OnOk result (self.old.call.listed ≡ false → (self.new ≡ parents_listed self.old) × IsPut self.old.call scan 0 64 into.old into.new) }
        ensures listed { OnOk result (self.old.call.listed ≡ true → (self.new ≡ self.old) × (into.new ≡ into.old)) }
        ensures err { OnErr result ((self.new ≡ self.old) × (into.new ≡ into.old)) }
    {
        if self.call.listed {
            return Ok(());
        }
        let Ok(()) = self.call.put(alloc, scan, 0, 64, into) else {
            return Err(Memory);
        };
        self.call.listed = true;
        Ok(())
    }
}

impl<W: World> Course<W> {
    /// Lists the present attempt of the get, list or child list, unless it is listed.
    fn list_items(
        &mut self,
        alloc: Global,
        scope: &ScanScope,
        scan: u64,
        into: &mut JobList,
    ) -> Result<(), Memory>
        requires { IsCourse scope.now self.old }
        ensures lists { CallLists scope.now scan self.old self.new into.old into.new }
        ensures listed { OnOk result ((i : Items _) → self.new.items ≡ Some i → i.call.listed ≡ true) }
        ensures form { IsCourse scope.now self.new }
    {
        let access = scope.request.access;
        let slot = items_slot(access);
        let function = items_function(access);
        let Some(call) = &mut self.items else {
            return Ok(());
        };
        let Ok(()) = call.list(alloc, scan, slot, function, into) else {
            return Err(Memory);
        };
        Ok(())
    }

    /// Lists the present attempt of the parents call, unless it is listed. No list is open.
    fn list_parents(
        &mut self,
        alloc: Global,
        scope: &ScanScope,
        scan: u64,
        into: &mut JobList,
    ) -> Result<(), Memory>
        requires form { IsCourse scope.now self.old }
        requires closed { self.old.items ≡ None }
        ensures lists { CallLists scope.now scan self.old self.new into.old into.new }
        ensures listed { OnOk result ((o : Parents _) → self.new.parents ≡ Some o → o.call.listed ≡ true) }
        ensures form { IsCourse scope.now self.new }
    {
        let Some(call) = &mut self.parents else {
            return Ok(());
        };
        let Ok(()) = call.list(alloc, scan, into) else {
            return Err(Memory);
        };
        Ok(())
    }

    /// Lists the call whose items are asked for: the get, list or child list, and where no list is open the parents call.
    fn list_call(
        &mut self,
        alloc: Global,
        scope: &ScanScope,
        scan: u64,
        into: &mut JobList,
    ) -> Result<(), Memory>
        requires { IsCourse scope.now self.old }
        ensures lists { CallLists scope.now scan self.old self.new into.old into.new }
        ensures listed { OnOk result (CallIsListed self.new.items self.new.parents) }
        ensures form { IsCourse scope.now self.new }
    {
        match &self.items {
            Some(_) => self.list_items(alloc, scope, scan, into),
            None => self.list_parents(alloc, scope, scan, into),
        }
    }

    /// Puts each call that is ready and wasn't listed before at the end of a list, as a call of the scan of this number. Nothing is
    /// listed once the scan is decided. For want of memory it stops with those that it listed.
    pub fn list(
        &mut self,
        alloc: Global,
        scope: &ScanScope,
        scan: u64,
        into: &mut JobList,
    ) -> Result<(), Memory>
        requires { IsCourse scope.now self.old }
        ensures lists { CourseLists scope.now scan self.old self.new into.old into.new }
        ensures all { OnOk result (self.new.end ≡ None → NoneIsLeft self.new) }
        ensures form { IsCourse scope.now self.new }
        ensures decided { IsSome self.old.end → (self.new ≡ self.old) × (into.new ≡ into.old) }
    {
        if self.end.is_some() {
            return Ok(());
        }
        let Ok(()) = self.list_call(alloc, scope, scan, into) else {
            return Err(Memory);
        };
        let Ok(()) = self.flight.list(alloc, scan, into) else {
            return Err(Memory);
        };
        Ok(())
    }
}
