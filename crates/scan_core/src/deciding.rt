ghost use Rattle.std.specs.Prelude.{◌≡◌, ◌∷◌, ◌<◌, ◌+◌, ◌^◌, List, suc, zero, length, Option, Some, None, IfOk, OnOk, OnErr};
ghost use Rattle.sp_model.specs.Walk.{with_row};
ghost use Rattle.sp_model.specs.declared.outcome.Row.TheVariants as rows;
ghost use Rattle.row_flight.specs.Flying.{Seated, rows_of};
ghost use Rattle.scan_laws.specs.States.{FlightRow};
ghost use Rattle.scan_core.specs.Advances.{row_now, Decides};
ghost use Rattle.scan_core.specs.Calls.{passed_front, passed_items};
ghost use Rattle.scan_core.specs.Courses.{state_of, table_of, IsCourse, entry_now, end_if, went_on, Grows};
ghost use Rattle.scan_core.specs.Going.{GoesOn};
ghost use Rattle.scan_core.specs.Next.{FirstIsDecided};
ghost use Rattle.scan_core.specs.declared.calls.ItemsCall.{ItemsCall};

use crate::calls::Entry;
use crate::course::{Course, CourseEnd};
use crate::meeting::{is_reached, meets};
use crate::scope::ScanScope;
use hydrate_graph::RowEnd;
use sp_model::{Cause, ColumnDecl, Row, ScanRequest, WalkState};
use sp_value::{Cells, Memory, Text, TryCopy};
use sp_world::World;
use sqlite_items::at;
use std::alloc::Global;

/// Keeps a whole row or leaves it out, by the conditions. Gives whether it reached the limit.
fn keep(
    walk: &mut WalkState,
    request: &ScanRequest,
    columns: &[ColumnDecl],
    cells: Cells,
) -> Result<bool, Memory>
    ensures ok { IfOk result (λ full. with_row request.now.conditions columns.now request.now.limit (Some (rows.Whole cells)) walk.old ≡ went_on full walk.new) }
    ensures grows { Grows walk.old walk.new }
    ensures err { OnErr result (walk.new ≡ walk.old) }
{
    let Some(items) = walk.items.checked_add(1) else {
        return Err(Memory);
    };
    if !meets(request.conditions.as_slice(), columns, cells.as_slice()) {
        walk.items = items;
        return Ok(false);
    }
    let Ok(()) = walk.rows.push(cells) else {
        return Err(Memory);
    };
    walk.items = items;
    Ok(is_reached(request.limit, walk.rows.len()))
}

/// The end of a scan, where its limit is reached.
fn end_if(full: bool) -> Option<CourseEnd>
    ensures { result ≡ end_if full }
{
    if full {
        return Some(CourseEnd::Limited);
    }
    None
}

impl<W: World> Course<W> {
    /// What the first row in flight is: whole, or its first failing column.
    fn first_row(&self, alloc: Global, scope: &ScanScope) -> Result<Row, Memory>
        requires form { IsCourse scope.now self.now }
        requires first { FirstIsDecided (table_of scope.now) scope.now.request (state_of scope.now self.now) }
        ensures { IfOk result (λ seen. (row : FlightRow) (rest : List FlightRow) → rows_of self.now.flight ≡ row ∷ rest → row_now (table_of scope.now) scope.now.request row ≡ Some seen) }
    {
        let Some(row) = self.flight.first() else {
            unreachable!()
        };
        match row.finished() {
            None => unreachable!(),
            Some(RowEnd::Whole) => {
                let cells = row.row(alloc)?;
                Ok(Row::Whole(cells))
            }
            Some(RowEnd::Fails { column }) => {
                let Some(found) = at(row.plan().columns(), column as usize) else {
                    unreachable!()
                };
                let cause = row.cause().to_cause(alloc)?;
                let column = found.name.copy(alloc)?;
                Ok(Row::Broken { column, cause })
            }
        }
    }

    /// Lets the first row in flight go: one more item is decided, one of those in front or else one of the open call.
    fn pass_first(&mut self, entry: Entry)
        requires some { 0 < length self.old.flight.rows }
        requires few { (c : ItemsCall _) → self.old.items ≡ Some c → self.old.before ≡ 0 → c.call.taken + 1 < 2 ^ 64 }
        ensures flight { (s : Seated) × (self.old.flight ≡ record self.new.flight { rows = s ∷ self.new.flight.rows }) }
        ensures items { self.new.items ≡ passed_items self.old.before self.old.items entry }
        ensures before { self.new.before ≡ passed_front self.old.before }
        ensures parents { self.new.parents ≡ self.old.parents }
        ensures waiting { self.new.waiting ≡ self.old.waiting }
        ensures walk { self.new.walk ≡ self.old.walk }
        ensures end { self.new.end ≡ self.old.end }
    {
        self.flight.drop_first();
        if self.before > 0 {
            self.before -= 1;
            return;
        }
        if let Some(call) = &mut self.items {
            call.pass(entry);
        }
    }

    /// The first row in flight, which is whole, is kept or left out.
    fn take_row(&mut self, scope: &ScanScope, cells: Cells) -> Result<(), Memory>
        requires form { IsCourse scope.now self.old }
        requires going { self.old.end ≡ None }
        requires first { FirstIsDecided (table_of scope.now) scope.now.request (state_of scope.now self.old) }
        requires seen { (row : FlightRow) (rest : List FlightRow) → rows_of self.old.flight ≡ row ∷ rest → row_now (table_of scope.now) scope.now.request row ≡ Some (rows.Whole cells) }
        ensures state { OnOk result (Decides (table_of scope.now) scope.now.request (state_of scope.now self.old) (state_of scope.now self.new)) }
        ensures form { IsCourse scope.now self.new }
        ensures goes { GoesOn self.old self.new }
        ensures err { OnErr result (self.new ≡ self.old) }
    {
        let entry = Entry {
            rows: self.walk.rows.len(),
            items: self.walk.items,
            steady: self.walk.steady,
        };
        let Ok(full) = keep(
            &mut self.walk,
            &scope.request,
            self.flight.plan().columns(),
            cells,
        ) else {
            return Err(Memory);
        };
        self.pass_first(entry);
        self.end = end_if(full);
        Ok(())
    }

    /// The first row in flight fails, and the scan with it.
    fn fail_row(&mut self, scope: &ScanScope, column: Text, cause: Cause) -> Result<(), Memory>
        requires form { IsCourse scope.now self.old }
        requires first { FirstIsDecided (table_of scope.now) scope.now.request (state_of scope.now self.old) }
        requires seen { (row : FlightRow) (rest : List FlightRow) → rows_of self.old.flight ≡ row ∷ rest → row_now (table_of scope.now) scope.now.request row ≡ Some (rows.Broken column cause) }
        ensures state { OnOk result (Decides (table_of scope.now) scope.now.request (state_of scope.now self.old) (state_of scope.now self.new)) }
        ensures form { IsCourse scope.now self.new }
        ensures kept { (self.new.flight ≡ self.old.flight) × (self.new.waiting ≡ self.old.waiting) }
        ensures err { OnErr result (self.new ≡ self.old) }
    {
        let Some(row) = self.walk.items.checked_add(1) else {
            return Err(Memory);
        };
        self.end = Some(CourseEnd::Failed {
            row,
            column: Some(column),
            cause,
        });
        Ok(())
    }

    /// The first row in flight is kept or left out, or fails the scan.
    #[tactic(auto, using(crate::proofs::Going::goes_kept))]
    pub(crate) fn decide(&mut self, alloc: Global, scope: &ScanScope) -> Result<(), Memory>
        requires form { IsCourse scope.now self.old }
        requires going { self.old.end ≡ None }
        requires first { FirstIsDecided (table_of scope.now) scope.now.request (state_of scope.now self.old) }
        ensures state { OnOk result (Decides (table_of scope.now) scope.now.request (state_of scope.now self.old) (state_of scope.now self.new)) }
        ensures form { IsCourse scope.now self.new }
        ensures goes { GoesOn self.old self.new }
        ensures err { OnErr result (self.new ≡ self.old) }
    {
        match self.first_row(alloc, scope) {
            Err(Memory) => Err(Memory),
            Ok(Row::Whole(cells)) => self.take_row(scope, cells),
            Ok(Row::Broken { column, cause }) => self.fail_row(scope, column, cause),
        }
    }
}
