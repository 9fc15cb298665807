// The calls that a scan wants, as jobs.

ghost use Rattle.std.specs.Prelude.{◌≡◌, List, All, IfOk};
ghost use Rattle.std.specs.Arc.{arc_value};
ghost use Rattle.call_jobs.specs.Lawful.{IsLawfulJob};
ghost use Rattle.sp_model.specs.declared.settings.Connection.{Connection};
ghost use Rattle.one_scan.specs.Views.{SameScan};
ghost use Rattle.scan_run.specs.Asked.{IsTableOf};
ghost use Rattle.scan_run.specs.Calls.{IsCallOf};

use call_jobs::{Job, call_job};
use one_scan::Scan;
use row_flight::{JobList, Wanted};
use sp_model::{Connection, TableDecl};
use sp_value::Memory;
use sp_world::World;
use sqlite_items::Items;
use std::alloc::Global;
use std::sync::Arc;

/// The calls that a scan wants now, for seats of a number.
pub(crate) fn wanted_calls<W: World>(
    alloc: Global,
    scan: &mut Scan<W>,
    seats: u64,
) -> Result<JobList, Memory>
    ensures calls { IfOk result (λ calls. All (IsCallOf scan.old.table scan.old.request.connection) calls) }
    ensures same { SameScan scan.old scan.new }
{
    let mut calls = Items::new(alloc);
    match scan.wanted(alloc, seats, &mut calls) {
        Ok(()) => Ok(calls),
        Err(_) => Err(Memory),
    }
}

/// The job of a call.
#[tactic(auto, using(crate::proofs::Calling::call_is_lawful))]
fn job_of<W: World>(
    alloc: Global,
    connection: &Connection,
    table: &Arc<TableDecl, Global>,
    wanted: Wanted,
) -> Result<Job, Memory>
    requires { IsCallOf (arc_value table.now) connection.now.name wanted }
    ensures { (connections : List Connection) → IsTableOf W.tells W.book connections connection.now (arc_value table.now) → IfOk result (IsLawfulJob W.tells W.book connections) }
{
    let Wanted { call, seat, due } = wanted;
    call_job(alloc, connection, table, call, seat, due)
}

/// The jobs of calls, from the last call to the first.
#[tactic(auto, using(crate::proofs::Calling::calls_left, crate::proofs::Calling::call_popped, crate::proofs::Calling::jobs_more, crate::proofs::Calling::no_jobs))]
pub(crate) fn jobs_of<W: World>(
    alloc: Global,
    connection: &Connection,
    table: &Arc<TableDecl, Global>,
    calls: JobList,
) -> Result<Items<Job>, Memory>
    requires { All (IsCallOf (arc_value table.now) connection.now.name) calls }
    ensures { (connections : List Connection) → IsTableOf W.tells W.book connections connection.now (arc_value table.now) → IfOk result (All (IsLawfulJob W.tells W.book connections)) }
{
    let mut calls = calls;
    let mut jobs = Items::new(alloc);
    while let Some(wanted) = calls.pop() {
        let made = job_of::<W>(alloc, connection, table, wanted);
        let job = match made {
            Ok(job) => job,
            Err(_) => return Err(Memory),
        };
        match jobs.push(job) {
            Ok(()) => {}
            Err(_) => return Err(Memory),
        }
    }
    Ok(jobs)
}
