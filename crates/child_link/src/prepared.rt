ghost use Rattle.std.specs.Coded.{codes};
ghost use Rattle.sp_value.specs.contracts.cell.Cell as cells;
ghost use Rattle.sp_world.specs.contracts.line.Request as requests;
ghost use Rattle.sp_world.specs.contracts.line.LineFault as faults;
ghost use Rattle.call_jobs.specs.Jobs.{asked_by, function_by};
ghost use Rattle.child_link.specs.Reads.{Reads};

use call_jobs::Job;
use sp_world::LineParts;

/// A job with its line but for the number, and how many bytes that has.
#[derive(Drop)]
pub struct Prepared {
    pub job: Job,
    pub line: LineParts,
    pub length: usize,
    pub ghost reads: { Reads (asked_by job) (function_by job) line.head.items line.tail.items } by { Prim.hlevel (codes, cells.the_row.coded, requests.the_row.coded, faults.the_row.coded) },
}
