ghost use Rattle.std.specs.Prelude.{◌≡◌, IfOk, IfErr, OnOk};
ghost use Rattle.call_jobs.specs.Jobs.{asked_by, function_by};
ghost use Rattle.sp_world.specs.RequestLines.{IsAskedForm};
ghost use Rattle.child_link.specs.Reads.{Reads};

use crate::prepared::Prepared;
use call_jobs::Job;
use sp_value::Memory;
use sp_world::{LineParts, line_parts};
use std::alloc::Global;

impl Prepared {
    /// The job.
    pub fn into_job(self) -> Job
        ensures { result ≡ self.job }
    {
        let Prepared {
            job,
            line,
            length: _,
        } = self;
        drop(line);
        job
    }
}

/// The line of a job, but for its number.
#[tactic(auto, using(crate::proofs::Sending::reads_parts))]
fn line_of(alloc: Global, job: &Job) -> Result<LineParts, Memory>
    requires { IsAskedForm (function_by job.now) (asked_by job.now) }
    ensures { IfOk result (λ line. Reads (asked_by job.now) (function_by job.now) line.head.items line.tail.items) }
{
    let function = job.function(alloc)?;
    let line = line_parts(alloc, &job.asked, &function)?;
    Ok(line)
}

/// A job with its line but for the number. It is handed back for want of memory alone.
pub(crate) fn prepared(alloc: Global, job: Job) -> Result<Prepared, Job>
    requires { IsAskedForm (function_by job) (asked_by job) }
    ensures ok { IfOk result (λ p. p.job ≡ job) }
    ensures err { IfErr result (λ back. back ≡ job) }
{
    match line_of(alloc, &job) {
        Ok(line) => {
            let length = line.head.len().saturating_add(line.tail.len());
            Ok(Prepared { job, line, length })
        }
        Err(_) => Err(job),
    }
}
