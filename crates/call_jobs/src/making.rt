ghost use Rattle.std.specs.Prelude.{◌≡◌, true, Some, None, IfOk};
ghost use Rattle.std.specs.Arc.{arc_value};
ghost use Rattle.sp_model.specs.Calls.{is_lawful_by};
ghost use Rattle.sp_model.specs.declared.call.Asked.TheVariants as asked;
ghost use Rattle.call_jobs.specs.Jobs.{IsJob};

use crate::job::Job;
use rate_gate::CallTags;
use sp_model::{Asked, CallKey, Connection, Seat, TableDecl};
use sp_value::{Memory, TryCopy};
use std::alloc::Global;
use std::sync::Arc;

/// A job of a session that is set when it is handed in.
fn job_of(
    alloc: Global,
    asked: Asked,
    seat: Seat,
    due: u64,
    tags: CallTags,
    table: Option<Arc<TableDecl, Global>>,
) -> Result<Job, Memory>
    ensures { IfOk result (λ j. (j.session ≡ 0) × (arc_value j.asked ≡ asked) × (j.seat ≡ seat) × (j.due ≡ due) × (j.tags ≡ tags) × (j.table ≡ table)) }
{
    let asked = Arc::new(alloc, asked)?;
    Ok(Job {
        session: 0,
        asked,
        seat,
        due,
        tags,
        table,
    })
}

/// The job of a call of a connection's table, in session 0.
#[tactic(auto, using(crate::proofs::Tagged::names_table, crate::proofs::Tagged::has_own))]
pub fn call_job(
    alloc: Global,
    connection: &Connection,
    table: &Arc<TableDecl, Global>,
    key: CallKey,
    seat: Seat,
    due: u64,
) -> Result<Job, Memory>
    requires lawful { is_lawful_by (arc_value table.now) key.call key.attempt ≡ true }
    ensures { IfOk result (IsJob connection.now (asked.Call key) (Some (arc_value table.now)) seat due) }
{
    let tags = CallTags::of(alloc, connection, table, &key.call)?;
    let table = Arc::try_clone(table)?;
    let job = job_of(alloc, Asked::Call(key), seat, due, tags, Some(table))?;
    Ok(job)
}

/// The job that asks for a connection's version at a tick, in session 0.
pub fn version_job(
    alloc: Global,
    connection: &Connection,
    tick: u64,
    seat: Seat,
) -> Result<Job, Memory>
    ensures { IfOk result (IsJob connection.now (asked.Version connection.now.name tick) None seat 0) }
{
    let tags = CallTags::free(alloc, &connection.name)?;
    let asked = Asked::Version {
        connection: connection.name.copy(alloc)?,
        tick,
    };
    let job = job_of(alloc, asked, seat, 0, tags, None)?;
    Ok(job)
}

/// The job that asks for a connection's declaration, in session 0.
pub fn declare_job(alloc: Global, connection: &Connection, seat: Seat) -> Result<Job, Memory>
    ensures { IfOk result (IsJob connection.now (asked.Declare connection.now.name) None seat 0) }
{
    let tags = CallTags::free(alloc, &connection.name)?;
    let asked = Asked::Declare {
        connection: connection.name.copy(alloc)?,
    };
    let job = job_of(alloc, asked, seat, 0, tags, None)?;
    Ok(job)
}
