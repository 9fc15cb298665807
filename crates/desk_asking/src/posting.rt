// What a statement hands in at its desk, and what it has the desk do.

ghost use Rattle.std.specs.Prelude.{◌≡◌, IfErr};
ghost use Rattle.call_jobs.specs.Lawful.{IsLawfulJob};
ghost use Rattle.statement_words.specs.Runs.{IsLater, IsMemory};

use call_jobs::Job;
use desk::{Desk, Driven};
use sp_world::World;
use statement_words::Stop;

/// Hands in a job.
#[tactic(auto, using(statement_words::proofs::Stops::later_still))]
pub fn submit<W: World, D: Desk<W>>(desk: &mut D, job: Job) -> Result<(), Stop>
    requires lawful { IsLawfulJob W.tells W.book (D.state desk.old).settings.connections job }
    ensures state { IsLater (D.state desk.old) (D.state desk.new) }
    ensures err { IfErr result IsMemory }
{
    match desk.submit(job) {
        Ok(()) => Ok(()),
        Err(_) => Err(Stop::Memory),
    }
}

/// Moves calls on.
#[tactic(auto, using(statement_words::proofs::Stops::later_still))]
pub(crate) fn drive<W: World, D: Desk<W>>(desk: &mut D) -> Result<(), Stop>
    ensures state { IsLater (D.state desk.old) (D.state desk.new) }
    ensures err { IfErr result IsMemory }
{
    match desk.drive() {
        Driven::Moved => Ok(()),
        Driven::Memory => Err(Stop::Memory),
    }
}
