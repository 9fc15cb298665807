// The jobs of a scan, handed in at its desk.

ghost use Rattle.std.specs.Prelude.{◌≡◌, All, IfErr};
ghost use Rattle.call_jobs.specs.Lawful.{IsLawfulJob};
ghost use Rattle.statement_words.specs.Runs.{IsLater, IsMemory};

use call_jobs::Job;
use desk::Desk;
use desk_asking::submit;
use sp_model::Settings;
use sp_world::World;
use sqlite_items::Items;
use statement_words::Stop;

/// Hands in jobs, the last of them first.
#[tactic(auto, using(crate::proofs::Calling::jobs_left, crate::proofs::Calling::job_popped, statement_words::proofs::Stops::later_then, statement_words::proofs::Stops::later_refl))]
pub(crate) fn submit_all<W: World, D: Desk<W>>(
    desk: &mut D,
    settings: &Settings,
    jobs: Items<Job>,
) -> Result<(), Stop>
    requires settings { (D.state desk.old).settings ≡ settings.now }
    requires lawful { All (IsLawfulJob W.tells W.book settings.now.connections) jobs }
    ensures state { IsLater (D.state desk.old) (D.state desk.new) }
    ensures err { IfErr result IsMemory }
{
    let mut jobs = jobs;
    while let Some(job) = jobs.pop() {
        submit::<W, D>(desk, job)?;
    }
    Ok(())
}
