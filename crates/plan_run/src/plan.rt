// A statement of a plan.

ghost use Rattle.std.specs.Prelude.{◌≡◌, ◌≤◌, ℕ, [], ◌∷◌, List, All, IsTrue, IfErr};
ghost use Rattle.source_run.specs.Ready.{IsReady};
ghost use Rattle.plan_run.specs.Statements.{statement_of};
ghost use Rattle.scan_run.specs.Asked.{SubsetKeysFilter};
ghost use Rattle.sp_model.specs.declared.call.Version.{Version};
ghost use Rattle.statement_words.specs.Advances.{Advances, AreTrue, IsRun, IsKnownStop};
ghost use Rattle.statement_words.specs.Answered.{IsAt, IsAnswer};
ghost use Rattle.statement_words.specs.Course.{Course, course, from_sources};
ghost use Rattle.statement_words.specs.Runs.{IsLater};
ghost use Rattle.statement_words.specs.Turns.{AreInTurn, ticks_of};

use desk::Desk;
use source_run::join_sources;
use sp_model::{ScanNotes, Settings};
use sp_value::Rows;
use sp_world::World;
use sqlite_items::Items;
use statement_plan::Plan;
use statement_words::Stop;
use std::alloc::Global;
use std::sync::Wait;

/// The rows of a statement or why it stopped, and the notes of its scans, in their order.
#[derive(Drop)]
pub struct Ran {
    pub end: Result<Rows, Stop>,
    pub notes: ScanNotes,
}

/// The rows that a plan answers with.
fn run_sources<R: Wait, W: World, D: Desk<W>>(
    rt: &R,
    alloc: Global,
    desk: &mut D,
    settings: &Settings,
    plan: &Plan,
    notes: &mut ScanNotes,
) -> Result<Rows, Stop>
    requires run { IsRun settings.now (D.state desk.old) }
    requires ready { All (IsReady W.tells W.book settings.now.connections) plan.now.sources }
    ensures told { IsTrue W.tells → SubsetKeysFilter W.book → (whole : List Version → Course) → IsAt whole notes.old (λ vs. from_sources W.book (statement_of plan.now) (statement_of plan.now).sources ([] ∷ []) vs) → IsAnswer whole notes.new result }
    ensures advances { Advances W.tells W.book settings.now (D.state desk.old) (D.state desk.new) notes.old notes.new }
    ensures stop { IfErr result (IsKnownStop (D.state desk.new)) }
{
    let sources = plan.sources.as_slice();
    match join_sources::<R, W, D>(rt, alloc, desk, settings, sources, notes) {
        Ok(rows) => match plan.finishing.finish(alloc, rows) {
            Ok(rows) => Ok(rows),
            Err(_) => Err(Stop::Memory),
        },
        Err(stop) => Err(stop),
    }
}

/// Answers a statement of a plan, whatever the desk answers and in whatever order: with the rows of its course at the versions of the notes,
/// with its first failing scan, by the spent budget of a connection of which the next scan is needed, or for want of memory. The desk then
/// drops what of its calls still waits.
pub fn run_plan<R: Wait, W: World, D: Desk<W>>(
    rt: &R,
    alloc: Global,
    desk: &mut D,
    settings: &Settings,
    plan: &Plan,
) -> Ran
    requires run { IsRun settings.now (D.state desk.old) }
    requires ready { All (IsReady W.tells W.book settings.now.connections) plan.now.sources }
    ensures told { IsTrue W.tells → SubsetKeysFilter W.book → IsAnswer (course W.book (statement_of plan.now)) result.notes result.end }
    ensures notes { IsTrue W.tells → (began : ℕ) → began ≤ (D.state desk.old).tick → AreTrue W.book settings.now.options began result.notes }
    ensures turn { AreInTurn (D.state desk.old).tick (D.state desk.new).tick (ticks_of result.notes) }
    ensures stop { IfErr result.end (IsKnownStop (D.state desk.new)) }
    ensures desk { IsLater (D.state desk.old) (D.state desk.new) }
{
    let mut notes: ScanNotes = Items::new(alloc);
    let end = run_sources::<R, W, D>(rt, alloc, desk, settings, plan, &mut notes);
    desk.end_statement();
    Ran { end, notes }
}
