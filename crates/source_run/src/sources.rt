// The sources of a statement.

ghost use Rattle.std.specs.Prelude.{◌≡◌, [], ◌∷◌, List, All, IsTrue, IfOk, IfErr, map};
ghost use Rattle.sp_value.specs.declared.cell.Cell.{Cell};
ghost use Rattle.sp_model.specs.declared.call.Version.{Version};
ghost use Rattle.source_run.specs.Ready.{IsReady};
ghost use Rattle.source_run.specs.Sources.{joined_rows, source_of};
ghost use Rattle.scan_run.specs.Asked.{SubsetKeysFilter};
ghost use Rattle.source_scans.specs.Asking.{picks_of};
ghost use Rattle.statement_words.specs.Advances.{Advances, IsRun, IsKnownStop};
ghost use Rattle.statement_words.specs.Answered.{IsAt, GoesOn};
ghost use Rattle.statement_words.specs.Course.{Course, StatementPlan, from_source, from_sources};

use crate::scans::run_scans;
use desk::Desk;
use row_algebra::{join_rows, keep};
use source_scans::PlanSource;
use sp_model::{ScanNotes, Settings};
use sp_value::{Cells, Memory, Rows};
use sp_world::World;
use sqlite_items::Items;
use statement_words::Stop;
use std::alloc::Global;
use std::sync::Wait;

/// Left rows joined with the rows of a source's scans, where each test is true.
#[tactic(auto, unfolding(crate::specs::Sources::joined_rows))]
fn joined(
    alloc: Global,
    source: &PlanSource,
    left: &Rows,
    picks: &[Items<u32>],
    lists: Vec<Rows>,
) -> Result<Rows, Memory>
    requires picks { picks.now ≡ picks_of source.now left.now }
    ensures { IfOk result (λ rows. rows ≡ joined_rows source.now left.now lists.items) }
{
    let mut rows = join_rows(alloc, left, picks, lists)?;
    keep(&mut rows, source.tests.as_slice());
    Ok(rows)
}

/// Left rows, joined with the rows of a source.
fn run_source<R: Wait, W: World, D: Desk<W>>(
    rt: &R,
    alloc: Global,
    desk: &mut D,
    settings: &Settings,
    source: &PlanSource,
    left: &Rows,
    notes: &mut ScanNotes,
) -> Result<Rows, Stop>
    requires run { IsRun settings.now (D.state desk.old) }
    requires ready { IsReady W.tells W.book settings.now.connections source.now }
    ensures told { IsTrue W.tells → SubsetKeysFilter W.book → (whole : List Version → Course) (more : List (List Cell) → List Version → Course) → IsAt whole notes.old (λ vs. from_source W.book (source_of source.now) left.now vs more) → GoesOn whole notes.new more result }
    ensures advances { Advances W.tells W.book settings.now (D.state desk.old) (D.state desk.new) notes.old notes.new }
    ensures stop { IfErr result (IsKnownStop (D.state desk.new)) }
{
    let scans = match source.next_scans(alloc, left) {
        Ok(scans) => scans,
        Err(_) => return Err(Stop::Memory),
    };
    let requests = scans.requests.as_slice();
    let lists = match run_scans::<R, W, D>(rt, alloc, desk, settings, source, requests, notes) {
        Ok(lists) => lists,
        Err(stop) => return Err(stop),
    };
    match joined(alloc, source, left, scans.picks.as_slice(), lists) {
        Ok(rows) => Ok(rows),
        Err(_) => Err(Stop::Memory),
    }
}

/// One row without cells.
fn no_columns(alloc: Global) -> Result<Rows, Memory>
    ensures { IfOk result (λ rows. rows ≡ [] ∷ []) }
{
    let mut rows = Rows::new(alloc);
    let row: Cells = Items::new(alloc);
    match rows.push(row) {
        Ok(()) => Ok(rows),
        Err(_) => Err(Memory),
    }
}

/// The joined rows of the sources of a statement, in their order: each is scanned once for every request that the rows of the sources before
/// it ask for, one scan after another, for what is still missing of its limit. Where the world tells, the statement's course stands, at the
/// versions of the notes, where its sources are done, or at the stop.
pub fn join_sources<R: Wait, W: World, D: Desk<W>>(
    rt: &R,
    alloc: Global,
    desk: &mut D,
    settings: &Settings,
    sources: &[PlanSource],
    notes: &mut ScanNotes,
) -> Result<Rows, Stop>
    requires run { IsRun settings.now (D.state desk.old) }
    requires ready { All (IsReady W.tells W.book settings.now.connections) sources.now }
    ensures told { IsTrue W.tells → SubsetKeysFilter W.book → (plan : StatementPlan) (whole : List Version → Course) → IsAt whole notes.old (λ vs. from_sources W.book plan (map source_of sources.now) ([] ∷ []) vs) → GoesOn whole notes.new (λ rows vs. from_sources W.book plan [] rows vs) result }
    ensures advances { Advances W.tells W.book settings.now (D.state desk.old) (D.state desk.new) notes.old notes.new }
    ensures stop { IfErr result (IsKnownStop (D.state desk.new)) }
{
    let mut left = match no_columns(alloc) {
        Ok(left) => left,
        Err(_) => return Err(Stop::Memory),
    };
    for source in sources {
        let next = run_source::<R, W, D>(rt, alloc, desk, settings, source, &left, notes);
        left = match next {
            Ok(rows) => rows,
            Err(stop) => return Err(stop),
        };
    }
    Ok(left)
}
