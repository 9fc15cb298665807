// The scans of a source.

ghost use Rattle.std.specs.Prelude.{◌≡◌, [], List, All, Some, true, false, IsTrue, IfOk, IfErr};
ghost use Rattle.std.specs.Arc.{arc_value};
ghost use Rattle.sp_value.specs.declared.cell.Cell.{Cell};
ghost use Rattle.sp_model.specs.Requests.{is_positive};
ghost use Rattle.sp_model.specs.declared.call.Version.{Version};
ghost use Rattle.source_run.specs.Ready.{IsReady};
ghost use Rattle.scan_run.specs.Asked.{SubsetKeysFilter};
ghost use Rattle.source_scans.specs.Planned.{IsMadeBy};
ghost use Rattle.statement_words.specs.Advances.{Advances, IsRun, IsKnownStop};
ghost use Rattle.statement_words.specs.Answered.{IsAt, GoesOn};
ghost use Rattle.statement_words.specs.Course.{Course, lowered, less, scan_one, scan_next, scan_all};

use desk::Desk;
use scan_run::run_scan;
use source_scans::PlanSource;
use sp_model::{ScanNotes, ScanRequest, Settings};
use sp_value::{Memory, Rows, TryCopy};
use sp_world::World;
use statement_words::Stop;
use std::alloc::Global;
use std::sync::Wait;

/// The request for what is still missing.
fn lowered(
    alloc: Global,
    request: &ScanRequest,
    missing: Option<u64>,
) -> Result<ScanRequest, Memory>
    ensures { IfOk result (λ r. r ≡ lowered missing request.now) }
{
    let mut request = request.copy(alloc)?;
    request.limit = missing;
    Ok(request)
}

/// What is still missing after rows.
fn less(missing: Option<u64>, rows: &Rows) -> Option<u64>
    ensures { result ≡ less missing rows.now }
{
    match missing {
        Some(count) => Some(count.saturating_sub(rows.len() as u64)),
        None => None,
    }
}

/// Whether nothing is missing.
fn wants_none(missing: Option<u64>) -> bool
    ensures none { result ≡ true → missing ≡ Some 0 }
    ensures some { result ≡ false → is_positive missing ≡ true }
{
    match missing {
        Some(count) => count == 0,
        None => false,
    }
}

/// One scan, for what is missing.
fn run_lowered<R: Wait, W: World, D: Desk<W>>(
    rt: &R,
    alloc: Global,
    desk: &mut D,
    settings: &Settings,
    source: &PlanSource,
    request: &ScanRequest,
    missing: Option<u64>,
    notes: &mut ScanNotes,
) -> Result<Rows, Stop>
    requires run { IsRun settings.now (D.state desk.old) }
    requires ready { IsReady W.tells W.book settings.now.connections source.now }
    requires missing { is_positive missing ≡ true }
    requires made { IsMadeBy source.now request.now }
    ensures told { IsTrue W.tells → SubsetKeysFilter W.book → (whole : List Version → Course) (more : List (List Cell) → List Version → Course) → IsAt whole notes.old (λ vs. scan_one W.book (arc_value source.now.table) (lowered missing request.now) vs more) → GoesOn whole notes.new more result }
    ensures advances { Advances W.tells W.book settings.now (D.state desk.old) (D.state desk.new) notes.old notes.new }
    ensures stop { IfErr result (IsKnownStop (D.state desk.new)) }
{
    match lowered(alloc, request, missing) {
        Ok(request) => {
            run_scan::<R, W, D>(rt, alloc, desk, settings, &source.table, &request, notes)
        }
        Err(_) => Err(Stop::Memory),
    }
}

/// One scan, unless nothing is missing.
fn run_next<R: Wait, W: World, D: Desk<W>>(
    rt: &R,
    alloc: Global,
    desk: &mut D,
    settings: &Settings,
    source: &PlanSource,
    request: &ScanRequest,
    missing: Option<u64>,
    notes: &mut ScanNotes,
) -> Result<Rows, Stop>
    requires run { IsRun settings.now (D.state desk.old) }
    requires ready { IsReady W.tells W.book settings.now.connections source.now }
    requires made { IsMadeBy source.now request.now }
    ensures told { IsTrue W.tells → SubsetKeysFilter W.book → (whole : List Version → Course) (more : List (List Cell) → List Version → Course) → IsAt whole notes.old (λ vs. scan_next W.book (arc_value source.now.table) missing request.now vs more) → GoesOn whole notes.new more result }
    ensures advances { Advances W.tells W.book settings.now (D.state desk.old) (D.state desk.new) notes.old notes.new }
    ensures stop { IfErr result (IsKnownStop (D.state desk.new)) }
{
    if wants_none(missing) {
        return Ok(Rows::new(alloc));
    }
    run_lowered::<R, W, D>(rt, alloc, desk, settings, source, request, missing, notes)
}

/// The rows of each of a source's scans.
pub(crate) fn run_scans<R: Wait, W: World, D: Desk<W>>(
    rt: &R,
    alloc: Global,
    desk: &mut D,
    settings: &Settings,
    source: &PlanSource,
    requests: &[ScanRequest],
    notes: &mut ScanNotes,
) -> Result<Vec<Rows>, Stop>
    requires run { IsRun settings.now (D.state desk.old) }
    requires ready { IsReady W.tells W.book settings.now.connections source.now }
    requires made { All (IsMadeBy source.now) requests.now }
    ensures told { IsTrue W.tells → SubsetKeysFilter W.book → (whole : List Version → Course) (more : List (List (List Cell)) → List Version → Course) → IsAt whole notes.old (λ vs. scan_all W.book (arc_value source.now.table) source.now.limit [] requests.now vs more) → GoesOn whole notes.new (λ lists. more lists.items) result }
    ensures advances { Advances W.tells W.book settings.now (D.state desk.old) (D.state desk.new) notes.old notes.new }
    ensures stop { IfErr result (IsKnownStop (D.state desk.new)) }
{
    let mut lists = Vec::new(alloc);
    let mut missing = source.limit;
    for request in requests {
        let next = run_next::<R, W, D>(rt, alloc, desk, settings, source, request, missing, notes);
        let rows = match next {
            Ok(rows) => rows,
            Err(stop) => return Err(stop),
        };
        missing = less(missing, &rows);
        match lists.push(rows) {
            Ok(()) => {}
            Err(_) => return Err(Stop::Memory),
        }
    }
    Ok(lists)
}
