// One scan of a statement.

ghost use Rattle.std.specs.Prelude.{◌≡◌, true, Some, IsTrue, IfErr};
ghost use Rattle.std.specs.Arc.{arc_value};
ghost use Rattle.sp_model.specs.Names.{has_name};
ghost use Rattle.decl_words.specs.BookTables.{book_table};
ghost use Rattle.scan_run.specs.Asked.{IsScanOf, SubsetKeysFilter};
ghost use Rattle.statement_words.specs.Advances.{Advances, IsRun, IsKnownStop};
ghost use Rattle.statement_words.specs.Answered.{IsScanned};
ghost use Rattle.statement_words.specs.Runs.{plain_names};

use crate::fresh::scan_by_calls;
use crate::kept::{look, scan_by_kept};
use desk::Desk;
use sp_model::{ScanNotes, ScanRequest, Settings, TableDecl};
use sp_value::Rows;
use sp_world::World;
use statement_words::Stop;
use std::alloc::Global;
use std::sync::{Arc, Wait};

/// The rows of one scan of a table, from a kept scan or by calls, and its note at the end of the notes. It stops where the scan fails, by the
/// spent budget of its connection, or for want of memory; then it may have a note, too. Where the world tells, the rows or the failure are the
/// scan's value at the version of its note, and the note is true.
pub fn run_scan<R: Wait, W: World, D: Desk<W>>(
    rt: &R,
    alloc: Global,
    desk: &mut D,
    settings: &Settings,
    table: &Arc<TableDecl, Global>,
    request: &ScanRequest,
    notes: &mut ScanNotes,
) -> Result<Rows, Stop>
    requires run { IsRun settings.now (D.state desk.old) }
    requires scan_of { IsScanOf (arc_value table.now) request.now }
    requires plain { has_name (plain_names settings.now.connections) request.now.connection ≡ true }
    requires of_book { IsTrue W.tells → book_table W.book request.now.connection request.now.table ≡ Some (arc_value table.now) }
    ensures told { IsTrue W.tells → SubsetKeysFilter W.book → IsScanned W.book (arc_value table.now) request.now notes.old notes.new result }
    ensures advances { Advances W.tells W.book settings.now (D.state desk.old) (D.state desk.new) notes.old notes.new }
    ensures stop { IfErr result (IsKnownStop (D.state desk.new)) }
{
    let at = desk.now();
    let found = match look::<W, D>(desk, request, table) {
        Ok(found) => found,
        Err(stop) => return Err(stop),
    };
    match found {
        Some(kept) => scan_by_kept::<W>(alloc, &kept, settings, request, table, at, notes),
        None => scan_by_calls::<R, W, D>(rt, alloc, desk, settings, table, request, at, notes),
    }
}
