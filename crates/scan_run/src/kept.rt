// Scans that a kept one serves.

ghost use Rattle.std.specs.Prelude.{◌≡◌, ◌≤◌, ℕ, [], ◌∷◌, ◌++◌, true, Some, IsTrue, IfOk, IfErr, IfSome, OnOk, OnErr};
ghost use Rattle.std.specs.Arc.{arc_value};
ghost use Rattle.sp_model.specs.Covers.{covers};
ghost use Rattle.sp_model.specs.TrueNote.{TrueNote};
ghost use Rattle.sp_model.specs.Walk.{scan_value};
ghost use Rattle.sp_model.specs.declared.outcome.ScanValue.TheVariants as value;
ghost use Rattle.decl_words.specs.BookTables.{book_table};
ghost use Rattle.desk.specs.States.{IsStill};
ghost use Rattle.scan_run.specs.Asked.{IsScanOf, IsServing, SubsetKeysFilter, meets_list, meets_keys};
ghost use Rattle.statement_words.specs.Answered.{Adds, IsScanned};
ghost use Rattle.statement_words.specs.Noted.{cached_note};
ghost use Rattle.statement_words.specs.Runs.{IsMemory};

use crate::fresh::add_note;
use desk::Desk;
use key_columns::{Given, is_met};
use query_cache::rows_of;
use sp_model::{
    Access, Conditions, ListDecl, Mark, ScanNote, ScanNotes, ScanRequest, Settings, TableDecl,
};
use sp_value::{Memory, Rows, TryCopy};
use sp_world::{Kept, World};
use statement_words::Stop;
use std::alloc::Global;
use std::sync::Arc;

fn meets_list(list: &Option<ListDecl>, conditions: &Conditions) -> bool
    ensures { result ≡ meets_list list.now conditions.now }
{
    match list {
        Some(list) => is_met(list.keys.as_slice(), &Given::all(conditions.as_slice())),
        None => false,
    }
}

/// Whether the conditions of a list request meet the keys of the table's list.
fn meets_keys(table: &TableDecl, request: &ScanRequest) -> bool
    ensures { result ≡ meets_keys table.now request.now }
{
    match request.access {
        Access::Get => true,
        Access::List | Access::Parents => meets_list(&table.list, &request.conditions),
    }
}

/// The same kept scan, if its keys are met.
fn if_met<W: World>(kept: Arc<Kept<W>, Global>, table: &TableDecl) -> Option<Arc<Kept<W>, Global>>
    ensures { IfSome result (λ k. (k ≡ kept) × (meets_keys table.now (arc_value k).note.request ≡ true)) }
{
    if meets_keys(table, &kept.note().request) {
        return Some(kept);
    }
    None
}

/// Looks for a kept scan that serves a request of a table.
#[tactic(auto, using(crate::proofs::Scanning::found_met))]
pub(crate) fn look<W: World, D: Desk<W>>(
    desk: &mut D,
    request: &ScanRequest,
    table: &Arc<TableDecl, Global>,
) -> Result<Option<Arc<Kept<W>, Global>>, Stop>
    ensures found { IfOk result (λ r. IfSome r (λ kept. IsServing (D.state desk.old).settings (D.state desk.old).tick (arc_value table.now) request.now (arc_value kept))) }
    ensures still { IsStill (D.state desk.old) (D.state desk.new) }
    ensures err { IfErr result IsMemory }
{
    match desk.look(request) {
        Ok(Some(kept)) => Ok(if_met::<W>(kept, table)),
        Ok(None) => Ok(None),
        Err(_) => Err(Stop::Memory),
    }
}

fn note_of<W: World>(
    alloc: Global,
    kept: &Kept<W>,
    request: &ScanRequest,
    at: u64,
) -> Result<ScanNote, Memory>
    ensures { IfOk result (λ n. n ≡ cached_note request.now at kept.now.note) }
{
    let note = kept.note();
    Ok(ScanNote {
        request: request.copy(alloc)?,
        asked: note.asked,
        at,
        version: note.version.copy(alloc)?,
        mark: Mark::Cached,
    })
}

/// The rows that a kept scan gives to a request of a table.
fn rows_served<W: World>(
    alloc: Global,
    kept: &Kept<W>,
    request: &ScanRequest,
    table: &TableDecl,
) -> Result<Rows, Memory>
    requires covers { covers kept.now.note.request kept.now.complete request.now ≡ true }
    requires met { meets_keys table.now kept.now.note.request ≡ true }
    requires scan_of { IsScanOf table.now request.now }
    ensures { IsTrue W.tells → SubsetKeysFilter W.book → book_table W.book request.now.connection request.now.table ≡ Some table.now → IfOk result (λ rows. scan_value W.book table.now request.now kept.now.note.version ≡ Some (value.Rows rows)) }
{
    let _note = kept.note();
    rows_of::<W>(alloc, kept, request)
}

/// The rows that a kept scan gives. Its note is added.
#[tactic(auto, using(crate::proofs::Scanning::no_note))]
fn served_scan<W: World>(
    alloc: Global,
    kept: &Kept<W>,
    settings: &Settings,
    request: &ScanRequest,
    table: &TableDecl,
    at: u64,
    notes: &mut ScanNotes,
) -> Result<Rows, Memory>
    requires serving { IsServing settings.now at table.now request.now kept.now }
    requires scan_of { IsScanOf table.now request.now }
    ensures ok { OnOk result (notes.new ≡ notes.old ++ cached_note request.now at kept.now.note ∷ []) }
    ensures err { OnErr result (notes.new ≡ notes.old) }
    ensures told { IsTrue W.tells → SubsetKeysFilter W.book → book_table W.book request.now.connection request.now.table ≡ Some table.now → IfOk result (λ rows. scan_value W.book table.now request.now kept.now.note.version ≡ Some (value.Rows rows)) }
    ensures noted { IsTrue W.tells → (began : ℕ) → began ≤ at → Adds (TrueNote W.book settings.now.options began) notes.old notes.new }
{
    let _note = kept.note();
    let rows = match rows_served::<W>(alloc, kept, request, table) {
        Ok(rows) => rows,
        Err(_) => return Err(Memory),
    };
    let note = match note_of::<W>(alloc, kept, request, at) {
        Ok(note) => note,
        Err(_) => return Err(Memory),
    };
    match add_note(notes, note) {
        Ok(()) => Ok(rows),
        Err(_) => Err(Memory),
    }
}

/// A scan that a kept one serves.
#[tactic(auto, using(crate::proofs::Scanning::scanned_kept, crate::proofs::Scanning::scanned_memory))]
pub(crate) fn scan_by_kept<W: World>(
    alloc: Global,
    kept: &Arc<Kept<W>, Global>,
    settings: &Settings,
    request: &ScanRequest,
    table: &Arc<TableDecl, Global>,
    at: u64,
    notes: &mut ScanNotes,
) -> Result<Rows, Stop>
    requires serving { IsServing settings.now at (arc_value table.now) request.now (arc_value kept.now) }
    requires scan_of { IsScanOf (arc_value table.now) request.now }
    requires of_book { IsTrue W.tells → book_table W.book request.now.connection request.now.table ≡ Some (arc_value table.now) }
    ensures told { IsTrue W.tells → SubsetKeysFilter W.book → IsScanned W.book (arc_value table.now) request.now notes.old notes.new result }
    ensures noted { IsTrue W.tells → (began : ℕ) → began ≤ at → Adds (TrueNote W.book settings.now.options began) notes.old notes.new }
    ensures taken { Adds (λ n. n.at ≡ at) notes.old notes.new }
    ensures err { IfErr result IsMemory }
{
    match served_scan::<W>(alloc, kept, settings, request, table, at, notes) {
        Ok(rows) => Ok(rows),
        Err(_) => Err(Stop::Memory),
    }
}
