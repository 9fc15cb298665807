// A scan by calls.

ghost use Rattle.std.specs.Prelude.{◌≡◌, ◌≤◌, ◌^◌, ℕ, [], ◌∷◌, ◌++◌, length, true, Some, IsTrue, IfOk, IfErr, OnOk, OnErr};
ghost use Rattle.std.specs.Arc.{arc_value};
ghost use Rattle.sp_model.specs.Names.{has_name};
ghost use Rattle.sp_model.specs.TrueNote.{TrueNote};
ghost use Rattle.sp_model.specs.declared.call.Asked.TheVariants as asks;
ghost use Rattle.decl_words.specs.BookTables.{book_table};
ghost use Rattle.scan_run.specs.Asked.{IsScanOf, IsTableOf};
ghost use Rattle.statement_words.specs.Advances.{IsRun};
ghost use Rattle.statement_words.specs.Answered.{IsScanned, Adds};
ghost use Rattle.statement_words.specs.Noted.{new_note};
ghost use Rattle.statement_words.specs.Runs.{plain_names, IsLater, IsSpentOf, IsStopOf};

use crate::feeding::run_to_end;
use desk::Desk;
use desk_asking::{ask_version, plain_named};
use one_scan::Scan;
use sp_model::{Connection, Mark, ScanNote, ScanNotes, ScanRequest, Settings, TableDecl, Version};
use sp_value::{Memory, Rows, TryCopy};
use sp_world::{Told, World};
use statement_words::Stop;
use std::alloc::Global;
use std::sync::{Arc, Wait};

fn note_of(
    alloc: Global,
    request: &ScanRequest,
    at: u64,
    version: &Version,
) -> Result<ScanNote, Memory>
    ensures { IfOk result (λ n. n ≡ new_note request.now at version.now) }
{
    Ok(ScanNote {
        request: request.copy(alloc)?,
        asked: at,
        at,
        version: version.copy(alloc)?,
        mark: Mark::Fresh,
    })
}

/// Puts a note at the end.
pub(crate) fn add_note(notes: &mut ScanNotes, note: ScanNote) -> Result<(), Memory>
    ensures ok { OnOk result (notes.new ≡ notes.old ++ note ∷ []) }
    ensures err { OnErr result (notes.new ≡ notes.old) }
{
    let Ok(()) = notes.push(note) else {
        return Err(Memory);
    };
    Ok(())
}

fn table_of(table: &Arc<TableDecl, Global>) -> Result<Arc<TableDecl, Global>, Memory>
    ensures { IfOk result (λ t. arc_value t ≡ arc_value table.now) }
{
    match Arc::try_clone(table) {
        Ok(table) => Ok(table),
        Err(_) => Err(Memory),
    }
}

/// A scan at a version, and its note.
#[tactic(auto, using(crate::proofs::Scanning::told_version))]
fn begun<W: World>(
    alloc: Global,
    settings: &Settings,
    table: &Arc<TableDecl, Global>,
    request: &ScanRequest,
    at: u64,
    version: Told<W, Version>,
) -> Result<(Scan<W>, ScanNote), Memory>
    requires version { version.0 ≡ asks.Version request.now.connection at }
    requires tick { at ≤ 2 ^ 62 }
    requires window { (1 ≤ settings.now.options.window) × (settings.now.options.window ≤ 4096) }
    requires scan_of { IsScanOf (arc_value table.now) request.now }
    requires of_book { IsTrue W.tells → book_table W.book request.now.connection request.now.table ≡ Some (arc_value table.now) }
    ensures request { IfOk result (λ p. p.0.request ≡ request.now) }
    ensures table { IfOk result (λ p. p.0.table ≡ arc_value table.now) }
    ensures note { IfOk result (λ p. p.1 ≡ new_note request.now at p.0.version) }
    ensures told { IsTrue W.tells → IfOk result (λ p. p.0.version ≡ W.book.version request.now.connection at) }
{
    let Ok(note) = note_of(alloc, request, at, version.get()) else {
        return Err(Memory);
    };
    let Ok(table) = table_of(table) else {
        return Err(Memory);
    };
    let Ok(request) = request.copy(alloc) else {
        return Err(Memory);
    };
    match Scan::begin(alloc, request, table, version, at, settings.options.window) {
        Ok(scan) => Ok((scan, note)),
        Err(_) => Err(Memory),
    }
}

/// Asks for the version, begins the scan, and notes it.
fn started<R: Wait, W: World, D: Desk<W>>(
    rt: &R,
    alloc: Global,
    desk: &mut D,
    settings: &Settings,
    connection: &Connection,
    table: &Arc<TableDecl, Global>,
    request: &ScanRequest,
    at: u64,
    seats: u64,
    notes: &mut ScanNotes,
) -> Result<Scan<W>, Stop>
    requires settings { (D.state desk.old).settings ≡ settings.now }
    requires place { IsTableOf W.tells W.book settings.now.connections connection.now (arc_value table.now) }
    requires named { connection.now.name ≡ request.now.connection }
    requires tick { at ≤ 2 ^ 62 }
    requires window { (1 ≤ settings.now.options.window) × (settings.now.options.window ≤ 4096) }
    requires scan_of { IsScanOf (arc_value table.now) request.now }
    ensures request { IfOk result (λ s. s.request ≡ request.now) }
    ensures table { IfOk result (λ s. s.table ≡ arc_value table.now) }
    ensures noted { IfOk result (λ s. notes.new ≡ notes.old ++ new_note request.now at s.version ∷ []) }
    ensures told { IsTrue W.tells → IfOk result (λ s. s.version ≡ W.book.version request.now.connection at) }
    ensures err { OnErr result (notes.new ≡ notes.old) }
    ensures stop { IfErr result (IsSpentOf (D.state desk.new) request.now.connection) }
    ensures state { IsLater (D.state desk.old) (D.state desk.new) }
{
    let asked = ask_version::<R, W, D>(rt, alloc, desk, settings, connection, at, seats);
    let version = match asked {
        Ok(version) => version,
        Err(stop) => return Err(stop),
    };
    let (scan, note) = match begun::<W>(alloc, settings, table, request, at, version) {
        Ok(begun) => begun,
        Err(_) => return Err(Stop::Memory),
    };
    match add_note(notes, note) {
        Ok(()) => Ok(scan),
        Err(_) => Err(Stop::Memory),
    }
}

/// A scan by calls. It is noted once its version is there.
fn fresh_scan<R: Wait, W: World, D: Desk<W>>(
    rt: &R,
    alloc: Global,
    desk: &mut D,
    settings: &Settings,
    connection: &Connection,
    table: &Arc<TableDecl, Global>,
    request: &ScanRequest,
    at: u64,
    notes: &mut ScanNotes,
) -> Result<Rows, Stop>
    requires settings { (D.state desk.old).settings ≡ settings.now }
    requires place { IsTableOf W.tells W.book settings.now.connections connection.now (arc_value table.now) }
    requires named { connection.now.name ≡ request.now.connection }
    requires tick { at ≤ 2 ^ 62 }
    requires window { (1 ≤ settings.now.options.window) × (settings.now.options.window ≤ 4096) }
    requires scan_of { IsScanOf (arc_value table.now) request.now }
    ensures told { IsTrue W.tells → IsScanned W.book (arc_value table.now) request.now notes.old notes.new result }
    ensures noted { IsTrue W.tells → (began : ℕ) → began ≤ at → Adds (TrueNote W.book settings.now.options began) notes.old notes.new }
    ensures taken { Adds (λ n. n.at ≡ at) notes.old notes.new }
    ensures stop { IfErr result (IsStopOf (D.state desk.new) (length notes.new) request.now.connection) }
    ensures state { IsLater (D.state desk.old) (D.state desk.new) }
{
    let seats = desk.next_scan();
    let started = started::<R, W, D>(
        rt, alloc, desk, settings, connection, table, request, at, seats, notes,
    );
    let scan = match started {
        Ok(scan) => scan,
        Err(stop) => return Err(stop),
    };
    let number = notes.len() as u64;
    run_to_end::<R, W, D>(
        rt, alloc, desk, settings, connection, table, scan, seats, number,
    )
}

/// A scan of a table by calls, at the connection that its request names.
#[tactic(auto, using(crate::proofs::Scanning::book_place))]
pub(crate) fn scan_by_calls<R: Wait, W: World, D: Desk<W>>(
    rt: &R,
    alloc: Global,
    desk: &mut D,
    settings: &Settings,
    table: &Arc<TableDecl, Global>,
    request: &ScanRequest,
    at: u64,
    notes: &mut ScanNotes,
) -> Result<Rows, Stop>
    requires run { IsRun settings.now (D.state desk.old) }
    requires plain { has_name (plain_names settings.now.connections) request.now.connection ≡ true }
    requires of_book { IsTrue W.tells → book_table W.book request.now.connection request.now.table ≡ Some (arc_value table.now) }
    requires tick { at ≤ 2 ^ 62 }
    requires scan_of { IsScanOf (arc_value table.now) request.now }
    ensures told { IsTrue W.tells → IsScanned W.book (arc_value table.now) request.now notes.old notes.new result }
    ensures noted { IsTrue W.tells → (began : ℕ) → began ≤ at → Adds (TrueNote W.book settings.now.options began) notes.old notes.new }
    ensures taken { Adds (λ n. n.at ≡ at) notes.old notes.new }
    ensures stop { IfErr result (IsStopOf (D.state desk.new) (length notes.new) request.now.connection) }
    ensures state { IsLater (D.state desk.old) (D.state desk.new) }
{
    let connection = plain_named(settings.connections.as_slice(), &request.connection);
    fresh_scan::<R, W, D>(
        rt, alloc, desk, settings, connection, table, request, at, notes,
    )
}
