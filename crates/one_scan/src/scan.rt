ghost use Rattle.std.specs.Prelude.{◌≡◌, ◌≤◌, ◌^◌, ◌++◌, [], List, true, false, None, Some, Err, IsSome, IsTrue, IfOk, OnOk, OnErr};
ghost use Rattle.std.specs.Arc.{arc_value};
ghost use Rattle.sp_model.specs.Requests.{IsRequestOf};
ghost use Rattle.sp_model.specs.declared.call.Asked.TheVariants as asks;
ghost use Rattle.sp_model.specs.declared.outcome.ScanValue.TheVariants as value;
ghost use Rattle.decl_words.specs.BookTables.{book_table};
ghost use Rattle.decl_words.specs.Sound.{IsSound};
ghost use Rattle.model_laws.specs.LawfulScans.{is_lawful_scan};
ghost use Rattle.row_flight.specs.Jobs.{made_of};
ghost use Rattle.row_flight.specs.declared.frame.Taken.TheVariants as taken;
ghost use Rattle.row_flight.specs.declared.frame.Wanted.{Wanted};
ghost use Rattle.one_scan.specs.Jobs.{Adds};
ghost use Rattle.sp_model.specs.declared.scan.Mark.TheVariants.{Fresh};
ghost use Rattle.one_scan.specs.Runs.{state_at, IsWaiting, IsListed, Goes};
ghost use Rattle.one_scan.specs.Scans.{is_whole};
ghost use Rattle.one_scan.specs.Views.{end_at, IsOfScan, IsScanForm, SameScan, AreRows, fresh_note, IsShown, scan_state};
ghost use Rattle.one_scan.specs.Waiting.{WaitsFor, scan_due};

use crate::beginning::{begun, number_of};
use row_flight::{JobList, Taken};
use scan_core::{Course, CourseEnd, ScanScope};
use sp_model::{Cause, Mark, Piece, ScanNote, ScanRequest, Seat, TableDecl, Version};
use sp_value::{Memory, Rows, Text};
use sp_world::{Kept, KeptScan, Told, World};
use std::alloc::Global;
use std::marker::Model;
use std::sync::Arc;

/// How a scan ends. Rows are counted from 1; a version that is bad has row 0, and a call that fails has no column.
#[derive(Drop)]
pub enum ScanEnd<'a> {
    Rows,
    Failed {
        row: u64,
        column: Option<&'a Text>,
        cause: &'a Cause,
    },
}

/// One scan in progress. Where the world tells, its end is the book's. Contracts see what is known of it.
pub struct Scan<W: World> {
    pub(crate) scope: ScanScope,
    pub(crate) course: Course<W>,
    pub(crate) version: Version,
    pub(crate) asked: u64,
    pub(crate) wanting: bool,
}

impl<W: World> Drop for Scan<W> {
    // Written out, so that whoever lets a scan go proves a call and not each of its parts.
    fn drop(self) {
        let Scan {
            scope: _,
            course: _,
            version: _,
            asked: _,
            wanting: _,
        } = self;
    }
}

/// Whether all calls came to their ending.
fn is_whole(end: &Option<CourseEnd>) -> bool
    ensures { result ≡ is_whole end.now }
{
    match end {
        Some(CourseEnd::Complete) => true,
        _ => false,
    }
}

/// A scan that is kept as it was taken.
fn kept_scan(
    request: ScanRequest,
    version: Version,
    asked: u64,
    rows: Rows,
    complete: bool,
) -> KeptScan
    ensures { result ≡ record { note = record { request = request; asked = asked; at = asked; version = version; mark = Fresh }; rows = rows; complete = complete } }
{
    KeptScan {
        note: ScanNote {
            request,
            asked,
            at: asked,
            version,
            mark: Mark::Fresh,
        },
        rows,
        complete,
    }
}

impl<W: World> Model for Scan<W> {
    ghost use Rattle.std.specs.Coded.{codes};
    ghost use Rattle.sp_value.specs.contracts.cell.Cell as cells;
    ghost use Rattle.one_scan.specs.Scans.{view_of, IsScan, Waits};
    ghost use Rattle.one_scan.specs.Views.{ScanView};

    ghost Value = { ScanView };

    ghost coded = { Prim.hlevel (codes, cells.the_row.coded) };

    ghost view = { λ s. view_of s.scope s.course s.version s.asked s.wanting };

    ghost invariant = { λ s. IsScan W.tells W.book s.scope s.course s.version s.asked × Waits s.scope s.course s.wanting };
}

impl<W: World> Scan<W> {
    /// The scan of a request of a sound table at a version that was asked at the tick `asked`, with at most `window` rows in flight. The
    /// request's conditions meet the keys of its access. All slots are taken here. A bad version ends the scan at once.
    pub fn begin(
        alloc: Global,
        request: ScanRequest,
        table: Arc<TableDecl, Global>,
        version: Told<W, Version>,
        asked: u64,
        window: u32,
    ) -> Result<Scan<W>, Memory>
        requires version { version.0 ≡ asks.Version request.connection asked }
        requires table { IsRequestOf (arc_value table) request }
        requires sound { IsSound (arc_value table) }
        requires lawful { is_lawful_scan (arc_value table) request ≡ true }
        requires of_book { IsTrue W.tells → book_table W.book request.connection request.table ≡ Some (arc_value table) }
        requires tick { asked ≤ 2 ^ 62 }
        requires window { (1 ≤ window) × (window ≤ 4096) }
        ensures of { IfOk result (λ s. (s.request ≡ request) × (s.table ≡ arc_value table) × (s.version ≡ version.1) × (s.asked ≡ asked) × (s.window ≡ window) × (s.wanting ≡ false)) }
        ensures end { IfOk result (λ s. s.end ≡ end_at version.1) }
        ensures state { IfOk result (λ s. scan_state s ≡ state_at (arc_value table) request version.1) }
    {
        let version = version.into_value();
        let scope = ScanScope::of(alloc, request, table, number_of(&version), window)?;
        let course = begun(alloc, &scope, &version)?;
        Ok(Scan {
            scope,
            course,
            version,
            asked,
            wanting: false,
        })
    }

    /// Puts each call that is ready and wasn't listed before at the end of a list, as a call of the scan of this number. A scan that is
    /// decided lists nothing. Once memory was wanting it stays so; the calls that stand there by then are listed.
    pub fn wanted(&mut self, alloc: Global, scan: u64, into: &mut JobList) -> Result<(), Memory>
        ensures same { SameScan self.old self.new }
        ensures adds { Adds self.new scan into.old into.new }
        ensures goes { IsTrue W.tells → (more : List Wanted) → into.new ≡ into.old ++ more → Goes W.book self.old self.new (made_of more) }
        ensures all { OnOk result (IsListed self.new) }
        ensures decided { IsSome self.old.end → (into.new ≡ into.old) × (scan_state self.new ≡ scan_state self.old) }
        ensures wanting { self.old.wanting ≡ true → result ≡ Err _ }
        ensures err { OnErr result (self.new.wanting ≡ true) }
    {
        if self.wanting {
            return Err(Memory);
        }
        let Ok(()) = self.course.list(alloc, &self.scope, scan, into) else {
            self.wanting = true;
            return Err(Memory);
        };
        Ok(())
    }

    /// Takes in a piece that was told of a call, at this tick, for the seat that waits for it. It is `Late` where no seat waits for it:
    /// the scan is decided, the seat was given back or is of another call, the piece isn't next, or the call isn't listed. Then nothing
    /// changes.
    pub fn answered(&mut self, alloc: Global, seat: Seat, piece: Told<W, Piece>, tick: u64) -> Taken
        ensures same { SameScan self.old self.new }
        ensures goes { IsTrue W.tells → Goes W.book self.old self.new [] }
        ensures used { result ≡ taken.Used → WaitsFor self.old seat piece.0 piece.1 }
        ensures late { result ≡ taken.Late → (WaitsFor self.old seat piece.0 piece.1 → ⊥) × (self.new ≡ self.old) }
        ensures wanting { self.old.wanting ≡ true → result ≡ taken.Memory }
        ensures memory { result ≡ taken.Memory → self.new.wanting ≡ true }
    {
        let _told = piece.get();
        if self.wanting {
            return Taken::Memory;
        }
        match self.course.answered(alloc, &self.scope, seat, piece, tick) {
            Taken::Used => Taken::Used,
            Taken::Late => Taken::Late,
            Taken::Memory => {
                self.wanting = true;
                Taken::Memory
            }
        }
    }

    /// The least tick for which a call waits: one that was asked again, and of which no piece came since. There is none once the scan is
    /// decided.
    pub fn due(&self) -> Option<u64>
        ensures { result ≡ scan_due self.now }
    {
        self.course.due(&self.scope)
    }

    /// How the scan ends, once that is decided: without an end its first undecided place isn't answered, unless memory was wanting.
    pub fn result(&self) -> Option<ScanEnd<'_>>
        ensures shown { IsShown self.now.end result }
        ensures waits { IsWaiting self.now }
        ensures form { IsScanForm self.now }
        ensures told { IsTrue W.tells → IsOfScan W.book self.now }
    {
        match &self.course.end {
            None => None,
            Some(CourseEnd::Complete) => Some(ScanEnd::Rows),
            Some(CourseEnd::Limited) => Some(ScanEnd::Rows),
            Some(CourseEnd::Failed { row, column, cause }) => Some(ScanEnd::Failed {
                row: *row,
                column: column.as_ref(),
                cause,
            }),
        }
    }

    /// Whether no get, list or parents call was asked again.
    pub fn steady(&self) -> bool
        ensures { result ≡ self.now.steady }
    {
        self.course.walk.steady
    }

    /// The rows of a scan that ended in rows.
    pub fn rows(&self) -> &Rows
        requires { AreRows self.now.end }
        ensures { self.now.end ≡ Some (value.Rows result.now) }
    {
        &self.course.walk.rows
    }

    /// The rows of a scan that ended in rows, taken out.
    pub fn into_rows(self) -> Rows
        requires { AreRows self.end }
        ensures { self.end ≡ Some (value.Rows result) }
    {
        let Scan {
            scope: _,
            course,
            version: _,
            asked: _,
            wanting: _,
        } = self;
        course.walk.rows
    }

    /// The scan as it is kept. It takes no memory.
    pub fn into_kept(self) -> Result<Kept<W>, Scan<W>>
        requires rows { AreRows self.end }
        requires steady { self.steady ≡ true }
        ensures { IfOk result (λ k. (k.note ≡ fresh_note self) × (self.end ≡ Some (value.Rows k.rows)) × (k.complete ≡ self.complete)) }
    {
        let complete = is_whole(&self.course.end);
        let Scan {
            scope,
            course,
            version,
            asked,
            wanting: _,
        } = self;
        Ok(Kept::of(kept_scan(scope.request, version, asked, course.walk.rows, complete)))
    }
}
