// A scan, fed until it is decided.

ghost use Rattle.std.specs.Prelude.{◌≡◌, Some, Err, IsTrue, IfErr, OnOk};
ghost use Rattle.std.specs.Arc.{arc_value};
ghost use Rattle.sp_model.specs.Walk.{scan_value};
ghost use Rattle.one_scan.specs.Views.{AreRows, IsOfScan, SameScan};
ghost use Rattle.scan_run.specs.Asked.{IsTableOf};
ghost use Rattle.statement_words.specs.Ended.{IsEndOf};
ghost use Rattle.statement_words.specs.Runs.{IsLater, IsMemory, IsSpentOf, IsStopOf};

use crate::calls::{jobs_of, wanted_calls};
use crate::deciding::{finish, is_done};
use crate::posting::submit_all;
use desk::Desk;
use desk_asking::take_line;
use one_scan::Scan;
use row_flight::Taken;
use sp_model::{Connection, Piece, Seat, Settings, TableDecl};
use sp_value::{Rows, Text};
use sp_world::{Told, ToldLine, World};
use statement_words::Stop;
use std::alloc::Global;
use std::sync::{Arc, Wait};

/// Hands in the calls that a scan wants now, for seats of a number.
#[tactic(auto, using(crate::proofs::Calling::calls_as))]
fn submit_wanted<W: World, D: Desk<W>>(
    alloc: Global,
    desk: &mut D,
    settings: &Settings,
    connection: &Connection,
    table: &Arc<TableDecl, Global>,
    scan: &mut Scan<W>,
    seats: u64,
) -> Result<(), Stop>
    requires settings { (D.state desk.old).settings ≡ settings.now }
    requires place { IsTableOf W.tells W.book settings.now.connections connection.now (arc_value table.now) }
    requires connection { scan.old.request.connection ≡ connection.now.name }
    requires table { scan.old.table ≡ arc_value table.now }
    ensures same { SameScan scan.old scan.new }
    ensures state { IsLater (D.state desk.old) (D.state desk.new) }
    ensures err { IfErr result IsMemory }
{
    let calls = wanted_calls::<W>(alloc, scan, seats)?;
    let jobs = jobs_of::<W>(alloc, connection, table, calls)?;
    submit_all::<W, D>(desk, settings, jobs)
}

/// Takes in a piece.
#[tactic(auto, using(statement_words::proofs::Stops::later_tick))]
fn feed<W: World, D: Desk<W>>(
    alloc: Global,
    desk: &mut D,
    scan: &mut Scan<W>,
    seat: Seat,
    piece: Told<W, Piece>,
) -> Result<(), Stop>
    ensures same { SameScan scan.old scan.new }
    ensures state { IsLater (D.state desk.old) (D.state desk.new) }
    ensures err { IfErr result IsMemory }
{
    let tick = desk.now();
    match scan.answered(alloc, seat, piece, tick) {
        Taken::Memory => Err(Stop::Memory),
        _ => Ok(()),
    }
}

/// Takes in what is told, or moves calls on.
fn take_one<W: World, D: Desk<W>>(
    alloc: Global,
    desk: &mut D,
    settings: &Settings,
    connection: &Text,
    scan: &mut Scan<W>,
    seats: u64,
) -> Result<(), Stop>
    requires settings { (D.state desk.old).settings ≡ settings.now }
    ensures same { SameScan scan.old scan.new }
    ensures state { IsLater (D.state desk.old) (D.state desk.new) }
    ensures err { IfErr result (IsSpentOf (D.state desk.new) connection.now) }
{
    match take_line::<W, D>(alloc, desk, settings, connection, seats)? {
        Some((seat, ToldLine::Piece(told))) => {
            feed::<W, D>(alloc, desk, scan, seat, told)?;
            Ok(())
        }
        _ => Ok(()),
    }
}

/// Feeds a scan until it ended in rows. It stops where the scan failed.
fn feed_to_end<R: Wait, W: World, D: Desk<W>>(
    rt: &R,
    alloc: Global,
    desk: &mut D,
    settings: &Settings,
    connection: &Connection,
    table: &Arc<TableDecl, Global>,
    scan: &mut Scan<W>,
    seats: u64,
    number: u64,
) -> Result<(), Stop>
    requires settings { (D.state desk.old).settings ≡ settings.now }
    requires place { IsTableOf W.tells W.book settings.now.connections connection.now (arc_value table.now) }
    requires connection { scan.old.request.connection ≡ connection.now.name }
    requires table { scan.old.table ≡ arc_value table.now }
    ensures same { SameScan scan.old scan.new }
    ensures rows { OnOk result (AreRows scan.new.end) }
    ensures value { IsTrue W.tells → OnOk result (IsOfScan W.book scan.new) }
    ensures told { IsTrue W.tells → IfErr result (λ e. IsEndOf number connection.now.name (scan_value W.book scan.old.table scan.old.request scan.old.version) (Err e)) }
    ensures err { IfErr result (IsStopOf (D.state desk.new) number connection.now.name) }
    ensures state { IsLater (D.state desk.old) (D.state desk.new) }
{
    for _ in rt.forever() {
        submit_wanted::<W, D>(alloc, desk, settings, connection, table, scan, seats)?;
        if is_done::<W>(alloc, scan, number)? {
            return Ok(());
        }
        take_one::<W, D>(alloc, desk, settings, &connection.name, scan, seats)?;
    }
    unreachable!()
}

/// Runs a scan to its end, at a connection that has its table. `number` counts the statement's scans, and `seats` the session's.
pub(crate) fn run_to_end<R: Wait, W: World, D: Desk<W>>(
    rt: &R,
    alloc: Global,
    desk: &mut D,
    settings: &Settings,
    connection: &Connection,
    table: &Arc<TableDecl, Global>,
    scan: Scan<W>,
    seats: u64,
    number: u64,
) -> Result<Rows, Stop>
    requires settings { (D.state desk.old).settings ≡ settings.now }
    requires place { IsTableOf W.tells W.book settings.now.connections connection.now (arc_value table.now) }
    requires connection { scan.request.connection ≡ connection.now.name }
    requires table { scan.table ≡ arc_value table.now }
    ensures told { IsTrue W.tells → IsEndOf number connection.now.name (scan_value W.book scan.table scan.request scan.version) result }
    ensures err { IfErr result (IsStopOf (D.state desk.new) number connection.now.name) }
    ensures state { IsLater (D.state desk.old) (D.state desk.new) }
{
    let mut scan = scan;
    feed_to_end::<R, W, D>(
        rt, alloc, desk, settings, connection, table, &mut scan, seats, number,
    )?;
    let rows = finish::<W, D>(alloc, desk, scan)?;
    Ok(rows)
}
