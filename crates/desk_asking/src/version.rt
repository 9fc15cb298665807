// The version of a connection.

ghost use Rattle.std.specs.Prelude.{◌≡◌, ◌≤◌, ◌^◌, Contains, false, IsTrue, IfOk, IfErr, IfSome};
ghost use Rattle.call_jobs.specs.Lawful.{IsLawfulJob};
ghost use Rattle.sp_model.specs.declared.call.Asked.TheVariants as asks;
ghost use Rattle.statement_words.specs.Runs.{IsLater, IsSpentOf};

use crate::mail::take_line;
use crate::posting::submit;
use call_jobs::{Job, version_job};
use desk::Desk;
use sp_model::{Asked, Connection, Seat, Settings, Version};
use sp_value::{Memory, Text};
use sp_world::{Told, ToldLine, World};
use statement_words::Stop;
use std::alloc::Global;
use std::sync::Wait;

/// The job that asks for a version, for a seat of a scan's number.
#[tactic(auto, using(crate::proofs::Asking::version_is_lawful))]
fn job_of<W: World>(
    alloc: Global,
    settings: &Settings,
    connection: &Connection,
    tick: u64,
    scan: u64,
) -> Result<Job, Memory>
    requires tick { tick ≤ 2 ^ 62 }
    requires among { Contains settings.now.connections connection.now }
    requires plain { connection.now.aggregator ≡ false }
    ensures { IfOk result (IsLawfulJob W.tells W.book settings.now.connections) }
{
    let seat = Seat {
        scan,
        slot: 0,
        generation: 0,
        function: 0,
    };
    version_job(alloc, connection, tick, seat)
}

/// Whether the version of a connection at a tick was asked.
fn is_version_of(asked: &Asked, connection: &Text, tick: u64) -> bool
    ensures { IsTrue result → asked.now ≡ asks.Version connection.now tick }
{
    match asked {
        Asked::Version {
            connection: of,
            tick: at,
        } => *of == *connection && *at == tick,
        _ => false,
    }
}

/// What is told, where it is the version of a connection at a tick.
fn version_in<W: World>(line: ToldLine<W>, connection: &Text, tick: u64) -> Option<Told<W, Version>>
    ensures { IfSome result (λ t. t.0 ≡ asks.Version connection.now tick) }
{
    match line {
        ToldLine::Version(told) => {
            if is_version_of(told.asked(), connection, tick) {
                return Some(told);
            }
            None
        }
        _ => None,
    }
}

/// Waits for the version of a connection at a tick. Mail that is of something else is passed over.
fn take_version<R: Wait, W: World, D: Desk<W>>(
    rt: &R,
    alloc: Global,
    desk: &mut D,
    settings: &Settings,
    connection: &Text,
    tick: u64,
    scan: u64,
) -> Result<Told<W, Version>, Stop>
    requires settings { (D.state desk.old).settings ≡ settings.now }
    ensures asked { IfOk result (λ t. t.0 ≡ asks.Version connection.now tick) }
    ensures err { IfErr result (IsSpentOf (D.state desk.new) connection.now) }
    ensures state { IsLater (D.state desk.old) (D.state desk.new) }
{
    for _ in rt.forever() {
        let line = take_line::<W, D>(alloc, desk, settings, connection, scan)?;
        if let Some((_, told)) = line {
            if let Some(version) = version_in::<W>(told, connection, tick) {
                return Ok(version);
            }
        }
    }
    unreachable!()
}

/// The version of a connection at a tick, asked for seats of a scan's number.
pub fn ask_version<R: Wait, W: World, D: Desk<W>>(
    rt: &R,
    alloc: Global,
    desk: &mut D,
    settings: &Settings,
    connection: &Connection,
    tick: u64,
    scan: u64,
) -> Result<Told<W, Version>, Stop>
    requires tick { tick ≤ 2 ^ 62 }
    requires settings { (D.state desk.old).settings ≡ settings.now }
    requires among { Contains settings.now.connections connection.now }
    requires plain { connection.now.aggregator ≡ false }
    ensures asked { IfOk result (λ t. t.0 ≡ asks.Version connection.now.name tick) }
    ensures err { IfErr result (IsSpentOf (D.state desk.new) connection.now.name) }
    ensures state { IsLater (D.state desk.old) (D.state desk.new) }
{
    let job = job_of::<W>(alloc, settings, connection, tick, scan)?;
    submit::<W, D>(desk, job)?;
    take_version::<R, W, D>(rt, alloc, desk, settings, &connection.name, tick, scan)
}
