// The declaration of a connection.

ghost use Rattle.std.specs.Prelude.{◌≡◌, Contains, false, IsTrue, IfOk, IfErr, IfSome};
ghost use Rattle.call_jobs.specs.Lawful.{IsLawfulJob};
ghost use Rattle.sp_model.specs.declared.call.Asked.TheVariants as asks;
ghost use Rattle.statement_words.specs.Runs.{IsLater, IsSpentOf};

use crate::mail::take_line;
use crate::posting::submit;
use call_jobs::{Job, declare_job};
use desk::Desk;
use serde_json::Value;
use sp_model::{Asked, Connection, Seat, Settings};
use sp_value::{Memory, Text};
use sp_world::{Told, ToldLine, World};
use statement_words::Stop;
use std::alloc::Global;
use std::sync::Wait;

/// The number of the seats that wait for declarations. Scans count from 1.
const DECLARATIONS: u64 = 0;

/// The job that asks for a declaration.
#[tactic(auto, using(crate::proofs::Asking::declare_is_lawful))]
fn job_of<W: World>(
    alloc: Global,
    settings: &Settings,
    connection: &Connection,
) -> Result<Job, Memory>
    requires among { Contains settings.now.connections connection.now }
    requires plain { connection.now.aggregator ≡ false }
    ensures { IfOk result (IsLawfulJob W.tells W.book settings.now.connections) }
{
    let seat = Seat {
        scan: DECLARATIONS,
        slot: 0,
        generation: 0,
        function: 0,
    };
    declare_job(alloc, connection, seat)
}

/// Whether the declaration of a connection was asked.
fn is_declaration_of(asked: &Asked, connection: &Text) -> bool
    ensures { IsTrue result → asked.now ≡ asks.Declare connection.now }
{
    match asked {
        Asked::Declare { connection: of } => *of == *connection,
        _ => false,
    }
}

/// What is told, where it is the declaration of a connection.
fn declaration_in<W: World>(line: ToldLine<W>, connection: &Text) -> Option<Told<W, Value>>
    ensures { IfSome result (λ t. t.0 ≡ asks.Declare connection.now) }
{
    match line {
        ToldLine::Declaration(told) => {
            if is_declaration_of(told.asked(), connection) {
                return Some(told);
            }
            None
        }
        _ => None,
    }
}

/// Waits for the declaration of a connection.
fn take_declaration<R: Wait, W: World, D: Desk<W>>(
    rt: &R,
    alloc: Global,
    desk: &mut D,
    settings: &Settings,
    connection: &Text,
) -> Result<Told<W, Value>, Stop>
    requires settings { (D.state desk.old).settings ≡ settings.now }
    ensures asked { IfOk result (λ t. t.0 ≡ asks.Declare connection.now) }
    ensures err { IfErr result (IsSpentOf (D.state desk.new) connection.now) }
    ensures state { IsLater (D.state desk.old) (D.state desk.new) }
{
    for _ in rt.forever() {
        let line = take_line::<W, D>(alloc, desk, settings, connection, DECLARATIONS)?;
        if let Some((_, told)) = line {
            if let Some(declaration) = declaration_in::<W>(told, connection) {
                return Ok(declaration);
            }
        }
    }
    unreachable!()
}

/// What a plain connection of the settings declares. Mail of something else is passed over.
pub fn ask_declaration<R: Wait, W: World, D: Desk<W>>(
    rt: &R,
    alloc: Global,
    desk: &mut D,
    settings: &Settings,
    connection: &Connection,
) -> Result<Told<W, Value>, Stop>
    requires settings { (D.state desk.old).settings ≡ settings.now }
    requires among { Contains settings.now.connections connection.now }
    requires plain { connection.now.aggregator ≡ false }
    ensures asked { IfOk result (λ t. t.0 ≡ asks.Declare connection.now.name) }
    ensures err { IfErr result (IsSpentOf (D.state desk.new) connection.now.name) }
    ensures state { IsLater (D.state desk.old) (D.state desk.new) }
{
    let job = job_of::<W>(alloc, settings, connection)?;
    submit::<W, D>(desk, job)?;
    take_declaration::<R, W, D>(rt, alloc, desk, settings, &connection.name)
}
