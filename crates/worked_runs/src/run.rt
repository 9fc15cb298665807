//! A run of the whole program, and what comes of it.

ghost use Rattle.std.specs.Prelude.{◌≡◌, length};

use crate::child_case::children_of;
use crate::difference::Differences;
use crate::fault::CaseFault;
use crate::form::{bytes_of, members_of, numbers_of};
use crate::given::Given;
use crate::run_child::{Heard, RunChild};
use crate::run_nursery::RunNursery;
use crate::setup::{Setup, clock_of};
use serde_json::{Map, Value};
use sp_outside::{MemoryClock, MemoryShelf, MemorySink, MemorySource, Nursery};
use sp_world::{Untold, World};
use sqlite_items::Items;
use std::alloc::{AllocError, Global};
use std::sync::Wait;
use steampipe_top::{Status, steampipe};

pub(crate) const MEMBERS: [&str; 14] = [
    "name", "words", "files", "input", "children", "clock", "fails", "pieces", "status", "answers",
    "notes", "heard", "ticks", "world",
];

/// Runs the program over children of a nursery.
pub(crate) fn run<R: Wait, W: World, M: Nursery<W>>(
    rt: &R,
    alloc: Global,
    setup: &mut Setup,
    clock: &MemoryClock,
    nursery: &mut M,
) -> Status
    requires { length (M.back nursery.old) ≡ M.made nursery.old }
{
    steampipe::<R, W, MemorySource, MemoryShelf, MemorySink, MemorySink, M, MemoryClock>(
        rt,
        alloc,
        setup.words.as_slice(),
        &mut setup.input,
        &mut setup.files,
        &mut setup.answers,
        &mut setup.notes,
        nursery,
        clock,
    )
}

/// Compares the status and what was written. Notes are compared where the case has some.
pub(crate) fn compare_written(
    alloc: Global,
    found: &mut Differences,
    given: Given,
    status: Status,
    setup: &Setup,
) -> Result<(), CaseFault> {
    let Some(want) = given.need("status")?.as_u64() else {
        return Err(CaseFault::Form("status"));
    };
    found.number("status", u64::from(status.number()), want)?;
    let want = given.bytes(alloc, "answers")?;
    found.text("answers", setup.answers.held(), &want)?;
    if given.get("notes").is_some() {
        let want = given.bytes(alloc, "notes")?;
        found.text("notes", setup.notes.held(), &want)?;
    }
    Ok(())
}

/// Adds a line and its end.
pub(crate) fn push_line(lines: &mut Vec<u8>, line: &[u8]) -> Result<(), AllocError> {
    lines.extend_from_slice(line)?;
    lines.extend_from_slice(b"\n")
}

fn lines_heard(alloc: Global, heard: &[Heard]) -> Result<Vec<u8>, AllocError> {
    let mut lines = Vec::new(alloc);
    for line in heard {
        push_line(&mut lines, line.line.as_slice())?;
    }
    Ok(lines)
}

fn ticks_heard(alloc: Global, heard: &[Heard]) -> Result<Items<u64>, AllocError> {
    let mut ticks = Items::new(alloc);
    for line in heard {
        ticks.push(line.tick)?;
    }
    Ok(ticks)
}

/// What the child of a connection heard: nothing where no such child came back.
fn heard_by<'b>(children: &'b [RunChild], connection: &str) -> &'b [Heard] {
    for child in children {
        if child.connection.as_str() == connection {
            return child.heard.as_slice();
        }
    }
    &[]
}

/// A member of the case with a value for each connection, if there is one.
pub(crate) fn by_connection<'a>(
    given: Given<'a>,
    name: &'static str,
) -> Result<Option<&'a Map<String, Value>>, CaseFault> {
    match given.get(name) {
        Some(value) => match value.as_object() {
            Some(members) => Ok(Some(members)),
            None => Err(CaseFault::Form(name)),
        },
        None => Ok(None),
    }
}

fn compare_heard(
    alloc: Global,
    found: &mut Differences,
    want: &Map<String, Value>,
    children: &[RunChild],
) -> Result<(), CaseFault> {
    for (connection, lines) in want.iter() {
        let want = bytes_of(alloc, lines, "heard")?;
        let came = lines_heard(alloc, heard_by(children, connection.as_str()))?;
        found.text("heard", &came, &want)?;
    }
    Ok(())
}

fn compare_ticks(
    alloc: Global,
    found: &mut Differences,
    want: &Map<String, Value>,
    children: &[RunChild],
) -> Result<(), CaseFault> {
    for (connection, ticks) in want.iter() {
        let want = numbers_of(alloc, ticks, "ticks")?;
        let came = ticks_heard(alloc, heard_by(children, connection.as_str()))?;
        found.numbers("ticks", came.as_slice(), want.as_slice())?;
    }
    Ok(())
}

fn compare_children(
    alloc: Global,
    found: &mut Differences,
    given: Given,
    children: &[RunChild],
) -> Result<(), CaseFault> {
    if let Some(want) = by_connection(given, "heard")? {
        compare_heard(alloc, found, want, children)?;
    }
    if let Some(want) = by_connection(given, "ticks")? {
        compare_ticks(alloc, found, want, children)?;
    }
    Ok(())
}

/// Runs a case over children that answer as it says, of a world that doesn't tell.
pub(crate) fn run_case<R: Wait>(
    rt: &R,
    alloc: Global,
    given: Given,
) -> Result<Differences, CaseFault> {
    members_of(alloc, given.case, "case", &MEMBERS)?;
    let mut setup = Setup::of(alloc, given)?;
    let clock = clock_of(alloc, given)?;
    let cases = children_of(alloc, given)?;
    let mut nursery = RunNursery::new(alloc, &clock, cases.as_slice());
    let status = run::<R, Untold, RunNursery>(rt, alloc, &mut setup, &clock, &mut nursery);
    let mut found = Differences::none(alloc);
    compare_written(alloc, &mut found, given, status, &setup)?;
    compare_children(alloc, &mut found, given, nursery.back.as_slice())?;
    Ok(found)
}
