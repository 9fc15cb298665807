//! Runs over children that tell.

ghost use Rattle.std.specs.Prelude.{◌≡◌, [], length};

use crate::child_case::{children_of, scripts_of};
use crate::difference::Differences;
use crate::fault::CaseFault;
use crate::form::bytes_of;
use crate::given::Given;
use crate::run::{by_connection, compare_written, push_line, run};
use crate::setup::{Setup, clock_of};
use crate::text_world::{BookText, TextWorld};
use crate::worlds::AntAndBee;
use load_gen::{Generated, generated_keeps_forms};
use sp_outside::{BookChild, BookNursery, ChildScript, Event};
use sp_world::World;
use sqlite_items::Items;
use std::alloc::{AllocError, Global};
use std::sync::Wait;

/// Adds the lines that a child heard.
fn push_heard(lines: &mut Vec<u8>, events: &[Event]) -> Result<(), AllocError> {
    for event in events {
        match event {
            Event::Heard(line) => push_line(lines, line.as_slice())?,
            _ => {}
        }
    }
    Ok(())
}

/// The lines that the children heard, those of one after those of another.
fn lines_heard<W: World>(alloc: Global, children: &[BookChild<W>]) -> Result<Vec<u8>, AllocError> {
    let mut lines = Vec::new(alloc);
    for child in children {
        push_heard(&mut lines, child.events())?;
    }
    Ok(lines)
}

/// The lines that the case wants heard, by the names of the connections.
fn lines_wanted(alloc: Global, given: Given) -> Result<Option<Vec<u8>>, CaseFault> {
    let Some(want) = by_connection(given, "heard")? else {
        return Ok(None);
    };
    let mut lines = Vec::new(alloc);
    for (_connection, value) in want.iter() {
        let heard = bytes_of(alloc, value, "heard")?;
        lines.extend_from_slice(heard.as_slice())?;
    }
    Ok(Some(lines))
}

fn compare_heard<W: World>(
    alloc: Global,
    found: &mut Differences,
    given: Given,
    children: &[BookChild<W>],
) -> Result<(), CaseFault> {
    let Some(want) = lines_wanted(alloc, given)? else {
        return Ok(());
    };
    let came = lines_heard(alloc, children)?;
    found.text("heard", &came, &want)?;
    Ok(())
}

/// Runs a case over the children of a nursery, and compares what comes as with other children.
fn run_over<R: Wait, W: World>(
    rt: &R,
    alloc: Global,
    given: Given,
    nursery: &mut BookNursery<W>,
) -> Result<Differences, CaseFault>
    requires { length nursery.old.back ≡ nursery.old.made }
{
    let mut setup = Setup::of(alloc, given)?;
    let clock = clock_of(alloc, given)?;
    let status = run::<R, W, BookNursery<W>>(rt, alloc, &mut setup, &clock, nursery);
    let mut found = Differences::none(alloc);
    compare_written(alloc, &mut found, given, status, &setup)?;
    compare_heard::<W>(alloc, &mut found, given, nursery.children())?;
    Ok(found)
}

/// The scripts of the case's children.
fn scripts_in(alloc: Global, given: Given) -> Result<Items<ChildScript>, CaseFault> {
    let cases = children_of(alloc, given)?;
    let scripts = scripts_of(alloc, cases.as_slice())?;
    Ok(scripts)
}

/// A nursery of children that answer from the world of a text, with these scripts.
fn told_nursery<T: BookText>(
    alloc: Global,
    scripts: Items<ChildScript>,
) -> BookNursery<TextWorld<T>>
    ensures { (result.made ≡ 0) × (result.back ≡ []) }
{
    BookNursery::new(alloc, scripts)
}

/// Runs a case over children that answer from the world of a text.
fn run_told<R: Wait, T: BookText>(
    rt: &R,
    alloc: Global,
    given: Given,
) -> Result<Differences, CaseFault> {
    let scripts = scripts_in(alloc, given)?;
    let mut nursery = told_nursery::<T>(alloc, scripts);
    run_over::<R, TextWorld<T>>(rt, alloc, given, &mut nursery)
}

/// A nursery of children that answer from the made-up world of a load, with these scripts.
fn generated_nursery(alloc: Global, scripts: Items<ChildScript>) -> BookNursery<Generated>
    ensures { (result.made ≡ 0) × (result.back ≡ []) }
{
    generated_keeps_forms();
    BookNursery::new(alloc, scripts)
}

/// Runs a case over children that answer from the made-up world of a load.
fn run_generated<R: Wait>(rt: &R, alloc: Global, given: Given) -> Result<Differences, CaseFault> {
    let scripts = scripts_in(alloc, given)?;
    let mut nursery = generated_nursery(alloc, scripts);
    run_over::<R, Generated>(rt, alloc, given, &mut nursery)
}

/// Runs a case over the children of the world that it names, if it names one.
pub(crate) fn told_case<R: Wait>(
    rt: &R,
    alloc: Global,
    given: Given,
) -> Result<Differences, CaseFault> {
    let Some(name) = given.case.get("world") else {
        return Ok(Differences::none(alloc));
    };
    match name.as_str() {
        Some("ant and bee") => run_told::<R, AntAndBee>(rt, alloc, given),
        Some("generated rows") => run_generated::<R>(rt, alloc, given),
        Some(name) => Err(CaseFault::Unnamed(String::from_str(alloc, name)?)),
        None => Err(CaseFault::Form("world")),
    }
}
