//! The words, input, files, sinks and clock of a run.

use crate::fault::CaseFault;
use crate::form::{bytes_of, members_of, numbers_at};
use crate::given::Given;
use serde_json::Value;
use sp_outside::{MemoryClock, MemoryShelf, MemorySink, MemorySource};
use sp_value::{Text, Texts};
use sqlite_items::Items;
use std::alloc::Global;

/// What a run is given, and what its sinks hold after it.
#[derive(Drop)]
pub(crate) struct Setup {
    pub(crate) words: Texts,
    pub(crate) input: MemorySource,
    pub(crate) files: MemoryShelf,
    pub(crate) answers: MemorySink,
    pub(crate) notes: MemorySink,
}

fn words_of(alloc: Global, given: Given) -> Result<Texts, CaseFault> {
    let Some(values) = given.need("words")?.as_array() else {
        return Err(CaseFault::Form("words"));
    };
    let mut words = Items::new(alloc);
    for value in values {
        let Some(word) = value.as_str() else {
            return Err(CaseFault::Form("words"));
        };
        words.push(Text::from_str(alloc, word)?)?;
    }
    Ok(words)
}

/// The numbers of the reads or writes that fail, from 0.
fn fails_of(alloc: Global, given: Given, name: &'static str) -> Result<Items<u64>, CaseFault> {
    let Some(fails) = given.get("fails") else {
        return Ok(Items::new(alloc));
    };
    let members = members_of(
        alloc,
        fails,
        "fails",
        &["input", "files", "answers", "notes"],
    )?;
    numbers_at(alloc, members, name)
}

fn shelf_of(alloc: Global, given: Given) -> Result<MemoryShelf, CaseFault> {
    let Some(members) = given.need("files")?.as_object() else {
        return Err(CaseFault::Form("files"));
    };
    let mut files = Items::new(alloc);
    for (name, value) in members.iter() {
        let bytes = Items::from_vec(bytes_of(alloc, value, "files")?);
        files.push((Text::from_str(alloc, name.as_str())?, bytes))?;
    }
    Ok(MemoryShelf::new(files, fails_of(alloc, given, "files")?))
}

pub(crate) fn input_of(alloc: Global, given: Given) -> Result<MemorySource, CaseFault> {
    let bytes = given.bytes(alloc, "input")?;
    Ok(MemorySource::new(bytes, fails_of(alloc, given, "input")?))
}

/// How many bytes a sink takes at a time at most: 4096 where the case doesn't say.
fn piece_of(alloc: Global, given: Given, name: &'static str) -> Result<usize, CaseFault> {
    let Some(pieces) = given.get("pieces") else {
        return Ok(4096);
    };
    match members_of(alloc, pieces, "pieces", &["answers", "notes"])?.get(name) {
        Some(piece) => match piece.as_u64() {
            Some(piece) => Ok(piece as usize),
            None => Err(CaseFault::Form("pieces")),
        },
        None => Ok(4096),
    }
}

pub(crate) fn sink_of(
    alloc: Global,
    given: Given,
    name: &'static str,
) -> Result<MemorySink, CaseFault> {
    let piece = piece_of(alloc, given, name)?;
    let fails = fails_of(alloc, given, name)?;
    Ok(MemorySink::new(alloc, piece, fails))
}

/// The clock: it stands at a tick, 0 where the case doesn't say, and advances by the number of the reading.
pub(crate) fn clock_of(alloc: Global, given: Given) -> Result<MemoryClock, CaseFault> {
    let Some(clock) = given.get("clock") else {
        return Ok(MemoryClock::new(0, Items::new(alloc)));
    };
    let members = members_of(alloc, clock, "clock", &["tick", "advances"])?;
    let Some(tick) = members.get("tick").and_then(Value::as_u64) else {
        return Err(CaseFault::Form("tick"));
    };
    Ok(MemoryClock::new(tick, numbers_at(alloc, members, "advances")?))
}

impl Setup {
    pub(crate) fn of(alloc: Global, given: Given) -> Result<Setup, CaseFault> {
        let words = words_of(alloc, given)?;
        let input = input_of(alloc, given)?;
        let files = shelf_of(alloc, given)?;
        let answers = sink_of(alloc, given, "answers")?;
        let notes = sink_of(alloc, given, "notes")?;
        Ok(Setup {
            words,
            input,
            files,
            answers,
            notes,
        })
    }
}
