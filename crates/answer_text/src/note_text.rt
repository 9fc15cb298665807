ghost use Rattle.std.specs.Prelude.{◌≡◌, ◌++◌, IfOk, OnOk, false};
ghost use Rattle.serde_json.specs.View.{view};
ghost use Rattle.serde_json.specs.Written.{has_float};
ghost use Rattle.answer_text.specs.JsonLines.{natural, json_line};
ghost use Rattle.answer_text.specs.Notes.{access_word, mark_word, version_data, limit_data, note_members, note_data, began_data, cleared_data, began_line, note_line, cleared_lines, scan_lines, answer_notes, block_notes};

use crate::answer::{Answer, ErrorLine, ShownEnd};
use crate::json_text::{json_line, texts_json};
use crate::spelled::push_all;
use serde_json::{Value, json};
use sp_model::{Access, Mark, ScanNote, Version};
use sp_value::Memory;
use sp_world::{conditions_json, made};
use std::alloc::{AllocError, Global};

/// Where a note stands: the block and its session, counted from 1, and the number of the scan in the statement, from 1.
#[derive(Clone, Copy)]
struct NotePlace {
    block: u64,
    session: u64,
    scan: u64,
}

/// How an access is named in notes.
pub fn access_word(access: Access) -> &'static str
    ensures { result.now ≡ access_word access }
{
    match access {
        Access::Get => "get",
        Access::List => "list",
        Access::Parents => "parents",
    }
}

fn mark_word(mark: Mark) -> &'static str
    ensures { result.now ≡ mark_word mark }
{
    match mark {
        Mark::Fresh => "fresh",
        Mark::Cached => "cached",
    }
}

fn number_json(alloc: Global, number: u64) -> Result<Value, AllocError>
    ensures value { IfOk result (λ v. view v ≡ natural number) }
{
    json!(in alloc; number)
}

fn version_json(alloc: Global, version: &Version) -> Result<Value, AllocError>
    ensures value { IfOk result (λ v. view v ≡ version_data version.now) }
    ensures no_float { IfOk result (λ v. has_float (view v) ≡ false) }
{
    match version {
        Version::Is(number) => number_json(alloc, *number),
        Version::Bad(_) => Ok(Value::Null),
    }
}

fn limit_json(alloc: Global, limit: Option<u64>) -> Result<Value, AllocError>
    ensures value { IfOk result (λ v. view v ≡ limit_data limit) }
    ensures no_float { IfOk result (λ v. has_float (view v) ≡ false) }
{
    match limit {
        Some(count) => number_json(alloc, count),
        None => Ok(Value::Null),
    }
}

fn note_members(
    alloc: Global,
    place: NotePlace,
    note: &ScanNote,
    columns: Value,
    conditions: Value,
    limit: Value,
    version: Value,
) -> Result<Value, AllocError>
    ensures { IfOk result (λ v. view v ≡ note_members place note.now (view columns) (view conditions) (view limit) (view version)) }
{
    json!(in alloc; {"access": access_word(note.request.access), "asked": note.asked, "at": note.at, "block": place.block,
        "columns": columns, "conditions": conditions, "connection": note.request.connection.as_str(), "limit": limit,
        "mark": mark_word(note.mark), "scan": place.scan, "session": place.session, "table": note.request.table.as_str(), "version": version})
}

fn note_json(alloc: Global, place: NotePlace, note: &ScanNote) -> Result<Value, Memory>
    ensures value { IfOk result (λ v. view v ≡ note_data place note.now) }
    ensures no_float { IfOk result (λ v. has_float (view v) ≡ false) }
{
    let columns = texts_json(alloc, note.request.columns.as_slice())?;
    let conditions = conditions_json(alloc, note.request.conditions.as_slice())?;
    let limit = made(limit_json(alloc, note.request.limit))?;
    let version = made(version_json(alloc, &note.version))?;
    let value = made(note_members(alloc, place, note, columns, conditions, limit, version))?;
    Ok(value)
}

fn cleared_json(alloc: Global, block: u64, session: u64) -> Result<Value, AllocError>
    ensures { IfOk result (λ v. view v ≡ cleared_data block session) }
{
    json!(in alloc; {"block": block, "cache": "clear", "session": session})
}

fn began_json(alloc: Global, block: u64, session: u64, began: u64) -> Result<Value, AllocError>
    ensures { IfOk result (λ v. view v ≡ began_data block session began) }
{
    json!(in alloc; {"began": began, "block": block, "session": session})
}

#[tactic(auto, unfolding(crate::specs::Notes::note_line))]
fn note_line(alloc: Global, place: NotePlace, note: &ScanNote) -> Result<Vec<u8>, Memory>
    ensures { IfOk result (λ v. v.items ≡ note_line place note.now) }
{
    let value = note_json(alloc, place, note)?;
    let line = json_line(alloc, &value)?;
    Ok(line)
}

/// The line that says when the block began.
#[tactic(auto, unfolding(crate::specs::Notes::began_line))]
fn began_line(alloc: Global, block: u64, session: u64, began: u64) -> Result<Vec<u8>, Memory>
    ensures { IfOk result (λ v. v.items ≡ began_line block session began) }
{
    let value = made(began_json(alloc, block, session, began))?;
    let line = json_line(alloc, &value)?;
    Ok(line)
}

/// The line that says that the cache was cleared.
fn cleared_line(alloc: Global, block: u64, session: u64) -> Result<Vec<u8>, Memory>
    ensures { IfOk result (λ v. v.items ≡ json_line (cleared_data block session)) }
{
    let value = made(cleared_json(alloc, block, session))?;
    let line = json_line(alloc, &value)?;
    Ok(line)
}

/// Appends what stands between the line of the beginning and those of the scans.
fn push_cleared(
    text: &mut Vec<u8>,
    alloc: Global,
    block: u64,
    session: u64,
    end: &ShownEnd,
) -> Result<(), Memory>
    ensures { OnOk result (text.new.items ≡ text.old.items ++ cleared_lines block session end.now) }
{
    match end {
        ShownEnd::Cleared => {
            let line = cleared_line(alloc, block, session)?;
            push_all(text, &line)
        }
        _ => Ok(()),
    }
}

/// Appends a line for each scan.
fn push_scans(
    alloc: Global,
    text: &mut Vec<u8>,
    block: u64,
    session: u64,
    notes: &[ScanNote],
) -> Result<(), Memory>
    ensures { OnOk result (text.new.items ≡ text.old.items ++ scan_lines block session 0 notes.now) }
{
    let mut scan: u64 = 0;
    for note in notes {
        scan += 1;
        let place = NotePlace {
            block,
            session,
            scan,
        };
        let line = note_line(alloc, place, note)?;
        push_all(text, &line)?;
    }
    Ok(())
}

/// The notes of an answer: when it began, that the cache was cleared, and its scans.
fn answer_notes(alloc: Global, block: u64, session: u64, answer: &Answer) -> Result<Vec<u8>, Memory>
    ensures { IfOk result (λ v. v.items ≡ answer_notes block session answer.now) }
{
    let mut text = began_line(alloc, block, session, answer.began)?;
    push_cleared(&mut text, alloc, block, session, &answer.end)?;
    push_scans(alloc, &mut text, block, session, answer.notes.as_slice())?;
    Ok(text)
}

/// The notes of an answer, by the number of its block, from 1, and its session. A line of bad form has none.
pub fn notes(alloc: Global, block: u64, session: u32, answer: &Answer) -> Result<Vec<u8>, Memory>
    ensures { IfOk result (λ v. v.items ≡ block_notes block session answer.now) }
{
    match &answer.end {
        ShownEnd::Error(ErrorLine::LineForm) => Ok(Vec::new(alloc)),
        _ => {
            let text = answer_notes(alloc, block, u64::from(session), answer)?;
            Ok(text)
        }
    }
}
