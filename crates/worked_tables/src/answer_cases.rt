//! What comes of the calls of `answer_text`.

use crate::error_cases::error_of;
use crate::given::{cell_at, cells_at, text_at};
use crate::value_cases::rows_at;
use answer_text::{Answer, ErrorLine, Form, ShownEnd, block, notes};
use case_tables::str_at;
use sp_model::{Access, Mark, ScanNote, ScanNotes, ScanRequest, Version};
use sp_value::{Cell, Kind, Kinds, Rows, Text, Texts, TryCopy};
use sqlite_items::Items;
use std::alloc::Global;

pub fn outcome(alloc: Global, call: &str, given: &[Vec<u8>]) -> Option<String> {
    match call {
        "block" => rows_block(alloc, given),
        "end" => end_block(alloc, given),
        "error" => error_block(alloc, given),
        "notes" => noted(alloc, given),
        _ => None,
    }
}

fn form(word: &str) -> Option<Form> {
    match word {
        "line" => Some(Form::Line),
        "csv" => Some(Form::Csv),
        "json" => Some(Form::Json),
        "table" => Some(Form::Table),
        _ => None,
    }
}

fn kind(word: &str) -> Option<Kind> {
    match word {
        "bool" => Some(Kind::Bool),
        "int" => Some(Kind::Int),
        "text" => Some(Kind::Text),
        "json" => Some(Kind::Json),
        _ => None,
    }
}

fn kinds_at(alloc: Global, given: &[Vec<u8>], place: usize) -> Option<Kinds> {
    let mut kinds = Kinds::new(alloc);
    for word in str_at(given, place)?.split(" ") {
        kinds.push(kind(word)?).ok()?;
    }
    Some(kinds)
}

/// The texts of a list of values.
fn texts_of(alloc: Global, cell: &Cell) -> Option<Texts> {
    let Cell::List(cells) = cell else {
        return None;
    };
    let mut texts = Texts::new(alloc);
    for cell in cells.as_slice() {
        let Cell::Text(text) = cell else {
            return None;
        };
        texts.push(text.copy(alloc).ok()?).ok()?;
    }
    Some(texts)
}

fn texts_at(alloc: Global, given: &[Vec<u8>], place: usize) -> Option<Texts> {
    texts_of(alloc, &cell_at(alloc, given, place)?)
}

fn spelled(alloc: Global, form: Form, answer: &Answer) -> Option<String> {
    String::from_utf8(block(alloc, form, answer).ok()?).ok()
}

/// An answer without columns.
fn bare(alloc: Global, end: ShownEnd) -> Answer {
    Answer {
        end,
        names: Texts::new(alloc),
        kinds: Kinds::new(alloc),
        notes: ScanNotes::new(alloc),
        began: 0,
    }
}

/// An answer of rows.
fn of_rows(alloc: Global, names: Texts, kinds: Kinds, rows: Rows) -> Answer {
    Answer {
        end: ShownEnd::Rows(rows),
        names,
        kinds,
        notes: ScanNotes::new(alloc),
        began: 0,
    }
}

/// Names, kinds, rows.
fn answer_at(alloc: Global, given: &[Vec<u8>]) -> Option<Answer> {
    let names = texts_at(alloc, given, 0)?;
    let kinds = kinds_at(alloc, given, 1)?;
    let rows = rows_at(alloc, given, 2)?;
    Some(of_rows(alloc, names, kinds, rows))
}

/// Names, kinds, rows, form: the text.
fn rows_block(alloc: Global, given: &[Vec<u8>]) -> Option<String> {
    let form = form(str_at(given, 3)?)?;
    spelled(alloc, form, &answer_at(alloc, given)?)
}

fn end(word: &str) -> Option<ShownEnd> {
    match word {
        "cleared" => Some(ShownEnd::Cleared),
        "memory" => Some(ShownEnd::Memory),
        "line form" => Some(ShownEnd::Error(ErrorLine::LineForm)),
        "not yet" => Some(ShownEnd::Error(ErrorLine::NotYet)),
        _ => None,
    }
}

/// An end, form: the text.
fn end_block(alloc: Global, given: &[Vec<u8>]) -> Option<String> {
    let answer = bare(alloc, end(str_at(given, 0)?)?);
    spelled(alloc, form(str_at(given, 1)?)?, &answer)
}

/// The parts of an error: its line.
fn error_block(alloc: Global, given: &[Vec<u8>]) -> Option<String> {
    let parts = cells_at(alloc, given, 0)?;
    let error = error_of(alloc, parts.as_slice())?;
    spelled(alloc, Form::Table, &bare(alloc, ShownEnd::Error(error)))
}

fn access(word: &str) -> Option<Access> {
    match word {
        "get" => Some(Access::Get),
        "list" => Some(Access::List),
        "parents" => Some(Access::Parents),
        _ => None,
    }
}

/// Of an end, and then a connection, table, access and columns; a fresh scan has no limit and the version 7, a cached one a limit of 2 and none.
fn note_at(alloc: Global, given: &[Vec<u8>], is_fresh: bool) -> Option<ScanNote> {
    let request = ScanRequest {
        connection: text_at(alloc, given, 1)?,
        table: text_at(alloc, given, 2)?,
        access: access(str_at(given, 3)?)?,
        conditions: Items::new(alloc),
        columns: texts_at(alloc, given, 4)?,
        subset: Texts::new(alloc),
        limit: if is_fresh { None } else { Some(2) },
    };
    let version = if is_fresh {
        Version::Is(7)
    } else {
        Version::Bad(Text::from_str(alloc, "no version").ok()?)
    };
    Some(ScanNote {
        request,
        asked: 3,
        at: if is_fresh { 3 } else { 9 },
        version,
        mark: if is_fresh { Mark::Fresh } else { Mark::Cached },
    })
}

/// The notes of a fresh scan and of a cached one, where it is said what they are of.
fn notes_at(alloc: Global, given: &[Vec<u8>]) -> Option<ScanNotes> {
    if given.len() <= 4 {
        return Some(ScanNotes::new(alloc));
    }
    let fresh = note_at(alloc, given, true)?;
    let cached = note_at(alloc, given, false)?;
    both(alloc, fresh, cached)
}

fn both(alloc: Global, fresh: ScanNote, cached: ScanNote) -> Option<ScanNotes> {
    let mut notes = ScanNotes::new(alloc);
    notes.push(fresh).ok()?;
    notes.push(cached).ok()?;
    Some(notes)
}

/// An answer without columns, which began at 1.
fn with_notes(alloc: Global, end: ShownEnd, notes: ScanNotes) -> Answer {
    Answer {
        end,
        names: Texts::new(alloc),
        kinds: Kinds::new(alloc),
        notes,
        began: 1,
    }
}

/// The notes of the second block, in the third session.
fn notes_text(alloc: Global, answer: &Answer) -> Option<String> {
    String::from_utf8(notes(alloc, 2, 3, answer).ok()?).ok()
}

/// An end, and what the two scans are of: the notes.
fn noted(alloc: Global, given: &[Vec<u8>]) -> Option<String> {
    let end = end(str_at(given, 0)?)?;
    let notes = notes_at(alloc, given)?;
    notes_text(alloc, &with_notes(alloc, end, notes))
}
