//! Errors, from their parts: a word, and then the numbers, names and texts of the line.

use answer_text::{DeclarationFault, ErrorLine};
use sp_model::Cause;
use sp_value::{Cell, Text, Texts, TryCopy};
use std::alloc::Global;

fn text(alloc: Global, parts: &[Cell], place: usize) -> Option<Text> {
    match parts.get(place)? {
        Cell::Text(text) => text.copy(alloc).ok(),
        _ => None,
    }
}

fn number(parts: &[Cell], place: usize) -> Option<u64> {
    match parts.get(place)? {
        Cell::Int(number) => u64::try_from(*number).ok(),
        _ => None,
    }
}

fn small(parts: &[Cell], place: usize) -> Option<u32> {
    u32::try_from(number(parts, place)?).ok()
}

/// The texts from a place on.
fn texts(alloc: Global, parts: &[Cell], place: usize) -> Option<Texts> {
    let mut texts = Texts::new(alloc);
    for at in place..parts.len() {
        texts.push(text(alloc, parts, at)?).ok()?;
    }
    Some(texts)
}

fn placed(word: &str, place: u64) -> Option<ErrorLine> {
    match word {
        "Syntax" => Some(ErrorLine::Syntax { place }),
        "TooDeep" => Some(ErrorLine::TooDeep { place }),
        "UnknownConnection" => Some(ErrorLine::UnknownConnection { place }),
        "UnknownTable" => Some(ErrorLine::UnknownTable { place }),
        "UnknownColumn" => Some(ErrorLine::UnknownColumn { place }),
        "Ambiguous" => Some(ErrorLine::Ambiguous { place }),
        "TypeMismatch" => Some(ErrorLine::TypeMismatch { place }),
        "TooManyTables" => Some(ErrorLine::TooManyTables { place }),
        _ => None,
    }
}

/// A word, and for a cycle the functions.
fn fault(alloc: Global, parts: &[Cell]) -> Option<DeclarationFault> {
    match text(alloc, parts, 0)?.as_str() {
        "Shape" => Some(DeclarationFault::Shape),
        "DuplicateName" => Some(DeclarationFault::DuplicateName),
        "UnknownFunction" => Some(DeclarationFault::UnknownFunction),
        "Cycle" => Some(DeclarationFault::Cycle {
            functions: texts(alloc, parts, 1)?,
        }),
        "SubsetKeyIsHydrated" => Some(DeclarationFault::SubsetKeyIsHydrated),
        "NoAccess" => Some(DeclarationFault::NoAccess),
        "Limit" => Some(DeclarationFault::Limit),
        _ => None,
    }
}

/// A word, and the parts of a cause.
fn cause(alloc: Global, parts: &[Cell]) -> Option<Cause> {
    match text(alloc, parts, 0)?.as_str() {
        "Error" => Some(Cause::Error {
            function: text(alloc, parts, 1)?,
            attempt: small(parts, 2)?,
            text: text(alloc, parts, 3)?,
        }),
        "BadValue" => Some(Cause::BadValue(parts.get(1)?.copy(alloc).ok()?)),
        "TooMany" => Some(Cause::TooMany {
            function: text(alloc, parts, 1)?,
            count: number(parts, 2)?,
        }),
        _ => None,
    }
}

fn failed(alloc: Global, word: &str, parts: &[Cell]) -> Option<ErrorLine> {
    match word {
        "ColumnFailed" => Some(ErrorLine::ColumnFailed {
            scan: number(parts, 1)?,
            row: number(parts, 2)?,
            column: text(alloc, parts, 3)?,
            cause: cause(alloc, parts.get(4..)?)?,
        }),
        "ScanFailed" => Some(ErrorLine::ScanFailed {
            scan: number(parts, 1)?,
            row: number(parts, 2)?,
            cause: cause(alloc, parts.get(3..)?)?,
        }),
        "VersionFailed" => Some(ErrorLine::VersionFailed {
            scan: number(parts, 1)?,
            text: text(alloc, parts, 2)?,
        }),
        _ => placed(word, number(parts, 1)?),
    }
}

/// The error of these parts.
pub fn error_of(alloc: Global, parts: &[Cell]) -> Option<ErrorLine> {
    let word = text(alloc, parts, 0)?;
    match word.as_str() {
        "BadDeclaration" => Some(ErrorLine::BadDeclaration {
            connection: text(alloc, parts, 1)?,
            table: number(parts, 2)?,
            fault: fault(alloc, parts.get(3..)?)?,
        }),
        "DeclarationsDiffer" => Some(ErrorLine::DeclarationsDiffer {
            connection: text(alloc, parts, 1)?,
        }),
        "MissingKeys" => Some(ErrorLine::MissingKeys {
            source: small(parts, 1)?,
            columns: texts(alloc, parts, 2)?,
        }),
        "RestartsSpent" => Some(ErrorLine::RestartsSpent {
            connection: text(alloc, parts, 1)?,
            losses: small(parts, 2)?,
        }),
        _ => failed(alloc, word.as_str(), parts),
    }
}
