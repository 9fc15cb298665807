ghost use Rattle.std.specs.Prelude.{◌≡◌, ◌++◌, IfOk, codes, string_bytes};
ghost use Rattle.std.specs.Fmt.{decimal};
ghost use Rattle.answer_text.specs.Spelled.{cell_json};
ghost use Rattle.answer_text.specs.Errors.{listed, at_place, declaration_words, cause_words, scan_words, row_words, connection_words, error_words, error_line, error_text};

use crate::answer::{DeclarationFault, ErrorLine};
use crate::columns::push_escaped;
use crate::spelled::push_all;
use sp_model::Cause;
use sp_value::{Cell, Memory, Text, to_json};
use std::alloc::{AllocError, Global};

/// The line of an error of those words.
pub fn error_line(alloc: Global, words: &str) -> Result<Vec<u8>, Memory>
    ensures { IfOk result (λ v. v.items ≡ error_line words.now) }
{
    let mut text = Vec::from_slice(alloc, b"error: ")?;
    push_escaped(&mut text, words.as_bytes())?;
    push_all(&mut text, b"\n")?;
    Ok(text)
}

/// Names with a comma and a space between two of them.
fn listed(alloc: Global, names: &[Text]) -> Result<String, AllocError>
    ensures { IfOk result (λ s. string_bytes s ≡ listed names.now) }
{
    let mut text = String::new(alloc);
    let mut rest = names;
    'more: while let [name, others @ ..] = rest {
        text.push_str(name.as_str())?;
        if !others.is_empty() {
            text.push_str(", ")?;
        }
        rest = others;
    }
    Ok(text)
}

fn at_place(alloc: Global, words: &str, place: u64) -> Result<String, AllocError>
    ensures { IfOk result (λ s. string_bytes s ≡ at_place words.now place) }
{
    format!(in alloc; "{words} at {place}")
}

/// Why a declaration is refused.
pub fn declaration_words(alloc: Global, fault: &DeclarationFault) -> Result<String, AllocError>
    ensures { IfOk result (λ s. string_bytes s ≡ declaration_words fault.now) }
{
    match fault {
        DeclarationFault::Shape => String::from_str(alloc, "shape"),
        DeclarationFault::DuplicateName => String::from_str(alloc, "duplicate name"),
        DeclarationFault::UnknownFunction => String::from_str(alloc, "unknown function"),
        DeclarationFault::Cycle { functions } => {
            let names = listed(alloc, functions.as_slice())?;
            format!(in alloc; "cycle {}", names.as_str())
        }
        DeclarationFault::SubsetKeyIsHydrated => String::from_str(alloc, "subset key is hydrated"),
        DeclarationFault::NoAccess => String::from_str(alloc, "no access"),
        DeclarationFault::Limit => String::from_str(alloc, "limit"),
    }
}

fn bad_declaration(
    alloc: Global,
    connection: &Text,
    fault: &DeclarationFault,
    table: u64,
) -> Result<String, AllocError>
    ensures { IfOk result (λ s. string_bytes s ≡ connection_words connection.now (codes "declaration " ++ (declaration_words fault.now ++ (codes " in table " ++ decimal table)))) }
{
    let words = declaration_words(alloc, fault)?;
    format!(in alloc;
        "connection {}: declaration {} in table {table}",
        connection.as_str(),
        words.as_str()
    )
}

fn missing_words(alloc: Global, columns: &[Text]) -> Result<String, AllocError>
    ensures { IfOk result (λ s. string_bytes s ≡ codes "missing keys " ++ listed columns.now) }
{
    let names = listed(alloc, columns)?;
    format!(in alloc; "missing keys {}", names.as_str())
}

fn missing_keys(alloc: Global, source: u32, columns: &[Text]) -> Result<String, AllocError>
    ensures { IfOk result (λ s. string_bytes s ≡ codes "source " ++ (decimal source ++ (codes ": missing keys " ++ listed columns.now))) }
{
    let words = missing_words(alloc, columns)?;
    format!(in alloc; "source {source}: {}", words.as_str())
}

fn bad_value(alloc: Global, cell: &Cell) -> Result<String, AllocError>
    ensures { IfOk result (λ s. string_bytes s ≡ codes "bad value " ++ cell_json cell.now) }
{
    let Ok(value) = to_json(alloc, cell) else {
        return Err(AllocError);
    };
    let text = value.to_string(alloc)?;
    format!(in alloc; "bad value {}", text.as_str())
}

fn cause_words(alloc: Global, cause: &Cause) -> Result<String, AllocError>
    ensures { IfOk result (λ s. string_bytes s ≡ cause_words cause.now) }
{
    match cause {
        Cause::Error {
            function,
            attempt,
            text,
        } => format!(in alloc;
            "{} attempt {attempt}: {}",
            function.as_str(),
            text.as_str()
        ),
        Cause::BadValue(cell) => bad_value(alloc, cell),
        Cause::TooMany { function, count } => {
            format!(in alloc; "{} gave {count} items", function.as_str())
        }
        Cause::BadVersion(text) => String::from_str(alloc, text.as_str()),
    }
}

fn column_failed(
    alloc: Global,
    scan: u64,
    row: u64,
    column: &Text,
    cause: &Cause,
) -> Result<String, AllocError>
    ensures { IfOk result (λ s. string_bytes s ≡ row_words scan row (codes " column " ++ (column.now ++ (codes ": " ++ cause_words cause.now)))) }
{
    let words = cause_words(alloc, cause)?;
    format!(in alloc;
        "scan {scan} row {row} column {}: {}",
        column.as_str(),
        words.as_str()
    )
}

fn scan_failed(alloc: Global, scan: u64, row: u64, cause: &Cause) -> Result<String, AllocError>
    ensures { IfOk result (λ s. string_bytes s ≡ row_words scan row (codes ": " ++ cause_words cause.now)) }
{
    let words = cause_words(alloc, cause)?;
    format!(in alloc; "scan {scan} row {row}: {}", words.as_str())
}

fn restarts_spent(alloc: Global, connection: &Text, losses: u32) -> Result<String, AllocError>
    ensures { IfOk result (λ s. string_bytes s ≡ connection_words connection.now (codes "restarts spent (" ++ (decimal losses ++ codes " losses)"))) }
{
    format!(in alloc;
        "connection {}: restarts spent ({losses} losses)",
        connection.as_str()
    )
}

fn error_words(alloc: Global, error: &ErrorLine) -> Result<String, AllocError>
    ensures { IfOk result (λ s. string_bytes s ≡ error_words error.now) }
{
    match error {
        ErrorLine::LineForm => String::from_str(alloc, "line form"),
        ErrorLine::NotYet => String::from_str(alloc, "not yet"),
        ErrorLine::Syntax { place } => at_place(alloc, "syntax", *place),
        ErrorLine::TooDeep { place } => at_place(alloc, "too deep", *place),
        ErrorLine::UnknownConnection { place } => at_place(alloc, "unknown connection", *place),
        ErrorLine::UnknownTable { place } => at_place(alloc, "unknown table", *place),
        ErrorLine::UnknownColumn { place } => at_place(alloc, "unknown column", *place),
        ErrorLine::Ambiguous { place } => at_place(alloc, "ambiguous", *place),
        ErrorLine::TypeMismatch { place } => at_place(alloc, "type mismatch", *place),
        ErrorLine::TooManyTables { place } => at_place(alloc, "too many tables", *place),
        ErrorLine::BadDeclaration {
            connection,
            fault,
            table,
        } => bad_declaration(alloc, connection, fault, *table),
        ErrorLine::DeclarationsDiffer { connection } => {
            format!(in alloc; "connection {}: declaration differs", connection.as_str())
        }
        ErrorLine::MissingKeys { source, columns } => {
            missing_keys(alloc, *source, columns.as_slice())
        }
        ErrorLine::ColumnFailed {
            scan,
            row,
            column,
            cause,
        } => column_failed(alloc, *scan, *row, column, cause),
        ErrorLine::ScanFailed { scan, row, cause } => scan_failed(alloc, *scan, *row, cause),
        ErrorLine::VersionFailed { scan, text } => {
            format!(in alloc; "scan {scan} version: {}", text.as_str())
        }
        ErrorLine::RestartsSpent { connection, losses } => {
            restarts_spent(alloc, connection, *losses)
        }
    }
}

/// The line of an error.
pub fn error_text(alloc: Global, error: &ErrorLine) -> Result<Vec<u8>, Memory>
    ensures { IfOk result (λ v. v.items ≡ error_text error.now) }
{
    let words = error_words(alloc, error)?;
    let line = error_line(alloc, words.as_str())?;
    Ok(line)
}
