//! What comes of the calls of `explain_text`. Each connection of the settings has the one declaration.

ghost use Rattle.std.specs.Prelude.{All, IfSome};
ghost use Rattle.decl_words.specs.Sound.{IsSound};
ghost use Rattle.sql_bind.specs.Known.{declaration_of};
ghost use Rattle.explain_text.specs.Explained.{AreSound};

use crate::declaration_cases::declaration_at;
use crate::given::text_at;
use crate::words::joined;
use case_tables::bytes_at;
use explain_text::{ExplainFault, blocks_text, declared_alike, explain, explain_lines};
use input_lines::read_lines;
use settings_text::read_all_settings;
use sp_model::{Declaration, Settings};
use sp_value::Texts;
use sql_bind::{BindFault, Catalog};
use sql_parser::SqlFault;
use std::alloc::Global;

pub fn outcome(alloc: Global, call: &str, given: &[Vec<u8>]) -> Option<String> {
    match call {
        "explain" => explained(alloc, given),
        "explain_lines" => blocks(alloc, given),
        _ => None,
    }
}

fn at_place(alloc: Global, words: &str, place: u64) -> Option<String> {
    format!(in alloc; "{words} at {place}").ok()
}

fn bind_words(alloc: Global, fault: BindFault) -> Option<String> {
    match fault {
        BindFault::UnknownConnection { place } => at_place(alloc, "unknown connection", place),
        BindFault::UnknownTable { place } => at_place(alloc, "unknown table", place),
        BindFault::UnknownColumn { place } => at_place(alloc, "unknown column", place),
        BindFault::Ambiguous { place } => at_place(alloc, "ambiguous", place),
        BindFault::TypeMismatch { place } => at_place(alloc, "type mismatch", place),
        BindFault::TooManyTables { place } => at_place(alloc, "too many tables", place),
        BindFault::Memory => None,
    }
}

fn missing_words(alloc: Global, source: u32, columns: &Texts) -> Option<String> {
    let columns = joined(alloc, columns.as_slice(), ", ")?;
    format!(in alloc; "source {source}: missing keys {columns}").ok()
}

fn refusal(alloc: Global, fault: ExplainFault) -> Option<String> {
    match fault {
        ExplainFault::Sql(SqlFault::Syntax { place }) => at_place(alloc, "syntax", place),
        ExplainFault::Sql(SqlFault::TooDeep { place }) => at_place(alloc, "too deep", place),
        ExplainFault::Bind(fault) => bind_words(alloc, fault),
        ExplainFault::MissingKeys { source, columns } => missing_words(alloc, source, &columns),
        _ => None,
    }
}

fn answer(alloc: Global, answer: Result<Vec<u8>, ExplainFault>) -> Option<String> {
    match answer {
        Ok(lines) => String::from_utf8(lines).ok(),
        Err(fault) => refusal(alloc, fault),
    }
}

fn alike(alloc: Global, settings: &Settings, declaration: &Declaration) -> Option<Catalog>
    requires { All IsSound declaration.now.tables }
    ensures { IfSome result (λ c. AreSound (declaration_of c)) }
{
    match declared_alike(alloc, settings, declaration) {
        Ok(catalog) => Some(catalog),
        Err(_) => None,
    }
}

/// Settings, a declaration.
pub fn catalog_at(alloc: Global, given: &[Vec<u8>]) -> Option<Catalog>
    ensures { IfSome result (λ c. AreSound (declaration_of c)) }
{
    let settings = read_all_settings(alloc, bytes_at(given, 0)?).ok()?;
    let declaration = declaration_at(alloc, given, 1)?;
    alike(alloc, &settings, &declaration)
}

/// Settings, a declaration, a statement: the lines of its plan.
fn explained(alloc: Global, given: &[Vec<u8>]) -> Option<String> {
    let catalog = catalog_at(alloc, given)?;
    let text = text_at(alloc, given, 2)?;
    answer(alloc, explain(alloc, &text, &catalog))
}

/// Settings, a declaration, an input: the text of its lines' blocks.
fn blocks(alloc: Global, given: &[Vec<u8>]) -> Option<String> {
    let catalog = catalog_at(alloc, given)?;
    let lines = read_lines(alloc, bytes_at(given, 2)?).ok()?;
    let blocks = explain_lines(alloc, lines.as_slice(), &catalog).ok()?;
    String::from_utf8(blocks_text(alloc, blocks.as_slice()).ok()?).ok()
}
