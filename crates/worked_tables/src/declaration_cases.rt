//! What comes of the calls of `decl_core`.

ghost use Rattle.std.specs.Prelude.{All, IfSome};
ghost use Rattle.decl_words.specs.Sound.{IsSound};

use crate::given::json_at;
use crate::words::{joined, pairs};
use case_tables::{listed, str_at, word};
use decl_core::read_declaration;
use decl_words::DeclFault;
use sp_model::{ColumnDecl, Declaration, FunctionDecl, GetDecl, KeyDecl, Retry, TableDecl};
use sp_value::Texts;
use std::alloc::Global;

pub fn outcome(alloc: Global, call: &str, given: &[Vec<u8>]) -> Option<String> {
    match call {
        "part" => part(alloc, given),
        "read_declaration" => read(alloc, given),
        _ => None,
    }
}

fn cycle_words(alloc: Global, table: u64, functions: &Texts) -> Option<String> {
    let functions = joined(alloc, functions.as_slice(), " ")?;
    format!(in alloc; "cycle in {table} of {functions}").ok()
}

fn fault_words(alloc: Global, fault: &DeclFault) -> Option<String> {
    let (kind, table) = match fault {
        DeclFault::Shape { table } => ("shape", *table),
        DeclFault::DuplicateName { table } => ("duplicate name", *table),
        DeclFault::UnknownFunction { table } => ("unknown function", *table),
        DeclFault::Cycle { table, functions } => return cycle_words(alloc, *table, functions),
        DeclFault::SubsetKeyIsHydrated { table } => ("subset key is hydrated", *table),
        DeclFault::NoAccess { table } => ("no access", *table),
        DeclFault::Limit { table } => ("limit", *table),
        DeclFault::Memory => return None,
    };
    format!(in alloc; "{kind} in {table}").ok()
}

/// A declaration: whether it is read.
fn read(alloc: Global, given: &[Vec<u8>]) -> Option<String> {
    match read_declaration(alloc, &json_at(alloc, given, 0)?) {
        Ok(_) => word(alloc, "read"),
        Err(fault) => fault_words(alloc, &fault),
    }
}

/// The declaration whose JSON stands at a place.
pub fn declaration_at(alloc: Global, given: &[Vec<u8>], place: usize) -> Option<Declaration>
    ensures { IfSome result (λ d. All IsSound d.tables) }
{
    read_declaration(alloc, &json_at(alloc, given, place)?).ok()
}

/// A declaration, the word of a part: that part of its first table, or the rules outside of tables.
fn part(alloc: Global, given: &[Vec<u8>]) -> Option<String> {
    let declaration = declaration_at(alloc, given, 0)?;
    match str_at(given, 1)? {
        "outside" => rule_words(alloc, &declaration.ignore, &declaration.retry),
        word => table_words(alloc, declaration.tables.get(0)?, word),
    }
}

fn table_words(alloc: Global, table: &TableDecl, word: &str) -> Option<String> {
    match word {
        "columns" => listed(alloc, table.columns.as_slice(), ", ", column_words),
        "functions" => listed(alloc, table.functions.as_slice(), ", ", function_words),
        "get" => get_words(alloc, table.get.as_ref()?),
        "list keys" => listed(alloc, table.list.as_ref()?.keys.as_slice(), ", ", key_words),
        "plugin" => rule_words(alloc, &table.plugin.ignore, &table.plugin.retry),
        "rule" => rule_words(alloc, &table.ignore, &table.retry),
        _ => None,
    }
}

fn column_words(alloc: Global, column: &ColumnDecl) -> Option<String> {
    let function = match &column.function {
        Some(function) => function.as_str(),
        None => "-",
    };
    let name = column.name.as_str();
    format!(in alloc;
        "{name} {:?} {function} {}",
        column.kind,
        column.field.as_str()
    )
    .ok()
}

fn key_words(alloc: Global, key: &KeyDecl) -> Option<String> {
    let column = key.column.as_str();
    let operators = key.operators.as_slice();
    format!(in alloc; "{column} {operators:?} {:?} {:?}", key.need, key.matching).ok()
}

fn patterns_words(alloc: Global, patterns: &Option<Texts>) -> Option<String> {
    match patterns {
        Some(patterns) => {
            let patterns = joined(alloc, patterns.as_slice(), " ")?;
            format!(in alloc; "[{patterns}]").ok()
        }
        None => word(alloc, "-"),
    }
}

fn retry_words(alloc: Global, retry: &Option<Retry>) -> Option<String> {
    match retry {
        Some(retry) => {
            let patterns = joined(alloc, retry.patterns.as_slice(), " ")?;
            let (attempts, backoff) = (retry.attempts, retry.backoff);
            let (interval, cap) = (retry.interval, retry.cap);
            format!(in alloc; "[{patterns}] {attempts} {backoff:?} {interval} {cap}").ok()
        }
        None => word(alloc, "-"),
    }
}

fn rule_words(alloc: Global, ignore: &Option<Texts>, retry: &Option<Retry>) -> Option<String> {
    let ignore = patterns_words(alloc, ignore)?;
    let retry = retry_words(alloc, retry)?;
    format!(in alloc; "ignore {ignore} retry {retry}").ok()
}

fn get_words(alloc: Global, get: &GetDecl) -> Option<String> {
    let keys = listed(alloc, get.keys.as_slice(), ", ", key_words)?;
    let rule = rule_words(alloc, &get.ignore, &get.retry)?;
    format!(in alloc; "{} by {keys} {rule}", get.function.as_str()).ok()
}

fn function_words(alloc: Global, function: &FunctionDecl) -> Option<String> {
    let name = function.name.as_str();
    let depends = joined(alloc, function.depends.as_slice(), " ")?;
    let tags = pairs(alloc, function.tags.as_slice())?;
    let rule = rule_words(alloc, &function.ignore, &function.retry)?;
    format!(in alloc; "{name} depends [{depends}] tags [{tags}] {rule}").ok()
}
