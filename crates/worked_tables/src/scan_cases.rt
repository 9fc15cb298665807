//! What comes of the calls of `source_scans`: the scans that a source of a planned statement asks for.

ghost use Rattle.std.specs.Prelude.{All, IfSome};
ghost use Rattle.source_scans.specs.Planned.{IsPlanned};

use crate::explain_cases::catalog_at;
use crate::given::text_at;
use crate::value_cases::rows_at;
use crate::words::spelled;
use case_tables::{listed, str_at, word};
use source_scans::{PlanSource, Scans};
use sp_model::{Condition, ScanRequest};
use sp_value::{Cell, Cells, Rows, Text};
use sp_world::operator_text;
use sql_bind::{Bound, bind};
use sql_parser::parse;
use sqlite_items::Items;
use statement_plan::Plan;
use std::alloc::Global;

pub fn outcome(alloc: Global, call: &str, given: &[Vec<u8>]) -> Option<String> {
    match call {
        "next_scans" => next(alloc, given),
        "counts" => counts(alloc, given),
        _ => None,
    }
}

fn planned(alloc: Global, bound: &Bound) -> Option<Plan>
    ensures { IfSome result (λ p. All IsPlanned p.sources) }
{
    match Plan::of(alloc, bound) {
        Ok(plan) => Some(plan),
        Err(_) => None,
    }
}

/// Settings, a declaration, a statement: its plan.
fn plan_at(alloc: Global, given: &[Vec<u8>]) -> Option<Plan>
    ensures { IfSome result (λ p. All IsPlanned p.sources) }
{
    let catalog = catalog_at(alloc, given)?;
    let text = text_at(alloc, given, 2)?;
    let statement = parse(alloc, text.as_str()).ok()?;
    let bound = bind(alloc, &statement, &catalog).ok()?;
    planned(alloc, &bound)
}

/// The number of a source, from 1: what its plan is.
fn source_at<'a>(plan: &'a Plan, given: &[Vec<u8>]) -> Option<&'a PlanSource>
    requires { All IsPlanned plan.now.sources }
    ensures { IfSome result (λ s. IsPlanned s.now) }
{
    let number = str_at(given, 3)?.parse::<usize>().ok()?;
    plan.sources.get(number.checked_sub(1)?)
}

fn condition_words(alloc: Global, condition: &Condition) -> Option<String> {
    let value = spelled(alloc, &condition.value)?;
    let operator = operator_text(condition.operator);
    format!(in alloc;
        "{} {operator} {}",
        condition.column.as_str(),
        value.as_str()
    )
    .ok()
}

/// Connection, conditions.
fn request_words(alloc: Global, request: &ScanRequest) -> Option<String> {
    let mut words = String::from_str(alloc, request.connection.as_str()).ok()?;
    for condition in request.conditions.as_slice() {
        let more = condition_words(alloc, condition)?;
        words.push_str(" ").ok()?;
        words.push_str(more.as_str()).ok()?;
    }
    Some(words)
}

fn number_word(alloc: Global, number: &u32) -> Option<String> {
    format!(in alloc; "{number}").ok()
}

/// The places of a left row; `-` where it has none.
fn pick_words(alloc: Global, places: &Items<u32>) -> Option<String> {
    if places.is_empty() {
        return word(alloc, "-");
    }
    listed(alloc, places.as_slice(), " ", number_word)
}

fn scans_words(alloc: Global, scans: &Scans) -> Option<String> {
    let requests = listed(alloc, scans.requests.as_slice(), ", ", request_words)?;
    let picks = listed(alloc, scans.picks.as_slice(), ", ", pick_words)?;
    format!(in alloc; "{}; {}", requests.as_str(), picks.as_str()).ok()
}

/// Settings, a declaration, a statement, the number of a source, left rows: its requests, and for each left row the places of its own.
fn next(alloc: Global, given: &[Vec<u8>]) -> Option<String> {
    let plan = plan_at(alloc, given)?;
    let source = source_at(&plan, given)?;
    let left = rows_at(alloc, given, 4)?;
    scans_words(alloc, &source.next_scans(alloc, &left).ok()?)
}

fn one_cell(alloc: Global, key: u32) -> Option<Cells> {
    let text = format!(in alloc; "key {key}").ok()?;
    let mut cells = Items::new(alloc);
    cells
        .push(Cell::Text(Text::from_str(alloc, text.as_str()).ok()?))
        .ok()?;
    Some(cells)
}

/// So many rows of one cell, with so many values by turns.
fn rows_of(alloc: Global, count: u32, keys: u32) -> Option<Rows> {
    let mut rows = Rows::new(alloc);
    for number in 0..count {
        rows.push(one_cell(alloc, number.checked_rem(keys)?)?).ok()?;
    }
    Some(rows)
}

/// Settings, a declaration, a statement, the number of a source, so many left rows with so many values: how many requests there are.
fn counts(alloc: Global, given: &[Vec<u8>]) -> Option<String> {
    let plan = plan_at(alloc, given)?;
    let source = source_at(&plan, given)?;
    let count = str_at(given, 4)?.parse::<u32>().ok()?;
    let keys = str_at(given, 5)?.parse::<u32>().ok()?;
    let left = rows_of(alloc, count, keys)?;
    let scans = source.next_scans(alloc, &left).ok()?;
    format!(in alloc; "{} requests", scans.requests.len()).ok()
}
