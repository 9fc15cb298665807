//! What comes of the calls of `hydrate_graph`.

use crate::tables::{cell_of, number_at, spelled, table_at, texts_of};
use case_tables::{push_word, str_at, word};
use hydrate_graph::{CauseRef, ReadyList, RowEnd, RowGraph, RowPlan};
use sp_model::{Cause, Outcome};
use sp_value::{Cell, Text, TryCopy};
use std::alloc::Global;
use std::sync::Arc;

pub fn outcome(alloc: Global, call: &str, given: &[Vec<u8>]) -> Option<String> {
    match call {
        "row" => row(alloc, given),
        "rows" => rows(alloc, given),
        _ => None,
    }
}

#[tactic(auto, using(crate::proofs::Rows::few_functions, crate::proofs::Rows::columns_rest))]
fn plan_at(alloc: Global, given: &[Vec<u8>]) -> Option<Arc<RowPlan>> {
    let table = table_at(alloc, given, 0)?;
    let columns = texts_of(alloc, str_at(given, 1)?)?;
    Arc::new(alloc, RowPlan::of(alloc, &table, &columns).ok()?).ok()
}

/// A declaration, columns of its table, an item, and steps that settle functions: `NAME gives VALUE` and `NAME fails TEXT`. What comes is
/// which functions are ready at first and after each step, and how the row ends.
fn row(alloc: Global, given: &[Vec<u8>]) -> Option<String> {
    let plan = plan_at(alloc, given)?;
    let item = cell_of(alloc, str_at(given, 2)?)?;
    let mut graph = RowGraph::begin(alloc, &plan, item).ok()?;
    let mut words = ready_words(alloc, &graph)?;
    for text in str_at(given, 3)?.split("; ") {
        let came = step(alloc, &mut graph, text)?;
        push_word(&mut words, "; ", came.as_str())?;
    }
    let end = end_words(alloc, &graph)?;
    push_word(&mut words, "; ", end.as_str())?;
    Some(words)
}

/// The names of the functions that are ready.
fn ready_words(alloc: Global, graph: &RowGraph) -> Option<String> {
    let mut ready = ReadyList::new();
    graph.ready(&mut ready);
    let mut words = String::new(alloc);
    for number in ready.as_slice() {
        let function = graph.plan().functions().get(*number as usize)?;
        push_word(&mut words, " ", function.name.as_str())?;
    }
    if words.is_empty() {
        return word(alloc, "none");
    }
    Some(words)
}

fn number_of(graph: &RowGraph, name: &str) -> Option<u32> {
    let functions = graph.plan().functions();
    u32::try_from(functions.iter().position(|f| f.name.as_str() == name)?).ok()
}

fn step(alloc: Global, graph: &mut RowGraph, text: &str) -> Option<String> {
    let (name, how) = text.split_once(" ")?;
    let number = number_of(graph, name)?;
    match graph.settle(number, outcome_of(alloc, name, how)?) {
        Ok(()) => ready_words(alloc, graph),
        Err(_) => word(alloc, "refused"),
    }
}

fn outcome_of(alloc: Global, name: &str, how: &str) -> Option<Outcome> {
    match how.split_once(" ")? {
        ("gives", value) => Some(Outcome::Gave(cell_of(alloc, value)?)),
        (_, text) => Some(Outcome::Fails(Cause::Error {
            function: Text::from_str(alloc, name).ok()?,
            attempt: 1,
            text: Text::from_str(alloc, text).ok()?,
        })),
    }
}

fn end_words(alloc: Global, graph: &RowGraph) -> Option<String> {
    match graph.finished() {
        None => word(alloc, "waits"),
        Some(RowEnd::Whole) => {
            let cells = graph.row(alloc).ok()?;
            spelled(alloc, &Cell::List(cells))
        }
        Some(RowEnd::Fails { column }) => {
            let column = graph.plan().columns().get(column as usize)?;
            fault_words(alloc, column.name.as_str(), graph.cause())
        }
    }
}

fn fault_words(alloc: Global, column: &str, cause: CauseRef) -> Option<String> {
    match cause {
        CauseRef::OfFunction(Cause::Error { function, text, .. }) => {
            format!(in alloc; "{column}: {} {}", function.as_str(), text.as_str()).ok()
        }
        CauseRef::BadValue(value) => {
            let value = spelled(alloc, value)?;
            format!(in alloc; "{column}: bad value {value}").ok()
        }
        _ => None,
    }
}

/// A declaration, columns of its table, an item, what its functions give, and a number of rows that are held at once: how many are whole.
fn rows(alloc: Global, given: &[Vec<u8>]) -> Option<String> {
    let plan = plan_at(alloc, given)?;
    let item = cell_of(alloc, str_at(given, 2)?)?;
    let value = cell_of(alloc, str_at(given, 3)?)?;
    let mut graphs = Vec::new(alloc);
    for _ in 0..number_at(given, 4)? {
        let graph = RowGraph::begin(alloc, &plan, item.copy(alloc).ok()?).ok()?;
        graphs.push(settled(alloc, graph, &value)?).ok()?;
    }
    let count = graphs.iter().filter(|g| is_whole(alloc, g)).count();
    format!(in alloc; "{count}").ok()
}

/// Settles each function that is ready with the value, until none is.
fn settled(alloc: Global, mut graph: RowGraph, value: &Cell) -> Option<RowGraph> {
    let mut ready = ReadyList::new();
    for _ in 0..64 {
        graph.ready(&mut ready);
        let Some(number) = ready.as_slice().first().copied() else {
            break;
        };
        let outcome = Outcome::Gave(value.copy(alloc).ok()?);
        graph.settle(number, outcome).ok()?;
    }
    Some(graph)
}

fn is_whole(alloc: Global, graph: &RowGraph) -> bool {
    match graph.finished() {
        Some(RowEnd::Whole) => graph.row(alloc).is_ok(),
        _ => false,
    }
}
