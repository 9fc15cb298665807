//! What comes of the calls of `row_algebra`. The columns of a condition are `id`, the first, and `name`, the second.

use crate::sql_cases::statement_at;
use crate::value_cases::rows_at;
use crate::words::spelled_rows;
use case_tables::str_at;
use column_tests::{Operand, Question, Test};
use row_algebra::{OrderKey, keep, limit_rows, order_rows, project};
use sp_value::{Cell, Cells, TryCopy};
use sql_parser::{Constant, Expr, Literal, Operand as Named, Predicate};
use sqlite_items::{Boxed, Items};
use std::alloc::Global;

pub fn outcome(alloc: Global, call: &str, given: &[Vec<u8>]) -> Option<String> {
    match call {
        "keep" => kept(alloc, given),
        "limit_rows" => cut(alloc, given),
        "order_rows" => ordered(alloc, given),
        "project" => shown(alloc, given),
        _ => None,
    }
}

fn value(alloc: Global, literal: &Literal) -> Option<Cell> {
    match &literal.constant {
        Constant::Null => Some(Cell::Null),
        Constant::Bool(value) => Some(Cell::Bool(*value)),
        Constant::Int(value) => Some(Cell::Int(*value)),
        Constant::Text(text) => Some(Cell::Text(text.copy(alloc).ok()?)),
    }
}

fn column(name: &str) -> Option<u32> {
    match name {
        "id" => Some(0),
        "name" => Some(1),
        _ => None,
    }
}

fn operand(alloc: Global, operand: &Named) -> Option<Operand<u32>> {
    match operand {
        Named::Ref(of) => Some(Operand::Column(column(of.column.text.as_str())?)),
        Named::Literal(literal) => Some(Operand::Literal(value(alloc, literal)?)),
    }
}

fn values(alloc: Global, literals: &[Literal]) -> Option<Cells> {
    let mut values = Cells::new(alloc);
    for literal in literals {
        values.push(value(alloc, literal)?).ok()?;
    }
    Some(values)
}

fn question(alloc: Global, predicate: &Predicate) -> Option<Question<u32>> {
    match predicate {
        Predicate::Truth => Some(Question::Truth),
        Predicate::Compares { op, with } => Some(Question::Compares {
            op: *op,
            with: operand(alloc, with)?,
        }),
        Predicate::IsIn { negated, list } => Some(Question::IsIn {
            negated: *negated,
            list: values(alloc, list.as_slice())?,
        }),
        Predicate::IsNull { negated } => Some(Question::IsNull { negated: *negated }),
    }
}

#[cycle(tests)]
fn test(alloc: Global, condition: &Expr) -> Option<Test<u32>> {
    match condition {
        Expr::Or(members) => Some(Test::Or(tests(alloc, members.as_slice())?)),
        Expr::And(members) => Some(Test::And(tests(alloc, members.as_slice())?)),
        Expr::Not(inner) => Some(Test::Not(Boxed::new(alloc, test(alloc, inner.get())?).ok()?)),
        Expr::Test { of, predicate } => Some(Test::Asks {
            of: operand(alloc, of)?,
            question: question(alloc, predicate)?,
        }),
    }
}

#[cycle(tests)]
fn tests(alloc: Global, members: &[Expr]) -> Option<Items<Test<u32>>> {
    let mut tests = Items::new(alloc);
    for member in members {
        tests.push(test(alloc, member)?).ok()?;
    }
    Some(tests)
}

/// The condition of the statement at a place.
fn condition_at(alloc: Global, given: &[Vec<u8>], place: usize) -> Option<Items<Test<u32>>> {
    let statement = statement_at(alloc, given, place)?;
    let mut tests = Items::new(alloc);
    tests.push(test(alloc, statement.test.as_ref()?)?).ok()?;
    Some(tests)
}

/// Rows, a statement: the rows that meet its condition.
fn kept(alloc: Global, given: &[Vec<u8>]) -> Option<String> {
    let mut rows = rows_at(alloc, given, 0)?;
    let tests = condition_at(alloc, given, 1)?;
    keep(&mut rows, tests.as_slice());
    spelled_rows(alloc, rows.as_slice())
}

fn key(word: &str) -> Option<OrderKey> {
    let (word, down) = match word.strip_suffix(" desc") {
        Some(word) => (word, true),
        None => (word, false),
    };
    let column = column(word)?;
    Some(OrderKey { column, down })
}

fn keys(alloc: Global, words: &str) -> Option<Vec<OrderKey>> {
    let mut keys = Vec::new(alloc);
    for word in words.split_terminator(", ") {
        keys.push(key(word)?).ok()?;
    }
    Some(keys)
}

/// Rows, keys of the order: the rows in that order.
fn ordered(alloc: Global, given: &[Vec<u8>]) -> Option<String> {
    let mut rows = rows_at(alloc, given, 0)?;
    let keys = keys(alloc, str_at(given, 1)?)?;
    order_rows(&mut rows, keys.as_slice()).ok()?;
    spelled_rows(alloc, rows.as_slice())
}

/// Rows, a number: the first rows.
fn cut(alloc: Global, given: &[Vec<u8>]) -> Option<String> {
    let mut rows = rows_at(alloc, given, 0)?;
    limit_rows(&mut rows, str_at(given, 1)?.parse::<u64>().ok()?);
    spelled_rows(alloc, rows.as_slice())
}

fn numbers(alloc: Global, words: &str) -> Option<Vec<u32>> {
    let mut numbers = Vec::new(alloc);
    for word in words.split(", ") {
        numbers.push(word.parse::<u32>().ok()?).ok()?;
    }
    Some(numbers)
}

/// Rows, numbers of columns: the rows with these columns.
fn shown(alloc: Global, given: &[Vec<u8>]) -> Option<String> {
    let rows = rows_at(alloc, given, 0)?;
    let columns = numbers(alloc, str_at(given, 1)?)?;
    let shown = project(alloc, rows, columns.as_slice()).ok()?;
    spelled_rows(alloc, shown.as_slice())
}
