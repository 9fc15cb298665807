//! What comes of the calls of `sp_value`.

use crate::given::{cell_at, cells_at, json_at, text_at};
use crate::words::{spelled, spelled_rows};
use case_tables::{push_word, str_at, word};
use sp_value::{
    Cell, Cells, Kind, Kinds, Members, Op, Pattern, Rows, Text, Texts, Truth, TryCopy, compare,
    fits_some, fits_text, from_json, same_cell,
};
use sqlite_items::Items;
use std::alloc::Global;
use std::cmp::Ordering;

pub fn outcome(alloc: Global, call: &str, given: &[Vec<u8>]) -> Option<String> {
    match call {
        "compare" => compared(alloc, given),
        "fits" => fitted(alloc, given),
        "fits_some" => fitted_by_some(alloc, given),
        "fits_text" => fitted_by_text(alloc, given),
        "from_json" => read(alloc, given),
        "get" => member(alloc, given),
        "kinds" => kinds(alloc),
        "names" => names(alloc, given),
        "op" => copied_op(alloc, given),
        "put_under" => put(alloc, given),
        "same_cell" => same(alloc, given),
        "sort" => sorted(alloc, given),
        "spell" => read_and_spelled(alloc, given),
        "texts" => rising(alloc, given),
        _ => None,
    }
}

fn op(word: &str) -> Option<Op> {
    match word {
        "=" => Some(Op::Eq),
        "<>" => Some(Op::Ne),
        "<" => Some(Op::Lt),
        "<=" => Some(Op::Le),
        ">" => Some(Op::Gt),
        ">=" => Some(Op::Ge),
        _ => None,
    }
}

/// Left, comparison, right.
fn compared(alloc: Global, given: &[Vec<u8>]) -> Option<String> {
    let left = cell_at(alloc, given, 0)?;
    let right = cell_at(alloc, given, 2)?;
    let truth = compare(op(str_at(given, 1)?)?, &left, &right);
    format!(in alloc; "{truth:?}").ok()
}

/// Comparison, copied where there is one.
fn copied_op(alloc: Global, given: &[Vec<u8>]) -> Option<String> {
    let op = op(str_at(given, 0)?).copy(alloc).ok()?;
    format!(in alloc; "{op:?}").ok()
}

fn pattern(alloc: Global, text: &str) -> Option<Pattern> {
    Pattern::read(alloc, text).ok()?.copy(alloc).ok()
}

/// Pattern, text.
fn fitted(alloc: Global, given: &[Vec<u8>]) -> Option<String> {
    let fits = pattern(alloc, str_at(given, 0)?)?.fits(&text_at(alloc, given, 1)?);
    format!(in alloc; "{fits}").ok()
}

/// Text of a pattern, text.
fn fitted_by_text(alloc: Global, given: &[Vec<u8>]) -> Option<String> {
    let fits = fits_text(&text_at(alloc, given, 0)?, &text_at(alloc, given, 1)?);
    format!(in alloc; "{fits}").ok()
}

/// Patterns with bars between, text.
fn fitted_by_some(alloc: Global, given: &[Vec<u8>]) -> Option<String> {
    let mut patterns = Items::new(alloc);
    for word in str_at(given, 0)?.split_terminator("|") {
        patterns.push(pattern(alloc, word)?).ok()?;
    }
    let fits = fits_some(patterns.as_slice(), &text_at(alloc, given, 1)?);
    format!(in alloc; "{fits}").ok()
}

/// JSON: whether it is read.
fn read(alloc: Global, given: &[Vec<u8>]) -> Option<String> {
    match from_json(alloc, &json_at(alloc, given, 0)?) {
        Ok(_) => word(alloc, "read"),
        Err(fault) => format!(in alloc; "{fault:?}").ok(),
    }
}

/// JSON, read, copied and spelled again.
fn read_and_spelled(alloc: Global, given: &[Vec<u8>]) -> Option<String> {
    spelled(alloc, &cell_at(alloc, given, 0)?.copy(alloc).ok()?)
}

fn members_at(alloc: Global, given: &[Vec<u8>], place: usize) -> Option<Members> {
    match cell_at(alloc, given, place)? {
        Cell::Object(members) => members.copy(alloc).ok(),
        _ => None,
    }
}

/// Object, name: the value under the name.
fn member(alloc: Global, given: &[Vec<u8>]) -> Option<String> {
    match members_at(alloc, given, 0)?.get(str_at(given, 1)?) {
        Some(cell) => spelled(alloc, cell),
        None => word(alloc, "none"),
    }
}

/// Object, name, value: the object with the value under the name.
fn put(alloc: Global, given: &[Vec<u8>]) -> Option<String> {
    let members = members_at(alloc, given, 0)?;
    let value = cell_at(alloc, given, 2)?;
    let put = members.put_under(alloc, &text_at(alloc, given, 1)?, &value);
    spelled(alloc, &Cell::Object(put.ok()?))
}

/// Two values: whether they are the same.
fn same(alloc: Global, given: &[Vec<u8>]) -> Option<String> {
    let same = same_cell(&cell_at(alloc, given, 0)?, &cell_at(alloc, given, 1)?);
    format!(in alloc; "{same}").ok()
}

/// Object: how many members it has, and their names.
fn names(alloc: Global, given: &[Vec<u8>]) -> Option<String> {
    let members = members_at(alloc, given, 0)?;
    let mut words = format!(in alloc; "{}", members.len()).ok()?;
    for name in members.names() {
        push_word(&mut words, " ", name.as_str())?;
    }
    Some(words)
}

/// Texts with bars between: whether their copies are the same and rise.
fn rising(alloc: Global, given: &[Vec<u8>]) -> Option<String> {
    let mut texts = Texts::new(alloc);
    for word in str_at(given, 0)?.split("|") {
        texts.push(Text::from_str(alloc, word).ok()?).ok()?;
    }
    let copies = texts.copy(alloc).ok()?;
    let rise = copies.as_slice() == texts.as_slice() && copies.as_slice().is_sorted();
    format!(in alloc; "{rise}").ok()
}

/// A list of kinds, copied.
fn kinds(alloc: Global) -> Option<String> {
    let kinds = Kinds::from_slice(alloc, &[Kind::Int, Kind::Json]).ok()?;
    format!(in alloc; "{:?}", kinds.copy(alloc).ok()?.as_slice()).ok()
}

/// Whether the first value of a row is less, or greater, than that of another.
fn by_first(left: &Cells, right: &Cells) -> Ordering {
    let (Some(first), Some(second)) = (left.as_slice().first(), right.as_slice().first()) else {
        return Ordering::Equal;
    };
    if compare(Op::Lt, first, second) == Truth::Yes {
        Ordering::Less
    } else if compare(Op::Gt, first, second) == Truth::Yes {
        Ordering::Greater
    } else {
        Ordering::Equal
    }
}

fn row_of(alloc: Global, cell: &Cell) -> Option<Cells> {
    match cell {
        Cell::List(cells) => cells.copy(alloc).ok(),
        _ => None,
    }
}

/// The rows whose JSON stands at a place.
pub fn rows_at(alloc: Global, given: &[Vec<u8>], place: usize) -> Option<Rows> {
    let mut rows = Rows::new(alloc);
    for cell in cells_at(alloc, given, place)?.as_slice() {
        rows.push(row_of(alloc, cell)?).ok()?;
    }
    rows.copy(alloc).ok()
}

/// Rows, sorted by their first values.
fn sorted(alloc: Global, given: &[Vec<u8>]) -> Option<String> {
    let mut rows = rows_at(alloc, given, 0)?;
    rows.sort_by(by_first).ok()?;
    spelled_rows(alloc, rows.as_slice())
}
