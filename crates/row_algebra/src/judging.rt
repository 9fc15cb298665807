// Whether a row meets a condition.

ghost use Rattle.std.specs.Prelude.{◌≡◌, map, filter};
ghost use Rattle.row_algebra.specs.RowTruth.{cell_at, value_of, opposite, opposite_if, both, either, all_of, any_of, own_truth, null_truth, in_truth, asked_truth, truth_of, is_kept};
ghost use Rattle.sp_value.specs.Truth.{truth};

use column_tests::{Operand, Question, Test};
use sp_value::{Cell, Op, Rows, Truth, compare};

/// The value in a column, counted from 0, or what is given for null past the row's end.
pub(crate) fn cell_at<'a>(row: &'a [Cell], column: u32, null: &'a Cell) -> &'a Cell
    requires { null.now ≡ Cell.Null }
    ensures { result.now ≡ cell_at row.now column }
{
    row.get(column as usize).unwrap_or(null)
}

fn value_of<'a>(row: &'a [Cell], operand: &'a Operand<u32>, null: &'a Cell) -> &'a Cell
    requires { null.now ≡ Cell.Null }
    ensures { result.now ≡ value_of row.now operand.now }
{
    match operand {
        Operand::Column(column) => cell_at(row, *column, null),
        Operand::Literal(value) => value,
    }
}

fn opposite(truth: Truth) -> Truth
    ensures { result ≡ opposite truth }
{
    match truth {
        Truth::Yes => Truth::No,
        Truth::No => Truth::Yes,
        Truth::Unknown => Truth::Unknown,
    }
}

fn opposite_if(negated: bool, truth: Truth) -> Truth
    ensures { result ≡ opposite_if negated truth }
{
    if negated { opposite(truth) } else { truth }
}

fn both(first: Truth, second: Truth) -> Truth
    ensures { result ≡ both first second }
{
    match (first, second) {
        (Truth::No, _) => Truth::No,
        (_, Truth::No) => Truth::No,
        (Truth::Unknown, _) => Truth::Unknown,
        (Truth::Yes, other) => other,
    }
}

fn either(first: Truth, second: Truth) -> Truth
    ensures { result ≡ either first second }
{
    match (first, second) {
        (Truth::Yes, _) => Truth::Yes,
        (_, Truth::Yes) => Truth::Yes,
        (Truth::Unknown, _) => Truth::Unknown,
        (Truth::No, other) => other,
    }
}

/// What an operand says that stands alone.
fn own_truth(value: &Cell) -> Truth
    ensures { result ≡ own_truth value.now }
{
    match value {
        Cell::Bool(true) => Truth::Yes,
        Cell::Bool(false) => Truth::No,
        _ => Truth::Unknown,
    }
}

fn null_truth(value: &Cell) -> Truth
    ensures { result ≡ null_truth value.now }
{
    match value {
        Cell::Null => Truth::Yes,
        _ => Truth::No,
    }
}

/// Whether a value equals one of the list.
fn in_truth(value: &Cell, list: &[Cell]) -> Truth
    ensures { result ≡ in_truth value.now list.now }
{
    let mut found = Truth::No;
    for member in list {
        found = either(found, compare(Op::Eq, value, member));
        if found == Truth::Yes {
            return Truth::Yes;
        }
    }
    found
}

fn compared(row: &[Cell], value: &Cell, op: Op, with: &Operand<u32>) -> Truth
    ensures { result ≡ truth op value.now (value_of row.now with.now) }
{
    let null = Cell::Null;
    compare(op, value, value_of(row, with, &null))
}

fn asked_truth(row: &[Cell], value: &Cell, question: &Question<u32>) -> Truth
    ensures { result ≡ asked_truth row.now value.now question.now }
{
    match question {
        Question::Truth => own_truth(value),
        Question::Compares { op, with } => compared(row, value, *op, with),
        Question::IsIn { negated, list } => opposite_if(*negated, in_truth(value, list.as_slice())),
        Question::IsNull { negated } => opposite_if(*negated, null_truth(value)),
    }
}

fn test_truth(row: &[Cell], of: &Operand<u32>, question: &Question<u32>) -> Truth
    ensures { result ≡ asked_truth row.now (value_of row.now of.now) question.now }
{
    let null = Cell::Null;
    asked_truth(row, value_of(row, of, &null), question)
}

/// The truth of a condition at a row.
#[cycle(truth)]
#[tactic(auto, using(crate::proofs::TruthLaws::laws))]
pub fn truth_of(test: &Test<u32>, row: &[Cell]) -> Truth
    ensures { result ≡ truth_of row.now test.now }
{
    match test {
        Test::Or(members) => any_of(members.as_slice(), row),
        Test::And(members) => all_of(members.as_slice(), row),
        Test::Not(inner) => opposite(truth_of(inner.get(), row)),
        Test::Asks { of, question } => test_truth(row, of, question),
    }
}

#[cycle(truth)]
fn all_of(members: &[Test<u32>], row: &[Cell]) -> Truth
    ensures { result ≡ all_of (map (truth_of row.now) members.now) }
{
    let mut found = Truth::Yes;
    for member in members {
        found = both(found, truth_of(member, row));
        if found == Truth::No {
            return Truth::No;
        }
    }
    found
}

#[cycle(truth)]
fn any_of(members: &[Test<u32>], row: &[Cell]) -> Truth
    ensures { result ≡ any_of (map (truth_of row.now) members.now) }
{
    let mut found = Truth::No;
    for member in members {
        found = either(found, truth_of(member, row));
        if found == Truth::Yes {
            return Truth::Yes;
        }
    }
    found
}

/// Whether every test is yes.
fn is_kept(tests: &[Test<u32>], row: &[Cell]) -> bool
    ensures { result ≡ is_kept tests.now row.now }
{
    tests.iter().all(|test| truth_of(test, row) == Truth::Yes)
}

/// Keeps the rows for which every test is yes, in their order. It takes no memory.
pub fn keep(rows: &mut Rows, tests: &[Test<u32>])
    ensures { rows.new ≡ filter (is_kept tests.now) rows.old }
{
    rows.retain(|row| is_kept(tests, row.as_slice()));
}
