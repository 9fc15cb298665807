// Conditions with columns in place of names.

ghost use Rattle.std.specs.Prelude.{◌≡◌, map, IfOk, option_map};
ghost use Rattle.std.specs.Option.{option_copied};
ghost use Rattle.column_tests.specs.declared.test.Test.TheVariants as test;
ghost use Rattle.sql_bind.specs.Binding.{column_at, one_fit, fit_of, column_of, cell_of, operand_of, question_of, expr_of};

use crate::bound::Column;
use crate::fitting::{Fit, Fits, fits_of};
use crate::sources::Seen;
use column_tests::{Operand, Question, Test};
use sp_value::{Cell, Cells, Kind, Memory, TryCopy};
use sql_grammar::{Constant, Expr, Literal, Operand as Named, Predicate, Ref};
use sqlite_items::{Boxed, Items};
use std::alloc::Global;

fn one_fit(fits: Fits) -> Fit
    ensures { result ≡ one_fit fits }
{
    match fits {
        Fits::One(fit) => fit,
        _ => Fit {
            source: 0,
            column: 0,
            kind: Kind::Json,
        },
    }
}

/// The column that a ref fits.
pub(crate) fn fit_of(looked: &[Seen], of: &Ref) -> Fit
    ensures { result ≡ fit_of looked.now of.now }
{
    one_fit(fits_of(looked, of))
}

/// A column by its numbers. Numbers beyond 32 bits count as want of memory.
pub(crate) fn column_at(source: usize, column: usize) -> Result<Column, Memory>
    ensures { IfOk result (λ c. c ≡ column_at source column) }
{
    let Ok(source) = u32::try_from(source) else {
        return Err(Memory);
    };
    let Ok(column) = u32::try_from(column) else {
        return Err(Memory);
    };
    Ok(Column { source, column })
}

pub(crate) fn column_of(looked: &[Seen], of: &Ref) -> Result<Column, Memory>
    ensures { IfOk result (λ c. c ≡ column_of looked.now of.now) }
{
    let fit = fit_of(looked, of);
    column_at(fit.source, fit.column)
}

fn cell_of(alloc: Global, constant: &Constant) -> Result<Cell, Memory>
    ensures { IfOk result (λ c. c ≡ cell_of constant.now) }
{
    match constant {
        Constant::Null => Ok(Cell::Null),
        Constant::Bool(value) => Ok(Cell::Bool(*value)),
        Constant::Int(value) => Ok(Cell::Int(*value)),
        Constant::Text(value) => {
            let value = value.copy(alloc)?;
            Ok(Cell::Text(value))
        }
    }
}

fn cells_of(alloc: Global, list: &[Literal]) -> Result<Cells, Memory>
    ensures { IfOk result (λ cells. cells ≡ map (λ l. cell_of l.constant) list.now) }
{
    let mut cells = Items::new(alloc);
    for literal in list {
        let cell = cell_of(alloc, &literal.constant)?;
        let Ok(()) = cells.push(cell) else {
            return Err(Memory);
        };
    }
    Ok(cells)
}

fn operand_of(alloc: Global, looked: &[Seen], operand: &Named) -> Result<Operand<Column>, Memory>
    ensures { IfOk result (λ o. o ≡ operand_of looked.now operand.now) }
{
    match operand {
        Named::Ref(of) => {
            let column = column_of(looked, of)?;
            Ok(Operand::Column(column))
        }
        Named::Literal(literal) => {
            let cell = cell_of(alloc, &literal.constant)?;
            Ok(Operand::Literal(cell))
        }
    }
}

fn question_of(
    alloc: Global,
    looked: &[Seen],
    predicate: &Predicate,
) -> Result<Question<Column>, Memory>
    ensures { IfOk result (λ a. a ≡ question_of looked.now predicate.now) }
{
    match predicate {
        Predicate::Truth => Ok(Question::Truth),
        Predicate::Compares { op, with } => {
            let with = operand_of(alloc, looked, with)?;
            Ok(Question::Compares { op: *op, with })
        }
        Predicate::IsIn { negated, list } => {
            let list = cells_of(alloc, list.as_slice())?;
            Ok(Question::IsIn {
                negated: *negated,
                list,
            })
        }
        Predicate::IsNull { negated } => Ok(Question::IsNull { negated: *negated }),
    }
}

fn test_of(
    alloc: Global,
    looked: &[Seen],
    of: &Named,
    predicate: &Predicate,
) -> Result<Test<Column>, Memory>
    ensures { IfOk result (λ e. e ≡ test.Asks (operand_of looked.now of.now) (question_of looked.now predicate.now)) }
{
    let of = operand_of(alloc, looked, of)?;
    let question = question_of(alloc, looked, predicate)?;
    Ok(Test::Asks { of, question })
}

fn negation(alloc: Global, inner: Test<Column>) -> Result<Test<Column>, Memory>
    ensures { IfOk result (λ e. e ≡ test.Not inner) }
{
    let Ok(inner) = Boxed::new(alloc, inner) else {
        return Err(Memory);
    };
    Ok(Test::Not(inner))
}

#[cycle(bound)]
#[tactic(auto, using(crate::proofs::BoundLaws::laws))]
fn expr_of(alloc: Global, looked: &[Seen], e: &Expr) -> Result<Test<Column>, Memory>
    ensures { IfOk result (λ b. b ≡ expr_of looked.now e.now) }
{
    match e {
        Expr::Or(members) => {
            let members = exprs_of(alloc, looked, members.as_slice())?;
            Ok(Test::Or(members))
        }
        Expr::And(members) => {
            let members = exprs_of(alloc, looked, members.as_slice())?;
            Ok(Test::And(members))
        }
        Expr::Not(inner) => {
            let inner = expr_of(alloc, looked, inner.get())?;
            negation(alloc, inner)
        }
        Expr::Test { of, predicate } => test_of(alloc, looked, of, predicate),
    }
}

#[cycle(bound)]
fn exprs_of(alloc: Global, looked: &[Seen], members: &[Expr]) -> Result<Items<Test<Column>>, Memory>
    ensures { IfOk result (λ bs. bs ≡ map (expr_of looked.now) members.now) }
{
    let mut found = Items::new(alloc);
    for member in members {
        let Ok(()) = found.push(expr_of(alloc, looked, member)?) else {
            return Err(Memory);
        };
    }
    Ok(found)
}

/// A condition, where there is one, among these sources.
pub(crate) fn condition_of(
    alloc: Global,
    looked: &[Seen],
    condition: Option<&Expr>,
) -> Result<Option<Test<Column>>, Memory>
    ensures { IfOk result (λ b. b ≡ option_map (expr_of looked.now) (option_copied condition.entry)) }
{
    match condition {
        Some(e) => {
            let bound = expr_of(alloc, looked, e)?;
            Ok(Some(bound))
        }
        None => Ok(None),
    }
}
