// What conjuncts say of a source.

ghost use Rattle.std.specs.Prelude.{◌≡◌, option_map, IfOk};
ghost use Rattle.sp_value.specs.declared.truth.Op.{Op};
ghost use Rattle.statement_plan.specs.Reading.{is_null, turned, with_literal, with_left, of_columns, compared, asked_condition, condition_of, asked_list, list_of};

use crate::layout::{name_within, place_of};
use column_tests::{Operand, Question, Test};
use source_scans::{PlanCondition, PlanOperand};
use sp_value::{Cell, Cells, Memory, Op, Text, Texts, TryCopy};
use sql_bind::{BoundSource, Column};
use std::alloc::Global;

fn is_null(value: &Cell) -> bool
    ensures { result ≡ is_null value.now }
{
    matches!(value, Cell::Null)
}

fn turned(operator: Op) -> Op
    ensures { result ≡ turned operator }
{
    match operator {
        Op::Eq => Op::Eq,
        Op::Ne => Op::Ne,
        Op::Lt => Op::Gt,
        Op::Le => Op::Ge,
        Op::Gt => Op::Lt,
        Op::Ge => Op::Le,
    }
}

/// A source by its number, the sources of the statement, and the columns of their rows.
#[derive(Clone, Copy)]
pub(crate) struct Reading<'a> {
    pub sources: &'a [BoundSource],
    pub layout: &'a [Texts],
    pub source: u32,
}

fn with_literal(
    alloc: Global,
    of: &Reading,
    column: Column,
    operator: Op,
    value: &Cell,
) -> Result<Option<PlanCondition>, Memory>
    ensures { IfOk result (λ c. c ≡ with_literal of.now.sources.now of.now.layout.now of.now.source column operator value.now) }
{
    if is_null(value) {
        return Ok(None);
    }
    let Some(name) = name_within(of.sources, of.source, column) else {
        return Ok(None);
    };
    let column = name.copy(alloc)?;
    let value = value.copy(alloc)?;
    Ok(Some(PlanCondition {
        column,
        operator,
        operand: PlanOperand::Literal(value),
    }))
}

fn with_left(
    alloc: Global,
    of: &Reading,
    column: Column,
    left: Column,
) -> Result<Option<PlanCondition>, Memory>
    ensures { IfOk result (λ c. c ≡ with_left of.now.sources.now of.now.layout.now of.now.source column left) }
{
    if left.source >= of.source {
        return Ok(None);
    }
    let Some(name) = name_within(of.sources, of.source, column) else {
        return Ok(None);
    };
    let column = name.copy(alloc)?;
    let place = place_of(alloc, of.sources, of.layout, left)?;
    Ok(Some(PlanCondition {
        column,
        operator: Op::Eq,
        operand: PlanOperand::Left(place),
    }))
}

fn of_columns(
    alloc: Global,
    of: &Reading,
    operator: Op,
    column: Column,
    other: Column,
) -> Result<Option<PlanCondition>, Memory>
    ensures { IfOk result (λ c. c ≡ of_columns of.now.sources.now of.now.layout.now of.now.source operator column other) }
{
    if operator != Op::Eq {
        return Ok(None);
    }
    if let Some(condition) = with_left(alloc, of, column, other)? {
        return Ok(Some(condition));
    }
    with_left(alloc, of, other, column)
}

fn compared(
    alloc: Global,
    of: &Reading,
    first: &Operand<Column>,
    operator: Op,
    second: &Operand<Column>,
) -> Result<Option<PlanCondition>, Memory>
    ensures { IfOk result (λ c. c ≡ compared of.now.sources.now of.now.layout.now of.now.source first.now operator second.now) }
{
    match (first, second) {
        (Operand::Column(column), Operand::Column(other)) => {
            of_columns(alloc, of, operator, *column, *other)
        }
        (Operand::Column(column), Operand::Literal(value)) => {
            with_literal(alloc, of, *column, operator, value)
        }
        (Operand::Literal(value), Operand::Column(column)) => {
            with_literal(alloc, of, *column, turned(operator), value)
        }
        (Operand::Literal(_), Operand::Literal(_)) => Ok(None),
    }
}

fn asked_condition(
    alloc: Global,
    of: &Reading,
    first: &Operand<Column>,
    question: &Question<Column>,
) -> Result<Option<PlanCondition>, Memory>
    ensures { IfOk result (λ c. c ≡ asked_condition of.now.sources.now of.now.layout.now of.now.source first.now question.now) }
{
    match question {
        Question::Compares { op, with } => compared(alloc, of, first, *op, with),
        _ => Ok(None),
    }
}

/// The condition on the source that a conjunct is.
pub(crate) fn condition_of(
    alloc: Global,
    of: &Reading,
    e: &Test<Column>,
) -> Result<Option<PlanCondition>, Memory>
    ensures { IfOk result (λ c. c ≡ condition_of of.now.sources.now of.now.layout.now of.now.source e.now) }
{
    match e {
        Test::Asks {
            of: first,
            question,
        } => asked_condition(alloc, of, first, question),
        _ => Ok(None),
    }
}

fn asked_list<'a>(
    sources: &'a [BoundSource],
    source: u32,
    of: &'a Operand<Column>,
    question: &'a Question<Column>,
) -> Option<(&'a Text, &'a Cells)>
    ensures { option_map (λ p. (p.0.now, p.1.now)) result ≡ asked_list sources.now source of.now question.now }
{
    match (of, question) {
        (
            Operand::Column(column),
            Question::IsIn {
                negated: false,
                list,
            },
        ) => match name_within(sources, source, *column) {
            Some(name) => Some((name, list)),
            None => None,
        },
        _ => None,
    }
}

/// The column of the source whose values a conjunct lists, without `not`, and these values.
pub(crate) fn list_of<'a>(
    sources: &'a [BoundSource],
    source: u32,
    e: &'a Test<Column>,
) -> Option<(&'a Text, &'a Cells)>
    ensures { option_map (λ p. (p.0.now, p.1.now)) result ≡ list_of sources.now source e.now }
{
    match e {
        Test::Asks { of, question } => asked_list(sources, source, of, question),
        _ => None,
    }
}
