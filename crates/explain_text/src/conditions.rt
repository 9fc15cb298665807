// The conditions that a source's calls are sent with.

ghost use Rattle.std.specs.Prelude.{◌≡◌, [], ◌∷◌, ◌++◌, map, option_to_list, IfOk, OnOk};
ghost use Rattle.std.specs.List.{filter_map};
ghost use Rattle.answer_text.specs.Errors.{listed};
ghost use Rattle.explain_text.specs.declared.conditions.Sent.TheVariants as said;
ghost use Rattle.explain_text.specs.Conditions.{value_of, cell_of, fanned, sent_of, value_text, sent_text, conditions_text};

use crate::cells::{push_cell, push_literal};
use answer_text::{push_all, push_escaped};
use key_columns::canonical;
use source_scans::{Fan, PlanCondition, PlanOperand, PlanSource};
use sp_model::{Condition, Conditions};
use sp_value::{Memory, Text, TryCopy};
use sp_world::operator_text;
use sql_bind::BoundSource;
use sqlite_items::Items;
use std::alloc::Global;

/// What is sent: a comparison with a value, with the cell at a place of the rows of the sources before, or with each of so many values.
#[derive(Drop)]
pub(crate) enum Sent {
    Value(Condition),
    Cell { column: Text, place: u32 },
    Values { column: Text, count: usize },
}

/// A condition that compares with a value.
fn value_of(alloc: Global, condition: &PlanCondition) -> Result<Option<Condition>, Memory>
    ensures { IfOk result (λ c. c ≡ value_of condition.now) }
{
    match &condition.operand {
        PlanOperand::Literal(value) => {
            let column = condition.column.copy(alloc)?;
            let value = value.copy(alloc)?;
            Ok(Some(Condition {
                column,
                operator: condition.operator,
                value,
            }))
        }
        PlanOperand::Left(_) => Ok(None),
    }
}

fn push_value(
    alloc: Global,
    values: &mut Conditions,
    condition: &PlanCondition,
) -> Result<(), Memory>
    ensures { OnOk result (values.new ≡ values.old ++ option_to_list (value_of condition.now)) }
{
    if let Some(value) = value_of(alloc, condition)? {
        let Ok(()) = values.push(value) else {
            return Err(Memory);
        };
    }
    Ok(())
}

fn values_of(alloc: Global, conditions: &[PlanCondition]) -> Result<Conditions, Memory>
    ensures { IfOk result (λ cs. cs ≡ filter_map value_of conditions.now) }
{
    let mut values = Items::new(alloc);
    for condition in conditions {
        push_value(alloc, &mut values, condition)?;
    }
    Ok(values)
}

fn push_sent(sent: &mut Items<Sent>, one: Sent) -> Result<(), Memory>
    ensures { OnOk result (sent.new ≡ sent.old ++ one ∷ []) }
{
    match sent.push(one) {
        Ok(()) => Ok(()),
        Err(_) => Err(Memory),
    }
}

/// Adds the conditions with values, in canonical order.
fn add_values(alloc: Global, sent: &mut Items<Sent>, conditions: &[Condition]) -> Result<(), Memory>
    ensures { OnOk result (sent.new ≡ sent.old ++ map said.Value conditions.now) }
{
    for condition in conditions {
        let condition = condition.copy(alloc)?;
        push_sent(sent, Sent::Value(condition))?;
    }
    Ok(())
}

fn add_cell(alloc: Global, sent: &mut Items<Sent>, condition: &PlanCondition) -> Result<(), Memory>
    ensures { OnOk result (sent.new ≡ sent.old ++ option_to_list (cell_of condition.now)) }
{
    match &condition.operand {
        PlanOperand::Literal(_) => Ok(()),
        PlanOperand::Left(place) => {
            let column = condition.column.copy(alloc)?;
            push_sent(
                sent,
                Sent::Cell {
                    column,
                    place: *place,
                },
            )
        }
    }
}

/// Adds the conditions with cells, in the order of the text.
fn add_cells(
    alloc: Global,
    sent: &mut Items<Sent>,
    conditions: &[PlanCondition],
) -> Result<(), Memory>
    ensures { OnOk result (sent.new ≡ sent.old ++ filter_map cell_of conditions.now) }
{
    for condition in conditions {
        add_cell(alloc, sent, condition)?;
    }
    Ok(())
}

fn add_fan(alloc: Global, sent: &mut Items<Sent>, fan: &Option<Fan>) -> Result<(), Memory>
    ensures { OnOk result (sent.new ≡ sent.old ++ fanned fan.now) }
{
    match fan {
        None => Ok(()),
        Some(fan) => {
            let column = fan.column.copy(alloc)?;
            let count = fan.values.len();
            push_sent(sent, Sent::Values { column, count })
        }
    }
}

fn sent_of(alloc: Global, plan: &PlanSource) -> Result<Items<Sent>, Memory>
    ensures { IfOk result (λ all. all ≡ sent_of plan.now) }
{
    let values = values_of(alloc, plan.conditions.as_slice())?;
    let values = canonical(alloc, values.as_slice())?;
    let mut sent = Items::new(alloc);
    add_values(alloc, &mut sent, values.as_slice())?;
    add_cells(alloc, &mut sent, plan.conditions.as_slice())?;
    add_fan(alloc, &mut sent, &plan.fan)?;
    Ok(sent)
}

// ---- their words

fn push_condition(alloc: Global, text: &mut Vec<u8>, condition: &Condition) -> Result<(), Memory>
    ensures { OnOk result (text.new.items ≡ text.old.items ++ value_text condition.now) }
{
    push_escaped(text, condition.column.as_bytes())?;
    push_all(text, b" ")?;
    push_all(text, operator_text(condition.operator).as_bytes())?;
    push_all(text, b" ")?;
    push_literal(alloc, text, &condition.value)
}

fn push_count(alloc: Global, text: &mut Vec<u8>, column: &Text, count: usize) -> Result<(), Memory>
    ensures { OnOk result (text.new.items ≡ text.old.items ++ sent_text [] [] (said.Values column.now count)) }
{
    push_escaped(text, column.as_bytes())?;
    match format!(in alloc; " in {count} values") {
        Ok(words) => push_all(text, words.as_bytes()),
        Err(_) => Err(Memory),
    }
}

/// All sources of a statement, and of its plan.
#[derive(Clone, Copy)]
pub(crate) struct AllSources<'a> {
    pub(crate) bound: &'a [BoundSource],
    pub(crate) plans: &'a [PlanSource],
}

fn push_one(alloc: Global, text: &mut Vec<u8>, all: &AllSources, one: &Sent) -> Result<(), Memory>
    ensures { OnOk result (text.new.items ≡ text.old.items ++ sent_text all.now.bound.now all.now.plans.now one.now) }
{
    match one {
        Sent::Value(condition) => push_condition(alloc, text, condition),
        Sent::Cell { column, place } => {
            push_escaped(text, column.as_bytes())?;
            push_all(text, b" = ")?;
            push_cell(text, all.bound, all.plans, *place)
        }
        Sent::Values { column, count } => push_count(alloc, text, column, *count),
    }
}

fn push_each(
    alloc: Global,
    text: &mut Vec<u8>,
    all: &AllSources,
    sent: &[Sent],
) -> Result<(), Memory>
    ensures { OnOk result (text.new.items ≡ text.old.items ++ listed (map (sent_text all.now.bound.now all.now.plans.now) sent.now)) }
{
    let mut rest = sent;
    'more: while let [one, others @ ..] = rest {
        push_one(alloc, text, all, one)?;
        if !others.is_empty() {
            push_all(text, b", ")?;
        }
        rest = others;
    }
    Ok(())
}

/// Appends the conditions of a source, or that there are none.
pub(crate) fn push_conditions(
    alloc: Global,
    text: &mut Vec<u8>,
    all: &AllSources,
    plan: &PlanSource,
) -> Result<(), Memory>
    ensures { OnOk result (text.new.items ≡ text.old.items ++ conditions_text all.now.bound.now all.now.plans.now plan.now) }
{
    let sent = sent_of(alloc, plan)?;
    if sent.is_empty() {
        push_all(text, b"none")
    } else {
        push_each(alloc, text, all, sent.as_slice())
    }
}
