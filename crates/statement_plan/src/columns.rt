// The columns that a statement names.

ghost use Rattle.std.specs.Prelude.{◌≡◌, [], ◌∷◌, ◌++◌, map, IfOk, OnOk};
ghost use Rattle.std.specs.List.{flat_map};
ghost use Rattle.statement_plan.specs.Columns.{operand_columns, asked_columns, columns_of, columns_in, named};

use column_tests::{Operand, Question, Test};
use sp_value::Memory;
use sql_bind::{Bound, BoundItem, BoundKey, BoundSource, Column};
use sqlite_items::Items;
use std::alloc::Global;

fn push(columns: &mut Items<Column>, column: Column) -> Result<(), Memory>
    ensures { OnOk result (columns.new ≡ columns.old ++ column ∷ []) }
{
    let Ok(()) = columns.push(column) else {
        return Err(Memory);
    };
    Ok(())
}

fn push_operand(columns: &mut Items<Column>, operand: &Operand<Column>) -> Result<(), Memory>
    ensures { OnOk result (columns.new ≡ columns.old ++ operand_columns operand.now) }
{
    match operand {
        Operand::Column(column) => push(columns, *column),
        Operand::Literal(_) => Ok(()),
    }
}

fn push_asked(columns: &mut Items<Column>, question: &Question<Column>) -> Result<(), Memory>
    ensures { OnOk result (columns.new ≡ columns.old ++ asked_columns question.now) }
{
    match question {
        Question::Compares { op: _, with } => push_operand(columns, with),
        _ => Ok(()),
    }
}

#[cycle(reads)]
#[tactic(auto, using(crate::proofs::ReadLaws::laws))]
pub(crate) fn push_columns(
    columns: &mut Items<Column>,
    condition: &Test<Column>,
) -> Result<(), Memory>
    ensures { OnOk result (columns.new ≡ columns.old ++ columns_of condition.now) }
{
    match condition {
        Test::Or(members) => push_all(columns, members.as_slice()),
        Test::And(members) => push_all(columns, members.as_slice()),
        Test::Not(inner) => push_columns(columns, inner.get()),
        Test::Asks { of, question } => {
            push_operand(columns, of)?;
            push_asked(columns, question)
        }
    }
}

#[cycle(reads)]
fn push_all(columns: &mut Items<Column>, members: &[Test<Column>]) -> Result<(), Memory>
    ensures { OnOk result (columns.new ≡ columns.old ++ flat_map (λ cs. cs) (map columns_of members.now)) }
{
    for member in members {
        push_columns(columns, member)?;
    }
    Ok(())
}

fn push_some(columns: &mut Items<Column>, condition: &Option<Test<Column>>) -> Result<(), Memory>
    ensures { OnOk result (columns.new ≡ columns.old ++ columns_in condition.now) }
{
    match condition {
        Some(condition) => push_columns(columns, condition),
        None => Ok(()),
    }
}

fn push_sources(columns: &mut Items<Column>, sources: &[BoundSource]) -> Result<(), Memory>
    ensures { OnOk result (columns.new ≡ columns.old ++ flat_map (λ s. columns_in s.on) sources.now) }
{
    for source in sources {
        push_some(columns, &source.on)?;
    }
    Ok(())
}

fn push_shown(columns: &mut Items<Column>, shown: &[BoundItem]) -> Result<(), Memory>
    ensures { OnOk result (columns.new ≡ columns.old ++ map (λ i. i.column) shown.now) }
{
    for item in shown {
        push(columns, item.column)?;
    }
    Ok(())
}

fn push_order(columns: &mut Items<Column>, order: &[BoundKey]) -> Result<(), Memory>
    ensures { OnOk result (columns.new ≡ columns.old ++ map (λ k. k.column) order.now) }
{
    for key in order {
        push(columns, key.column)?;
    }
    Ok(())
}

/// The columns that a statement names: those that are shown, those that every `on` and `where` read, and those of the order.
pub(crate) fn named(alloc: Global, bound: &Bound) -> Result<Items<Column>, Memory>
    ensures { IfOk result (λ columns. columns ≡ named bound.now) }
{
    let mut columns = Items::new(alloc);
    push_shown(&mut columns, bound.shown.as_slice())?;
    push_sources(&mut columns, bound.sources.as_slice())?;
    push_some(&mut columns, &bound.test)?;
    push_order(&mut columns, bound.order.as_slice())?;
    Ok(columns)
}
