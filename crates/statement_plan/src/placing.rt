// Conditions, order and shown columns by the places of columns in rows.

ghost use Rattle.std.specs.Prelude.{◌≡◌, map, max, IfOk};
ghost use Rattle.statement_plan.specs.Placed.{placed_operand, placed_asked, placed_test, placed_key, placed_item, last_of, last_source};

use crate::columns::push_columns;
use crate::layout::place_of;
use column_tests::{Operand, Question, Test};
use row_algebra::OrderKey;
use sp_value::{Memory, Texts, TryCopy};
use sql_bind::{BoundItem, BoundKey, BoundSource, Column};
use sqlite_items::{Boxed, Items};
use std::alloc::Global;

fn placed_operand(
    alloc: Global,
    sources: &[BoundSource],
    layout: &[Texts],
    operand: &Operand<Column>,
) -> Result<Operand<u32>, Memory>
    ensures { IfOk result (λ o. o ≡ placed_operand sources.now layout.now operand.now) }
{
    match operand {
        Operand::Column(column) => {
            let place = place_of(alloc, sources, layout, *column)?;
            Ok(Operand::Column(place))
        }
        Operand::Literal(value) => {
            let value = value.copy(alloc)?;
            Ok(Operand::Literal(value))
        }
    }
}

fn placed_asked(
    alloc: Global,
    sources: &[BoundSource],
    layout: &[Texts],
    question: &Question<Column>,
) -> Result<Question<u32>, Memory>
    ensures { IfOk result (λ a. a ≡ placed_asked sources.now layout.now question.now) }
{
    match question {
        Question::Truth => Ok(Question::Truth),
        Question::Compares { op, with } => Ok(Question::Compares {
            op: *op,
            with: placed_operand(alloc, sources, layout, with)?,
        }),
        Question::IsIn { negated, list } => Ok(Question::IsIn {
            negated: *negated,
            list: list.copy(alloc)?,
        }),
        Question::IsNull { negated } => Ok(Question::IsNull { negated: *negated }),
    }
}

#[cycle(places)]
#[tactic(auto, using(crate::proofs::PlaceLaws::laws))]
pub(crate) fn placed_test(
    alloc: Global,
    sources: &[BoundSource],
    layout: &[Texts],
    condition: &Test<Column>,
) -> Result<Test<u32>, Memory>
    ensures { IfOk result (λ t. t ≡ placed_test sources.now layout.now condition.now) }
{
    match condition {
        Test::Or(members) => {
            let tests = placed_tests(alloc, sources, layout, members.as_slice())?;
            Ok(Test::Or(tests))
        }
        Test::And(members) => {
            let tests = placed_tests(alloc, sources, layout, members.as_slice())?;
            Ok(Test::And(tests))
        }
        Test::Not(inner) => {
            let test = placed_test(alloc, sources, layout, inner.get())?;
            let Ok(test) = Boxed::new(alloc, test) else {
                return Err(Memory);
            };
            Ok(Test::Not(test))
        }
        Test::Asks { of, question } => Ok(Test::Asks {
            of: placed_operand(alloc, sources, layout, of)?,
            question: placed_asked(alloc, sources, layout, question)?,
        }),
    }
}

#[cycle(places)]
fn placed_tests(
    alloc: Global,
    sources: &[BoundSource],
    layout: &[Texts],
    members: &[Test<Column>],
) -> Result<Items<Test<u32>>, Memory>
    ensures { IfOk result (λ ts. ts ≡ map (placed_test sources.now layout.now) members.now) }
{
    let mut tests = Items::new(alloc);
    for member in members {
        let Ok(()) = tests.push(placed_test(alloc, sources, layout, member)?) else {
            return Err(Memory);
        };
    }
    Ok(tests)
}

pub(crate) fn order_of(
    alloc: Global,
    sources: &[BoundSource],
    layout: &[Texts],
    order: &[BoundKey],
) -> Result<Items<OrderKey>, Memory>
    ensures { IfOk result (λ ks. ks ≡ map (placed_key sources.now layout.now) order.now) }
{
    let mut keys = Items::new(alloc);
    for key in order {
        let column = place_of(alloc, sources, layout, key.column)?;
        let Ok(()) = keys.push(OrderKey {
            column,
            down: key.down,
        }) else {
            return Err(Memory);
        };
    }
    Ok(keys)
}

pub(crate) fn shown_of(
    alloc: Global,
    sources: &[BoundSource],
    layout: &[Texts],
    shown: &[BoundItem],
) -> Result<Items<u32>, Memory>
    ensures { IfOk result (λ ps. ps ≡ map (placed_item sources.now layout.now) shown.now) }
{
    let mut places = Items::new(alloc);
    for item in shown {
        let place = place_of(alloc, sources, layout, item.column)?;
        let Ok(()) = places.push(place) else {
            return Err(Memory);
        };
    }
    Ok(places)
}

fn greater(left: u32, right: u32) -> u32
    ensures { result ≡ max left right }
{
    if left < right { right } else { left }
}

fn last_of(columns: &[Column]) -> u32
    ensures { result ≡ last_of columns.now }
{
    let mut last: u32 = 0;
    for column in columns {
        last = greater(last, column.source);
    }
    last
}

/// The source whose rows a conjunct waits for: the greatest that it names, the first where it names none.
pub(crate) fn last_source(alloc: Global, e: &Test<Column>) -> Result<u32, Memory>
    ensures { IfOk result (λ n. n ≡ last_source e.now) }
{
    let mut columns = Items::new(alloc);
    push_columns(&mut columns, e)?;
    Ok(last_of(columns.as_slice()))
}
