// The conjuncts of a statement.

ghost use Rattle.std.specs.Prelude.{◌≡◌, [], ◌∷◌, ◌++◌, map, IfOk, OnOk};
ghost use Rattle.std.specs.List.{flat_map};
ghost use Rattle.statement_plan.specs.Conjuncts.{conjuncts, conjuncts_in, conjuncts_of};

use column_tests::Test;
use sp_value::Memory;
use sql_bind::{Bound, BoundSource, Column};
use std::alloc::Global;

fn push<'a>(found: &mut Vec<&'a Test<Column>>, e: &'a Test<Column>) -> Result<(), Memory>
    ensures { OnOk result (map (λ e. e.now) found.new.items ≡ map (λ e. e.now) found.old.items ++ e.now ∷ []) }
{
    found.push(e)?;
    Ok(())
}

#[cycle(conjuncts)]
#[tactic(auto, using(crate::proofs::ConjunctLaws::laws))]
fn push_conjuncts<'a>(found: &mut Vec<&'a Test<Column>>, e: &'a Test<Column>) -> Result<(), Memory>
    ensures { OnOk result (map (λ e. e.now) found.new.items ≡ map (λ e. e.now) found.old.items ++ conjuncts e.now) }
{
    match e {
        Test::And(members) => push_members(found, members.as_slice()),
        Test::Or(_) | Test::Not(_) | Test::Asks { .. } => push(found, e),
    }
}

#[cycle(conjuncts)]
fn push_members<'a>(
    found: &mut Vec<&'a Test<Column>>,
    members: &'a [Test<Column>],
) -> Result<(), Memory>
    ensures { OnOk result (map (λ e. e.now) found.new.items ≡ map (λ e. e.now) found.old.items ++ flat_map conjuncts members.now) }
{
    for member in members {
        push_conjuncts(found, member)?;
    }
    Ok(())
}

fn push_some<'a>(
    found: &mut Vec<&'a Test<Column>>,
    e: &'a Option<Test<Column>>,
) -> Result<(), Memory>
    ensures { OnOk result (map (λ e. e.now) found.new.items ≡ map (λ e. e.now) found.old.items ++ conjuncts_in e.now) }
{
    match e {
        Some(e) => push_conjuncts(found, e),
        None => Ok(()),
    }
}

fn push_sources<'a>(
    found: &mut Vec<&'a Test<Column>>,
    sources: &'a [BoundSource],
) -> Result<(), Memory>
    ensures { OnOk result (map (λ e. e.now) found.new.items ≡ map (λ e. e.now) found.old.items ++ flat_map (λ s. conjuncts_in s.on) sources.now) }
{
    for source in sources {
        push_some(found, &source.on)?;
    }
    Ok(())
}

/// The conjuncts of every `on`, and then of `where`.
pub(crate) fn conjuncts_of<'a>(
    alloc: Global,
    bound: &'a Bound,
) -> Result<Vec<&'a Test<Column>>, Memory>
    ensures { IfOk result (λ es. map (λ e. e.now) es.items ≡ conjuncts_of bound.now) }
{
    let mut found = Vec::new(alloc);
    push_sources(&mut found, bound.sources.as_slice())?;
    push_some(&mut found, &bound.test)?;
    Ok(found)
}
