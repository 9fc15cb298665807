// The lines of a plan.

ghost use Rattle.std.specs.Prelude.{◌≡◌, ◌++◌, codes, map, All, IfOk, OnOk};
ghost use Rattle.std.specs.Arc.{arc_value};
ghost use Rattle.std.specs.Fmt.{decimal};
ghost use Rattle.explain_text.specs.Words.{names_text};
ghost use Rattle.explain_text.specs.Conditions.{conditions_text};
ghost use Rattle.explain_text.specs.Functions.{functions_for, CanHydrate};
ghost use Rattle.explain_text.specs.Lines.{head_text, limit_word, part_text, line_of, lines_from};

use crate::conditions::{AllSources, push_conditions};
use crate::functions::functions_of;
use crate::listing::{push_dotted, push_names};
use answer_text::{access_word, push_all};
use source_scans::PlanSource;
use sp_model::Access;
use sp_value::Memory;
use sql_bind::BoundSource;
use std::alloc::Global;

fn push_number(alloc: Global, text: &mut Vec<u8>, number: usize) -> Result<(), Memory>
    ensures { OnOk result (text.new.items ≡ text.old.items ++ (codes "scan " ++ (decimal number ++ codes ": "))) }
{
    match format!(in alloc; "scan {number}: ") {
        Ok(words) => push_all(text, words.as_bytes()),
        Err(_) => Err(Memory),
    }
}

fn push_head(
    alloc: Global,
    text: &mut Vec<u8>,
    number: usize,
    source: &BoundSource,
    access: Access,
) -> Result<(), Memory>
    ensures { OnOk result (text.new.items ≡ text.old.items ++ head_text number source.now access) }
{
    push_number(alloc, text, number)?;
    push_dotted(text, &source.connection, &source.table.name)?;
    push_all(text, b" ")?;
    push_all(text, access_word(access).as_bytes())
}

fn push_limit(alloc: Global, text: &mut Vec<u8>, limit: Option<u64>) -> Result<(), Memory>
    ensures { OnOk result (text.new.items ≡ text.old.items ++ part_text (codes " limit ") (limit_word limit)) }
{
    push_all(text, b" limit ")?;
    let Some(limit) = limit else {
        return push_all(text, b"none");
    };
    match format!(in alloc; "{limit}") {
        Ok(digits) => push_all(text, digits.as_bytes()),
        Err(_) => Err(Memory),
    }
}

fn push_functions(alloc: Global, text: &mut Vec<u8>, plan: &PlanSource) -> Result<(), Memory>
    requires { CanHydrate (arc_value plan.now.table) }
    ensures { OnOk result (text.new.items ≡ text.old.items ++ part_text (codes " functions ") (names_text (functions_for plan.now))) }
{
    let names = functions_of(alloc, &plan.table, &plan.columns)?;
    push_all(text, b" functions ")?;
    push_names(text, names.as_slice())
}

fn push_columns(text: &mut Vec<u8>, plan: &PlanSource) -> Result<(), Memory>
    ensures { OnOk result (text.new.items ≡ text.old.items ++ part_text (codes " columns ") (names_text plan.now.columns)) }
{
    push_all(text, b" columns ")?;
    push_names(text, plan.columns.as_slice())
}

fn push_sent(
    alloc: Global,
    text: &mut Vec<u8>,
    all: &AllSources,
    plan: &PlanSource,
) -> Result<(), Memory>
    ensures { OnOk result (text.new.items ≡ text.old.items ++ part_text (codes " conditions ") (conditions_text all.now.bound.now all.now.plans.now plan.now)) }
{
    push_all(text, b" conditions ")?;
    push_conditions(alloc, text, all, plan)
}

/// Appends the line of a source.
fn push_line(
    alloc: Global,
    text: &mut Vec<u8>,
    all: &AllSources,
    number: usize,
    source: &BoundSource,
    plan: &PlanSource,
) -> Result<(), Memory>
    requires { CanHydrate (arc_value plan.now.table) }
    ensures { OnOk result (text.new.items ≡ text.old.items ++ line_of all.now.bound.now all.now.plans.now number source.now plan.now) }
{
    push_head(alloc, text, number, source, plan.access)?;
    push_sent(alloc, text, all, plan)?;
    push_columns(text, plan)?;
    push_functions(alloc, text, plan)?;
    push_limit(alloc, text, plan.limit)?;
    push_all(text, b"\n")
}

/// The lines of sources and their plans, which count from 1.
#[tactic(auto, using(crate::proofs::Sounds::plan_at))]
pub(crate) fn lines_of(
    alloc: Global,
    sources: &[BoundSource],
    plans: &[PlanSource],
) -> Result<Vec<u8>, Memory>
    requires { All (λ p. CanHydrate (arc_value p.table)) plans.now }
    ensures { IfOk result (λ text. text.items ≡ lines_from sources.now plans.now 1 sources.now plans.now) }
{
    let all = AllSources {
        bound: sources,
        plans,
    };
    let mut text = Vec::new(alloc);
    let mut number: usize = 0;
    for source in sources {
        let Some(plan) = plans.get(number) else {
            return Ok(text);
        };
        number += 1;
        push_line(alloc, &mut text, &all, number, source, plan)?;
    }
    Ok(text)
}
