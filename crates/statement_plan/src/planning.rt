// The plan of a statement.

ghost use Rattle.std.specs.Prelude.{◌≡◌, map, option_map, take, None, IfOk, IfErr, OnOk, Ok, All};
ghost use Rattle.std.specs.Arc.{arc_value};
ghost use Rattle.sp_model.specs.Requests.{keys_for, fan_for};
ghost use Rattle.source_scans.specs.Planned.{IsPlanned, conditions_of};
ghost use Rattle.statement_plan.specs.Columns.{named, layout_of};
ghost use Rattle.statement_plan.specs.Conjuncts.{conjuncts_of};
ghost use Rattle.statement_plan.specs.Sources.{conditions_from, choice_for, listed_for, IsSourceOf};
ghost use Rattle.statement_plan.specs.Plans.{AreSourcesOf, IsPlanOf, IsMissing, IsMissingAt, IsMissingIn, IsMissingFrom, IsSaid, missing_from};

use crate::columns::named;
use crate::conjuncts::conjuncts_of;
use crate::finishing::{finishing_of, heading_of};
use crate::layout::{columns_for, layout_from};
use crate::limits::pushed_limit;
use crate::plan::{Plan, PlanFault};
use crate::reading::Reading;
use crate::sources::{conditions_from, fan_by, listed_from, sent_from, subset_for, tests_from};
use access_choice::{ChoiceFault, choose, fan_for, keys_for};
use column_tests::Test;
use source_scans::{PlanSource, conditions_of};
use sp_model::{Access, Conditions, KeyDecl, TableDecl};
use sp_value::{Memory, Text, Texts, TryCopy};
use sql_bind::{Bound, BoundSource, Column};
use sqlite_items::Items;
use std::alloc::Global;
use std::sync::Arc;

/// The conditions on a source, as its keys see them.
fn asked_for(alloc: Global, of: &Reading, conjuncts: &[&Test<Column>]) -> Result<Conditions, Memory>
    ensures { IfOk result (λ cs. cs ≡ conditions_of (conditions_from of.now.sources.now of.now.layout.now of.now.source (map (λ e. e.now) conjuncts.now))) }
{
    let conditions = conditions_from(alloc, of, conjuncts)?;
    let conditions = conditions_of(alloc, conditions.as_slice())?;
    Ok(conditions)
}

/// What a statement says, as its sources are planned: the columns that it names, and its conjuncts.
#[derive(Clone, Copy)]
pub(crate) struct Said<'a> {
    pub bound: &'a Bound,
    pub named: &'a [Column],
    pub conjuncts: &'a [&'a Test<Column>],
}

/// A source whose items are asked for in this way.
fn planned(
    alloc: Global,
    said: &Said,
    of: &Reading,
    source: &BoundSource,
    access: Access,
    listed: &[Text],
) -> Result<PlanSource, Memory>
    requires said { IsSaid said.now.bound.now said.now.named.now (map (λ e. e.now) said.now.conjuncts.now) of.now.sources.now of.now.layout.now }
    requires access { choice_for said.now.bound.now of.now.source source.now.table ≡ Ok access }
    requires listed { listed.now ≡ listed_for said.now.bound.now of.now.source }
    ensures { IfOk result (λ p. IsSourceOf said.now.bound.now of.now.source source.now p) }
{
    let table = &source.table;
    // It has: the access was chosen by them.
    let Some(keys) = keys_for(table, access) else {
        unreachable!();
    };
    let conjuncts = said.conjuncts;
    let fan = fan_for(table, access, listed);
    let columns = columns_for(alloc, of.sources, said.named, of.source, table)?;
    let subset = subset_for(alloc, table, access)?;
    let conditions = sent_from(alloc, keys, of, conjuncts)?;
    let limit = pushed_limit(alloc, said.bound, keys, of, fan, conjuncts)?;
    let fan = fan_by(alloc, of.sources, of.source, conjuncts, fan)?;
    let tests = tests_from(alloc, of, conjuncts)?;
    let keys = copy_keys(alloc, keys)?;
    let connections = source.members.copy(alloc)?;
    let table = shared(alloc, table)?;
    Ok(PlanSource {
        connections,
        table,
        access,
        columns,
        subset,
        keys,
        conditions,
        fan,
        limit,
        tests,
    })
}

fn shared(alloc: Global, table: &TableDecl) -> Result<Arc<TableDecl, Global>, Memory>
    ensures { IfOk result (λ shared. arc_value shared ≡ table.now) }
{
    let table = table.copy(alloc)?;
    let shared = Arc::new(alloc, table)?;
    Ok(shared)
}

fn copy_keys(alloc: Global, keys: &[KeyDecl]) -> Result<Items<KeyDecl>, Memory>
    ensures { IfOk result (λ copies. copies ≡ keys.now) }
{
    let mut copies = Items::new(alloc);
    for key in keys {
        let key = key.copy(alloc)?;
        let Ok(()) = copies.push(key) else {
            return Err(Memory);
        };
    }
    Ok(copies)
}

/// A source, or the keys that it lacks.
#[tactic(auto, using(crate::proofs::Choosing::taken, crate::proofs::Choosing::refused))]
fn source_of(
    alloc: Global,
    said: &Said,
    of: &Reading,
    source: &BoundSource,
) -> Result<PlanSource, PlanFault>
    requires { IsSaid said.now.bound.now said.now.named.now (map (λ e. e.now) said.now.conjuncts.now) of.now.sources.now of.now.layout.now }
    ensures ok { IfOk result (λ p. IsSourceOf said.now.bound.now of.now.source source.now p) }
    ensures err { IfErr result (IsMissingIn said.now.bound.now of.now.source source.now) }
{
    let listed = listed_from(alloc, of.sources, of.source, said.conjuncts)?;
    let conditions = asked_for(alloc, of, said.conjuncts)?;
    match choose(
        alloc,
        &source.table,
        conditions.as_slice(),
        listed.as_slice(),
    ) {
        Ok(access) => {
            let planned = planned(alloc, said, of, source, access, listed.as_slice())?;
            Ok(planned)
        }
        Err(ChoiceFault::MissingKeys { columns }) => Err(missing(of.source, columns)),
        Err(ChoiceFault::Memory) => Err(PlanFault::Memory),
    }
}

/// The fault of a source, counted from 0 here.
fn missing(source: u32, columns: Texts) -> PlanFault
    ensures { IsMissingAt source columns result }
{
    match source.checked_add(1) {
        Some(source) => PlanFault::MissingKeys { source, columns },
        None => PlanFault::Memory,
    }
}

/// The sources of a statement, or the keys that the first one lacks which lacks some.
fn sources_of(alloc: Global, said: &Said, layout: &[Texts]) -> Result<Items<PlanSource>, PlanFault>
    requires { IsSaid said.now.bound.now said.now.named.now (map (λ e. e.now) said.now.conjuncts.now) said.now.bound.now.sources layout.now }
    ensures ok { IfOk result (λ ps. AreSourcesOf said.now.bound.now 0 said.now.bound.now.sources ps) }
    ensures complete { OnOk result (missing_from said.now.bound.now 0 said.now.bound.now.sources ≡ None) }
    ensures err { IfErr result (IsMissing said.now.bound.now) }
{
    let sources = said.bound.sources.as_slice();
    let planned = sources_from(alloc, said, layout, sources)?;
    Ok(planned)
}

fn sources_from(
    alloc: Global,
    said: &Said,
    layout: &[Texts],
    sources: &[BoundSource],
) -> Result<Items<PlanSource>, PlanFault>
    requires { IsSaid said.now.bound.now said.now.named.now (map (λ e. e.now) said.now.conjuncts.now) sources.now layout.now }
    ensures ok { IfOk result (λ ps. AreSourcesOf said.now.bound.now 0 sources.now ps) }
    ensures complete { OnOk result (missing_from said.now.bound.now 0 sources.now ≡ None) }
    ensures err { IfErr result (IsMissingFrom said.now.bound.now 0 sources.now) }
{
    let mut planned = Items::new(alloc);
    let mut number: u32 = 0;
    for source in sources {
        let of = Reading {
            sources,
            layout,
            source: number,
        };
        let source = source_of(alloc, said, &of, source)?;
        let Ok(()) = planned.push(source) else {
            return Err(PlanFault::Memory);
        };
        let Some(next) = number.checked_add(1) else {
            return Err(PlanFault::Memory);
        };
        number = next;
    }
    Ok(planned)
}

impl Plan {
    /// The plan of a statement, or the keys that its first source lacks which lacks some. It depends on the text and the declarations alone.
    pub fn of(alloc: Global, bound: &Bound) -> Result<Plan, PlanFault>
        ensures plan { IfOk result (IsPlanOf bound.now) }
        ensures missing { IfErr result (IsMissing bound.now) }
        ensures planned { IfOk result (λ p. All IsPlanned p.sources) }
    {
        let named = named(alloc, bound)?;
        let layout = layout_from(alloc, bound.sources.as_slice(), named.as_slice())?;
        let conjuncts = conjuncts_of(alloc, bound)?;
        let said = Said {
            bound,
            named: named.as_slice(),
            conjuncts: conjuncts.as_slice(),
        };
        let sources = sources_of(alloc, &said, layout.as_slice())?;
        let finishing = finishing_of(alloc, bound, layout.as_slice())?;
        let heading = heading_of(alloc, bound)?;
        Ok(Plan {
            sources,
            finishing,
            heading,
        })
    }
}
