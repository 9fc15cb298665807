// What is sent and listed, what is tested, and how a source is asked for.

ghost use Rattle.std.specs.Prelude.{◌≡◌, ◌++◌, ◌==◌, [], ◌∷◌, map, filter, option_copied, option_map, option_to_list, bytes_eq, IfOk, OnOk};
ghost use Rattle.std.specs.List.{list_any};
ghost use Rattle.sp_model.specs.Keys.{same_operator, is_on, is_sent};
ghost use Rattle.sp_model.specs.Requests.{subset_names, subset_of_list, subset_for};
ghost use Rattle.source_scans.specs.Asking.{condition_at};
ghost use Rattle.statement_plan.specs.Sources.{conditions_from, listed_column, listed_from, values_or, values_under, is_sent_on, sent_from, tests_from, fan_by};

use crate::placing::{last_source, placed_test};
use crate::reading::{Reading, condition_of, list_of};
use column_tests::Test;
use source_scans::{Fan, PlanCondition, distinct_values};
use sp_model::{Access, KeyDecl, ListDecl, Matching, TableDecl};
use sp_value::{Cell, Memory, Op, Text, Texts, TryCopy};
use sql_bind::{BoundSource, Column};
use sqlite_items::Items;
use std::alloc::Global;

// ---- conditions

fn push_condition(
    conditions: &mut Items<PlanCondition>,
    condition: Option<PlanCondition>,
) -> Result<(), Memory>
    ensures { OnOk result (conditions.new ≡ conditions.old ++ option_to_list condition) }
{
    if let Some(condition) = condition {
        let Ok(()) = conditions.push(condition) else {
            return Err(Memory);
        };
    }
    Ok(())
}

/// The conditions on a source, in the order of the text.
pub(crate) fn conditions_from(
    alloc: Global,
    of: &Reading,
    conjuncts: &[&Test<Column>],
) -> Result<Items<PlanCondition>, Memory>
    ensures { IfOk result (λ cs. cs ≡ conditions_from of.now.sources.now of.now.layout.now of.now.source (map (λ e. e.now) conjuncts.now)) }
{
    let mut conditions = Items::new(alloc);
    for e in conjuncts {
        let condition = condition_of(alloc, of, e)?;
        push_condition(&mut conditions, condition)?;
    }
    Ok(conditions)
}

fn declares(operators: &[Op], operator: Op) -> bool
    ensures { result ≡ list_any (same_operator operator) operators.now }
{
    operators.iter().any(|known| operator == *known)
}

fn is_on(key: &KeyDecl, condition: &PlanCondition) -> bool
    ensures { result ≡ is_on key.now (condition_at [] condition.now) }
{
    key.column == condition.column && declares(key.operators.as_slice(), condition.operator)
}

pub(crate) fn is_sent_on(keys: &[KeyDecl], condition: &PlanCondition) -> bool
    ensures { result ≡ is_sent_on keys.now condition.now }
{
    keys.iter().any(|key| is_on(key, condition))
}

fn push_sent(
    sent: &mut Items<PlanCondition>,
    keys: &[KeyDecl],
    condition: Option<PlanCondition>,
) -> Result<(), Memory>
    ensures { OnOk result (sent.new ≡ sent.old ++ filter (is_sent_on keys.now) (option_to_list condition)) }
{
    if let Some(condition) = condition {
        if is_sent_on(keys, &condition) {
            let Ok(()) = sent.push(condition) else {
                return Err(Memory);
            };
        }
    }
    Ok(())
}

/// The conditions that are sent, in the order of the text.
pub(crate) fn sent_from(
    alloc: Global,
    keys: &[KeyDecl],
    of: &Reading,
    conjuncts: &[&Test<Column>],
) -> Result<Items<PlanCondition>, Memory>
    ensures { IfOk result (λ cs. cs ≡ sent_from keys.now of.now.sources.now of.now.layout.now of.now.source (map (λ e. e.now) conjuncts.now)) }
{
    let mut sent = Items::new(alloc);
    for e in conjuncts {
        let condition = condition_of(alloc, of, e)?;
        push_sent(&mut sent, keys, condition)?;
    }
    Ok(sent)
}

// ---- lists

fn push_listed(
    alloc: Global,
    names: &mut Texts,
    sources: &[BoundSource],
    source: u32,
    e: &Test<Column>,
) -> Result<(), Memory>
    ensures { OnOk result (names.new ≡ names.old ++ option_to_list (listed_column sources.now source e.now)) }
{
    if let Some((name, _)) = list_of(sources, source, e) {
        let name = name.copy(alloc)?;
        let Ok(()) = names.push(name) else {
            return Err(Memory);
        };
    }
    Ok(())
}

/// The columns of a source whose values are listed, in the order of the text.
pub(crate) fn listed_from(
    alloc: Global,
    sources: &[BoundSource],
    source: u32,
    conjuncts: &[&Test<Column>],
) -> Result<Texts, Memory>
    ensures { IfOk result (λ names. names ≡ listed_from sources.now source (map (λ e. e.now) conjuncts.now)) }
{
    let mut names = Items::new(alloc);
    for e in conjuncts {
        push_listed(alloc, &mut names, sources, source, e)?;
    }
    Ok(names)
}

/// The values of the first list of a column.
fn values_under<'a>(
    sources: &'a [BoundSource],
    source: u32,
    column: &Text,
    conjuncts: &'a [&'a Test<Column>],
) -> &'a [Cell]
    ensures { result.now ≡ values_under sources.now source column.now (map (λ e. e.now) conjuncts.now) }
{
    for e in conjuncts {
        if let Some((name, values)) = list_of(sources, source, e) {
            if *name == *column {
                return values.as_slice();
            }
        }
    }
    &[]
}

/// The list that is fanned out, where there is one.
pub(crate) fn fan_by(
    alloc: Global,
    sources: &[BoundSource],
    source: u32,
    conjuncts: &[&Test<Column>],
    column: Option<&Text>,
) -> Result<Option<Fan>, Memory>
    ensures { IfOk result (λ fan. fan ≡ fan_by sources.now source (map (λ e. e.now) conjuncts.now) (option_copied column.entry)) }
{
    match column {
        Some(name) => {
            let values = distinct_values(alloc, values_under(sources, source, name, conjuncts))?;
            let column = name.copy(alloc)?;
            Ok(Some(Fan { column, values }))
        }
        None => Ok(None),
    }
}

// ---- tests

fn push_test(
    alloc: Global,
    tests: &mut Items<Test<u32>>,
    of: &Reading,
    e: &Test<Column>,
) -> Result<(), Memory>
    ensures { OnOk result (tests.new ≡ tests.old ++ tests_from of.now.sources.now of.now.layout.now of.now.source (e.now ∷ [])) }
{
    if last_source(alloc, e)? == of.source {
        let test = placed_test(alloc, of.sources, of.layout, e)?;
        let Ok(()) = tests.push(test) else {
            return Err(Memory);
        };
    }
    Ok(())
}

/// The conjuncts that are tested once the source is there.
pub(crate) fn tests_from(
    alloc: Global,
    of: &Reading,
    conjuncts: &[&Test<Column>],
) -> Result<Items<Test<u32>>, Memory>
    ensures { IfOk result (λ ts. ts ≡ tests_from of.now.sources.now of.now.layout.now of.now.source (map (λ e. e.now) conjuncts.now)) }
{
    let mut tests = Items::new(alloc);
    for e in conjuncts {
        push_test(alloc, &mut tests, of, e)?;
    }
    Ok(tests)
}

// ---- keys that only filter

fn subset_names(alloc: Global, keys: &[KeyDecl]) -> Result<Texts, Memory>
    ensures { IfOk result (λ names. names ≡ subset_names keys.now) }
{
    let mut names = Items::new(alloc);
    for key in keys {
        if matches!(key.matching, Matching::Subset) {
            let name = key.column.copy(alloc)?;
            let Ok(()) = names.push(name) else {
                return Err(Memory);
            };
        }
    }
    Ok(names)
}

fn subset_of_list(alloc: Global, list: &Option<ListDecl>) -> Result<Texts, Memory>
    ensures { IfOk result (λ names. names ≡ subset_of_list list.now) }
{
    match list {
        Some(list) => {
            let names = subset_names(alloc, list.keys.as_slice())?;
            Ok(names)
        }
        None => Ok(Items::new(alloc)),
    }
}

/// The key columns of an access that only filter.
#[tactic(auto, unfolding(sp_model::specs::Requests::subset_for))]
pub(crate) fn subset_for(alloc: Global, table: &TableDecl, access: Access) -> Result<Texts, Memory>
    ensures { IfOk result (λ names. names ≡ subset_for table.now access) }
{
    match access {
        Access::Get => Ok(Items::new(alloc)),
        Access::List => subset_of_list(alloc, &table.list),
        Access::Parents => subset_of_list(alloc, &table.list),
    }
}
