// When a limit is given to the scans.

ghost use Rattle.std.specs.Prelude.{◌≡◌, ◌==◌, length, map, option_copied, IfOk};
ghost use Rattle.statement_plan.specs.Columns.{layout_of};
ghost use Rattle.statement_plan.specs.Conjuncts.{conjuncts_of};
ghost use Rattle.statement_plan.specs.Reading.{list_of};
ghost use Rattle.statement_plan.specs.Sources.{lists, fanned_by, is_sent_by, are_all_sent, is_single, is_unordered, pushed_limit};

use crate::reading::{Reading, condition_of, list_of};
use crate::sources::is_sent_on;
use column_tests::Test;
use source_scans::PlanCondition;
use sp_model::KeyDecl;
use sp_value::{Memory, Text};
use sql_bind::{Bound, BoundSource, Column};
use std::alloc::Global;

/// Whether a conjunct lists values of this column.
fn lists(of: &Reading, column: &Text, e: &Test<Column>) -> bool
    ensures { result ≡ lists column.now (list_of of.now.sources.now of.now.source e.now) }
{
    match list_of(of.sources, of.source, e) {
        Some((name, _)) => *name == *column,
        None => false,
    }
}

fn is_sent_by(keys: &[KeyDecl], condition: &Option<PlanCondition>) -> bool
    ensures { result ≡ is_sent_by keys.now condition.now }
{
    match condition {
        Some(condition) => is_sent_on(keys, condition),
        None => false,
    }
}

fn is_fanned(of: &Reading, fan: Option<&Text>, e: &Test<Column>) -> bool
    ensures { result ≡ fanned_by of.now.sources.now of.now.source (option_copied fan.entry) e.now }
{
    match fan {
        Some(column) => lists(of, column, e),
        None => false,
    }
}

/// Whether each conjunct is sent or fanned out. The first list of the column that is fanned out is, and no other one.
fn are_all_sent(
    alloc: Global,
    keys: &[KeyDecl],
    of: &Reading,
    fan: Option<&Text>,
    conjuncts: &[&Test<Column>],
) -> Result<bool, Memory>
    ensures { IfOk result (λ all. all ≡ are_all_sent keys.now of.now.sources.now of.now.layout.now of.now.source (option_copied fan.entry) (map (λ e. e.now) conjuncts.now)) }
{
    let mut left = fan;
    for e in conjuncts {
        if is_fanned(of, left, e) {
            left = None;
        } else {
            let condition = condition_of(alloc, of, e)?;
            if !is_sent_by(keys, &condition) {
                return Ok(false);
            }
        }
    }
    Ok(true)
}

fn is_single(sources: &[BoundSource]) -> bool
    ensures { result ≡ is_single sources.now }
{
    match sources {
        [_] => true,
        _ => false,
    }
}

/// The limit of the scans: the statement's, where there is one source, no order, and no conjunct that is tested later.
pub(crate) fn pushed_limit(
    alloc: Global,
    bound: &Bound,
    keys: &[KeyDecl],
    of: &Reading,
    fan: Option<&Text>,
    conjuncts: &[&Test<Column>],
) -> Result<Option<u64>, Memory>
    requires sources { of.now.sources.now ≡ bound.now.sources }
    requires layout { of.now.layout.now ≡ layout_of bound.now }
    requires conjuncts { map (λ e. e.now) conjuncts.now ≡ conjuncts_of bound.now }
    ensures { IfOk result (λ limit. limit ≡ pushed_limit keys.now bound.now of.now.source (option_copied fan.entry)) }
{
    if !is_single(bound.sources.as_slice()) || !bound.order.is_empty() {
        return Ok(None);
    }
    if are_all_sent(alloc, keys, of, fan, conjuncts)? {
        Ok(bound.limit)
    } else {
        Ok(None)
    }
}
