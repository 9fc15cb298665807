// What is made of the joined rows of a statement.

ghost use Rattle.std.specs.Prelude.{◌≡◌, map, IfOk};
ghost use Rattle.statement_plan.specs.Columns.{layout_of};
ghost use Rattle.statement_plan.specs.Plans.{finishing_of, heading_of, limited, finished};

use crate::placing::{order_of, shown_of};
use crate::plan::{Finishing, Heading};
use row_algebra::{limit_rows, order_rows, project};
use sp_value::{Kinds, Memory, Rows, Texts, TryCopy};
use sql_bind::{Bound, BoundItem};
use sqlite_items::Items;
use std::alloc::Global;

fn limit(rows: &mut Rows, limit: Option<u64>)
    ensures { rows.new ≡ limited limit rows.old }
{
    if let Some(count) = limit {
        limit_rows(rows, count);
    }
}

impl Finishing {
    /// The rows that a statement answers with, of its joined rows: in order, up to the limit, with the cells that are shown.
    pub fn finish(&self, alloc: Global, rows: Rows) -> Result<Rows, Memory>
        ensures { IfOk result (λ shown. shown ≡ finished self.now rows) }
    {
        let mut rows = rows;
        order_rows(&mut rows, self.order.as_slice())?;
        limit(&mut rows, self.limit);
        let shown = project(alloc, rows, self.shown.as_slice())?;
        Ok(shown)
    }
}

/// Of a statement, whose rows have these columns by source.
pub(crate) fn finishing_of(
    alloc: Global,
    bound: &Bound,
    layout: &[Texts],
) -> Result<Finishing, Memory>
    requires { layout.now ≡ layout_of bound.now }
    ensures { IfOk result (λ f. f ≡ finishing_of bound.now) }
{
    let sources = bound.sources.as_slice();
    let order = order_of(alloc, sources, layout, bound.order.as_slice())?;
    let shown = shown_of(alloc, sources, layout, bound.shown.as_slice())?;
    Ok(Finishing {
        order,
        limit: bound.limit,
        shown,
    })
}

fn names_of(alloc: Global, shown: &[BoundItem]) -> Result<Texts, Memory>
    ensures { IfOk result (λ names. names ≡ map (λ i. i.name) shown.now) }
{
    let mut names = Items::new(alloc);
    for item in shown {
        let Ok(()) = names.push(item.name.copy(alloc)?) else {
            return Err(Memory);
        };
    }
    Ok(names)
}

fn kinds_of(alloc: Global, shown: &[BoundItem]) -> Result<Kinds, Memory>
    ensures { IfOk result (λ kinds. kinds ≡ map (λ i. i.kind) shown.now) }
{
    let mut kinds = Items::new(alloc);
    for item in shown {
        let Ok(()) = kinds.push(item.kind) else {
            return Err(Memory);
        };
    }
    Ok(kinds)
}

pub(crate) fn heading_of(alloc: Global, bound: &Bound) -> Result<Heading, Memory>
    ensures { IfOk result (λ h. h ≡ heading_of bound.now) }
{
    let shown = bound.shown.as_slice();
    let names = names_of(alloc, shown)?;
    let kinds = kinds_of(alloc, shown)?;
    Ok(Heading { names, kinds })
}
