ghost use Rattle.std.specs.Prelude.{◌≡◌, ◌↔◌, ℕ, List, true, Option, Some, None, length, replicate, slice_get, slice_set, IfOk, IfErr, IsOk, OnOk, OnErr, OnSome};
ghost use Rattle.std.specs.Arc.{arc_value};
ghost use Rattle.sp_value.specs.declared.cell.Cell.{Cell};
ghost use Rattle.sp_model.specs.Hydration.{hydrated_by};
ghost use Rattle.sp_model.specs.RowOf.{row_of};
ghost use Rattle.sp_model.specs.declared.declaration.FunctionDecl.{FunctionDecl};
ghost use Rattle.sp_model.specs.declared.outcome.Outcome.{Outcome};
ghost use Rattle.sp_model.specs.declared.outcome.Results.TheVariants.{Given};
ghost use Rattle.sp_model.specs.declared.outcome.Row.TheVariants as rows;
ghost use Rattle.sp_model.specs.declared.scan.Cause.{Cause};
ghost use Rattle.hydrate_graph.specs.Ends.{cause_of, IsWhole, IsBroken, IsEndOf, IsStandOf};
ghost use Rattle.hydrate_graph.specs.Following.{Follows, Completes};
ghost use Rattle.hydrate_graph.specs.Graphs.{known, is_ready, ready_of, results_at, row_so_far};

use crate::ends::{CauseRef, RowEnd, Stand};
use crate::plan::RowPlan;
use crate::ready_list::ReadyList;
use sp_model::Outcome;
use sp_value::{Cell, Cells, Members, Memory};
use sqlite_items::Items;
use std::alloc::Global;
use std::marker::Model;
use std::sync::Arc;

/// One row: its item, and what its functions gave so far.
#[derive(Drop)]
pub struct RowGraph {
    plan: Arc<RowPlan>,
    item: Cell,
    outcomes: Items<Option<Outcome>>,
}

impl Model for RowGraph {
    ghost use Rattle.std.specs.Arc.{arc_value};
    ghost use Rattle.std.specs.Coded.{codes};
    ghost use Rattle.sp_value.specs.contracts.cell.Cell as cells;
    ghost use Rattle.hydrate_graph.specs.Graphs.{Graph, settled_by};
    ghost use Rattle.hydrate_graph.specs.Plans.{IsGraph};

    ghost Value = { Graph };

    ghost coded = { Prim.hlevel (codes, cells.the_row.coded) };

    ghost view = { λ g. let plan = arc_value g.plan in record { plan = plan; item = g.item; settled = settled_by plan.slots g.outcomes } };

    ghost invariant = { λ g. IsGraph (arc_value g.plan) g.outcomes };
}

/// So many outcomes that aren't settled.
fn unsettled(alloc: Global, count: u32) -> Result<Items<Option<Outcome>>, Memory>
    ensures { IfOk result (λ outcomes. outcomes ≡ replicate count None) }
{
    let mut outcomes = Vec::with_capacity(alloc, count as usize)?;
    for _slot in 0..count {
        outcomes.push(None)?;
    }
    Ok(Items::from_vec(outcomes))
}

impl RowGraph {
    /// The row of an item, of which nothing is settled. The item is handed back for want of memory alone.
    pub fn begin(alloc: Global, plan: &Arc<RowPlan>, item: Cell) -> Result<RowGraph, Cell>
        ensures begun { IfOk result (λ g. g ≡ record { plan = arc_value plan.now; item = item; settled = replicate (length (arc_value plan.now).functions) None }) }
        // As yet each function that is settled gave what its call gives, whatever that is.
        ensures follows { (call : FunctionDecl → List (List ℕ × Cell) → Option Outcome) → IfOk result (λ g. Follows g.plan.functions (known g) call) }
        ensures handed_back { IfErr result (λ given. given ≡ item) }
    {
        let Ok(shared) = Arc::try_clone(plan) else {
            return Err(item);
        };
        let Ok(outcomes) = unsettled(alloc, plan.room()) else {
            return Err(item);
        };
        Ok(RowGraph {
            plan: shared,
            item,
            outcomes,
        })
    }

    /// What all rows of the scan share.
    pub fn plan(&self) -> &RowPlan
        ensures { result.now ≡ self.now.plan }
    {
        &self.plan
    }

    /// The row's item.
    pub fn item(&self) -> &Cell
        ensures { result.now ≡ self.now.item }
    {
        &self.item
    }

    /// Whether a function may be called now: it is wanted, not settled, and each of its dependencies gave a result.
    pub fn is_ready(&self, function: u32) -> bool
        ensures { result ≡ is_ready self.now function }
    {
        self.plan.may_call(self.outcomes.as_slice(), function)
    }

    /// The functions that may be called now, in declared order.
    pub fn ready(&self, into: &mut ReadyList)
        ensures { into.new ≡ ready_of self.now }
    {
        into.clear();
        for function in 0..self.plan.count() {
            if self.is_ready(function) {
                into.push(function);
            }
        }
    }

    /// Takes what a function's call gave. It is handed back exactly where the function isn't ready.
    pub fn settle(&mut self, function: u32, outcome: Outcome) -> Result<(), Outcome>
        ensures ready { IsOk result ↔ (is_ready self.old function ≡ true) }
        ensures ok { OnOk result (self.new ≡ record self.old { settled = slice_set self.old.settled function (Some outcome) }) }
        ensures err { OnErr result (self.new ≡ self.old) }
        ensures handed_back { IfErr result (λ o. o ≡ outcome) }
        // Where this is what the function's call gives with the results of its dependencies, each function that is settled still gave what its call gives.
        ensures follows { (call : FunctionDecl → List (List ℕ × Cell) → Option Outcome) (f : FunctionDecl) (results : List (List ℕ × Cell)) → Follows self.old.plan.functions (known self.old) call →
            slice_get self.old.plan.functions function ≡ Some f → results_at self.old function ≡ Given results → call f results ≡ Some outcome → OnOk result (Follows self.new.plan.functions (known self.new) call) }
    {
        if !self.is_ready(function) {
            return Err(outcome);
        }
        let Some(slot) = self.plan.slot(function) else {
            return Err(outcome);
        };
        self.outcomes.set(slot as usize, Some(outcome));
        Ok(())
    }

    /// The results of the dependencies of a function that is ready, under their names.
    pub fn results(&self, alloc: Global, function: u32) -> Result<Members, Memory>
        requires { is_ready self.now function ≡ true }
        ensures { IfOk result (λ results. results_at self.now function ≡ Given results) }
    {
        let results = self
            .plan
            .results_at(alloc, self.outcomes.as_slice(), function)?;
        Ok(results)
    }

    fn stand(&self) -> Stand<'_>
        ensures { IsStandOf self.now.plan.columns (row_so_far self.now) result }
    {
        self.plan.stand(self.outcomes.as_slice(), &self.item)
    }

    /// How the row ends, once that is decided: no column before the first that fails waits, and where none fails no column waits.
    pub fn finished(&self) -> Option<RowEnd>
        ensures exact { IsEndOf self.now.plan.columns (row_so_far self.now) result }
        // Where each function that is settled gave what its call gives, the row is the one that hydration gives.
        ensures truth { (call : FunctionDecl → List (List ℕ × Cell) → Option Outcome) → Follows self.now.plan.functions (known self.now) call → OnSome result (row_of (hydrated_by self.now.plan.functions call) self.now.plan.columns self.now.item ≡ row_so_far self.now) }
        // Where, besides, every call that is known is settled, it is so also where the row waits.
        ensures whole_truth { (call : FunctionDecl → List (List ℕ × Cell) → Option Outcome) → Follows self.now.plan.functions (known self.now) call → Completes self.now.plan.functions (known self.now) call →
            row_of (hydrated_by self.now.plan.functions call) self.now.plan.columns self.now.item ≡ row_so_far self.now }
    {
        match self.stand() {
            Stand::Waits => None,
            Stand::Whole => Some(RowEnd::Whole),
            Stand::Fails { column, .. } => Some(RowEnd::Fails { column }),
        }
    }

    /// Why the row fails.
    pub fn cause(&self) -> CauseRef<'_>
        requires { IsBroken (row_so_far self.now) }
        ensures { (column : List ℕ) (why : Cause) → row_so_far self.now ≡ Some (rows.Broken column why) → cause_of result ≡ why }
    {
        match self.stand() {
            Stand::Fails { why, .. } => why,
            _ => unreachable!(),
        }
    }

    /// The cells of a whole row.
    pub fn row(&self, alloc: Global) -> Result<Cells, Memory>
        requires { IsWhole (row_so_far self.now) }
        ensures { IfOk result (λ cells. row_so_far self.now ≡ Some (rows.Whole cells)) }
    {
        let cells = self
            .plan
            .cells(alloc, self.outcomes.as_slice(), &self.item)?;
        Ok(cells)
    }
}
