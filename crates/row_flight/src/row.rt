ghost use Rattle.std.specs.Prelude.{ℕ, ◌≡◌, ◌↔◌, ◌<◌, ◌^◌, ◌++◌, ◌∷◌, [], true, suc, length, get_or, slice_get, Some, None, not, IsTrue, IfOk, IfErr, OnOk, OnErr};
ghost use Rattle.std.specs.Arc.{arc_value};
ghost use Rattle.std.specs.Option.{option_copied};
ghost use Rattle.hydrate_graph.specs.Graphs.{is_ready, wants};
ghost use Rattle.hydrate_graph.specs.Numbers.{name_at};
ghost use Rattle.sp_world.specs.Pieces.{IsSoundPiece};
ghost use Rattle.row_flight.specs.Attempts.{fresh, is_next, IsAttempt};
ghost use Rattle.row_flight.specs.Rows.{attempt_of, slot_of, begun, is_open, is_unlisted, call_of, row_lists, row_hears, IsRow, IsPlaced, RowAwaits};

use crate::attempt::Attempt;
use crate::attempts::Attempts;
use hydrate_graph::{RowGraph, RowPlan};
use sp_model::{Call, Piece};
use sp_value::{Cell, Memory, Text, TryCopy, same_cell, same_members};
use std::alloc::Global;
use std::sync::Arc;

/// A row in flight: what its functions gave, and the present attempts of their calls, by the functions' slots. Where `all_listed`, no call
/// is ready and not listed, so that nobody has to look.
#[derive(Drop)]
pub struct RowCalls {
    pub(crate) graph: RowGraph,
    pub(crate) attempts: Attempts,
    pub(crate) all_listed: bool,
}

impl RowCalls {
    /// The row of an item, of which nothing is known. The item is handed back for want of memory alone.
    pub(crate) fn begin(alloc: Global, plan: &Arc<RowPlan>, item: Cell) -> Result<RowCalls, Cell>
        ensures begun { IfOk result (λ row. row ≡ begun (arc_value plan.now) item) }
        ensures handed_back { IfErr result (λ back. back ≡ item) }
    {
        let Ok(attempts) = Attempts::begin(alloc, plan.room()) else {
            return Err(item);
        };
        let graph = RowGraph::begin(alloc, plan, item)?;
        Ok(RowCalls {
            graph,
            attempts,
            all_listed: false,
        })
    }

    /// The slot of a function that a column needs.
    fn slot(&self, function: u32) -> u32
        requires row { IsRow self.now }
        requires wanted { wants self.now.graph.plan function ≡ true }
        ensures { IsPlaced self.now function result }
    {
        let Some(slot) = self.graph.plan().slot(function) else {
            unreachable!()
        };
        slot
    }

    /// The present attempt of a function that a column needs.
    pub(crate) fn attempt(&self, function: u32) -> &Attempt
        requires row { IsRow self.now }
        requires wanted { wants self.now.graph.plan function ≡ true }
        ensures value { result.now ≡ attempt_of self.now function }
        ensures sound { IsAttempt result.now }
    {
        self.attempts.at(self.slot(function))
    }

    /// Whether a function is ready and its present attempt isn't listed.
    pub(crate) fn is_unlisted(&self, function: u32) -> bool
        requires { IsRow self.now }
        ensures { result ≡ is_unlisted self.now function }
    {
        self.graph.is_ready(function) && !self.attempt(function).listed
    }

    /// Whether a function is ready and its present attempt is listed.
    pub(crate) fn is_open(&self, function: u32) -> bool
        requires { IsRow self.now }
        ensures { result ≡ is_open self.now function }
    {
        self.graph.is_ready(function) && self.attempt(function).listed
    }

    /// The name of a function that is ready.
    fn name(&self, function: u32) -> &Text
        requires row { IsRow self.now }
        requires ready { is_ready self.now.graph function ≡ true }
        ensures { result.now ≡ name_at self.now.graph.plan.functions function }
    {
        let _slot = self.slot(function);
        &self.graph.plan().functions()[function as usize].name
    }

    /// The call of a function that is ready, with the results of its dependencies.
    pub(crate) fn call(&self, alloc: Global, table: &Text, function: u32) -> Result<Call, Memory>
        requires row { IsRow self.now }
        requires ready { is_ready self.now.graph function ≡ true }
        ensures { IfOk result (λ asked. call_of table.now self.now function ≡ Some asked) }
    {
        let results = self.graph.results(alloc, function)?;
        Ok(Call::Hydrate {
            table: table.copy(alloc)?,
            function: self.name(function).copy(alloc)?,
            item: self.graph.item().copy(alloc)?,
            results,
        })
    }

    /// Whether this is the call of a function that is ready.
    fn is_call(
        &self,
        alloc: Global,
        table: &Text,
        function: u32,
        asked: &Call,
    ) -> Result<bool, Memory>
        requires row { IsRow self.now }
        requires ready { is_ready self.now.graph function ≡ true }
        ensures { IfOk result (λ same. IsTrue same ↔ (call_of table.now self.now function ≡ Some asked.now)) }
    {
        let Call::Hydrate {
            table: of_table,
            function: name,
            item,
            results,
        } = asked
        else {
            return Ok(false);
        };
        if *of_table != *table
            || *name != *self.name(function)
            || !same_cell(item, self.graph.item())
        {
            return Ok(false);
        }
        let own = self.graph.results(alloc, function)?;
        Ok(same_members(results, &own))
    }

    /// Whether a function's call at an attempt is waited for, and this piece of it is next.
    pub(crate) fn awaits(
        &self,
        alloc: Global,
        table: &Text,
        function: u32,
        asked: &Call,
        attempt: u32,
        piece: &Piece,
    ) -> Result<bool, Memory>
        requires { IsRow self.now }
        ensures { IfOk result (λ awaited. IsTrue awaited ↔ RowAwaits table.now self.now function asked.now attempt piece.now) }
    {
        if !self.is_open(function) {
            return Ok(false);
        }
        let present = self.attempt(function);
        if attempt != present.attempt() || !present.is_next(piece) {
            return Ok(false);
        }
        let same = self.is_call(alloc, table, function, asked)?;
        Ok(same)
    }

    /// The present attempt of a function that is ready is listed.
    pub(crate) fn list_function(&mut self, function: u32)
        requires row { IsRow self.old }
        requires ready { is_ready self.old.graph function ≡ true }
        ensures listed { self.new ≡ row_lists self.old function }
        ensures placed { (slot : ℕ) × IsPlaced self.old function slot }
    {
        let slot = self.slot(function);
        self.attempts.list(slot);
    }

    /// Takes in a piece of the call of a function that is ready, at this tick. For want of memory nothing changes.
    pub(crate) fn hear(
        &mut self,
        alloc: Global,
        function: u32,
        piece: Piece,
        tick: u64,
    ) -> Result<(), Memory>
        requires row { IsRow self.old }
        requires ready { is_ready self.old.graph function ≡ true }
        requires sound_piece { IsSoundPiece piece }
        ensures heard { OnOk result (self.new ≡ row_hears self.old function piece tick) }
        ensures err { OnErr result (self.new ≡ self.old) }
        ensures sound { IsAttempt (attempt_of self.old function) }
        ensures placed { (slot : ℕ) × IsPlaced self.old function slot }
    {
        let slot = self.slot(function);
        let _attempt = self.attempt(function);
        let plan = self.graph.plan();
        let Some(rule) = plan.rule(function) else {
            unreachable!()
        };
        let name = &plan.functions()[function as usize].name;
        let outcome = self.attempts.hear(alloc, slot, rule, name, piece, tick)?;
        if let Some(outcome) = outcome {
            let _settled = self.graph.settle(function, outcome);
        }
        self.all_listed = false;
        Ok(())
    }
}
