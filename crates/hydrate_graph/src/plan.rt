ghost use Rattle.std.specs.Prelude.{◌≡◌, ◌<◌, ◌≤◌, ℕ, true, not, List, length, get_or, map, slice_get, Some, None, IfOk, IfSome};
ghost use Rattle.std.specs.Option.{option_copied};
ghost use Rattle.std.specs.List.{find, list_all};
ghost use Rattle.sp_model.specs.Calls.{is_wanted};
ghost use Rattle.sp_model.specs.Fields.{field};
ghost use Rattle.sp_model.specs.Hydration.{gave, find_function, hydrated_by, results_of};
ghost use Rattle.sp_model.specs.Rests.{rests, column_rests};
ghost use Rattle.sp_model.specs.RowOf.{checked, column_value, row_of};
ghost use Rattle.sp_model.specs.declared.declaration.FunctionDecl.{FunctionDecl};
ghost use Rattle.sp_model.specs.declared.outcome.Outcome.TheVariants.{Gave};
ghost use Rattle.sp_model.specs.declared.outcome.Results.TheVariants.{Given};
ghost use Rattle.sp_model.specs.declared.outcome.Row.TheVariants as rows;
ghost use Rattle.hydrate_graph.specs.Following.{by_known, InOrder};
ghost use Rattle.hydrate_graph.specs.Graphs.{settled_by, known_in, wants, may_call};
ghost use Rattle.hydrate_graph.specs.Plans.{AreApart};
ghost use Rattle.hydrate_graph.specs.Numbers.{number_of, name_at, source_number, depends_at};
ghost use Rattle.hydrate_graph.specs.Ordered.{result_of};
ghost use Rattle.hydrate_graph.specs.Ends.{outcome_read, IsStandOf, IsWhole};

use crate::depends::Depends;
use crate::ends::{CauseRef, Reading, Stand};
use sp_model::{ColumnDecl, FunctionDecl, Outcome, Rule, field, is_of_kind};
use sp_value::{Cell, Cells, Members, Memory, TryCopy};
use sqlite_items::{Items, at};
use std::alloc::Global;
use std::marker::Model;

/// What all rows of a scan share: the functions of its table with the rules of their calls, the columns that are asked for, and which
/// functions these need.
#[derive(Drop)]
pub struct RowPlan {
    pub(crate) functions: Items<FunctionDecl>,
    pub(crate) rules: Items<Rule>,
    pub(crate) columns: Items<ColumnDecl>,
    pub(crate) needs: Items<Items<u32>>,
    pub(crate) depends: Items<Depends>,
    pub(crate) sources: Items<Option<u32>>,
    pub(crate) slots: Items<Option<u32>>,
    pub(crate) room: u32,
}

impl Model for RowPlan {
    ghost use Rattle.hydrate_graph.specs.Graphs.{Plan};
    ghost use Rattle.hydrate_graph.specs.Plans.{IsPlan};

    ghost Value = { Plan };

    ghost view = { λ p. record { functions = p.functions; rules = p.rules; columns = p.columns; slots = p.slots; room = p.room } };

    ghost invariant = { λ p. IsPlan p.functions p.columns p.needs p.depends p.sources p.slots p.room };
}

/// Whether a function gave a result.
fn has_given(outcome: Option<&Outcome>) -> bool
    ensures { result ≡ gave (option_copied outcome.entry) }
{
    match outcome {
        Some(Outcome::Gave(_)) => true,
        _ => false,
    }
}

/// What is read of a column from the value that has its field.
fn read_field<'a>(column: &ColumnDecl, value: &'a Cell) -> Reading<'a>
    ensures { outcome_read result ≡ Some (checked column.now.kind (field column.now.field value.now)) }
{
    match field(&column.field, value) {
        None => Reading::Gives(None),
        Some(cell) => {
            if is_of_kind(column.kind, cell) {
                Reading::Gives(Some(cell))
            } else {
                Reading::Fails(CauseRef::BadValue(cell))
            }
        }
    }
}

impl RowPlan {
    /// The functions of the table, in declared order.
    pub fn functions(&self) -> &[FunctionDecl]
        ensures value { result.now ≡ self.now.functions }
        // The functions wanted are those of the columns and all that they depend on.
        ensures wanted { (name : List ℕ) (f : FunctionDecl) → find_function name self.now.functions ≡ Some f → wants self.now (number_of self.now.functions name) ≡ is_wanted self.now.functions self.now.columns name }
        // These come to an end.
        ensures rest { list_all (column_rests self.now.functions) self.now.columns ≡ true }
    {
        self.functions.as_slice()
    }

    /// The rules of the calls of the function of this number.
    pub fn rule(&self, function: u32) -> Option<&Rule>
        ensures { option_copied result ≡ slice_get self.now.rules function }
    {
        self.rules.get(function as usize)
    }

    /// The columns that are asked for, in the order of the table.
    pub fn columns(&self) -> &[ColumnDecl]
        ensures { result.now ≡ self.now.columns }
    {
        self.columns.as_slice()
    }

    /// How many functions there are.
    pub(crate) fn count(&self) -> u32
        ensures count { result ≡ length self.now.functions }
        ensures few { result ≤ 64 }
    {
        self.functions.len() as u32
    }

    /// How many outcomes a row has.
    pub fn room(&self) -> u32
        ensures room { result ≡ self.now.room }
        ensures count { length self.now.slots ≡ length self.now.functions }
    {
        self.room
    }

    /// The slot of a function's outcome in a row, where a column needs the function.
    pub fn slot(&self, function: u32) -> Option<u32>
        ensures value { result ≡ get_or self.now.slots function None }
        ensures within { IfSome result (λ slot. slot < self.now.room) }
        ensures apart { AreApart self.now.slots }
        ensures count { length self.now.slots ≡ length self.now.functions }
    {
        match self.slots.get(function as usize) {
            Some(slot) => *slot,
            None => None,
        }
    }

    /// Whether a column needs the function of this number.
    pub fn wants(&self, function: u32) -> bool
        ensures { result ≡ wants self.now function }
    {
        self.slot(function).is_some()
    }

    /// What is settled of a function.
    pub(crate) fn settled<'a>(
        &self,
        outcomes: &'a [Option<Outcome>],
        function: u32,
    ) -> Option<&'a Outcome>
        ensures { option_copied result ≡ get_or (settled_by self.now.slots outcomes.now) function None }
    {
        let Some(slot) = self.slot(function) else {
            return None;
        };
        let Some(outcome) = at(outcomes, slot as usize) else {
            return None;
        };
        outcome.as_ref()
    }

    /// The first of these functions that gave no result.
    pub(crate) fn first_waiting(&self, outcomes: &[Option<Outcome>], needs: &[u32]) -> Option<u32>
        ensures { result ≡ find (λ k. not (gave (get_or (settled_by self.now.slots outcomes.now) k None))) needs.now }
    {
        for number in needs {
            if !has_given(self.settled(outcomes, *number)) {
                return Some(*number);
            }
        }
        None
    }

    /// Whether a function is wanted, not settled, and each of its dependencies gave a result.
    pub(crate) fn may_call(&self, outcomes: &[Option<Outcome>], function: u32) -> bool
        ensures { result ≡ may_call self.now (settled_by self.now.slots outcomes.now) function }
    {
        if !self.wants(function) || self.settled(outcomes, function).is_some() {
            return false;
        }
        let Some(needs) = self.needs.get(function as usize) else {
            return false;
        };
        self.first_waiting(outcomes, needs.as_slice()).is_none()
    }

    /// What is decided of a function by those that are settled: that of the first dependency without a result, where it waits.
    pub(crate) fn decided<'a>(
        &self,
        outcomes: &'a [Option<Outcome>],
        function: u32,
    ) -> Option<&'a Outcome>
        requires first { number_of self.now.functions (name_at self.now.functions function) ≡ function }
        requires rest { rests self.now.functions (name_at self.now.functions function) ≡ true }
        requires order { InOrder self.now.functions (known_in self.now.functions (settled_by self.now.slots outcomes.now)) }
        ensures { option_copied result ≡ hydrated_by self.now.functions (by_known (known_in self.now.functions (settled_by self.now.slots outcomes.now))) (name_at self.now.functions function) }
    {
        let mut at = function;
        for _depth in 0..self.functions.len() {
            if let Some(outcome) = self.settled(outcomes, at) {
                return Some(outcome);
            }
            let Some(needs) = self.needs.get(at as usize) else {
                return None;
            };
            let Some(next) = self.first_waiting(outcomes, needs.as_slice()) else {
                return None;
            };
            at = next;
        }
        None
    }

    /// What is read of a column: its field of the item, or of what its function gives.
    fn reading<'a>(
        &self,
        outcomes: &'a [Option<Outcome>],
        item: &'a Cell,
        column: &ColumnDecl,
        source: Option<u32>,
    ) -> Reading<'a>
        requires source { source ≡ source_number self.now.functions column.now.function }
        requires rest { column_rests self.now.functions column.now ≡ true }
        requires order { InOrder self.now.functions (known_in self.now.functions (settled_by self.now.slots outcomes.now)) }
        ensures { outcome_read result ≡ column_value (hydrated_by self.now.functions (by_known (known_in self.now.functions (settled_by self.now.slots outcomes.now)))) item.now column.now }
    {
        let Some(function) = source else {
            return read_field(column, item);
        };
        match self.decided(outcomes, function) {
            None => Reading::Waits,
            Some(Outcome::Fails(cause)) => Reading::Fails(CauseRef::OfFunction(cause)),
            Some(Outcome::Gave(value)) => read_field(column, value),
        }
    }

    /// How the row of an item stands.
    pub(crate) fn stand<'a>(&self, outcomes: &'a [Option<Outcome>], item: &'a Cell) -> Stand<'a>
        requires { InOrder self.now.functions (known_in self.now.functions (settled_by self.now.slots outcomes.now)) }
        ensures { IsStandOf self.now.columns (row_of (hydrated_by self.now.functions (by_known (known_in self.now.functions (settled_by self.now.slots outcomes.now)))) self.now.columns item.now) result }
    {
        let columns = self.columns.as_slice();
        let sources = self.sources.as_slice();
        for index in 0..columns.len() {
            match self.reading(outcomes, item, &columns[index], sources[index]) {
                Reading::Waits => return Stand::Waits,
                Reading::Gives(_) => {}
                Reading::Fails(why) => {
                    return Stand::Fails {
                        column: index as u32,
                        why,
                    };
                }
            }
        }
        Stand::Whole
    }

    /// The cells of the row of an item, which is whole.
    pub(crate) fn cells(
        &self,
        alloc: Global,
        outcomes: &[Option<Outcome>],
        item: &Cell,
    ) -> Result<Cells, Memory>
        requires order { InOrder self.now.functions (known_in self.now.functions (settled_by self.now.slots outcomes.now)) }
        requires whole { IsWhole (row_of (hydrated_by self.now.functions (by_known (known_in self.now.functions (settled_by self.now.slots outcomes.now)))) self.now.columns item.now) }
        ensures { IfOk result (λ cells. row_of (hydrated_by self.now.functions (by_known (known_in self.now.functions (settled_by self.now.slots outcomes.now)))) self.now.columns item.now ≡ Some (rows.Whole cells)) }
    {
        let columns = self.columns.as_slice();
        let sources = self.sources.as_slice();
        let mut cells = Vec::with_capacity(alloc, columns.len())?;
        for index in 0..columns.len() {
            let cell = match self.reading(outcomes, item, &columns[index], sources[index]) {
                Reading::Gives(Some(cell)) => cell.copy(alloc)?,
                Reading::Gives(None) => Cell::Null,
                _ => unreachable!(),
            };
            cells.push(cell)?;
        }
        Ok(Items::from_vec(cells))
    }

    /// The result of a function that gave one.
    fn given<'a>(&self, outcomes: &'a [Option<Outcome>], function: u32) -> &'a Cell
        requires { gave (get_or (settled_by self.now.slots outcomes.now) function None) ≡ true }
        ensures { get_or (settled_by self.now.slots outcomes.now) function None ≡ Some (Gave result.now) }
    {
        match self.settled(outcomes, function) {
            Some(Outcome::Gave(value)) => value,
            _ => unreachable!(),
        }
    }

    /// The results of these functions, which gave one each.
    #[tactic(auto, using(crate::proofs::Results::all_at))]
    fn all_given(
        &self,
        alloc: Global,
        outcomes: &[Option<Outcome>],
        functions: &[u32],
    ) -> Result<Cells, Memory>
        requires { list_all (λ k. gave (get_or (settled_by self.now.slots outcomes.now) k None)) functions.now ≡ true }
        ensures { IfOk result (λ values. values ≡ map (λ k. result_of (get_or (settled_by self.now.slots outcomes.now) k None)) functions.now) }
    {
        let mut values = Items::new(alloc);
        for function in functions {
            let value = self.given(outcomes, *function);
            values.push(value.copy(alloc)?)?;
        }
        Ok(values)
    }

    /// The results of the dependencies of a function that may be called, under their names.
    pub(crate) fn results_at(
        &self,
        alloc: Global,
        outcomes: &[Option<Outcome>],
        function: u32,
    ) -> Result<Members, Memory>
        requires { may_call self.now (settled_by self.now.slots outcomes.now) function ≡ true }
        ensures { IfOk result (λ results. results_of (known_in self.now.functions (settled_by self.now.slots outcomes.now)) (depends_at self.now.functions function) ≡ Given results) }
    {
        let Some(depends) = self.depends.get(function as usize) else {
            return Ok(Members::new(alloc));
        };
        let values = self.all_given(alloc, outcomes, depends.numbers.as_slice())?;
        let names = depends.names.copy(alloc)?;
        Ok(Members::from_parts(names, values))
    }
}
