ghost use Rattle.std.specs.Prelude.{ℕ, IsTrue, IfSome, ◌≡◌, ◌↔◌, ◌<◌, ◌≤◌, ◌++◌, ◌∷◌, [], List, length, true, Some, None, IfOk, IfErr, OnOk, OnErr};
ghost use Rattle.std.specs.Arc.{arc_value};
ghost use Rattle.std.specs.Option.{option_copied};
ghost use Rattle.hydrate_graph.specs.Graphs.{Plan, is_ready};
ghost use Rattle.row_pool.specs.Pools.{shown};
ghost use Rattle.scan_laws.specs.Flights.{AreApart};
ghost use Rattle.scan_laws.specs.Scans.{AllAgree};
ghost use Rattle.scan_laws.specs.Steps.{fresh_row};
ghost use Rattle.sp_model.specs.Settling.{Answers};
ghost use Rattle.sp_model.specs.declared.declaration.TableDecl.{TableDecl};
ghost use Rattle.sp_model.specs.declared.scan.ScanRequest.{ScanRequest};
ghost use Rattle.sp_world.specs.Pieces.{IsSoundPiece};
ghost use Rattle.row_flight.specs.Attempts.{IsAttempt};
ghost use Rattle.row_flight.specs.Dues.{due_of, key_due};
ghost use Rattle.row_flight.specs.Flying.{InFlight, Seated, Puts, FirstStands, IsOf, Sits, IsAwaited, first_graph, rows_of, heard_at, key_at};
ghost use Rattle.row_flight.specs.Hearing.{IsPieceOfSeen, AllHear, Keeps};
ghost use Rattle.row_flight.specs.Jobs.{IsAllListed, RowLists, Lists, PoolLists, RowsListed};
ghost use Rattle.row_flight.specs.Pooled.{Rewrites, RowsShown, IsFlight};
ghost use Rattle.row_flight.specs.Rows.{is_open, row_hears, attempt_of, AreListed, IsRow, IsPlaced};
ghost use Rattle.row_flight.specs.declared.row.RowCalls.{RowCalls};

use crate::dues::sooner;
use crate::frame::{CallFrame, JobList};
use crate::row::RowCalls;
use hydrate_graph::{RowGraph, RowPlan};
use row_pool::{Key, Pool};
use sp_model::{CallKey, Piece, Seat};
use sp_value::{Cell, Memory};
use std::alloc::Global;
use std::collections::VecDeque;
use std::marker::Model;
use std::sync::Arc;

/// The rows of a scan that are in flight, in order. Contracts see them under the keys of their slots.
#[derive(Drop)]
pub struct Flight {
    plan: Arc<RowPlan>,
    frame: CallFrame,
    window: u32,
    pool: Pool<RowCalls>,
    order: VecDeque<Key>,
    drawn: u64,
}

impl Model for Flight {
    ghost use Rattle.std.specs.Prelude.{◌≤◌, ◌<◌, ◌^◌};
    ghost use Rattle.std.specs.Arc.{arc_value};
    ghost use Rattle.std.specs.Coded.{codes};
    ghost use Rattle.std.specs.VecDeque.{deque_capacity};
    ghost use Rattle.sp_value.specs.contracts.cell.Cell as cells;
    ghost use Rattle.row_flight.specs.Flying.{InFlight};
    ghost use Rattle.row_flight.specs.Pooled.{seated, IsFlight};

    ghost Value = { InFlight };

    ghost coded = { Prim.hlevel (codes, cells.the_row.coded) };

    ghost view = { λ f. record { plan = arc_value f.plan; frame = f.frame; window = f.window; rows = seated f.pool f.order.items } };

    ghost invariant = { λ f. IsFlight (arc_value f.plan) f.window f.drawn f.pool f.order.items × (f.drawn ≤ 2 ^ 62) × (f.window ≤ deque_capacity f.order) };
}

/// More rows than a scan can come to have.
const MOST_ROWS: u64 = 1 << 62;

impl Flight {
    /// No rows, with room for so many, which is taken here.
    pub fn begin(
        alloc: Global,
        plan: Arc<RowPlan>,
        frame: CallFrame,
        window: u32,
    ) -> Result<Flight, Memory>
        requires { length (arc_value plan).rules ≡ length (arc_value plan).functions }
        ensures { IfOk result (λ f. f ≡ record { plan = arc_value plan; frame = frame; window = window; rows = [] }) }
    {
        let _functions = plan.functions();
        let pool = Pool::with_slots(alloc, window)?;
        let order = VecDeque::with_capacity(alloc, window as usize)?;
        Ok(Flight {
            plan,
            frame,
            window,
            pool,
            order,
            drawn: 0,
        })
    }

    /// What all rows share.
    pub fn plan(&self) -> &RowPlan
        ensures { result.now ≡ self.now.plan }
    {
        &self.plan
    }

    /// What all calls share.
    pub fn frame(&self) -> &CallFrame
        ensures { result.now ≡ self.now.frame }
    {
        &self.frame
    }

    /// How many rows there are.
    pub fn len(&self) -> usize
        ensures { result ≡ length self.now.rows }
    {
        self.order.len()
    }

    /// Whether there is no row.
    pub fn is_empty(&self) -> bool
        ensures { (result ≡ true) ↔ (self.now.rows ≡ []) }
    {
        self.len() == 0
    }

    /// Whether there is no room for one more row.
    pub fn is_full(&self) -> bool
        ensures { (result ≡ true) ↔ (self.now.window ≤ length self.now.rows) }
    {
        self.len() >= self.window as usize
    }

    /// Puts the row of an item at the end. The item is handed back for want of memory alone.
    pub fn put(&mut self, alloc: Global, item: Cell) -> Result<(), Cell>
        requires { length self.old.rows < self.old.window }
        ensures ok { OnOk result (Puts self.old self.new item) }
        // To the laws of a scan it is a row of which nothing is known.
        ensures view { OnOk result (rows_of self.new ≡ rows_of self.old ++ fresh_row item ∷ []) }
        ensures hear { (table : TableDecl) (answers : Answers) → AllHear table answers self.old.rows → OnOk result (AllHear table answers self.new.rows) }
        ensures err { OnErr result (self.new ≡ self.old) }
        ensures handed_back { IfErr result (λ back. back ≡ item) }
    {
        if self.drawn >= MOST_ROWS {
            return Err(item);
        }
        let row = RowCalls::begin(alloc, &self.plan, item)?;
        let Ok(key) = self.pool.take(row) else {
            unreachable!()
        };
        self.order.push_back_reserved(key);
        self.drawn += 1;
        Ok(())
    }

    /// The first row.
    pub fn first(&self) -> Option<&RowGraph>
        ensures graph { option_copied result ≡ first_graph self.now.rows }
        // To the laws of a scan it stands as its graph does.
        ensures row { (table : TableDecl) (request : ScanRequest) → IsOf table request self.now → FirstStands table request self.now.rows (option_copied result) }
    {
        let Some(key) = self.order.front() else {
            return None;
        };
        match self.pool.get(key) {
            Some(row) => Some(&row.graph),
            None => None,
        }
    }

    /// Lets the first row go.
    pub fn drop_first(&mut self)
        requires { 0 < length self.old.rows }
        ensures { (s : Seated) × (self.old ≡ record self.new { rows = s ∷ self.new.rows }) }
    {
        let Some(key) = self.order.pop_front() else {
            unreachable!()
        };
        let _row = self.pool.give_back(key);
    }

    /// Puts each call that is ready and wasn't listed before at the end of a list, for the scan of this number. For want of memory it
    /// stops with those that it listed.
    pub fn list(&mut self, alloc: Global, scan: u64, into: &mut JobList) -> Result<(), Memory>
        ensures lists { Lists scan self.old self.new into.old into.new }
        ensures all { OnOk result (IsAllListed self.new) }
    {
        list_all(&mut self.pool, &self.order, alloc, &self.frame, scan, into)?;
        Ok(())
    }

    /// The least tick for which a call waits: one that was asked again, and of which no piece came since.
    pub fn due(&self) -> Option<u64>
        ensures { result ≡ due_of self.now }
    {
        let mut least = None;
        for place in 0..self.order.len() {
            let key = self.order[place];
            least = sooner(least, due_at(&self.pool, &key));
        }
        least
    }

    /// Whether a call is waited for at a seat, and this piece of it is next.
    pub fn awaits(
        &self,
        alloc: Global,
        seat: Seat,
        asked: &CallKey,
        piece: &Piece,
    ) -> Result<bool, Memory>
        ensures { IfOk result (λ awaited. IsTrue awaited ↔ IsAwaited self.now seat asked.now piece.now) }
    {
        if asked.connection != self.frame.connection || asked.version != self.frame.version {
            return Ok(false);
        }
        match self.pool.get(&key_of(seat)) {
            Some(row) => {
                let awaited = row.awaits(
                    alloc,
                    &self.frame.table,
                    seat.function,
                    &asked.call,
                    asked.attempt,
                    piece,
                )?;
                Ok(awaited)
            }
            None => Ok(false),
        }
    }

    /// Takes in a piece of the call that is waited for at a seat, at this tick: the item is taken, the function is asked again after its
    /// delay, or what it gives is settled. For want of memory nothing changes.
    pub fn hear(&mut self, alloc: Global, seat: Seat, piece: Piece, tick: u64) -> Result<(), Memory>
        requires open { (row : RowCalls) × Sits self.old seat row × (is_open row seat.function ≡ true) }
        requires sound { IsSoundPiece piece }
        ensures ok { OnOk result (self.new ≡ heard_at self.old seat piece tick) }
        ensures err { OnErr result (self.new ≡ self.old) }
        // Where this is a piece of what is answered, the rows go on agreeing with it.
        ensures keeps { (table : TableDecl) (request : ScanRequest) (answers : Answers) (asked : CallKey) → IsOf table request self.old → AreApart table → AllAgree table answers (rows_of self.old) → AllHear table answers self.old.rows
            → IsAwaited self.old seat asked piece → IsPieceOfSeen (answers asked.call asked.attempt) piece → OnOk result (Keeps table request answers self.old.rows self.new.rows []) }
    {
        hear_at(
            &mut self.pool,
            alloc,
            &key_of(seat),
            seat.function,
            piece,
            tick,
        )?;
        Ok(())
    }
}

/// The key of a seat's slot.
fn key_of(seat: Seat) -> Key
    ensures { result ≡ key_at seat }
{
    Key {
        slot: seat.slot,
        generation: seat.generation,
    }
}

/// The row of a key takes in a piece of the call of a function that is ready.
fn hear_at(
    pool: &mut Pool<RowCalls>,
    alloc: Global,
    key: &Key,
    function: u32,
    piece: Piece,
    tick: u64,
) -> Result<(), Memory>
    requires row { IfSome (shown pool.old key.now) IsRow }
    requires ready { IfSome (shown pool.old key.now) (λ row. is_ready row.graph function ≡ true) }
    requires sound { IsSoundPiece piece }
    ensures heard { (row : RowCalls) → shown pool.old key.now ≡ Some row → OnOk result (Rewrites pool.old pool.new key.now (row_hears row function piece tick)) }
    ensures err { (row : RowCalls) → shown pool.old key.now ≡ Some row → OnErr result (Rewrites pool.old pool.new key.now row) }
    ensures placed { (row : RowCalls) → shown pool.old key.now ≡ Some row → (slot : ℕ) × IsPlaced row function slot × IsAttempt (attempt_of row function) }
{
    match pool.get_mut(key) {
        Some(row) => row.hear(alloc, function, piece, tick),
        None => Ok(()),
    }
}

/// Lists the calls of the row of a key, for the scan of this number.
fn list_at(
    pool: &mut Pool<RowCalls>,
    alloc: Global,
    key: &Key,
    frame: &CallFrame,
    scan: u64,
    into: &mut JobList,
) -> Result<(), Memory>
    requires { (row : RowCalls) × (shown pool.old key.now ≡ Some row) × IsRow row }
    ensures { (row : RowCalls) → shown pool.old key.now ≡ Some row → (next : RowCalls) × Rewrites pool.old pool.new key.now next × RowLists frame.now scan key.now row next into.old into.new × OnOk result (AreListed next) }
{
    let seat = Seat {
        scan,
        slot: key.slot,
        generation: key.generation,
        function: 0,
    };
    match pool.get_mut(key) {
        Some(row) => row.list(alloc, frame, seat, into),
        None => unreachable!(),
    }
}

/// Lists the calls of the rows of these keys, for the scan of this number.
fn list_all(
    pool: &mut Pool<RowCalls>,
    order: &VecDeque<Key>,
    alloc: Global,
    frame: &CallFrame,
    scan: u64,
    into: &mut JobList,
) -> Result<(), Memory>
    requires { RowsShown pool.old order.now.items }
    ensures lists { (plan : Plan) (window number : ℕ) → IsFlight plan window number pool.old order.now.items → PoolLists plan frame.now window number scan order.now.items pool.old pool.new into.old into.new }
    ensures all { OnOk result (RowsListed pool.new order.now.items (length order.now.items)) }
{
    for place in 0..order.len() {
        let key = order[place];
        list_at(pool, alloc, &key, frame, scan, into)?;
    }
    Ok(())
}

/// The least tick for which a call of the row of a key waits.
fn due_at(pool: &Pool<RowCalls>, key: &Key) -> Option<u64>
    requires { IfSome (shown pool.now key.now) IsRow }
    ensures { result ≡ key_due pool.now key.now }
{
    match pool.get(key) {
        Some(row) => row.due(),
        None => None,
    }
}
