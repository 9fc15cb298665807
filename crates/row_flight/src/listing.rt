ghost use Rattle.std.specs.Prelude.{◌≡◌, true, IfOk, OnOk};
ghost use Rattle.hydrate_graph.specs.Graphs.{is_ready};
ghost use Rattle.row_flight.specs.Flying.{key_at};
ghost use Rattle.row_flight.specs.Jobs.{IsCallOf, RowLists};
ghost use Rattle.row_flight.specs.Rows.{attempt_of, AreListed, IsRow};

use crate::frame::{CallFrame, JobList, Wanted};
use crate::row::RowCalls;
use hydrate_graph::ReadyList;
use sp_model::{CallKey, Seat};
use sp_value::{Memory, TryCopy};
use std::alloc::Global;

impl RowCalls {
    /// The present call of a function that is ready.
    fn wanted(&self, alloc: Global, frame: &CallFrame, seat: Seat) -> Result<Wanted, Memory>
        requires row { IsRow self.now }
        requires ready { is_ready self.now.graph seat.function ≡ true }
        ensures { IfOk result (λ w. IsCallOf frame.now seat self.now w) }
    {
        let call = self.call(alloc, &frame.table, seat.function)?;
        let connection = frame.connection.copy(alloc)?;
        let attempt = self.attempt(seat.function);
        Ok(Wanted {
            call: CallKey {
                connection,
                version: frame.version,
                call,
                attempt: attempt.attempt(),
            },
            seat,
            due: attempt.due,
        })
    }

    /// Lists the present call of a function that is ready, unless it is listed.
    fn list_one(
        &mut self,
        alloc: Global,
        frame: &CallFrame,
        seat: Seat,
        into: &mut JobList,
    ) -> Result<(), Memory>
        requires row { IsRow self.old }
        requires ready { is_ready self.old.graph seat.function ≡ true }
        ensures lists { RowLists frame.now seat.scan (key_at seat) self.old self.new into.old into.new }
        ensures listed { OnOk result ((attempt_of self.new seat.function).listed ≡ true) }
    {
        if self.attempt(seat.function).listed {
            return Ok(());
        }
        let wanted = self.wanted(alloc, frame, seat)?;
        into.push(wanted)?;
        self.list_function(seat.function);
        Ok(())
    }

    /// Lists each call of the row that is ready and wasn't listed before, for the seats of this row.
    pub(crate) fn list(
        &mut self,
        alloc: Global,
        frame: &CallFrame,
        seat: Seat,
        into: &mut JobList,
    ) -> Result<(), Memory>
        requires { IsRow self.old }
        ensures lists { RowLists frame.now seat.scan (key_at seat) self.old self.new into.old into.new }
        ensures all { OnOk result (AreListed self.new) }
    {
        if self.all_listed {
            return Ok(());
        }
        let mut ready = ReadyList::new();
        self.graph.ready(&mut ready);
        for function in ready.as_slice() {
            let seat = Seat {
                scan: seat.scan,
                slot: seat.slot,
                generation: seat.generation,
                function: *function,
            };
            self.list_one(alloc, frame, seat, into)?;
        }
        self.all_listed = true;
        Ok(())
    }
}
