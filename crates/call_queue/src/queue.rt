ghost use Rattle.std.specs.Prelude.{◌≡◌, ℕ, ◌≤◌, ◌<◌, ◌^◌, List, IsOk, IfErr, OnOk, OnErr};
ghost use Rattle.rate_gate.specs.Journal.{last_tick};
ghost use Rattle.call_queue.specs.Lines.{no_jobs, with_job, with_room, without_session, emptied};
ghost use Rattle.call_queue.specs.Picking.{HasPicked};
ghost use Rattle.call_queue.specs.Queues.{line_of, KeepsOthers, KeepsAll};

use crate::lines::{
    NamedLine, clear_named, find_or_add, forget_all, pick_named, push_at, reserve_at,
};
use crate::picked::Picked;
use call_jobs::Job;
use rate_gate::Gate;
use sp_value::{Memory, Text};
use std::alloc::Global;
use std::marker::Model;

/// Jobs that wait to be made. Contracts see the line of each connection (`Queues.line_of`).
#[derive(Drop)]
pub struct Queue {
    lines: Vec<NamedLine>,
}

impl Model for Queue {
    ghost use Rattle.std.specs.Prelude.{List};
    ghost use Rattle.std.specs.Coded.{codes};
    ghost use Rattle.call_queue.specs.contracts.lines.NamedLine as named_lines;
    ghost use Rattle.call_queue.specs.declared.lines.NamedLine.{NamedLine};

    ghost Value = { List NamedLine };

    ghost coded = { Prim.hlevel (codes, named_lines.the_row.coded) };

    ghost view = { λ q. q.lines.items };
}

impl Queue {
    /// No jobs. It takes no memory.
    pub fn none(alloc: Global) -> Queue
        ensures { (connection : List ℕ) → line_of result connection ≡ no_jobs }
    {
        Queue {
            lines: Vec::new(alloc),
        }
    }

    /// Makes room for more jobs of a connection: so many can be put in without memory.
    pub fn reserve(&mut self, alloc: Global, connection: &Text, more: u32) -> Result<(), Memory>
        ensures ok { OnOk result (line_of self.new connection.now ≡ with_room more (line_of self.old connection.now)) }
        ensures others { KeepsOthers connection.now self.old self.new }
        ensures err { OnErr result (KeepsAll self.old self.new) }
    {
        let place = find_or_add(alloc, &mut self.lines, connection)?;
        reserve_at(self.lines.as_mut_slice(), place, more)
    }

    /// Puts a job into its connection's line, or beside it where it isn't due at tick 0. It is refused for memory alone, and not where there
    /// is room.
    pub fn push(&mut self, alloc: Global, job: Job) -> Result<(), Job>
        ensures ok { OnOk result (line_of self.new job.tags.connection ≡ with_job job (line_of self.old job.tags.connection)) }
        ensures job { IfErr result (λ back. back ≡ job) }
        ensures err { OnErr result (KeepsAll self.old self.new) }
        ensures others { KeepsOthers job.tags.connection self.old self.new }
        ensures room { 0 < (line_of self.old job.tags.connection).room → IsOk result }
    {
        match find_or_add(alloc, &mut self.lines, job.connection()) {
            Ok(place) => push_at(self.lines.as_mut_slice(), place, job),
            Err(_) => Err(job),
        }
    }

    /// Takes the first job of a connection out that is due at a tick and that the gate grants; or tells that there is none, with the least
    /// tick at which there may be one, where one is known.
    pub fn pick(&mut self, alloc: Global, connection: &Text, gate: &mut Gate, tick: u64) -> Picked
        requires since { last_tick gate.old.journal ≤ tick }
        requires range { tick ≤ 2 ^ 62 }
        ensures picked { HasPicked gate.old tick (line_of self.old connection.now) result (line_of self.new connection.now) gate.new }
        ensures others { KeepsOthers connection.now self.old self.new }
    {
        pick_named(alloc, self.lines.as_mut_slice(), connection, gate, tick)
    }

    /// Drops the jobs of a session. It takes no memory.
    pub fn forget(&mut self, session: u32)
        ensures { (connection : List ℕ) → line_of self.new connection ≡ without_session session (line_of self.old connection) }
    {
        forget_all(self.lines.as_mut_slice(), session);
    }

    /// Drops the jobs of a connection. It takes no memory.
    pub fn drop_connection(&mut self, connection: &Text)
        ensures line { line_of self.new connection.now ≡ emptied (line_of self.old connection.now) }
        ensures others { KeepsOthers connection.now self.old self.new }
    {
        clear_named(self.lines.as_mut_slice(), connection);
    }
}
