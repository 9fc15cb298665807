ghost use Rattle.std.specs.Prelude.{◌≡◌, ◌≤◌, ◌^◌, [], true, false, IfOk};
ghost use Rattle.std.specs.List.{AllByRecursion};
ghost use Rattle.rate_gate.specs.declared.entry.Entry.TheVariants.{Return};
ghost use Rattle.rate_gate.specs.Journal.{IsOpen, last_tick};
ghost use Rattle.rate_gate.specs.Limits.{IsLimiter, KeepsLimiters, noted};
ghost use Rattle.rate_gate.specs.Asking.{Answered};

use crate::call_tags::CallTags;
use crate::journal::Journal;
use crate::limited::Limited;
use crate::limits::{ask_all, end_all, limits_of};
use crate::permit::{Permit, Used};
use crate::wait::Wait;
use sp_model::Limiter;
use sp_value::Memory;
use std::alloc::Global;
use std::marker::Model;

/// Limiters, with the journal of their grants. Contracts see these two, from which follows what it answers.
#[derive(Drop)]
pub struct Gate {
    limits: Vec<Limited>,
    journal: Journal,
}

impl Model for Gate {
    ghost use Rattle.std.specs.List.{AllByRecursion};
    ghost use Rattle.rate_gate.specs.Limits.{GateView};
    ghost use Rattle.rate_gate.specs.Instances.{Fits, view_of};

    ghost Value = { GateView };

    ghost view = { λ g. view_of g.limits.items g.journal };

    ghost invariant = { λ g. AllByRecursion (Fits g.journal) g.limits.items };
}

impl Gate {
    /// The gate of these limiters, without grants.
    pub fn of(alloc: Global, limiters: &[Limiter]) -> Result<Gate, Memory>
        requires { AllByRecursion IsLimiter limiters.now }
        ensures { IfOk result (λ g. g ≡ record { limiters = limiters.now; journal = [] }) }
    {
        let limits = limits_of(alloc, limiters)?;
        Ok(Gate {
            limits,
            journal: Journal::new(alloc),
        })
    }

    /// The grants and returns so far, which keep the laws of each limiter.
    pub fn journal(&self) -> &Journal
        ensures journal { result.now ≡ self.now.journal }
        ensures law { KeepsLimiters self.now.limiters self.now.journal }
    {
        let _ = self.journal.last();
        &self.journal
    }

    /// Asks for a call: takes a place and a token of each of its instances, or of none.
    pub fn ask(&mut self, alloc: Global, call: &CallTags, tick: u64) -> Result<Permit, Wait>
        requires since { last_tick self.old.journal ≤ tick }
        requires range { tick ≤ 2 ^ 62 }
        ensures { Answered self.old call.now tick self.new result }
    {
        ask_all(
            alloc,
            self.limits.as_mut_slice(),
            &mut self.journal,
            call,
            tick,
        )
    }

    /// Returns a grant with which a call was sent. It takes no memory.
    pub fn give_back(&mut self, used: Used, tick: u64)
        requires open { IsOpen self.old.journal used.number used.tags }
        requires since { last_tick self.old.journal ≤ tick }
        requires range { tick ≤ 2 ^ 62 }
        ensures { self.new ≡ noted self.old (Return used.number tick true) }
    {
        let (number, tags) = used.into_parts();
        self.end(number, &tags, tick, true);
    }

    /// Returns a grant with which no call was sent. It takes no memory.
    pub fn hand_back(&mut self, permit: Permit, tick: u64)
        requires open { IsOpen self.old.journal permit.number permit.tags }
        requires since { last_tick self.old.journal ≤ tick }
        requires range { tick ≤ 2 ^ 62 }
        ensures { self.new ≡ noted self.old (Return permit.number tick false) }
    {
        let (number, tags) = permit.into_parts();
        self.end(number, &tags, tick, false);
    }

    fn end(&mut self, number: u64, tags: &CallTags, tick: u64, sent: bool)
        requires open { IsOpen self.old.journal number tags.now }
        requires since { last_tick self.old.journal ≤ tick }
        ensures { self.new ≡ noted self.old (Return number tick sent) }
    {
        end_all(
            self.limits.as_mut_slice(),
            &mut self.journal,
            number,
            tags,
            tick,
            sent,
        );
    }
}
