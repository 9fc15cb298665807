ghost use Rattle.std.specs.Prelude.{◌≡◌, ◌<◌, ◌≤◌, ◌^◌, length, replicate, get_or, slice_get, slice_set, Some, IfOk, IfSome, OnOk, OnErr, All};
ghost use Rattle.std.specs.Option.{option_copied};
ghost use Rattle.sp_world.specs.Pieces.{IsSoundPiece};
ghost use Rattle.row_flight.specs.Attempts.{fresh, heard_outcome, heard_attempt, listed_attempt, IsAttempt};

use crate::attempt::Attempt;
use sp_model::{Outcome, Piece, Rule};
use sp_value::{Memory, Text};
use std::alloc::Global;
use std::marker::Model;

/// The present attempts of a row's calls, one for each function that a column needs. Contracts see the list.
#[derive(Drop)]
pub struct Attempts {
    attempts: Vec<Attempt>,
}

impl Model for Attempts {
    ghost use Rattle.std.specs.Prelude.{List, All};
    ghost use Rattle.std.specs.Coded.{codes};
    ghost use Rattle.sp_value.specs.contracts.cell.Cell as cells;
    ghost use Rattle.row_flight.specs.Attempts.{IsAttempt};
    ghost use Rattle.row_flight.specs.declared.attempt.Attempt.{Attempt};

    ghost Value = { List Attempt };

    ghost coded = { Prim.hlevel (codes, cells.the_row.coded) };

    ghost view = { λ a. a.attempts.items };

    ghost invariant = { λ a. All IsAttempt a.attempts.items };
}

impl Attempts {
    /// So many first attempts.
    pub(crate) fn begin(alloc: Global, count: u32) -> Result<Attempts, Memory>
        ensures { IfOk result (λ attempts. attempts ≡ replicate count fresh) }
    {
        let mut attempts = Vec::with_capacity(alloc, count as usize)?;
        for _slot in 0..count {
            attempts.push(Attempt::fresh())?;
        }
        Ok(Attempts { attempts })
    }

    /// The attempt in a slot.
    pub(crate) fn at(&self, slot: u32) -> &Attempt
        requires { slot < length self.now }
        ensures value { result.now ≡ get_or self.now slot fresh }
        ensures sound { IsAttempt result.now }
    {
        &self.attempts[slot as usize]
    }

    /// The attempt in a slot is listed.
    pub(crate) fn list(&mut self, slot: u32)
        requires { slot < length self.old }
        ensures { self.new ≡ slice_set self.old slot (listed_attempt (get_or self.old slot fresh)) }
    {
        self.attempts[slot as usize].list();
    }

    /// The attempt in a slot takes a piece in. For want of memory nothing changes.
    pub(crate) fn hear(
        &mut self,
        alloc: Global,
        slot: u32,
        rule: &Rule,
        function: &Text,
        piece: Piece,
        tick: u64,
    ) -> Result<Option<Outcome>, Memory>
        requires sound_piece { IsSoundPiece piece }
        requires within { slot < length self.old }
        ensures outcome { IfOk result (λ outcome. outcome ≡ heard_outcome rule.now function.now piece (get_or self.old slot fresh)) }
        ensures attempt { OnOk result (self.new ≡ slice_set self.old slot (heard_attempt rule.now tick piece (get_or self.old slot fresh))) }
        ensures err { OnErr result (self.new ≡ self.old) }
    {
        let outcome = self.attempts[slot as usize].hear(alloc, rule, function, piece, tick)?;
        Ok(outcome)
    }
}
