ghost use Rattle.std.specs.Prelude.{◌≡◌, ◌<◌, ◌-◌, ◌+◌, ◌^◌, suc, min, false, Some, None, IfOk, OnOk, OnErr};
ghost use Rattle.sp_model.specs.Settling.{judged};
ghost use Rattle.sp_model.specs.declared.call.Ending.TheVariants as ending;
ghost use Rattle.sp_world.specs.Pieces.{IsSoundPiece};
ghost use Rattle.row_flight.specs.Attempts.{fresh, is_next, accepted, asked_again, over, outcome_by, attempt_by, with_item, heard_outcome, heard_attempt, listed_attempt, IsAttempt};

use retry_ignore::{Verdict, judge};
use sp_model::{Cause, Ending, Outcome, Piece, Rule};
use sp_value::{Cell, Memory, Text, TryCopy};
use std::alloc::Global;

/// The present attempt of a function's call for a row: how many attempts were asked again before it, whether it is listed, the tick
/// before which it isn't sent, the place of its next piece, and the item at place 0, once that came.
#[derive(Drop)]
pub struct Attempt {
    pub(crate) tries: u32,
    pub(crate) listed: bool,
    pub(crate) due: u64,
    pub(crate) next: u64,
    pub(crate) item: Option<Cell>,
}

impl Attempt {
    /// The first attempt, which isn't listed.
    pub(crate) fn fresh() -> Attempt
        ensures { result ≡ fresh }
    {
        Attempt {
            tries: 0,
            listed: false,
            due: 0,
            next: 0,
            item: None,
        }
    }

    /// Its number, from 1.
    pub(crate) fn attempt(&self) -> u32
        requires { IsAttempt self.now }
        ensures { result ≡ suc self.now.tries }
    {
        self.tries + 1
    }

    /// Whether a piece is the next.
    pub(crate) fn is_next(&self, piece: &Piece) -> bool
        ensures { result ≡ is_next self.now piece.now }
    {
        let place = match piece {
            Piece::Item { place, .. } => *place,
            Piece::Ending { count, .. } => *count,
        };
        place == 0 || place == self.next
    }

    /// It is listed.
    pub(crate) fn list(&mut self)
        ensures { self.new ≡ listed_attempt self.old }
    {
        self.listed = true;
    }

    fn take_item(&mut self, place: u64, item: Cell)
        requires { place < 999999 }
        ensures { self.new ≡ with_item place item self.old }
    {
        if self.item.is_none() {
            self.item = Some(item);
        }
        self.next = place + 1;
    }

    fn end(&mut self)
        ensures { self.new ≡ over self.old }
    {
        self.next = 0;
        self.item = None;
    }

    /// The call is accepted, after so many items.
    fn accept(&mut self, alloc: Global, function: &Text, count: u64) -> Result<Outcome, Memory>
        ensures outcome { IfOk result (λ outcome. outcome ≡ accepted function.now count self.old.item) }
        ensures ok { OnOk result (self.new ≡ over self.old) }
        ensures err { OnErr result (self.new ≡ self.old) }
    {
        if count > 1 {
            let function = function.copy(alloc)?;
            self.end();
            return Ok(Outcome::Fails(Cause::TooMany { function, count }));
        }
        let item = self.item.take();
        self.next = 0;
        match item {
            Some(cell) if count == 1 => Ok(Outcome::Gave(cell)),
            _ => Ok(Outcome::Gave(Cell::Null)),
        }
    }

    fn ask_again(&mut self, tick: u64, delay: u64)
        requires { suc self.old.tries < 2 ^ 32 }
        ensures { self.new ≡ record { tries = suc self.old.tries; listed = false; due = min (2 ^ 64 - 1) (tick + delay); next = 0; item = None } }
    {
        self.tries += 1;
        self.listed = false;
        self.due = tick.saturating_add(delay);
        self.end();
    }

    /// The call ends with an error.
    fn fail(
        &mut self,
        alloc: Global,
        rule: &Rule,
        function: &Text,
        count: u64,
        text: Text,
        tick: u64,
    ) -> Result<Option<Outcome>, Memory>
        requires { IsAttempt self.old }
        ensures outcome { IfOk result (λ outcome. outcome ≡ outcome_by (judged rule.now (suc self.old.tries) (Some (ending.Error text))) function.now count self.old) }
        ensures attempt { OnOk result (self.new ≡ attempt_by (judged rule.now (suc self.old.tries) (Some (ending.Error text))) rule.now tick self.old) }
        ensures err { OnErr result (self.new ≡ self.old) }
        ensures sound { IsAttempt self.new }
    {
        let attempt = self.attempt();
        match judge(rule, attempt, &text) {
            Verdict::Ignore => {
                let outcome = self.accept(alloc, function, count)?;
                Ok(Some(outcome))
            }
            Verdict::Again { delay } => {
                self.ask_again(tick, delay);
                Ok(None)
            }
            Verdict::Fail => {
                let function = function.copy(alloc)?;
                self.end();
                Ok(Some(Outcome::Fails(Cause::Error {
                    function,
                    attempt,
                    text,
                })))
            }
        }
    }

    /// Takes a piece in at this tick: what the call gives, if the piece ends it. For want of memory nothing changes.
    pub(crate) fn hear(
        &mut self,
        alloc: Global,
        rule: &Rule,
        function: &Text,
        piece: Piece,
        tick: u64,
    ) -> Result<Option<Outcome>, Memory>
        requires sound_piece { IsSoundPiece piece }
        requires sound { IsAttempt self.old }
        ensures outcome { IfOk result (λ outcome. outcome ≡ heard_outcome rule.now function.now piece self.old) }
        ensures attempt { OnOk result (self.new ≡ heard_attempt rule.now tick piece self.old) }
        ensures err { OnErr result (self.new ≡ self.old) }
        ensures sound { IsAttempt self.new }
    {
        match piece {
            Piece::Item { place, item } => {
                self.take_item(place, item);
                Ok(None)
            }
            Piece::Ending { count, ending } => match ending {
                Ending::End => {
                    let outcome = self.accept(alloc, function, count)?;
                    Ok(Some(outcome))
                }
                Ending::Error(text) => {
                    let outcome = self.fail(alloc, rule, function, count, text, tick)?;
                    Ok(outcome)
                }
            },
        }
    }
}
