ghost use Rattle.std.specs.Prelude.{◌≡◌, ◌↔◌, ◌++◌, ◌∷◌, [], List, true, Err, None, IsTrue, IfSome, IfNone, OnOk, OnErr};
ghost use Rattle.std.specs.Option.{option_copied};
ghost use Rattle.sp_value.specs.declared.cell.Cell.{Cell};
ghost use Rattle.sp_model.specs.declared.call.Asked.TheVariants as asked;
ghost use Rattle.sp_model.specs.declared.call.Reply.{Reply};
ghost use Rattle.sp_world.specs.Pieces.{IsPieceOf, IsSoundPiece};
ghost use Rattle.row_stream.specs.Agreeing.{Agrees, IsWhole};
ghost use Rattle.row_stream.specs.Streams.{begun, is_out, fed, restarted};
ghost use Rattle.row_stream.specs.declared.fault.FeedFault.TheVariants.{OutOfPlace};

use crate::fault::FeedFault;
use sp_model::{CallKey, Ending, Piece};
use sp_value::Cell;
use sp_world::{Told, World};
use std::alloc::Global;
use std::collections::VecDeque;
use std::marker::{Model, PhantomData};

/// The reply to one call: its items that weren't taken yet, in the order of their places, however often its pieces come.
#[derive(Drop)]
pub struct ListStream<W: World> {
    call: CallKey,
    next: u64,
    have: u64,
    waiting: VecDeque<Cell>,
    ending: Option<Ending>,
    of: PhantomData<W>,
}

impl<W: World> Model for ListStream<W> {
    ghost use Rattle.std.specs.Coded.{codes};
    ghost use Rattle.sp_value.specs.contracts.cell.Cell as cells;
    ghost use Rattle.row_stream.specs.Streams.{Stream, IsStream};

    ghost Value = { Stream };

    ghost coded = { Prim.hlevel (codes, cells.the_row.coded) };

    ghost view = { λ s. record { call = s.call; next = s.next; have = s.have; waiting = s.waiting.items; ending = s.ending } };

    ghost invariant = { λ s. IsStream s.next s.have s.waiting.items };
}

impl<W: World> ListStream<W> {
    /// A call of which no piece came.
    pub fn begin(alloc: Global, call: CallKey) -> ListStream<W>
        ensures begun { result ≡ begun call }
        // Nothing was taken of the reply, whatever it is.
        ensures agrees { (reply : Reply) → Agrees [] result reply }
    {
        ListStream {
            call,
            next: 0,
            have: 0,
            waiting: VecDeque::new(alloc),
            ending: None,
            of: PhantomData,
        }
    }

    /// The call.
    pub fn call(&self) -> &CallKey
        ensures { result.now ≡ self.now.call }
    {
        &self.call
    }

    fn take_in(&mut self, piece: Piece) -> Result<(), FeedFault>
        requires { IsSoundPiece piece }
        ensures ok { OnOk result (self.new ≡ fed self.old piece) }
        ensures err { OnErr result (self.new ≡ self.old) }
        ensures out { (result ≡ Err OutOfPlace) ↔ (is_out self.old piece ≡ true) }
        ensures agrees { (reply : Reply) (taken : List Cell) → IsPieceOf reply piece → Agrees taken self.old reply → Agrees taken self.new reply }
    {
        match piece {
            Piece::Item { place, item } => {
                if place != self.next || self.ending.is_some() {
                    return Err(FeedFault::OutOfPlace);
                }
                if place < self.have {
                    self.next = place + 1;
                    return Ok(());
                }
                if self.waiting.push_back(item).is_err() {
                    return Err(FeedFault::Memory);
                }
                self.have += 1;
                self.next = place + 1;
                Ok(())
            }
            Piece::Ending { count, ending } => {
                if count != self.next || self.ending.is_some() {
                    return Err(FeedFault::OutOfPlace);
                }
                self.ending = Some(ending);
                Ok(())
            }
        }
    }

    /// Takes a piece of the call. It is out of place exactly where it isn't the next after the last since the last restart, or the
    /// ending came; then, and where memory is wanting, nothing changes. An item at a place at which one came before is passed over.
    pub fn feed(&mut self, piece: Told<W, Piece>) -> Result<(), FeedFault>
        requires { piece.0 ≡ asked.Call self.old.call }
        ensures ok { OnOk result (self.new ≡ fed self.old piece.1) }
        ensures err { OnErr result (self.new ≡ self.old) }
        ensures out { (result ≡ Err OutOfPlace) ↔ (is_out self.old piece.1 ≡ true) }
        // What was taken, what waits and what comes later are still the items of each reply of which this is a piece.
        ensures agrees { (reply : Reply) (taken : List Cell) → IsPieceOf reply piece.1 → Agrees taken self.old reply → Agrees taken self.new reply }
        // Where the world tells, the book's reply is such a one.
        ensures told { IsTrue W.tells → IsPieceOf (W.book.reply self.old.call) piece.1 }
    {
        self.take_in(piece.into_value())
    }

    /// Expects place 0, after a restart.
    pub fn again(&mut self)
        ensures restarted { self.new ≡ restarted self.old }
        ensures agrees { (reply : Reply) (taken : List Cell) → Agrees taken self.old reply → Agrees taken self.new reply }
    {
        self.next = 0;
    }

    /// Takes the first item that waits.
    pub fn next(&mut self) -> Option<Cell>
        ensures none { IfNone result (self.old.waiting ≡ []) }
        ensures unchanged { IfNone result (self.new ≡ self.old) }
        ensures some { IfSome result (λ item. self.old ≡ record self.new { waiting = item ∷ self.new.waiting }) }
        ensures agrees { (reply : Reply) (taken : List Cell) → Agrees taken self.old reply → IfSome result (λ item. Agrees (taken ++ item ∷ []) self.new reply) }
    {
        self.waiting.pop_front()
    }

    /// The ending, once it came.
    pub fn ended(&self) -> Option<&Ending>
        ensures ending { option_copied result ≡ self.now.ending }
        // What was taken and what waits are then all items of the reply.
        ensures whole { (reply : Reply) (taken : List Cell) → Agrees taken self.now reply → IfSome (option_copied result) (λ ending. IsWhole taken self.now reply ending) }
    {
        self.ending.as_ref()
    }
}
