ghost use Rattle.std.specs.Prelude.{◌≡◌, IsTrue};
ghost use Rattle.std.specs.Arc.{arc_value};

use crate::world::World;
use serde_json::Value;
use sp_model::{Asked, Piece, Version};
use std::alloc::Global;
use std::marker::{Model, PhantomData};
use std::sync::Arc;

/// What can be told of a book.
pub trait Said: Drop {
    ghost use Rattle.sp_model.specs.Book.{Book};
    ghost use Rattle.sp_model.specs.declared.call.Asked.{Asked};

    /// It is the book's for what was asked.
    ghost is_of: { Book → Asked → Self → Type 0 };

    /// It is of the form that every world keeps.
    ghost is_sound: { Self → Type 0 };
}

impl Said for Piece {
    ghost use Rattle.sp_world.specs.Pieces.{IsToldPiece, IsSoundPiece};

    ghost is_of = { IsToldPiece };

    ghost is_sound = { IsSoundPiece };
}

impl Said for Version {
    ghost use Rattle.sp_world.specs.Pieces.{IsToldVersion, IsSoundVersion};

    ghost is_of = { IsToldVersion };

    ghost is_sound = { IsSoundVersion };
}

impl Said for Value {
    ghost use Rattle.sp_world.specs.Pieces.{IsToldDeclaration, IsSoundDeclaration};

    ghost is_of = { IsToldDeclaration };

    ghost is_sound = { IsSoundDeclaration };
}

/// What a line tells.
#[derive(Drop)]
pub enum ToldLine<W: World> {
    Piece(Told<W, Piece>),
    Version(Told<W, Version>),
    Declaration(Told<W, Value>),
}

/// A piece, version or declaration beside what was asked, which all that is told of one call share.
#[derive(Drop)]
pub struct Told<W: World, T: Said> {
    asked: Arc<Asked, Global>,
    value: T,
    of: PhantomData<W>,
}

impl<W: World, T: Said> Model for Told<W, T> {
    ghost use Rattle.std.specs.Prelude.{IsTrue};
    ghost use Rattle.sp_model.specs.declared.call.Asked.{Asked};
    ghost use Rattle.std.specs.Arc.{arc_value};
    ghost use Rattle.std.specs.Coded.{codes};
    ghost use Rattle.sp_value.specs.contracts.cell.Cell as cells;

    ghost Value = { Asked × T };

    ghost coded = { Prim.hlevel (codes, cells.the_row.coded) };

    ghost view = { λ t. (arc_value t.asked, t.value) };

    ghost invariant = { λ t. (IsTrue W.tells → T.is_of W.book (arc_value t.asked) t.value) × T.is_sound t.value };
}

impl<W: World, T: Said> Told<W, T> {
    pub fn of(asked: Arc<Asked, Global>, value: T) -> Told<W, T>
        requires told { IsTrue W.tells → T.is_of W.book (arc_value asked) value }
        requires sound { T.is_sound value }
        ensures { result ≡ (arc_value asked, value) }
    {
        Told {
            asked,
            value,
            of: PhantomData,
        }
    }

    pub fn get(&self) -> &T
        ensures value { result.now ≡ self.now.1 }
        ensures told { IsTrue W.tells → T.is_of W.book self.now.0 self.now.1 }
        ensures sound { T.is_sound self.now.1 }
    {
        &self.value
    }

    pub fn asked(&self) -> &Asked
        ensures value { result.now ≡ self.now.0 }
        ensures told { IsTrue W.tells → T.is_of W.book self.now.0 self.now.1 }
        ensures sound { T.is_sound self.now.1 }
    {
        &self.asked
    }
    /// The value, moved out.
    pub fn into_value(self) -> T
        ensures value { result ≡ self.1 }
        ensures told { IsTrue W.tells → T.is_of W.book self.0 self.1 }
        ensures sound { T.is_sound self.1 }
    {
        self.value
    }
}
