ghost use Rattle.std.specs.Prelude.{◌≡◌, IfOk};

use crate::cell::{Cell, copy_cell, copy_members};
use crate::kind::Kind;
use crate::members::Members;
use crate::rows::Rows;
use crate::text::{Memory, Text};
use crate::truth::Op;
use sqlite_items::Items;
use std::alloc::Global;

/// A value that can be copied, where there is memory for it.
pub trait TryCopy: Drop {
    /// The same value once more.
    fn copy(&self, alloc: Global) -> Result<Self, Memory>
        ensures { IfOk result (λ c. c ≡ self.now) };
}

impl TryCopy for Text {
    fn copy(&self, alloc: Global) -> Result<Text, Memory> {
        let text = Text::from_str(alloc, self.as_str())?;
        Ok(text)
    }
}

impl TryCopy for Cell {
    fn copy(&self, alloc: Global) -> Result<Cell, Memory> {
        let cell = copy_cell(alloc, self)?;
        Ok(cell)
    }
}

impl TryCopy for Members {
    fn copy(&self, alloc: Global) -> Result<Members, Memory> {
        let members = copy_members(alloc, self)?;
        Ok(members)
    }
}

impl TryCopy for Op {
    fn copy(&self, _alloc: Global) -> Result<Op, Memory> {
        Ok(*self)
    }
}

impl TryCopy for Kind {
    fn copy(&self, _alloc: Global) -> Result<Kind, Memory> {
        Ok(*self)
    }
}

impl TryCopy for Rows {
    fn copy(&self, alloc: Global) -> Result<Rows, Memory> {
        let mut copies = Rows::new(alloc);
        for row in self.as_slice() {
            copies.push(row.copy(alloc)?)?;
        }
        Ok(copies)
    }
}

impl<T: TryCopy> TryCopy for Items<T> {
    fn copy(&self, alloc: Global) -> Result<Items<T>, Memory> {
        let mut copies = Vec::with_capacity(alloc, self.len())?;
        for item in self.as_slice() {
            copies.push(item.copy(alloc)?)?;
        }
        Ok(Items::from_vec(copies))
    }
}

impl<T: TryCopy> TryCopy for Option<T> {
    fn copy(&self, alloc: Global) -> Result<Option<T>, Memory> {
        match self {
            Some(value) => Ok(Some(value.copy(alloc)?)),
            None => Ok(None),
        }
    }
}
