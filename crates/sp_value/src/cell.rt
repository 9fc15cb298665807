ghost use Rattle.std.specs.Prelude.{◌≡◌, IfOk};
ghost use Rattle.sp_value.specs.Names.{values_of};

use crate::lists::copy_texts;
use crate::members::Members;
use crate::text::{Memory, Text};
use sqlite_items::Items;
use std::alloc::Global;

/// A value: nothing, a boolean, an integer of 64 bits, a text, a list, or values under names.
#[derive(Drop)]
pub enum Cell {
    Null,
    Bool(bool),
    Int(i64),
    Text(Text),
    List(Items<Cell>),
    Object(Members),
}

#[cycle(copy)]
pub(crate) fn copy_cell(alloc: Global, cell: &Cell) -> Result<Cell, Memory>
    ensures { IfOk result (λ c. c ≡ cell.now) }
{
    match cell {
        Cell::Null => Ok(Cell::Null),
        Cell::Bool(b) => Ok(Cell::Bool(*b)),
        Cell::Int(n) => Ok(Cell::Int(*n)),
        Cell::Text(t) => Ok(Cell::Text(Text::from_str(alloc, t.as_str())?)),
        Cell::List(cells) => Ok(Cell::List(copy_cells(alloc, cells.as_slice())?)),
        Cell::Object(members) => Ok(Cell::Object(copy_members(alloc, members)?)),
    }
}

impl Members<Cell> {
    /// Equal members, unless memory is wanting.
    pub fn copy(&self, alloc: Global) -> Result<Members<Cell>, Memory>
        ensures { IfOk result (λ ms. ms ≡ self.now) }
    {
        copy_members(alloc, self)
    }
}

/// Equal values in the same order, unless memory is wanting.
#[cycle(copy)]
pub fn copy_cells(alloc: Global, cells: &[Cell]) -> Result<Items<Cell>, Memory>
    ensures { IfOk result (λ cs. cs ≡ cells.now) }
{
    let mut copies = Vec::with_capacity(alloc, cells.len())?;
    for cell in cells {
        copies.push(copy_cell(alloc, cell)?)?;
    }
    Ok(Items::from_vec(copies))
}

#[cycle(copy)]
#[tactic(auto, using(crate::proofs::Zips::zip_parts, crate::proofs::Zips::length_parts))]
pub(crate) fn copy_members(alloc: Global, members: &Members<Cell>) -> Result<Members<Cell>, Memory>
    ensures { IfOk result (λ ms. ms ≡ members.now) }
{
    let names = copy_texts(alloc, members.names())?;
    let values = copy_cells(alloc, members.values())?;
    Ok(Members::from_parts(names, values))
}
