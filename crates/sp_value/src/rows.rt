ghost use Rattle.std.specs.Prelude.{◌≡◌, [], ◌∷◌, ◌++◌, take, length, OnOk, OnErr};
ghost use Rattle.std.specs.Fn.{CalledAt};
ghost use Rattle.std.specs.List.Retain.{IsFiltered};
ghost use Rattle.std.specs.List.Sorted.{IsSortedByClosure, IsStableByClosure};

use crate::lists::Cells;
use std::alloc::{AllocError, Global};
use std::cmp::Ordering;
use std::marker::Model;

/// Rows of values, seen by contracts as a list of lists. They can be filtered, sorted and cut where they stand.
#[derive(Drop)]
pub struct Rows {
    rows: Vec<Cells>,
}

impl Model for Rows {
    ghost use Rattle.std.specs.Prelude.{List};
    ghost use Rattle.std.specs.Coded.{codes};
    ghost use Rattle.sp_value.specs.declared.cell.Cell.{Cell};
    ghost use Rattle.sp_value.specs.contracts.cell.Cell as cell;

    ghost Value = { List (List Cell) };

    ghost coded = { Prim.hlevel (codes, cell.the_row.coded) };

    ghost view = { λ r. r.rows.items };
}

impl Rows {
    pub fn new(alloc: Global) -> Rows
        ensures { result ≡ [] }
    {
        Rows {
            rows: Vec::new(alloc),
        }
    }

    /// Puts a row at the end.
    pub fn push(&mut self, row: Cells) -> Result<(), AllocError>
        ensures ok { OnOk result (self.new ≡ self.old ++ row ∷ []) }
        ensures err { OnErr result (self.new ≡ self.old) }
    {
        self.rows.push(row)?;
        Ok(())
    }

    /// The rows, lent.
    pub fn as_slice(&self) -> &[Cells]
        ensures { result.now ≡ self.now }
    {
        self.rows.as_slice()
    }

    /// The number of rows.
    pub fn len(&self) -> usize
        ensures { result ≡ length self.now }
    {
        self.rows.len()
    }

    /// Keeps the rows at which `test` says true, in their order.
    pub fn retain<F: FnMut(&Cells) -> bool>(&mut self, test: F)
        requires { F.IsAlwaysCallable test }
        ensures { IsFiltered (CalledAt F.FnMut) test self.old self.new }
    {
        self.rows.retain(test);
    }

    /// Sorts by `compare`. Rows that it calls equal keep their order.
    pub fn sort_by<F: FnMut(&Cells, &Cells) -> Ordering>(
        &mut self,
        compare: F,
    ) -> Result<(), AllocError>
        requires { F.IsAlwaysCallable compare }
        ensures sorted { OnOk result (IsSortedByClosure F.FnMut compare self.new) }
        ensures stable { IsStableByClosure F.FnMut compare self.old self.new }
        ensures err { OnErr result (self.new ≡ self.old) }
    {
        self.rows.sort_by(compare)
    }

    /// Drops the rows after the first `count`.
    pub fn truncate(&mut self, count: usize)
        ensures { self.new ≡ take count self.old }
    {
        self.rows.truncate(count);
    }
}
