ghost use Rattle.std.specs.Prelude.{◌≡◌, IsTrue};
ghost use Rattle.sp_world.specs.Kept.{IsKeptForm, IsKeptValue};

use crate::kept_scan::KeptScan;
use crate::world::World;
use sp_model::ScanNote;
use sp_value::Rows;
use std::marker::{Model, PhantomData};

/// A finished scan that was steady. Contracts see what is kept; where the world tells, that is the book's.
#[derive(Drop)]
pub struct Kept<W: World> {
    scan: KeptScan,
    of: PhantomData<W>,
}

impl<W: World> Model for Kept<W> {
    ghost use Rattle.std.specs.Prelude.{IsTrue};
    ghost use Rattle.sp_world.specs.declared.kept_scan.KeptScan.{KeptScan};
    ghost use Rattle.sp_world.specs.contracts.kept_scan.KeptScan as kept_scans;
    ghost use Rattle.sp_world.specs.Kept.{IsKeptForm, IsKeptValue};

    ghost Value = { KeptScan };

    ghost coded = { kept_scans.the_row.coded };

    ghost view = { λ k. k.scan };

    ghost invariant = { λ k. IsKeptForm k.scan × (IsTrue W.tells → IsKeptValue W.book k.scan) };
}

impl<W: World> Kept<W> {
    /// What is kept of a scan. Each row has one cell for each column of the note's request, and the note's ticks are at most 2^62.
    /// Where the world tells, the note's version is the book's at the tick at which it was asked, and the rows are those of the book's
    /// table of that name at that version, by a steady walk, complete exactly where that came to the ending of its calls.
    pub fn of(scan: KeptScan) -> Kept<W>
        requires form { IsKeptForm scan }
        requires told { IsTrue W.tells → IsKeptValue W.book scan }
        ensures { result ≡ scan }
    {
        Kept {
            scan,
            of: PhantomData,
        }
    }

    /// The note.
    pub fn note(&self) -> &ScanNote
        ensures value { result.now ≡ self.now.note }
        ensures form { IsKeptForm self.now }
        ensures told { IsTrue W.tells → IsKeptValue W.book self.now }
    {
        &self.scan.note
    }

    /// The rows.
    pub fn rows(&self) -> &Rows
        ensures value { result.now ≡ self.now.rows }
        ensures form { IsKeptForm self.now }
        ensures told { IsTrue W.tells → IsKeptValue W.book self.now }
    {
        &self.scan.rows
    }

    /// What is kept, taken out.
    pub fn into_scan(self) -> KeptScan
        ensures value { result ≡ self }
        ensures form { IsKeptForm self }
        ensures told { IsTrue W.tells → IsKeptValue W.book self }
    {
        let Kept { scan, of: _ } = self;
        scan
    }

    /// Whether the scan came to the ending of its calls.
    pub fn complete(&self) -> bool
        ensures { result ≡ self.now.complete }
    {
        self.scan.complete
    }
}
