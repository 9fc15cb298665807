ghost use Rattle.std.specs.Prelude.{◌≡◌, ◌≤◌, length, IfOk, Err, Some, Contains, option_copied};
ghost use Rattle.sp_outside.specs.Causes.{Rose, up};
ghost use Rattle.sp_outside.specs.Files.{IsFile, IsAbsent, IsTooLong};
ghost use Rattle.sp_outside.specs.Memories.{file_of};

use crate::failing::fails_now;
use crate::shelf::{Shelf, ShelfEnd};
use sp_value::Text;
use sqlite_items::Items;
use std::alloc::Global;
use std::marker::Model;

/// How many bytes a file may have.
const LIMIT: usize = 1_048_576;

/// Files in memory, by name; the first of a name counts. The reads of the listed numbers, from 0, fail.
#[derive(Drop)]
pub struct MemoryShelf {
    files: Items<(Text, Items<u8>)>,
    fails: Items<u64>,
    reads: u64,
    faults: u64,
}

impl Model for MemoryShelf {
    ghost use Rattle.sp_outside.specs.Memories.{ShelfState};

    ghost Value = { ShelfState };

    ghost view = { λ s. record { files = s.files; fails = s.fails; reads = s.reads; faults = s.faults } };
}

impl MemoryShelf {
    /// A shelf with these files.
    pub fn new(files: Items<(Text, Items<u8>)>, fails: Items<u64>) -> MemoryShelf
        ensures { result ≡ record { files = files; fails = fails; reads = 0; faults = 0 } }
    {
        MemoryShelf {
            files,
            fails,
            reads: 0,
            faults: 0,
        }
    }
}

/// The bytes of the first file of this name.
fn find<'a>(files: &'a [(Text, Items<u8>)], name: &str) -> Option<&'a Items<u8>>
    ensures { option_copied result ≡ file_of files.now name.now }
{
    for (named, bytes) in files {
        if named.as_str() == name {
            return Some(bytes);
        }
    }
    None
}

impl Shelf for MemoryShelf {
    ghost use Rattle.sp_outside.specs.Files.{told_whole};
    ghost use Rattle.sp_outside.specs.Memories.{file_of};

    ghost file = { λ s name. told_whole (file_of s.files name) };

    ghost faulted = { λ s. s.faults };

    fn read(&mut self, alloc: Global, name: &Text) -> Result<Vec<u8>, ShelfEnd> {
        if fails_now(&self.fails, &mut self.reads) {
            self.faults = self.faults.saturating_add(1);
            return Err(ShelfEnd::Failed);
        }
        let Some(bytes) = find(self.files.as_slice(), name.as_str()) else {
            return Err(ShelfEnd::Absent);
        };
        if bytes.len() > LIMIT {
            return Err(ShelfEnd::TooLong);
        }
        match Vec::from_slice(alloc, bytes.as_slice()) {
            Ok(copy) => Ok(copy),
            Err(_) => Err(ShelfEnd::Memory),
        }
    }

    fn faults(&self) -> u64 {
        self.faults
    }
}
