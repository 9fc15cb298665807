ghost use Rattle.std.specs.Prelude.{◌≡◌, ◌≤◌, ◌≢◌, IfOk, Err, length};
ghost use Rattle.sp_outside.specs.Reading.{IsLonger};

use sp_outside::{ReadEnd, Shelf, ShelfEnd, read_to_limit};
use sp_value::Text;
use std::alloc::Global;
use std::fs::{self, Files};
use std::io::{ErrorKind, Read};
use std_streams::ReaderSource;

const LIMIT: usize = 1_048_576;

/// The files of the working directory. It tells nothing of them, and counts what it could not read, an absent file too.
#[derive(Drop)]
pub(crate) struct FolderShelf<R: Files + Drop> {
    rt: R,
    faults: u64,
}

impl<R: Files + Drop> FolderShelf<R> {
    pub(crate) fn new(rt: R) -> FolderShelf<R> {
        FolderShelf { rt, faults: 0 }
    }
}

/// Reads all that a file has left, which may be at most 1,048,576 bytes.
fn read_whole<F: Read + Drop>(alloc: Global, file: F) -> Result<Vec<u8>, ShelfEnd>
    ensures within { IfOk result (λ v. length v.items ≤ 1048576) }
    ensures present { result ≢ Err ShelfEnd.Absent }
    ensures long { result ≡ Err ShelfEnd.TooLong → IsLonger (F.remaining file) 1048576 }
{
    let mut source = ReaderSource::new(file);
    match read_to_limit(alloc, &mut source, LIMIT) {
        Ok(bytes) => Ok(bytes),
        Err(ReadEnd::TooLong) => Err(ShelfEnd::TooLong),
        Err(ReadEnd::Memory) => Err(ShelfEnd::Memory),
        Err(ReadEnd::Failed) => Err(ShelfEnd::Failed),
    }
}

fn read_file<R: Files>(rt: &R, alloc: Global, name: &str) -> Result<Vec<u8>, ShelfEnd>
    ensures { IfOk result (λ v. length v.items ≤ 1048576) }
{
    match fs::open(rt, name) {
        Ok(file) => read_whole(alloc, file),
        Err(error) if error.kind() == ErrorKind::NotFound => Err(ShelfEnd::Absent),
        Err(_) => Err(ShelfEnd::Failed),
    }
}

impl<R: Files + Drop> Shelf for FolderShelf<R> {
    ghost use Rattle.sp_outside.specs.Files.{Untold};

    ghost file = { λ _ _. Untold };

    ghost faulted = { λ s. s.faults };

    fn read(&mut self, alloc: Global, name: &Text) -> Result<Vec<u8>, ShelfEnd> {
        let read = read_file(&self.rt, alloc, name.as_str());
        if matches!(&read, Err(ShelfEnd::Absent | ShelfEnd::Failed)) {
            self.faults = self.faults.saturating_add(1);
        }
        read
    }

    fn faults(&self) -> u64 {
        self.faults
    }
}
