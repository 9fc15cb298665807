ghost use Rattle.std.specs.Prelude.{◌≡◌, ◌≤◌, length, IfOk, Err};
ghost use Rattle.sp_outside.specs.Causes.{Rose};
ghost use Rattle.sp_outside.specs.Files.{IsFile, IsAbsent, IsTooLong};

use sp_value::Text;
use std::alloc::Global;

/// Why a file was not read.
#[derive(Clone, Copy, Debug, PartialEq, Eq)]
pub enum ShelfEnd {
    Absent,
    Failed,
    TooLong,
    Memory,
}

/// Files by name.
pub trait Shelf {
    ghost use Rattle.std.specs.Prelude.{ℕ, List};
    ghost use Rattle.sp_outside.specs.Files.{FileTold};

    /// What is told of the file of a name: nothing, that there is none, or its bytes.
    ghost file: { Self → List ℕ → FileTold };

    /// How many faults there were.
    ghost faulted: { Self → ℕ };

    /// Reads a file of at most 1,048,576 bytes.
    fn read(&mut self, alloc: Global, name: &Text) -> Result<Vec<u8>, ShelfEnd>
        ensures found { IfOk result (λ v. IsFile (file self.old name.now) v.items) }
        ensures within { IfOk result (λ v. length v.items ≤ 1048576) }
        ensures absent { result ≡ Err ShelfEnd.Absent → IsAbsent (file self.old name.now) (faulted self.old) (faulted self.new) }
        ensures long { result ≡ Err ShelfEnd.TooLong → IsTooLong (file self.old name.now) }
        ensures failed { result ≡ Err ShelfEnd.Failed → Rose (faulted self.old) (faulted self.new) }
        ensures later { faulted self.old ≤ faulted self.new }
        ensures files { file self.new ≡ file self.old };

    /// The count of faults, which stays at `u64::MAX`.
    fn faults(&self) -> u64
        ensures { result ≡ faulted self.now };
}
