ghost use Rattle.std.specs.Prelude.{◌≡◌, ◌≤◌, length, IfOk, OnErr, Err};
ghost use Rattle.std.specs.Io.{ReadsAtMost};
ghost use Rattle.std.specs.Io.KnownBytes.{ReadConsumes};
ghost use Rattle.sp_outside.specs.Causes.{HasCause, Rose};
ghost use Rattle.sp_outside.specs.Reading.{ReadsWhole, ReadsBeginning, IsLonger};

use crate::failing::Failed;
use std::alloc::Global;

/// Where bytes are read from.
pub trait ByteSource {
    ghost use Rattle.std.specs.Prelude.{ℕ, List};
    ghost use Rattle.std.specs.declared.option.Option.{Option};

    /// The bytes that are left, where they are told.
    ghost left: { Self → Option (List ℕ) };

    /// How many faults there were.
    ghost faulted: { Self → ℕ };

    /// Reads some bytes. None into a slice that has room is the end.
    fn read(&mut self, into: &mut [u8]) -> Result<usize, Failed>
        ensures bound { ReadsAtMost result into.new }
        ensures bytes { ReadConsumes (left self.old) (left self.new) result into.new }
        ensures cause { HasCause (faulted self.old) (faulted self.new) result };

    /// The count of faults, which stays at `u64::MAX`.
    fn faults(&self) -> u64
        ensures { result ≡ faulted self.now };
}

/// Why a source was not read to its end.
#[derive(Clone, Copy, Debug, PartialEq, Eq)]
pub enum ReadEnd {
    Failed,
    TooLong,
    Memory,
}

/// Reads all that is left, which may be at most `limit` bytes.
pub fn read_to_limit<S: ByteSource>(
    alloc: Global,
    source: &mut S,
    limit: usize,
) -> Result<Vec<u8>, ReadEnd>
    ensures whole { IfOk result (λ v. ReadsWhole (S.left source.old) (S.left source.new) v.items) }
    ensures within { IfOk result (λ v. length v.items ≤ limit) }
    ensures long { result ≡ Err ReadEnd.TooLong → IsLonger (S.left source.old) limit }
    ensures part { OnErr result (ReadsBeginning (S.left source.old) (S.left source.new)) }
    ensures later { S.faulted source.old ≤ S.faulted source.new }
    ensures failed { result ≡ Err ReadEnd.Failed → Rose (S.faulted source.old) (S.faulted source.new) }
{
    let mut bytes = Vec::new(alloc);
    let mut chunk = [0u8; 4096];
    while bytes.len() <= limit {
        let Ok(count) = source.read(&mut chunk) else {
            return Err(ReadEnd::Failed);
        };
        if count == 0 {
            return Ok(bytes);
        }
        let Ok(()) = bytes.extend_from_slice(&chunk[..count]) else {
            return Err(ReadEnd::Memory);
        };
    }
    Err(ReadEnd::TooLong)
}
