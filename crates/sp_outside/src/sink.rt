ghost use Rattle.std.specs.Prelude.{◌≡◌, OnOk, OnErr, ◌≤◌};
ghost use Rattle.std.specs.Io.{WritesAtMost};
ghost use Rattle.std.specs.Io.KnownBytes.{WriteAppends, Appends};
ghost use Rattle.sp_outside.specs.Causes.{HasCause};
ghost use Rattle.sp_outside.specs.Writing.{GrewByPrefix, WritesSome};

use crate::failing::Failed;

/// Where bytes are written to.
pub trait Sink {
    ghost use Rattle.std.specs.Prelude.{ℕ, List};
    ghost use Rattle.std.specs.declared.option.Option.{Option};

    /// The bytes that it holds, where they are told.
    ghost held: { Self → Option (List ℕ) };

    /// How many faults there were.
    ghost faulted: { Self → ℕ };

    /// Writes some of the bytes, at least one where there is one.
    fn write(&mut self, from: &[u8]) -> Result<usize, Failed>
        ensures bound { WritesAtMost result from.now }
        ensures bytes { WriteAppends (held self.old) (held self.new) result from.now }
        ensures some { WritesSome result from.now }
        ensures cause { HasCause (faulted self.old) (faulted self.new) result };

    /// The count of faults, which stays at `u64::MAX`.
    fn faults(&self) -> u64
        ensures { result ≡ faulted self.now };
}

/// Writes all of the text. After a fault the sink holds a beginning of it.
pub fn write_all<K: Sink>(sink: &mut K, text: &[u8]) -> Result<(), Failed>
    ensures whole { OnOk result (Appends (K.held sink.old) (K.held sink.new) text.now) }
    ensures part { OnErr result (GrewByPrefix (K.held sink.old) (K.held sink.new) text.now) }
    ensures cause { HasCause (K.faulted sink.old) (K.faulted sink.new) result }
{
    let mut rest = text;
    while !rest.is_empty() {
        let count = sink.write(rest)?;
        rest = &rest[count..];
    }
    Ok(())
}
