ghost use Rattle.std.specs.Prelude.{◌≡◌, [], length, min, IfOk, IsErr, Some, Contains};
ghost use Rattle.std.specs.Io.{WritesAtMost};
ghost use Rattle.std.specs.Io.KnownBytes.{WriteAppends};
ghost use Rattle.sp_outside.specs.Causes.{HasCause, up};
ghost use Rattle.sp_outside.specs.Writing.{WritesSome};

use crate::failing::{Failed, fails_now};
use crate::sink::Sink;
use sqlite_items::Items;
use std::alloc::Global;
use std::marker::Model;

/// Bytes in memory, taken in pieces of at most `piece` bytes. The writes of the listed numbers, from 0, fail;
/// so do those for which there is no memory, and, where `piece` is 0, those of some bytes.
#[derive(Drop)]
pub struct MemorySink {
    held: Vec<u8>,
    piece: usize,
    fails: Items<u64>,
    writes: u64,
    faults: u64,
}

impl Model for MemorySink {
    ghost use Rattle.sp_outside.specs.Memories.{SinkState};

    ghost Value = { SinkState };

    ghost view = { λ s. record { held = s.held.items; piece = s.piece; fails = s.fails; writes = s.writes; faults = s.faults } };
}

impl MemorySink {
    /// A sink that holds nothing.
    pub fn new(alloc: Global, piece: usize, fails: Items<u64>) -> MemorySink
        ensures { result ≡ record { held = []; piece = piece; fails = fails; writes = 0; faults = 0 } }
    {
        MemorySink {
            held: Vec::new(alloc),
            piece,
            fails,
            writes: 0,
            faults: 0,
        }
    }

    /// The bytes that it holds.
    pub fn held(&self) -> &[u8]
        ensures { result.now ≡ self.now.held }
    {
        self.held.as_slice()
    }
}

impl Sink for MemorySink {
    ghost use Rattle.std.specs.Prelude.{Some};

    ghost held = { λ s. Some s.held };

    ghost faulted = { λ s. s.faults };

    fn write(&mut self, from: &[u8]) -> Result<usize, Failed>
        ensures bound { WritesAtMost result from.now }
        ensures bytes { WriteAppends (Some self.old.held) (Some self.new.held) result from.now }
        ensures some { WritesSome result from.now }
        ensures cause { HasCause self.old.faults self.new.faults result }
        ensures fails { Contains self.old.fails self.old.writes → IsErr result }
        ensures count { IfOk result (λ n. n ≡ min (length from.now) self.old.piece) }
        ensures writes { self.new.writes ≡ up self.old.writes }
        ensures listed { self.new.fails ≡ self.old.fails }
        ensures pieces { self.new.piece ≡ self.old.piece }
    {
        let count = from.len().min(self.piece);
        let refused = fails_now(&self.fails, &mut self.writes) || (count == 0 && !from.is_empty());
        if !refused && self.held.extend_from_slice(&from[..count]).is_ok() {
            return Ok(count);
        }
        self.faults = self.faults.saturating_add(1);
        Err(Failed)
    }

    fn faults(&self) -> u64 {
        self.faults
    }
}
