ghost use Rattle.std.specs.Prelude.{◌≡◌};
ghost use Rattle.std.specs.Io.{ReadsAtMost, WritesAtMost};
ghost use Rattle.std.specs.Io.KnownBytes.{ReadConsumes, WriteAppends};
ghost use Rattle.sp_outside.specs.Writing.{WritesSome};

use sp_outside::{ByteSource, Failed, Sink};
use std::io::{ErrorKind, Read, Write};

/// A reader as a source. It tells what the reader tells, and counts its errors.
#[derive(Drop)]
pub struct ReaderSource<R: Read + Drop> {
    reader: R,
    faults: u64,
}

impl<R: Read + Drop> ReaderSource<R> {
    pub fn new(reader: R) -> ReaderSource<R>
        ensures { result ≡ record { reader = reader; faults = 0 } }
    {
        ReaderSource { reader, faults: 0 }
    }
}

/// Reads some bytes, none at the end.
fn read_some<R: Read>(reader: &mut R, into: &mut [u8]) -> Result<usize, Failed>
    ensures bound { ReadsAtMost result into.new }
    ensures bytes { ReadConsumes (R.remaining reader.old) (R.remaining reader.new) result into.new }
{
    for _ in 0..u64::MAX {
        match reader.read(into) {
            Ok(count) => return Ok(count),
            Err(error) if error.kind() == ErrorKind::Interrupted => {}
            Err(_) => break,
        }
    }
    Err(Failed)
}

impl<R: Read + Drop> ByteSource for ReaderSource<R> {
    ghost left = { λ s. R.remaining s.reader };

    ghost faulted = { λ s. s.faults };

    fn read(&mut self, into: &mut [u8]) -> Result<usize, Failed> {
        match read_some(&mut self.reader, into) {
            Ok(count) => Ok(count),
            Err(_) => {
                self.faults = self.faults.saturating_add(1);
                Err(Failed)
            }
        }
    }

    fn faults(&self) -> u64 {
        self.faults
    }
}

/// A writer as a sink. It tells what the writer tells, and counts its errors and the pieces of which it took nothing.
#[derive(Drop)]
pub struct WriterSink<K: Write + Drop> {
    writer: K,
    faults: u64,
}

impl<K: Write + Drop> WriterSink<K> {
    pub fn new(writer: K) -> WriterSink<K>
        ensures { result ≡ record { writer = writer; faults = 0 } }
    {
        WriterSink { writer, faults: 0 }
    }
}

/// Writes some of the bytes, at least one where there is one.
fn write_some<K: Write>(writer: &mut K, from: &[u8]) -> Result<usize, Failed>
    ensures bound { WritesAtMost result from.now }
    ensures bytes { WriteAppends (K.contents writer.old) (K.contents writer.new) result from.now }
    ensures some { WritesSome result from.now }
{
    for _ in 0..u64::MAX {
        match writer.write(from) {
            Ok(0) if !from.is_empty() => break,
            Ok(count) => return Ok(count),
            Err(error) if error.kind() == ErrorKind::Interrupted => {}
            Err(_) => break,
        }
    }
    Err(Failed)
}

impl<K: Write + Drop> Sink for WriterSink<K> {
    ghost held = { λ s. K.contents s.writer };

    ghost faulted = { λ s. s.faults };

    fn write(&mut self, from: &[u8]) -> Result<usize, Failed> {
        match write_some(&mut self.writer, from) {
            Ok(count) => Ok(count),
            Err(_) => {
                self.faults = self.faults.saturating_add(1);
                Err(Failed)
            }
        }
    }

    fn faults(&self) -> u64 {
        self.faults
    }
}
