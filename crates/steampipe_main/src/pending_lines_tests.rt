use crate::pending_lines::{LineEnd, next_line};
use byte_lines::PendingBytes;
use std::alloc::Global;
use std::io::{self, ErrorKind, Read};
use std::test::Fail;

/// Gives its bytes in pieces of one size. Every other read is interrupted.
#[derive(Drop)]
struct Pieces<'a> {
    rest: &'a [u8],
    size: usize,
    interrupts: bool,
}

impl Read for Pieces<'_> {
    fn read(&mut self, into: &mut [u8]) -> io::Result<usize> {
        self.interrupts = !self.interrupts;
        if self.interrupts {
            return Err(io::Error::from(ErrorKind::Interrupted));
        }
        let count = self.size.min(into.len()).min(self.rest.len());
        let (piece, rest) = self.rest.split_at(count);
        into[..count].copy_from_slice(piece);
        self.rest = rest;
        Ok(count)
    }
}

/// The lines of a text, each with a bar after it, up to the first fault. Where memory is wanting, the line is asked for again.
fn lines_of(alloc: Global, text: &[u8], size: usize) -> Result<Vec<u8>, Fail> {
    let mut from = Pieces {
        rest: text,
        size,
        interrupts: false,
    };
    let mut pending = PendingBytes::new(alloc);
    let mut lines = Vec::new(alloc);
    for _ in 0..10 {
        match next_line(alloc, &mut pending, &mut from) {
            Ok(line) => {
                lines.extend_from_slice(line.as_slice())?;
                lines.push(b'|')?;
            }
            Err(LineEnd::Memory) => {}
            Err(LineEnd::Fault(_)) => return Ok(lines),
        }
    }
    Err(Fail::from("no fault"))
}

#[test]
fn lines_are_the_same_in_pieces_of_any_size(rt: HostRuntime) -> Result<(), Fail> {
    for (text, want) in [
        ("one\ntwo\n", "one|two|"),
        ("one\r\n\n two", "one\r||"),
        ("\n", "|"),
        ("no line feed", ""),
        ("", ""),
    ] {
        for size in [1, 2, 3, 5000] {
            let lines = lines_of(rt.alloc(), text.as_bytes(), size)?;
            assert!(rt; lines.as_slice() == want.as_bytes(), "{text:?} by {size}");
        }
    }
    Ok(())
}

#[test]
fn a_line_has_at_most_1048576_bytes(rt: HostRuntime) -> Result<(), Fail> {
    for (length, given) in [(1_048_576, 1_048_577), (1_048_577, 0)] {
        for size in [1000, 4096] {
            let mut text = vec![in rt.alloc(); b'x'; length]?;
            text.extend_from_slice(b"\n")?;
            let lines = lines_of(rt.alloc(), text.as_slice(), size)?;
            assert_eq!(rt; lines.len(), given, "{length} by {size}");
        }
    }
    Ok(())
}
