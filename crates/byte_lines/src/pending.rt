ghost use Rattle.std.specs.Prelude.{◌≡◌, ◌≤◌, ◌+◌, ◌++◌, [], length, drop, position, IfOk, OnOk, OnErr};
ghost use Rattle.std.specs.List.{position_or_len};
ghost use Rattle.byte_lines.specs.Lines.{is_feed, ReadsMore};

use crate::unread::Unread;
use sp_value::Memory;
use std::alloc::Global;
use std::io::Read;
use std::marker::Model;

/// The most bytes of a piece that is read.
const PIECE: usize = 4096;

/// Bytes that came and weren't passed yet: those from `start` on. Contracts see these.
#[derive(Drop)]
pub struct PendingBytes {
    bytes: Vec<u8>,
    start: usize,
}

impl Model for PendingBytes {
    ghost use Rattle.std.specs.Prelude.{ℕ, List, drop, ◌≤◌, vec_len};

    ghost Value = { List ℕ };

    ghost view = { λ p. drop p.start p.bytes.items };

    ghost invariant = { λ p. p.start ≤ vec_len p.bytes };
}

/// The place of the first line feed.
fn first_feed(bytes: &[u8]) -> Option<usize>
    ensures { result ≡ position is_feed bytes.now }
{
    bytes.iter().position(|b| *b == b'\n')
}

impl PendingBytes {
    /// No bytes.
    pub fn new(alloc: Global) -> PendingBytes
        ensures { result ≡ [] }
    {
        PendingBytes {
            bytes: Vec::new(alloc),
            start: 0,
        }
    }

    /// The bytes, lent.
    pub fn bytes(&self) -> &[u8]
        ensures { result.now ≡ self.now }
    {
        &self.bytes[self.start..]
    }

    /// The place of the first line feed, of which there is none among the bytes that were searched before.
    #[tactic(auto, using(crate::proofs::Feeds::first_within))]
    pub fn find_feed(&self, searched: usize) -> Option<usize>
        requires { searched ≤ position_or_len is_feed self.now }
        ensures { result ≡ position is_feed self.now }
    {
        match first_feed(&self.bytes()[searched..]) {
            Some(at) => Some(searched + at),
            None => None,
        }
    }

    /// Forgets the first bytes.
    pub fn pass(&mut self, count: usize)
        requires { count ≤ length self.old }
        ensures { self.new ≡ drop count self.old }
    {
        self.start += count;
    }

    /// Gives back the room of the bytes that were passed. Each byte is moved once at most before it is passed.
    fn drop_passed(&mut self)
        ensures { self.new ≡ self.old }
    {
        let start = self.start;
        if start == 0 {
            return;
        }
        self.start = 0;
        self.bytes.drain(..start);
    }

    /// Forgets all bytes.
    pub fn clear(&mut self)
        ensures { self.new ≡ [] }
    {
        self.start = 0;
        self.bytes.clear();
    }

    /// Adds bytes that came.
    pub fn add(&mut self, piece: &[u8]) -> Result<(), Memory>
        ensures ok { OnOk result (self.new ≡ self.old ++ piece.now) }
        ensures err { OnErr result (self.new ≡ self.old) }
    {
        self.drop_passed();
        self.bytes.extend_from_slice(piece)?;
        Ok(())
    }

    /// Reads one piece of at most 4,096 bytes, and says how many it has: none at the end. Room for it is made first, so that no byte is lost where
    /// memory is wanting.
    pub fn read_from<R: Read>(&mut self, from: &mut R) -> Result<usize, Unread>
        ensures more { ReadsMore self.old self.new (R.remaining from.old) (R.remaining from.new) }
        ensures count { IfOk result (λ count. length self.new ≡ length self.old + count) }
        ensures err { OnErr result (self.new ≡ self.old) }
    {
        self.drop_passed();
        self.bytes.reserve(PIECE)?;
        let mut piece = [0u8; PIECE];
        match from.read(&mut piece) {
            Ok(count) => {
                self.bytes.extend_from_slice(&piece[..count])?;
                Ok(count)
            }
            Err(error) => Err(Unread::Fault(error)),
        }
    }
}
