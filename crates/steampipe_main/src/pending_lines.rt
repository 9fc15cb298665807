ghost use Rattle.std.specs.Prelude.{◌≡◌, ◌≤◌, length, position, Some, IfOk, OnErr};
ghost use Rattle.byte_lines.specs.Lines.{is_feed, IsFirstLine, ReadsMore};
ghost use Rattle.steampipe_main.specs.Lines.{GivesLine};

use byte_lines::{PendingBytes, Unread};
use std::alloc::{AllocError, Global};
use std::io::{self, ErrorKind, Read};

/// The most bytes of a line.
const LIMIT: usize = 1_048_576;

/// Why there is no line: the output ended, failed, or passed the limit of a line; or memory is wanting.
#[derive(Debug, Drop)]
pub(crate) enum LineEnd {
    Fault(io::Error),
    Memory,
}

fn ended() -> LineEnd {
    LineEnd::Fault(io::Error::new(ErrorKind::UnexpectedEof, "its output has ended"))
}

fn too_long() -> LineEnd {
    LineEnd::Fault(io::Error::new(ErrorKind::InvalidData, "a line of more than 1048576 bytes"))
}

impl From<AllocError> for LineEnd {
    fn from(_: AllocError) -> LineEnd {
        LineEnd::Memory
    }
}

/// Gives the line up to the first line feed, which is at this place.
fn give(alloc: Global, pending: &mut PendingBytes, end: usize) -> Result<Vec<u8>, LineEnd>
    requires { position is_feed pending.old ≡ Some end }
    ensures line { IfOk result (λ line. IsFirstLine pending.old line.items pending.new) }
    ensures within { IfOk result (λ line. length line.items ≤ 1048576) }
    ensures kept { OnErr result (pending.new ≡ pending.old) }
{
    if end > LIMIT {
        return Err(too_long());
    }
    let line = pending.bytes()[..end].to_vec(alloc)?;
    pending.pass(end + 1);
    Ok(line)
}

/// Reads one piece more, which is not empty.
fn read_more<R: Read>(from: &mut R, pending: &mut PendingBytes) -> Result<(), LineEnd>
    ensures { ReadsMore pending.old pending.new (R.remaining from.old) (R.remaining from.new) }
{
    match pending.read_from(from) {
        Ok(0) => Err(ended()),
        Ok(_) => Ok(()),
        Err(Unread::Fault(error)) if error.kind() == ErrorKind::Interrupted => Ok(()),
        Err(Unread::Fault(error)) => Err(LineEnd::Fault(error)),
        Err(Unread::Memory) => Err(LineEnd::Memory),
    }
}

/// The next line of `from`, without its line feed, of at most 1,048,576 bytes. A fault is a longer line, an error, or the end. What was read and isn't
/// given waits.
pub(crate) fn next_line<R: Read>(
    alloc: Global,
    pending: &mut PendingBytes,
    from: &mut R,
) -> Result<Vec<u8>, LineEnd>
    ensures line { IfOk result (λ line. GivesLine pending.old pending.new (R.remaining from.old) (R.remaining from.new) line.items) }
    ensures within { IfOk result (λ line. length line.items ≤ 1048576) }
    ensures kept { OnErr result (ReadsMore pending.old pending.new (R.remaining from.old) (R.remaining from.new)) }
{
    let mut searched = 0;
    for _ in 0..u64::MAX {
        if let Some(end) = pending.find_feed(searched) {
            let line = give(alloc, pending, end)?;
            return Ok(line);
        }
        searched = pending.bytes().len();
        if searched > LIMIT {
            return Err(too_long());
        }
        read_more(from, pending)?;
    }
    Err(ended())
}
