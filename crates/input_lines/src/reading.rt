// The lines of an input.

ghost use Rattle.std.specs.Prelude.{◌≡◌, ◌≤◌, IfOk, IfErr, length, position};
ghost use Rattle.std.specs.List.{All, before_first, after_first};
ghost use Rattle.input_lines.specs.Lines.{is_feed, without_return, lines_to_answer, line_limit, HasSession, HasTooManyLines, IsFaultOf};

use crate::form::{is_blank, line_of};
use crate::line::{Line, LinesFault};
use sqlite_items::Items;
use std::alloc::Global;

/// An input has at most so many lines, blank ones too.
const LINE_LIMIT: usize = 10_000;

/// The place of the first line feed.
fn first_feed(bytes: &[u8]) -> Option<usize>
    ensures { result ≡ position is_feed bytes.now }
{
    bytes.iter().position(|byte| *byte == b'\n')
}

/// What stands before the first line feed, or before the end, and what stands after it.
fn cut_at_feed(bytes: &[u8]) -> (&[u8], &[u8])
    ensures before { result.0.now ≡ before_first is_feed bytes.now }
    ensures after { result.1.now ≡ after_first is_feed bytes.now }
{
    match first_feed(bytes) {
        Some(at) => (&bytes[..at], &bytes[at + 1..]),
        None => (bytes, &[]),
    }
}

fn without_return(line: &[u8]) -> &[u8]
    ensures { result.now ≡ without_return line.now }
{
    match line.strip_suffix(b"\r") {
        Some(rest) => rest,
        None => line,
    }
}

/// The lines of an input that give blocks, in order. A line ends at a line feed or at the input's end, and one carriage return before that is dropped;
/// an empty rest after the last line feed is no line. A line of spaces and tabs alone gives no block. More than 10,000 lines, blank ones too, are refused.
pub fn read_lines(alloc: Global, input: &[u8]) -> Result<Items<Line>, LinesFault>
    // Each line that is not blank is read, in order.
    ensures lines { IfOk result (λ lines. lines ≡ lines_to_answer input.now) }
    // An input of too many lines is refused.
    ensures within { IfOk result (λ lines. ¬ (HasTooManyLines input.now)) }
    // Each session is from 1 to 64, and there are at most 10,000 blocks.
    ensures sessions { IfOk result (λ lines. All HasSession lines) }
    ensures few { IfOk result (λ lines. length lines ≤ line_limit) }
    // It is refused for no other reason but memory.
    ensures refused { IfErr result (λ e. IsFaultOf input.now e) }
{
    let mut lines = Items::new(alloc);
    let mut rest = input;
    let mut count = 0;
    while !rest.is_empty() {
        if count == LINE_LIMIT {
            return Err(LinesFault::TooMany);
        }
        count += 1;
        let (line, after) = cut_at_feed(rest);
        let line = without_return(line);
        if !is_blank(line) {
            let Ok(()) = lines.push(line_of(alloc, line)?) else {
                return Err(LinesFault::Memory);
            };
        }
        rest = after;
    }
    Ok(lines)
}
