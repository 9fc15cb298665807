// What a line is, and why an input is refused.

ghost use Rattle.std.specs.Prelude.{◌≡◌};
ghost use Rattle.input_lines.specs.declared.line.LinesFault.TheVariants as fault;

use sp_value::{Memory, Text};

/// A line of the input that gives a block. Sessions are numbered from 1 to 64.
#[derive(Drop)]
pub enum Line {
    /// The text is all that stands in the statement's place, and is not yet read.
    Statement { session: u32, text: Text },
    /// `.cache clear`, with spaces and tabs alone behind it.
    ClearCache { session: u32 },
    /// The line is not UTF-8, or its mark names no session or has no statement, or another text than the command begins with `.`.
    BadForm,
}

/// Why no lines are given.
#[derive(Clone, Copy, Debug, PartialEq, Eq)]
pub enum LinesFault {
    /// There are more than 10,000 lines.
    TooMany,
    Memory,
}

impl From<Memory> for LinesFault {
    ghost from_gives = { λ _ e. e ≡ fault.Memory };

    fn from(_e: Memory) -> LinesFault {
        LinesFault::Memory
    }
}
