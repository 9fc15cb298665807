ghost use Rattle.std.specs.Prelude.{◌≡◌};
ghost use Rattle.plugin_kit.specs.Steps.{served_of};

use crate::served::Served;
use sqlite_items::Items;

/// Why a line was not written.
#[derive(Clone, Copy, PartialEq, Eq)]
pub(crate) enum Unwritten {
    Fault,
    Memory,
}

/// Why nothing more was read.
#[derive(Clone, Copy, PartialEq, Eq)]
pub(crate) enum Unread {
    Fault,
    Memory,
}

/// Why a line was not answered.
#[derive(Drop)]
pub(crate) enum Stop {
    BadLine { line: Items<u8> },
    WriteFault,
    Memory,
}

/// How serving ends at a stop.
pub(crate) fn served(stop: Stop) -> Served
    ensures { result ≡ served_of stop }
{
    match stop {
        Stop::BadLine { line } => Served::BadLine { line },
        Stop::WriteFault => Served::WriteFault,
        Stop::Memory => Served::Memory,
    }
}
