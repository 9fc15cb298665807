use sp_model::{CallKey, Seat};
use sp_value::Text;
use sqlite_items::Items;

/// What all calls of a scan share.
#[derive(Drop)]
pub struct CallFrame {
    pub connection: Text,
    pub version: u64,
    pub table: Text,
}

/// A call to be made, who waits for its answer, and the tick before which it isn't sent.
#[derive(Drop)]
pub struct Wanted {
    pub call: CallKey,
    pub seat: Seat,
    pub due: u64,
}

/// A list of calls to be made.
pub type JobList = Items<Wanted>;

/// What became of a piece.
#[derive(Clone, Copy, Debug, PartialEq, Eq)]
pub enum Taken {
    /// It was taken in.
    Used,
    /// No call waits for it; nothing changed.
    Late,
    /// Memory is wanting; nothing changed.
    Memory,
}
