/// Why a piece isn't taken.
#[derive(Clone, Copy, Debug, PartialEq, Eq)]
pub enum FeedFault {
    /// It isn't the next piece.
    OutOfPlace,
    /// Memory is wanting.
    Memory,
}
