use std::alloc::AllocError;
use std::io;

/// Why no piece was read.
#[derive(Debug, Drop)]
pub enum Unread {
    /// What the reader answered.
    Fault(io::Error),
    /// Memory is wanting.
    Memory,
}

impl From<AllocError> for Unread {
    fn from(_: AllocError) -> Unread {
        Unread::Memory
    }
}
