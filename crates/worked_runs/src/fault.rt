use book_file::BookFault;
use sp_value::Memory;
use std::alloc::AllocError;
use thiserror::Error;

/// Why a case can't be run.
#[derive(Debug, Drop, Error)]
pub(crate) enum CaseFault {
    #[error("`{0}` is no member here")]
    Unknown(String),
    #[error("`{0}` is missing or has another form")]
    Form(&'static str),
    #[error("nothing is named `{0}`")]
    Unnamed(String),
    #[error("no book: {0}")]
    Book(BookFault),
    #[error("out of memory")]
    Memory,
}

impl From<Memory> for CaseFault {
    fn from(_wanting: Memory) -> CaseFault {
        CaseFault::Memory
    }
}

impl From<AllocError> for CaseFault {
    fn from(_wanting: AllocError) -> CaseFault {
        CaseFault::Memory
    }
}

impl From<BookFault> for CaseFault {
    fn from(fault: BookFault) -> CaseFault {
        CaseFault::Book(fault)
    }
}
