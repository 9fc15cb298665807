use thiserror::Error;

/// Why a text is no book. Entries and attempts count from 1.
#[derive(Debug, Drop, Error)]
pub enum BookFault {
    #[error("no JSON, at line {line} column {column}")]
    Json { line: usize, column: usize },
    #[error("a book is an object with `declaration`, `versions` and `replies` and no other member")]
    Form,
    #[error("the declaration is no object that nests at most 100 deep, with integers of 64 bits alone")]
    Declaration,
    #[error("version {entry} is no pair of a tick and a version, each from 0 to 2^63 - 1")]
    Version { entry: usize },
    #[error("reply {entry} is no object with `call`, an object, and `attempts`, a list, and no other member")]
    Entry { entry: usize },
    #[error("reply {entry}: attempt {attempt} is no object with `items`, fewer than 1,000,000 objects that nest at most 100 deep, with integers of 64 bits alone, and maybe `error`, a text")]
    Attempt { entry: usize, attempt: usize },
    #[error("out of memory")]
    Memory,
}
