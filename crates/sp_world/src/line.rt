use serde_json::Value;
use sp_model::Asked;
use sp_value::{Cell, Text};
use thiserror::Error;

/// What a child is asked, with the number of the asking. The function is the line's: the list's, get's or parent's
/// function of the table, or the hydrate call's own; it is `None` for a declaration and a version.
#[derive(Drop)]
pub enum Request {
    Ask {
        id: u64,
        asked: Asked,
        function: Option<Text>,
    },
}

/// What a child answers to the asking of a number: the next item, the end of the reply, an error, a version, or a declaration.
#[derive(Drop)]
pub enum Line {
    Item { id: u64, item: Cell },
    End { id: u64 },
    Error { id: u64, text: Text },
    Version { id: u64, version: u64 },
    Declaration { id: u64, value: Value },
}

/// Why bytes are no line: they are no JSON, a number is no integer of 64 bits with a sign, they are JSON of another form,
/// or memory is wanting.
#[derive(Debug, Drop, Error)]
pub enum LineFault {
    #[error("no JSON")]
    Json,
    #[error("a number is no integer of 64 bits")]
    Number,
    #[error("no line of the protocol")]
    Shape,
    #[error("out of memory")]
    Memory,
}
