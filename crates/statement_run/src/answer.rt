use decl_words::DeclFault;
use sp_model::{Cause, ScanNotes};
use sp_value::{Kinds, Rows, Text, Texts};
use sql_bind::BindFault;
use sql_parser::SqlFault;

/// Why a line or a statement is refused. Places are bytes from 0 in the statement's text, sources count from 1.
#[derive(Drop)]
pub enum BlockFault {
    /// The line has no form that the input takes.
    LineForm,
    /// What is asked for comes later: the cache.
    NotYet,
    /// The text is no statement.
    Sql(SqlFault),
    /// A name or a kind does not fit.
    Bind(BindFault),
    /// What a connection declares is refused.
    BadDeclaration { connection: Text, fault: DeclFault },
    /// A connection declares something else than another one that an aggregator stands for, too.
    DeclarationsDiffer { connection: Text },
    /// Keys of a source have no condition that they need.
    MissingKeys { source: u32, columns: Texts },
}

/// How a statement ends. Scans count from 1; a row is the walk's number of it, 0 for a version; a list that fails has no column.
#[derive(Drop)]
pub enum AnswerEnd {
    Rows(Rows),
    Refused(BlockFault),
    ScanFailed {
        scan: u64,
        row: u64,
        column: Option<Text>,
        cause: Cause,
    },
    /// The child of a connection was lost, so many times.
    RestartsSpent {
        connection: Text,
        losses: u32,
    },
    Memory,
}

/// The answer to a statement: its end, a name and a kind for each column of its rows, a note of each scan, and the tick at which it
/// began.
#[derive(Drop)]
pub struct Answer {
    pub end: AnswerEnd,
    pub names: Texts,
    pub kinds: Kinds,
    pub notes: ScanNotes,
    pub began: u64,
}
