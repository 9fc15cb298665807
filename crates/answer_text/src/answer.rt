use sp_model::{Cause, ScanNotes};
use sp_value::{Kinds, Rows, Text, Texts};

/// How rows are shown.
#[derive(Clone, Copy, Debug, PartialEq, Eq)]
pub enum Form {
    /// A line for each cell, under a line for each row.
    Line,
    Csv,
    /// One line of compact JSON.
    Json,
    /// Columns between bars.
    Table,
}

/// Why a table's declaration is refused.
#[derive(Drop)]
pub enum DeclarationFault {
    Shape,
    DuplicateName,
    UnknownFunction,
    /// The functions that can't be called, since they depend on themselves or on such functions.
    Cycle { functions: Texts },
    SubsetKeyIsHydrated,
    NoAccess,
    Limit,
}

/// An error, of which one line tells. Places are bytes from 0 in the statement's text; scans, sources and tables count from 1.
#[derive(Drop)]
pub enum ErrorLine {
    LineForm,
    NotYet,
    Syntax {
        place: u64,
    },
    TooDeep {
        place: u64,
    },
    UnknownConnection {
        place: u64,
    },
    UnknownTable {
        place: u64,
    },
    UnknownColumn {
        place: u64,
    },
    Ambiguous {
        place: u64,
    },
    TypeMismatch {
        place: u64,
    },
    TooManyTables {
        place: u64,
    },
    /// The table of that number, 0 for the members outside of tables.
    BadDeclaration {
        connection: Text,
        fault: DeclarationFault,
        table: u64,
    },
    DeclarationsDiffer {
        connection: Text,
    },
    MissingKeys {
        source: u32,
        columns: Texts,
    },
    /// A row of a scan fails at that column.
    ColumnFailed {
        scan: u64,
        row: u64,
        column: Text,
        cause: Cause,
    },
    /// A list or a get fails, at the row after its last item.
    ScanFailed {
        scan: u64,
        row: u64,
        cause: Cause,
    },
    /// A version was answered by this error.
    VersionFailed {
        scan: u64,
        text: Text,
    },
    RestartsSpent {
        connection: Text,
        losses: u32,
    },
}

/// What an answer shows.
#[derive(Drop)]
pub enum ShownEnd {
    Rows(Rows),
    /// The cache was cleared.
    Cleared,
    Error(ErrorLine),
    /// Memory was wanting.
    Memory,
}

/// The answer to a line: what it shows, a name and a kind for each column of its rows, a note of each scan, and the tick, in milliseconds,
/// at which it began.
#[derive(Drop)]
pub struct Answer {
    pub end: ShownEnd,
    pub names: Texts,
    pub kinds: Kinds,
    pub notes: ScanNotes,
    pub began: u64,
}
