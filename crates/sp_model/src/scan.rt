use crate::call::{Conditions, Version};
use sp_value::{Cell, Memory, Text, Texts, TryCopy};
use sqlite_items::Items;
use std::alloc::Global;

/// How the items of a scan are asked for.
#[derive(Clone, Copy, Debug, PartialEq, Eq)]
pub enum Access {
    Get,
    List,
    Parents,
}

/// What is asked of one table of a connection: the columns in table order, the conditions that are sent, and the columns that only filter.
#[derive(Drop)]
pub struct ScanRequest {
    pub connection: Text,
    pub table: Text,
    pub access: Access,
    pub conditions: Conditions,
    pub columns: Texts,
    pub subset: Texts,
    pub limit: Option<u64>,
}

impl TryCopy for ScanRequest {
    fn copy(&self, alloc: Global) -> Result<ScanRequest, Memory> {
        Ok(ScanRequest {
            connection: self.connection.copy(alloc)?,
            table: self.table.copy(alloc)?,
            access: self.access,
            conditions: self.conditions.copy(alloc)?,
            columns: self.columns.copy(alloc)?,
            subset: self.subset.copy(alloc)?,
            limit: self.limit,
        })
    }
}

/// Whether a scan's rows were asked for or kept from before.
#[derive(Clone, Copy, Debug, PartialEq, Eq)]
pub enum Mark {
    Fresh,
    Cached,
}

/// The note of a scan: its version was asked at the tick `asked`, and its rows were taken at the tick `at`.
#[derive(Drop)]
pub struct ScanNote {
    pub request: ScanRequest,
    pub asked: u64,
    pub at: u64,
    pub version: Version,
    pub mark: Mark,
}

/// A list of notes.
pub type ScanNotes = Items<ScanNote>;

impl TryCopy for ScanNote {
    fn copy(&self, alloc: Global) -> Result<ScanNote, Memory> {
        Ok(ScanNote {
            request: self.request.copy(alloc)?,
            asked: self.asked,
            at: self.at,
            version: self.version.copy(alloc)?,
            mark: self.mark,
        })
    }
}

/// Who waits for a call's answer: a scan, its slot and the slot's generation, and the function's number.
#[derive(Clone, Copy, Debug, PartialEq, Eq)]
pub struct Seat {
    pub scan: u64,
    pub slot: usize,
    pub generation: u64,
    pub function: u32,
}

/// Why a row or a scan fails.
#[derive(Drop)]
pub enum Cause {
    Error {
        function: Text,
        attempt: u32,
        text: Text,
    },
    BadValue(Cell),
    TooMany {
        function: Text,
        count: u64,
    },
    BadVersion(Text),
}

impl TryCopy for Cause {
    fn copy(&self, alloc: Global) -> Result<Cause, Memory> {
        match self {
            Cause::Error {
                function,
                attempt,
                text,
            } => Ok(Cause::Error {
                function: function.copy(alloc)?,
                attempt: *attempt,
                text: text.copy(alloc)?,
            }),
            Cause::BadValue(cell) => Ok(Cause::BadValue(cell.copy(alloc)?)),
            Cause::TooMany { function, count } => Ok(Cause::TooMany {
                function: function.copy(alloc)?,
                count: *count,
            }),
            Cause::BadVersion(text) => Ok(Cause::BadVersion(text.copy(alloc)?)),
        }
    }
}
