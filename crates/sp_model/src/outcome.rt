use crate::scan::Cause;
use sp_value::{Cell, Cells, Members, Memory, Rows, Text, TryCopy};
use std::alloc::Global;

/// What a call comes to once it is asked no more: its items, or the error of its last attempt.
#[derive(Drop)]
pub enum Settled {
    Items(Cells),
    Refused { attempt: u32, text: Text },
}

/// What a function gives for a row: its one item, null where it gave none, or why it fails.
#[derive(Drop)]
pub enum Outcome {
    Gave(Cell),
    Fails(Cause),
}

/// A row of a scan: one value for each column, or its first failing column and why that fails.
#[derive(Drop)]
pub enum Row {
    Whole(Cells),
    Broken { column: Text, cause: Cause },
}

/// What a scan gives: rows, or the number of the row, from 1, at which it fails. The number is 0 where the version fails. A call
/// that fails has no column.
#[derive(Drop)]
pub enum ScanValue {
    Rows(Rows),
    Failed {
        row: u64,
        column: Option<Text>,
        cause: Cause,
    },
}

/// The results of a function's dependencies under their names, the first failure among them, or that one before it isn't known yet.
#[derive(Drop)]
pub enum Results {
    Given(Members),
    Missed(Cause),
    Pending,
}

/// Where a walk over items stands: the rows kept, the number of items, and whether no list, get or parents call was asked again.
#[derive(Drop)]
pub struct WalkState {
    pub rows: Rows,
    pub items: u64,
    pub steady: bool,
}

impl TryCopy for WalkState {
    fn copy(&self, alloc: Global) -> Result<WalkState, Memory> {
        Ok(WalkState {
            rows: self.rows.copy(alloc)?,
            items: self.items,
            steady: self.steady,
        })
    }
}

/// How far a walk came: it goes on, is full, failed at a row, or waits for what isn't known yet.
#[derive(Drop)]
pub enum Walk {
    Going(WalkState),
    Full(WalkState),
    Failed {
        row: u64,
        column: Option<Text>,
        cause: Cause,
    },
    Waiting,
}
