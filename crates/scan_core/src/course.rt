use crate::calls::{ItemsCall, ParentsCall};
use row_flight::Flight;
use sp_model::{Cause, WalkState};
use sp_value::{Cell, Text};
use sp_world::World;
use std::collections::VecDeque;

/// How a scan ends: its calls came to their ending, its limit is reached, or it fails.
#[derive(Drop)]
pub enum CourseEnd {
    Complete,
    Limited,
    Failed {
        row: u64,
        column: Option<Text>,
        cause: Cause,
    },
}

/// Where a scan stands: the parents call, the get, list or child list whose items are asked for, the rows in flight, the items that wait
/// behind them, the rows kept, and its end. The first `before` of the undecided items are those of child lists that ended. Each attempt
/// draws the next generation for its seat.
#[derive(Drop)]
pub struct Course<W: World> {
    pub parents: Option<ParentsCall<W>>,
    pub items: Option<ItemsCall<W>>,
    pub before: usize,
    pub flight: Flight,
    pub waiting: VecDeque<Cell>,
    pub walk: WalkState,
    pub end: Option<CourseEnd>,
    pub drawn: u64,
}
