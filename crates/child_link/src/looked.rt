use sp_model::Asked;
use sp_outside::PendingCalls;
use sp_world::Line;
use std::alloc::Global;
use std::sync::Arc;

/// A line fits the call at a place, of which this was asked; or it fits none of these calls.
#[derive(Drop)]
pub(crate) enum Looked {
    Fit {
        at: usize,
        asked: Arc<Asked, Global>,
        line: Line,
    },
    Bad(PendingCalls),
}
