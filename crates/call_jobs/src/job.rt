use rate_gate::CallTags;
use sp_model::{Asked, Seat, TableDecl};
use std::alloc::Global;
use std::sync::Arc;

/// A call that is to be made: the session that wants it, what is asked, who waits for the answer, the tick before which it isn't sent,
/// what limiters see of it and, of a call of a table, the table.
#[derive(Drop)]
pub struct Job {
    pub session: u32,
    pub asked: Arc<Asked, Global>,
    pub seat: Seat,
    pub due: u64,
    pub tags: CallTags,
    pub table: Option<Arc<TableDecl, Global>>,
}
