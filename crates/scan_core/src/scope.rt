use sp_model::{Rule, ScanRequest, TableDecl};
use sp_value::Text;
use std::alloc::Global;
use std::sync::Arc;

/// A call's function and rules, and whether it gives one item at most.
#[derive(Drop)]
pub struct CallSource {
    pub function: Text,
    pub rule: Rule,
    pub single: bool,
}

/// What a scan is of, which doesn't change: the request, its table, the version, the greatest number of rows in flight, and the
/// functions and rules of its calls.
#[derive(Drop)]
pub struct ScanScope {
    pub request: ScanRequest,
    pub table: Arc<TableDecl, Global>,
    pub version: u64,
    pub window: u32,
    pub items: CallSource,
    pub parents: CallSource,
}
