//! Slow and obvious functions whose contracts are the definitions of `sp_model`: so they can be computed. No program ships them.
//! `scan_walk` and `scan_value` are the scan; `Script` has replies that are written down.
#![tactic(auto)]

mod copies;
mod hydrate;
mod item;
mod replies;
mod scan;
mod script;
mod settle;
mod walking;

pub use hydrate::hydrated;
pub use item::row_of;
pub use replies::Replies;
pub use scan::{OfItem, OfParent, scan_value, scan_walk};
pub use script::{Script, Written};
pub use settle::{rule_of, settled};
pub use walking::{Source, Visit, walk};
