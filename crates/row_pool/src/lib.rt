//! A pool of values with a fixed number of slots, taken when the pool is made.
//!
//! Each value that goes into the pool gets a `Key`: the slot in which it stands, and a generation, which no other value
//! ever has. So a key shows its own value until that is given back, and nothing afterwards, also where its slot was taken
//! again. Begin with `Pool`; `specs/Pools.antt` says what a key shows.
#![tactic(auto)]

mod held;
mod key;
mod pool;

pub use key::Key;
pub use pool::Pool;
