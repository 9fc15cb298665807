//! How the items of a table are asked for: got by their keys, listed, or listed under parents; or the keys that are missing.
//!
//! `choose` answers by the conditions of a source, whatever their values, and by the columns of its `in` conjuncts; `fan_for` says which of
//! these is fanned out, and `keys_for` which keys there are, once the access is known. `access_of`, `fan_for` and `keys_for` take no
//! memory. Begin with `choosing`; the meaning is in `specs/Keys.antt` and `Requests.antt` of `sp_model`.
#![tactic(auto)]

mod choosing;
mod fault;
mod laws;
mod missing;
mod requests;

pub use choosing::{access_of, choose};
pub use fault::ChoiceFault;
pub use laws::choice_has_no_values;
pub use requests::{fan_for, keys_for};
