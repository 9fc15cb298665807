//! The top call: words, files, input, run, answers, notes.
//!
//! `steampipe` is the whole program over objects that stand for the machine's streams, files, child programs and clock. `explain` is its
//! part that asks no child. What a run answers stands in `specs/Running.antt`, how its answers are shown in `specs/Shown.antt`, what is
//! explained in `specs/Explaining.antt`, what a load writes in `specs/Loading.antt`. Begin reading at `top.rt`.
#![tactic(auto)]

mod explaining;
mod loading;
mod reading;
mod refusing;
mod shown;
mod status;
mod task;
mod top;
mod writing;

pub use explaining::explain;
pub use status::Status;
pub use top::steampipe;
