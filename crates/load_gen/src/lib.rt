//! The generated world, over which a load runs: a table of rows that are made of their numbers, whose owners are throttled now and then.
//!
//! `Generated` is the world. What its functions give of a row stands in `specs/Rows.antt`, its book in `specs/Generated.antt`, and the table
//! that it declares in `specs/Table.antt`. `load_settings` and `load_statement` are what a load runs, and `summary` says what came of it
//! (`specs/Summary.antt`). Begin reading at `world.rt`.
#![tactic(auto)]

mod asked;
mod laws;
mod rows;
mod settings;
mod totals;
mod world;

pub use laws::{generated_declares_rows, generated_keeps_forms, generated_keys_filter};
pub use settings::{load_settings, load_statement};
pub use totals::summary;
pub use world::Generated;
