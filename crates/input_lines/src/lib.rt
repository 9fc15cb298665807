//! The lines of the program's input, and what each of them is.
//!
//! `read_lines` takes the whole input's bytes and gives a `Line` for each line that isn't blank: a statement with its session (1 to 64), the
//! command `.cache clear` with its session, or a bad form. An input of more than 10,000 lines is refused. What a line is stands in
//! `specs/Lines.antt`.
#![tactic(auto)]

mod form;
mod line;
mod reading;

pub use line::{Line, LinesFault};
pub use reading::read_lines;
