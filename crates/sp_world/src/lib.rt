//! The reply book and what is told of it, and the lines between a child and its caller.
//!
//! A `World` names the reply book for contracts. What a line told of it stands in a `Told`, beside what was asked; a finished scan is a
//! `Kept`. `request_line` and `read_request`, `reply_line` and `read_line` go both ways between values and lines; what each line says stands
//! in `specs/RequestLines.antt` and `specs/ReplyLines.antt`. Begin reading at `world.rt` and `told.rt`. docs/PLUGINS.md shows the lines.
#![tactic(auto)]

mod kept;
mod kept_scan;
mod line;
mod line_json;
mod line_reading;
mod operation;
mod parts;
mod reply_lines;
mod request_json;
mod request_lines;
mod request_members;
mod request_reading;
mod told;
mod untold;
mod world;

pub use kept::Kept;
pub use kept_scan::KeptScan;
pub use line::{Line, LineFault, Request};
pub use line_json::{flag_at, number_at, read_json, spell, text_at};
pub use line_reading::read_line;
pub use parts::{LineParts, line_parts};
pub use reply_lines::{is_shallow_object, item_from, made, reply_line};
pub use request_json::{conditions_json, operator_text, text_json};
pub use request_lines::request_line;
pub use request_reading::read_request;
pub use told::{Said, Told, ToldLine};
pub use untold::Untold;
pub use world::World;
