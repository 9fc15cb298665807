//! Declarations: what a plugin says of its tables, read from JSON.
//!
//! `read_declaration` gives the `Declaration` of `sp_model` that a JSON value is, with defaults put in, or the first refusal (`DeclFault`), in
//! the order of their kinds and of the tables. The definitions stand in `decl_words`; begin reading at `reading.rt`. docs/PLUGINS.md
//! describes the format.
#![tactic(auto)]

mod columns;
mod cycles;
mod from_json;
mod keys;
mod limits;
mod reading;
mod repeats;
mod rules;
mod table_rule;
mod tables;
mod taking;
mod words;

pub use reading::read_declaration;
