//! A file of tables, as it is written.

use serde::Deserialize;
use std::alloc::Global;
use toml::de::Error;

/// The tables over a crate's functions.
#[derive(Drop, Deserialize)]
#[serde(deny_unknown_fields)]
pub struct File {
    /// The crate.
    pub of: String,
    /// Texts that each case is given before those of its table.
    #[serde(default)]
    pub common: Vec<String>,
    pub table: Vec<Table>,
}

/// Cases of one call.
#[derive(Drop, Deserialize)]
#[serde(deny_unknown_fields)]
pub struct Table {
    /// What its cases show.
    pub shows: String,
    pub call: String,
    /// Texts that each case is given before its own.
    #[serde(default)]
    pub common: Vec<String>,
    /// A text in which the first of a case's own stands in the place of `‹›`.
    pub frame: Option<String>,
    /// What is given, and at the end what has to come.
    pub cases: Vec<Vec<String>>,
}

impl File {
    pub fn read(alloc: Global, text: &str) -> Result<File, Error> {
        toml::from_str(alloc, text)
    }
}
