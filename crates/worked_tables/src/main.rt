//! Runs tables of worked cases, from the files that its arguments name: over the crates whose functions go from text to text. It prints
//! how many cases each table has, and each case at which another text came than has to come, or nothing.
#![tactic(auto)]

mod answer_cases;
mod bind_cases;
mod declaration_cases;
mod error_cases;
mod explain_cases;
mod given;
mod input_cases;
mod line_cases;
mod row_cases;
mod scan_cases;
mod settings_cases;
mod sql_cases;
mod value_cases;
mod word_cases;
mod words;

use case_tables::{Outcomes, run_file};
use std::alloc::Global;
use std::{env, io};

struct Crates;

impl Outcomes for Crates {
    fn outcome(alloc: Global, of: &str, call: &str, given: &[Vec<u8>]) -> Option<String> {
        match of {
            "answer_text" => answer_cases::outcome(alloc, call, given),
            "command_words" => word_cases::outcome(alloc, call, given),
            "decl_core" => declaration_cases::outcome(alloc, call, given),
            "explain_text" => explain_cases::outcome(alloc, call, given),
            "input_lines" => input_cases::outcome(alloc, call, given),
            "row_algebra" => row_cases::outcome(alloc, call, given),
            "source_scans" => scan_cases::outcome(alloc, call, given),
            "settings_text" => settings_cases::outcome(alloc, call, given),
            "sp_value" => value_cases::outcome(alloc, call, given),
            "sp_world" => line_cases::outcome(alloc, call, given),
            "sql_bind" => bind_cases::outcome(alloc, call, given),
            "sql_parser" => sql_cases::outcome(alloc, call, given),
            _ => None,
        }
    }
}

fn main(rt: HostRuntime) -> io::Result<()> {
    for path in env::args(&rt)?.skip(1) {
        run_file::<Crates, HostRuntime>(&rt, path.as_str())?;
    }
    Ok(())
}
