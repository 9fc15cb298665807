//! Runs tables of worked cases, from the files that its arguments name: over the crates that a scan is made of, of
//! limits and of kept scans. It prints how many cases each table has, and each case at which another text came than has to come, or nothing.
#![tactic(auto)]

mod bucket_cases;
mod cache_cases;
mod graph_cases;
mod kept_rows;
mod pool_cases;
mod retry_cases;
mod stream_cases;
mod tables;

use case_tables::{Outcomes, run_file};
use std::alloc::Global;
use std::{env, io};

struct Crates;

impl Outcomes for Crates {
    fn outcome(alloc: Global, of: &str, call: &str, given: &[Vec<u8>]) -> Option<String> {
        match of {
            "rate_bucket" => bucket_cases::outcome(alloc, call, given),
            "query_cache" => cache_cases::outcome(alloc, call, given),
            "hydrate_graph" => graph_cases::outcome(alloc, call, given),
            "retry_ignore" => retry_cases::outcome(alloc, call, given),
            "row_pool" => pool_cases::outcome(alloc, call, given),
            "row_stream" => stream_cases::outcome(alloc, call, given),
            _ => None,
        }
    }
}

fn main(rt: HostRuntime) -> io::Result<()> {
    for path in env::args(&rt)?.skip(1) {
        run_file::<Crates, HostRuntime>(&rt, path.as_str())?;
    }
    Ok(())
}
