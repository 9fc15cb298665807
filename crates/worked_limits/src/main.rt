//! Runs tables of worked cases, from the files that its arguments name: over limits on calls, and calls that wait for them. It prints how many cases each table has, and
//! each case at which another text came than has to come, or nothing.
#![tactic(auto)]

mod gate_cases;
mod given;
mod holding;
mod queue_cases;

use case_tables::{Outcomes, run_file};
use std::alloc::Global;
use std::{env, io};

struct Crates;

impl Outcomes for Crates {
    fn outcome(alloc: Global, of: &str, call: &str, given: &[Vec<u8>]) -> Option<String> {
        match of {
            "call_queue" => queue_cases::outcome(alloc, call, given),
            "rate_gate" => gate_cases::outcome(alloc, call, given),
            _ => None,
        }
    }
}

fn main(rt: HostRuntime) -> io::Result<()> {
    for path in env::args(&rt)?.skip(1) {
        run_file::<Crates, HostRuntime>(&rt, path.as_str())?;
    }
    Ok(())
}
