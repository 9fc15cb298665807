//! The scans of all books at one window, counted.

ghost use Rattle.std.specs.Prelude.{◌≤◌};

use crate::cases::{Came, made, outcome};
use crate::scans::Way;
use std::alloc::Global;
use std::io;

const BOOKS: u64 = 1_000;

/// What scans came to.
#[derive(Clone, Copy)]
struct Tally {
    scans: u64,
    rows: u64,
    failures: u64,
    asked_again: u64,
    incomplete: u64,
    calls: u64,
    late: u64,
    differ: u64,
}

impl Tally {
    fn new() -> Tally {
        Tally {
            scans: 0,
            rows: 0,
            failures: 0,
            asked_again: 0,
            incomplete: 0,
            calls: 0,
            late: 0,
            differ: 0,
        }
    }

    fn count_way(&mut self, way: Option<Way>) {
        match way {
            None => self.failures = self.failures.wrapping_add(1),
            Some(Way::AskedAgain) => self.asked_again = self.asked_again.wrapping_add(1),
            Some(Way::Incomplete) => self.incomplete = self.incomplete.wrapping_add(1),
            Some(Way::Complete) => {}
        }
    }

    fn count(&mut self, came: &Came) {
        self.scans = self.scans.wrapping_add(1);
        self.rows = self.rows.wrapping_add(came.rows as u64);
        self.calls = self.calls.wrapping_add(came.calls);
        self.late = self.late.wrapping_add(came.late);
        self.count_way(came.way);
    }
}

/// What the scan of a book came to, and how it differs from the plain program.
fn ran(alloc: Global, seed: u64, window: u32) -> Result<Came, &'static str>
    requires { (1 ≤ window) × (window ≤ 4096) }
{
    let Some(case) = made(alloc, seed) else {
        return Err("it isn't made");
    };
    match outcome(alloc, &case, window, seed) {
        Some(came) => Ok(came),
        None => Err("it isn't run"),
    }
}

/// Runs the scans of all books at a window: how many differ from the plain program. Each of these is printed, and then the counts.
pub fn run_window<R: Print + AllocGlobal>(rt: &R, window: u32) -> io::Result<u64>
    requires { (1 ≤ window) × (window ≤ 4096) }
{
    let mut tally = Tally::new();
    for seed in 0..BOOKS {
        let fault = match ran(rt.alloc(), seed, window) {
            Ok(came) => {
                tally.count(&came);
                came.fault
            }
            Err(why) => Some(why),
        };
        if let Some(fault) = fault {
            tally.differ = tally.differ.wrapping_add(1);
            println!(rt; "book {seed}, window {window}: {fault}")?;
        }
    }
    println!(rt;
        "window {window}: {BOOKS} books, {} scans, {} rows, {} failures, {} asked again, {} incomplete, {} calls, {} late pieces",
        tally.scans,
        tally.rows,
        tally.failures,
        tally.asked_again,
        tally.incomplete,
        tally.calls,
        tally.late
    )?;
    Ok(tally.differ)
}
