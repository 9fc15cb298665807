//! Runs scans of small books beside the plain program: their rows or failures have to be the same at each window, in whatever order the
//! pieces of the replies arrive. It prints counts, and each book at which a scan differs.
//!
//! By `items N` or `calls N` it makes one scan of so many items in memory instead, to be timed, and prints how many rows it gave.
#![tactic(auto)]

mod books;
mod cases;
mod comparing;
mod feeding;
mod lawful;
mod random;
mod requests;
mod scans;
mod tables;
mod tally;
mod timing;

use std::process::ExitCode;
use std::{env, io};
use tally::run_window;
use timing::{Timed, rows_of};

/// Runs all books: whether none of their scans differs.
fn run_books(rt: &HostRuntime) -> io::Result<bool> {
    let mut differ: u64 = 0;
    for window in [1u32, 2, 3, 256] {
        differ = differ.wrapping_add(run_window(rt, window)?);
    }
    println!(rt; "{differ} differ")?;
    Ok(differ == 0)
}

/// Makes one scan, of which words say what it is of.
fn run_timed(rt: &HostRuntime, word: &str, count: &str) -> io::Result<bool> {
    let rows = match (Timed::named(word), count.parse::<u64>()) {
        (Some(timed), Ok(count)) => rows_of(rt.alloc(), timed, count),
        _ => None,
    };
    match rows {
        Some(rows) => {
            println!(rt; "{rows} rows")?;
            Ok(true)
        }
        None => {
            println!(rt; "usage: worked_books [items|calls COUNT]")?;
            Ok(false)
        }
    }
}

fn run(rt: &HostRuntime) -> io::Result<bool> {
    let mut words = env::args(rt)?.skip(1);
    match (words.next(), words.next()) {
        (None, _) => run_books(rt),
        (Some(word), Some(count)) => run_timed(rt, word.as_str(), count.as_str()),
        (Some(_), None) => run_timed(rt, "", ""),
    }
}

fn main(rt: HostRuntime) -> ExitCode {
    match run(&rt) {
        Ok(true) => ExitCode::SUCCESS,
        _ => ExitCode::FAILURE,
    }
}
