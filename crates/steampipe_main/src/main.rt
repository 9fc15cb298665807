//! The program: the streams, files, child programs and clock of the machine, handed to the top call. A load runs over children and a clock
//! in memory instead, in the made-up world of `load_gen`.
#![tactic(auto)]

mod child_log;
mod folder;
mod machine_clock;
mod pending_lines;
#[cfg(test)]
mod pending_lines_tests;
mod piped;
mod program;
mod programs;

ghost use Rattle.std.specs.Prelude.{◌≡◌, [], length};

use crate::child_log::LogFolder;
use crate::folder::FolderShelf;
use crate::machine_clock::MachineClock;
use crate::programs::Programs;
use command_words::{Command, Words, WordsFault, read_words};
use load_gen::{Generated, generated_keeps_forms};
use sp_outside::{BookNursery, Clock, MemoryClock, Nursery};
use sp_value::{Memory, Text, Texts};
use sp_world::{Untold, World};
use sqlite_items::Items;
use std::alloc::Global;
use std::env;
use std::io::ErrorKind;
use std::process::ExitCode;
use std::sync::Wait;
use std::time::Instant;
use std_streams::{ReaderSource, WriterSink};
use steampipe_top::{Status, steampipe};

/// The words of the command line, none where one of them is no UTF-8.
fn command_line(rt: &HostRuntime) -> Result<Texts, Memory> {
    let mut words = Items::new(rt.alloc());
    let args = match env::args(rt) {
        Ok(args) => args,
        Err(error) if error.kind() == ErrorKind::OutOfMemory => return Err(Memory),
        Err(_) => return Ok(words),
    };
    for arg in args {
        words.push(Text::from_string(arg))?;
    }
    Ok(words)
}

/// Where children are logged: in the folder that `STEAMPIPE_LOG` names, or nowhere.
fn log_folder(rt: HostRuntime, start: Option<Instant>) -> LogFolder<HostRuntime> {
    let folder = match env::var(&rt, "STEAMPIPE_LOG") {
        Ok(folder) if !folder.is_empty() => Some(folder),
        _ => None,
    };
    let working = match env::current_dir(&rt) {
        Ok(path) => path.into_string(),
        Err(_) => String::new(rt.alloc()),
    };
    LogFolder::new(rt, start, folder, working)
}

/// Hands the machine's streams and files to the top call, beside a nursery and a clock.
fn run<R: Wait, W: World, M: Nursery<W>, K: Clock + Sync>(
    wait: &R,
    rt: HostRuntime,
    words: &[Text],
    nursery: &mut M,
    clock: &K,
) -> Status
    requires { length (M.back nursery.old) ≡ M.made nursery.old }
{
    let mut input = ReaderSource::new(rt.stdin());
    let mut files = FolderShelf::new(rt);
    let mut answers = WriterSink::new(rt.stdout());
    let mut notes = WriterSink::new(rt.stderr());
    steampipe::<R, W, _, _, _, _, M, K>(
        wait,
        rt.alloc(),
        words,
        &mut input,
        &mut files,
        &mut answers,
        &mut notes,
        nursery,
        clock,
    )
}

/// Runs the words over child programs, by the machine's clock.
fn run_programs<R: Wait>(wait: &R, rt: HostRuntime, words: &[Text]) -> Status {
    let clock = MachineClock::new(rt);
    let mut nursery = Programs::new(rt, rt.alloc(), log_folder(rt, clock.start()));
    let status = run::<R, Untold, _, _>(wait, rt, words, &mut nursery, &clock);
    nursery.end_all();
    status
}

/// A nursery of children in memory that answer from the made-up world.
fn generated_nursery(alloc: Global) -> BookNursery<Generated>
    ensures { (result.made ≡ 0) × (result.back ≡ []) }
{
    generated_keeps_forms();
    BookNursery::new(alloc, Items::new(alloc))
}

/// Runs the words of a load over children in memory, by a clock that passes on only where it is waited for.
fn run_load<R: Wait>(wait: &R, rt: HostRuntime, words: &[Text]) -> Status {
    let clock = MemoryClock::new(0, Items::new(rt.alloc()));
    let mut nursery = generated_nursery(rt.alloc());
    run::<R, Generated, _, _>(wait, rt, words, &mut nursery, &clock)
}

fn main(rt: HostRuntime) -> ExitCode {
    let alloc = rt.alloc();
    let Ok(words) = command_line(&rt) else {
        return ExitCode::from(Status::Memory.number());
    };
    let status = match read_words(alloc, words.as_slice()) {
        Ok(
            Words {
                command: Command::Load { .. },
                ..
            },
        ) => run_load(&rt, rt, words.as_slice()),
        Err(WordsFault::Memory) => Status::Memory,
        _ => run_programs(&rt, rt, words.as_slice()),
    };
    ExitCode::from(status.number())
}
