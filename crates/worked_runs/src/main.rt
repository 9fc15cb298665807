//! Runs cases of the whole program that are data: `worked_runs SHARED CASES ..`. SHARED and CASES are files of JSON. It prints how many
//! cases of each kind a file has, and each case at which something else came than has to come, or that can't be run.
#![tactic(auto)]

mod child_case;
mod difference;
mod fault;
mod form;
mod given;
mod open_replies;
mod run;
mod run_child;
mod run_nursery;
mod serving;
mod setup;
mod text_world;
mod told;
mod worlds;

use crate::difference::Differences;
use crate::fault::CaseFault;
use crate::form::members_of;
use crate::given::{Given, Names};
use crate::run::run_case;
use crate::serving::{refuse_case, serve_case};
use crate::told::told_case;
use serde_json::Value;
use std::alloc::Global;
use std::sync::Wait;
use std::{env, fs, io};

const MEMBERS: [&str; 6] = [
    "usual",
    "declarations",
    "children",
    "runs",
    "servings",
    "refused books",
];

/// What may be usual in the cases of a file.
const USUAL: [&str; 14] = [
    "words", "files", "input", "children", "clock", "fails", "pieces", "status", "answers",
    "notes", "heard", "ticks", "child", "end",
];

/// What a case is of: a run; the same over children that tell, where it names a world; a plugin's loop; a text that is no book.
#[derive(Clone, Copy)]
enum Kind {
    Run,
    Told,
    Serving,
    Refusal,
}

impl Kind {
    /// The member of a file that has the cases of this kind.
    fn member(self) -> &'static str {
        match self {
            Kind::Run | Kind::Told => "runs",
            Kind::Serving => "servings",
            Kind::Refusal => "refused books",
        }
    }

    /// Whether a case is one of this kind.
    fn has(self, case: &Value) -> bool {
        match self {
            Kind::Told => case.get("world").is_some(),
            _ => true,
        }
    }

    fn label(self) -> &'static str {
        match self {
            Kind::Told => "runs of told worlds",
            _ => self.member(),
        }
    }
}

fn try_case<H: Wait>(
    wait: &H,
    alloc: Global,
    kind: Kind,
    given: Given,
) -> Result<Differences, CaseFault> {
    match kind {
        Kind::Run => run_case(wait, alloc, given),
        Kind::Told => told_case(wait, alloc, given),
        Kind::Serving => serve_case(alloc, given),
        Kind::Refusal => refuse_case(alloc, given),
    }
}

/// Where a case stands.
#[derive(Drop)]
struct Place<'a> {
    path: &'a str,
    kind: Kind,
    number: usize,
}

fn print_case<H: Wait>(rt: &HostRuntime, wait: &H, place: &Place, given: Given) -> io::Result<()> {
    let path = place.path;
    let label = place.kind.label();
    let number = place.number;
    let name = given.name();
    match try_case(wait, rt.alloc(), place.kind, given) {
        Ok(found) => {
            for line in found.lines.as_slice() {
                println!(rt; "{path}, {label} {number}, {name}: {line}")?;
            }
            Ok(())
        }
        Err(fault) => println!(rt; "{path}, {label} {number}, {name}: {fault}"),
    }
}

fn run_cases<H: Wait>(
    rt: &HostRuntime,
    wait: &H,
    path: &str,
    kind: Kind,
    cases: &[Value],
    names: Names,
) -> io::Result<()> {
    let mut count: usize = 0;
    for (index, case) in cases.iter().enumerate() {
        if kind.has(case) {
            let number = index.saturating_add(1);
            print_case(
                rt,
                wait,
                &Place { path, kind, number },
                Given { case, names },
            )?;
            count = count.saturating_add(1);
        }
    }
    match (kind, count) {
        (Kind::Told, 0) => Ok(()),
        _ => println!(rt; "{path}: {count} {}", kind.label()),
    }
}

fn run_kind<H: Wait>(
    rt: &HostRuntime,
    wait: &H,
    path: &str,
    kind: Kind,
    names: Names,
) -> io::Result<()> {
    let Some(value) = names.file.get(kind.member()) else {
        return Ok(());
    };
    match value.as_array() {
        Some(cases) => run_cases(rt, wait, path, kind, cases.as_slice(), names),
        None => println!(rt; "{path}: {} are no list", kind.member()),
    }
}

/// Whether the members of a file, and of what is usual in it, are known.
fn check_file(alloc: Global, file: &Value) -> Result<(), CaseFault> {
    members_of(alloc, file, "file", &MEMBERS)?;
    if let Some(usual) = file.get("usual") {
        members_of(alloc, usual, "usual", &USUAL)?;
    }
    Ok(())
}

fn print_check(rt: &HostRuntime, path: &str, file: &Value) -> io::Result<()> {
    match check_file(rt.alloc(), file) {
        Ok(()) => Ok(()),
        Err(fault) => println!(rt; "{path}: {fault}"),
    }
}

/// Every case of a file.
fn run_file<H: Wait>(rt: &HostRuntime, wait: &H, path: &str, names: Names) -> io::Result<()> {
    print_check(rt, path, names.file)?;
    run_kind(rt, wait, path, Kind::Run, names)?;
    run_kind(rt, wait, path, Kind::Told, names)?;
    run_kind(rt, wait, path, Kind::Serving, names)?;
    run_kind(rt, wait, path, Kind::Refusal, names)
}

/// The JSON of a file. A file that is lost or no JSON is said, and counts as null.
fn read_file(rt: &HostRuntime, path: &str) -> io::Result<Value> {
    let text = match fs::read_to_string(rt, path) {
        Ok(text) => text,
        Err(error) => {
            println!(rt; "{path}: {error}")?;
            return Ok(Value::Null);
        }
    };
    match Value::from_str(rt.alloc(), text.as_str()) {
        Ok(value) => Ok(value),
        Err(error) => {
            println!(rt; "{path}: {error}")?;
            Ok(Value::Null)
        }
    }
}

fn main(rt: HostRuntime) -> io::Result<()> {
    let mut paths = env::args(&rt)?.skip(1);
    let Some(first) = paths.next() else {
        return println!(rt; "usage: worked_runs SHARED CASES ..");
    };
    let shared = read_file(&rt, first.as_str())?;
    print_check(&rt, first.as_str(), &shared)?;
    for path in paths {
        let file = read_file(&rt, path.as_str())?;
        let names = Names {
            file: &file,
            shared: &shared,
        };
        run_file(&rt, &rt, path.as_str(), names)?;
    }
    Ok(())
}
