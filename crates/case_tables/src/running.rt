//! The cases of a file.

use crate::file::{File, Table};
use crate::given::{expanded, given_of};
use std::alloc::Global;
use std::rt::Files;
use std::{fs, io};

/// What a program makes of cases.
pub trait Outcomes {
    /// What comes of a call of a crate, none where the crate has no such call, what is given can't be read, or memory is wanting.
    fn outcome(alloc: Global, of: &str, call: &str, given: &[Vec<u8>]) -> Option<String>;
}

/// What came of a case, and what has to come.
fn tried<O: Outcomes>(
    alloc: Global,
    file: &File,
    table: &Table,
    case: &[String],
) -> Option<(String, Vec<u8>)> {
    let (want, own) = case.split_last()?;
    let given = given_of(alloc, file, table, own)?;
    let came = O::outcome(
        alloc,
        file.of.as_str(),
        table.call.as_str(),
        given.as_slice(),
    )?;
    Some((came, expanded(alloc, want.as_str())?))
}

/// Every case of a table, and how many there are.
fn run_table<O: Outcomes, R: Print + AllocGlobal>(
    rt: &R,
    file: &File,
    table: &Table,
) -> io::Result<()> {
    for case in table.cases.iter() {
        match tried::<O>(rt.alloc(), file, table, case.as_slice()) {
            Some((came, want)) => if came.as_bytes() != want.as_slice() {
                println!(rt; "    {case:?}: {came:?} came")?;
            },
            None => println!(rt; "    {case:?}: nothing came")?,
        }
    }
    println!(rt; "  {}: {}", table.shows, table.cases.len())
}

/// Every table of a file: its cases at which another text came than has to come, or nothing, and how many cases it has.
pub fn run_file<O: Outcomes, R: Files + Print + AllocGlobal>(rt: &R, path: &str) -> io::Result<()> {
    let text = fs::read_to_string(rt, path)?;
    println!(rt; "{path}")?;
    match File::read(rt.alloc(), text.as_str()) {
        Ok(file) => {
            for table in file.table.iter() {
                run_table::<O, R>(rt, &file, table)?;
            }
            Ok(())
        }
        Err(error) => println!(rt; "  {error}"),
    }
}
