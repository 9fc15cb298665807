//! Reads SQL statements, one a line, and prints each in its one spelling, or its first fault with the fault's place.
#![tactic(auto)]

use sp_value::Text;
use sql_parser::{SqlFault, parse, print};
use std::alloc::{AllocError, Global};
use std::io;

/// The statement's spelling, or `error: ..` with a place in bytes from 0.
fn spelled(alloc: Global, text: &str) -> Result<Text, AllocError> {
    match parse(alloc, text) {
        Ok(statement) => match print(alloc, &statement) {
            Ok(spelling) => Ok(spelling),
            Err(_) => Err(AllocError),
        },
        Err(SqlFault::Syntax { place }) => {
            Ok(Text::from_string(format!(in alloc; "error: syntax at {place}")?))
        }
        Err(SqlFault::TooDeep { place }) => {
            Ok(Text::from_string(format!(in alloc; "error: too deep at {place}")?))
        }
        Err(SqlFault::Memory) => Err(AllocError),
    }
}

fn main(rt: HostRuntime) -> io::Result<()> {
    for line in rt.lines(rt.alloc()) {
        let text = spelled(rt.alloc(), line?.as_str())?;
        println!(rt; "{}", text.as_str())?;
    }
    Ok(())
}
