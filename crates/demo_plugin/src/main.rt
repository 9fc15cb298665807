//! A plugin that answers from a file, the book: `demo_plugin BOOK` reads request lines from standard input and writes reply lines to
//! standard output. It ends with 0 at the end of the input, else with 1, and says on standard error why.
#![tactic(auto)]

use book_file::{Book, read_book};
use plugin_kit::{Served, serve};
use std::process::ExitCode;
use std::{env, fs};
use std_streams::{ReaderSource, WriterSink};

/// The one argument.
fn book_name(rt: &HostRuntime) -> Option<String> {
    let mut args = env::args(rt).ok()?;
    let _program = args.next();
    let name = args.next()?;
    match args.next() {
        Some(_) => None,
        None => Some(name),
    }
}

/// Reads the book, or says why not.
fn open_book(rt: HostRuntime, name: &str) -> Option<Book> {
    let text = match fs::read_to_string(&rt, name) {
        Ok(text) => text,
        Err(error) => {
            let _ = eprintln!(rt; "demo_plugin: {name}: {error}");
            return None;
        }
    };
    match read_book(rt.alloc(), text.as_str()) {
        Ok(book) => Some(book),
        Err(fault) => {
            let _ = eprintln!(rt; "demo_plugin: {name}: {fault}");
            None
        }
    }
}

/// A line as it is shown in a message.
fn shown(line: &[u8]) -> &str {
    if line.len() > 200 {
        return "a line of more than 200 bytes";
    }
    match str::from_utf8(line) {
        Ok(text) => text,
        Err(_) => "a line that is no UTF-8",
    }
}

/// Says why serving ended before the end of the input, and gives the status.
fn status(rt: HostRuntime, served: &Served) -> u8 {
    let cause = match served {
        Served::End => return 0,
        Served::ReadFault => "standard input can't be read",
        Served::WriteFault => "standard output can't be written",
        Served::BadLine { line } => {
            let line = shown(line.as_slice());
            let _ = eprintln!(rt; "demo_plugin: no request: {line}");
            return 1;
        }
        Served::Limit => "the input has 2^62 bytes",
        Served::Memory => "out of memory",
    };
    let _ = eprintln!(rt; "demo_plugin: {cause}");
    1
}

fn main(rt: HostRuntime) -> ExitCode {
    let Some(name) = book_name(&rt) else {
        let _ = eprintln!(rt; "usage: demo_plugin BOOK");
        return ExitCode::from(1);
    };
    let Some(book) = open_book(rt, name.as_str()) else {
        return ExitCode::from(1);
    };
    let mut input = ReaderSource::new(rt.stdin());
    let mut output = WriterSink::new(rt.stdout());
    let served = serve(rt.alloc(), &mut input, &mut output, &book);
    ExitCode::from(status(rt, &served))
}
