//! A plugin's loop over a book, and texts that are no book.

use crate::child_case::{book_of, child_members};
use crate::difference::Differences;
use crate::fault::CaseFault;
use crate::form::members_of;
use crate::given::Given;
use crate::setup::{input_of, sink_of};
use book_file::{Book, read_book};
use plugin_kit::{Served, serve};
use std::alloc::{AllocError, Global};

const SERVING: [&str; 7] = [
    "name", "child", "input", "fails", "pieces", "answers", "end",
];

const REFUSAL: [&str; 3] = ["name", "book", "fault"];

fn end_text(alloc: Global, served: &Served) -> Result<String, AllocError> {
    let words = match served {
        Served::End => "end",
        Served::ReadFault => "read fault",
        Served::WriteFault => "write fault",
        Served::BadLine { line } => match str::from_utf8(line.as_slice()) {
            Ok(line) => return format!(in alloc; "bad line: {line}"),
            Err(_) => "bad line that is no text",
        },
        Served::Limit => "limit",
        Served::Memory => "memory",
    };
    String::from_str(alloc, words)
}

fn served_book(alloc: Global, given: Given) -> Result<Book, CaseFault> {
    let members = child_members(alloc, given.names, given.need("child")?)?;
    book_of(alloc, given.names, members)
}

/// Serves an input over the book of a child.
pub(crate) fn serve_case(alloc: Global, given: Given) -> Result<Differences, CaseFault> {
    members_of(alloc, given.case, "case", &SERVING)?;
    let book = served_book(alloc, given)?;
    let mut input = input_of(alloc, given)?;
    let mut answers = sink_of(alloc, given, "answers")?;
    let served = serve(alloc, &mut input, &mut answers, &book);
    let mut found = Differences::none(alloc);
    let want = given.bytes(alloc, "answers")?;
    found.text("answers", answers.held(), &want)?;
    let end = end_text(alloc, &served)?;
    let want = given.bytes(alloc, "end")?;
    found.text("end", end.as_bytes(), &want)?;
    Ok(found)
}

fn fault_text(alloc: Global, text: &[u8]) -> Result<String, CaseFault> {
    let Ok(text) = str::from_utf8(text) else {
        return Err(CaseFault::Form("book"));
    };
    match read_book(alloc, text) {
        Ok(_book) => Ok(String::from_str(alloc, "none")?),
        Err(fault) => Ok(format!(in alloc; "{fault}")?),
    }
}

/// Reads a text as a book, and says why it is none.
pub(crate) fn refuse_case(alloc: Global, given: Given) -> Result<Differences, CaseFault> {
    members_of(alloc, given.case, "case", &REFUSAL)?;
    let text = given.bytes(alloc, "book")?;
    let fault = fault_text(alloc, &text)?;
    let mut found = Differences::none(alloc);
    let want = given.bytes(alloc, "fault")?;
    found.text("fault", fault.as_bytes(), &want)?;
    Ok(found)
}
