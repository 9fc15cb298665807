use book_file::Book;
use sp_model::{Asked, Ending, Reply, Version};
use sp_value::{Memory, TryCopy};
use sp_world::{Line, LineFault, Request, read_request, reply_line};
use std::alloc::Global;
use std::collections::VecDeque;

/// The lines that are still to come of each open call, in the order in which the calls were heard.
#[derive(Drop)]
pub(crate) struct OpenReplies {
    replies: Vec<VecDeque<Vec<u8>>>,
}

fn push_line(alloc: Global, lines: &mut VecDeque<Vec<u8>>, line: &Line) -> Result<(), Memory> {
    let bytes = reply_line(alloc, line)?;
    match lines.push_back(bytes) {
        Ok(()) => Ok(()),
        Err(_) => Err(Memory),
    }
}

fn ending_line(alloc: Global, id: u64, ending: &Ending) -> Result<Line, Memory> {
    match ending {
        Ending::End => Ok(Line::End { id }),
        Ending::Error(text) => Ok(Line::Error {
            id,
            text: text.copy(alloc)?,
        }),
    }
}

/// The lines of a reply to a call.
fn reply_lines(alloc: Global, id: u64, reply: &Reply) -> Result<VecDeque<Vec<u8>>, Memory> {
    let mut lines = VecDeque::new(alloc);
    for item in reply.items.as_slice() {
        let item = item.copy(alloc)?;
        push_line(alloc, &mut lines, &Line::Item { id, item })?;
    }
    let ending = ending_line(alloc, id, &reply.ending)?;
    push_line(alloc, &mut lines, &ending)?;
    Ok(lines)
}

fn version_line(id: u64, version: Version) -> Line {
    match version {
        Version::Is(version) => Line::Version { id, version },
        Version::Bad(text) => Line::Error { id, text },
    }
}

fn declaration_line(id: u64, book: &Book) -> Result<Line, Memory> {
    match book.declaration().clone() {
        Ok(value) => Ok(Line::Declaration { id, value }),
        Err(_) => Err(Memory),
    }
}

/// The one line that answers no call.
fn one_line(alloc: Global, line: &Line) -> Result<VecDeque<Vec<u8>>, Memory> {
    let mut lines = VecDeque::new(alloc);
    push_line(alloc, &mut lines, line)?;
    Ok(lines)
}

/// The lines of what a book answers.
fn lines_of(
    alloc: Global,
    book: &Book,
    id: u64,
    asked: &Asked,
) -> Result<VecDeque<Vec<u8>>, Memory> {
    match asked {
        Asked::Declare { .. } => {
            let line = declaration_line(id, book)?;
            one_line(alloc, &line)
        }
        Asked::Version { tick, .. } => {
            let version = book.version_at(alloc, *tick)?;
            one_line(alloc, &version_line(id, version))
        }
        Asked::Call(key) => {
            let reply = book.reply_to(alloc, key)?;
            reply_lines(alloc, id, &reply)
        }
    }
}

impl OpenReplies {
    pub(crate) fn new(alloc: Global) -> OpenReplies {
        OpenReplies {
            replies: Vec::new(alloc),
        }
    }

    /// Ends all open calls.
    pub(crate) fn clear(&mut self) {
        self.replies.clear();
    }

    /// Opens the call of a line. A line that is no request opens none.
    pub(crate) fn open(&mut self, alloc: Global, book: &Book, line: &[u8]) -> Result<(), Memory> {
        let Request::Ask { id, asked, .. } = match read_request(alloc, line) {
            Ok(request) => request,
            Err(LineFault::Memory) => return Err(Memory),
            Err(_) => return Ok(()),
        };
        let lines = lines_of(alloc, book, id, &asked)?;
        match self.replies.push(lines) {
            Ok(()) => Ok(()),
            Err(_) => Err(Memory),
        }
    }

    /// The place of an open call, counted around them.
    fn place(&self, pick: u64) -> Option<usize> {
        let count = self.replies.len() as u64;
        if count == 0 {
            return None;
        }
        Some((pick % count) as usize)
    }

    /// The next line of the call that is picked.
    pub(crate) fn next(&self, pick: u64) -> Option<&[u8]> {
        let lines = self.replies.get(self.place(pick)?)?;
        match lines.front() {
            Some(line) => Some(line.as_slice()),
            None => None,
        }
    }

    /// The next line of the call that is picked was given.
    pub(crate) fn advance(&mut self, pick: u64) {
        let Some(place) = self.place(pick) else {
            return;
        };
        if place < self.replies.len() {
            let _given = self.replies[place].pop_front();
            if self.replies[place].is_empty() {
                drop(self.replies.remove(place));
            }
        }
    }
}
