//! What a case is given, as bytes. A text of the data may have marks: `‹255›` is a byte, and `‹64×piece›` so many copies of the
//! piece, in which `#` is the number of the copy, from 0, and `^` the next number.

use crate::file::{File, Table};
use std::alloc::Global;

fn push_copy(alloc: Global, bytes: &mut Vec<u8>, piece: &str, number: u32) -> Option<()> {
    let own = format!(in alloc; "{number}").ok()?;
    let next = format!(in alloc; "{}", number.saturating_add(1)).ok()?;
    for byte in piece.as_bytes() {
        match byte {
            b'#' => bytes.extend_from_slice(own.as_bytes()).ok()?,
            b'^' => bytes.extend_from_slice(next.as_bytes()).ok()?,
            _ => bytes.push(*byte).ok()?,
        }
    }
    Some(())
}

fn push_copies(alloc: Global, bytes: &mut Vec<u8>, count: u32, piece: &str) -> Option<()> {
    for number in 0..count {
        push_copy(alloc, bytes, piece, number)?;
    }
    Some(())
}

/// What stands behind a `‹`: a mark, its `›`, and more text.
fn push_marked(alloc: Global, bytes: &mut Vec<u8>, part: &str) -> Option<()> {
    let (mark, more) = part.split_once("›")?;
    match mark.split_once("×") {
        Some((count, piece)) => push_copies(alloc, bytes, count.parse::<u32>().ok()?, piece)?,
        None => bytes.push(mark.parse::<u8>().ok()?).ok()?,
    }
    bytes.extend_from_slice(more.as_bytes()).ok()
}

/// The bytes that a text of the data stands for.
pub fn expanded(alloc: Global, text: &str) -> Option<Vec<u8>> {
    let mut parts = text.split("‹");
    let mut bytes = Vec::from_slice(alloc, parts.next()?.as_bytes()).ok()?;
    for part in parts {
        push_marked(alloc, &mut bytes, part)?;
    }
    Some(bytes)
}

fn push_all(alloc: Global, given: &mut Vec<Vec<u8>>, texts: &[String]) -> Option<()> {
    for text in texts {
        given.push(expanded(alloc, text.as_str())?).ok()?;
    }
    Some(())
}

/// The frame with a text in the place of its `‹›`.
fn framed(alloc: Global, frame: &str, text: &str) -> Option<String> {
    let (before, after) = frame.split_once("‹›")?;
    format!(in alloc; "{before}{text}{after}").ok()
}

/// A case's own texts, the first of them in the frame.
fn push_framed(alloc: Global, given: &mut Vec<Vec<u8>>, frame: &str, own: &[String]) -> Option<()> {
    let (first, others) = own.split_first()?;
    let text = framed(alloc, frame, first.as_str())?;
    given.push(expanded(alloc, text.as_str())?).ok()?;
    push_all(alloc, given, others)
}

/// The texts of the file, those of the table, and the case's own.
pub fn given_of(alloc: Global, file: &File, table: &Table, own: &[String]) -> Option<Vec<Vec<u8>>> {
    let mut given = Vec::new(alloc);
    push_all(alloc, &mut given, file.common.as_slice())?;
    push_all(alloc, &mut given, table.common.as_slice())?;
    match &table.frame {
        Some(frame) => push_framed(alloc, &mut given, frame.as_str(), own)?,
        None => push_all(alloc, &mut given, own)?,
    }
    Some(given)
}

/// The bytes at a place.
pub fn bytes_at(given: &[Vec<u8>], place: usize) -> Option<&[u8]> {
    Some(given.get(place)?.as_slice())
}

/// The text at a place.
pub fn str_at(given: &[Vec<u8>], place: usize) -> Option<&str> {
    str::from_utf8(bytes_at(given, place)?).ok()
}
