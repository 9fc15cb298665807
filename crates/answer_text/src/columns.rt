// Texts in columns: escaped, counted in characters, filled.

ghost use Rattle.std.specs.Prelude.{◌≡◌, ◌<◌, ◌++◌, ℕ, IfOk, OnOk, count_by, replicate};
ghost use Rattle.std.specs.List.{list_any};
ghost use Rattle.answer_text.specs.Columns.{hex_digit, is_control, escaped_byte, escaped, is_first, characters, filled};

use crate::spelled::push_all;
use sp_value::Memory;
use std::alloc::Global;

fn hex_digit(number: u8) -> u8
    requires { number < 16 }
    ensures { result ≡ hex_digit number }
{
    if number < 10 {
        b'0' + number
    } else {
        b'a' + (number - 10)
    }
}

fn push_escaped_byte(text: &mut Vec<u8>, byte: u8) -> Result<(), Memory>
    ensures { OnOk result (text.new.items ≡ text.old.items ++ escaped_byte byte) }
{
    if is_control(byte) {
        push_all(text, b"\\u00")?;
        push_all(text, &[hex_digit(byte / 16), hex_digit(byte % 16)])
    } else {
        push_all(text, &[byte])
    }
}

fn is_control(byte: u8) -> bool
    ensures { result ≡ is_control byte }
{
    byte < 32 || byte == 127
}

fn has_control(words: &[u8]) -> bool
    ensures { result ≡ list_any is_control words.now }
{
    words.iter().any(|byte| is_control(*byte))
}

/// Appends a text, each control character as `\u` and four hexadecimal digits.
#[tactic(auto, using(crate::proofs::Plain::plain))]
pub fn push_escaped(text: &mut Vec<u8>, words: &[u8]) -> Result<(), Memory>
    ensures { OnOk result (text.new.items ≡ text.old.items ++ escaped words.now) }
{
    if has_control(words) {
        push_each_escaped(text, words)
    } else {
        push_all(text, words)
    }
}

fn push_each_escaped(text: &mut Vec<u8>, words: &[u8]) -> Result<(), Memory>
    ensures { OnOk result (text.new.items ≡ text.old.items ++ escaped words.now) }
{
    for byte in words {
        push_escaped_byte(text, *byte)?;
    }
    Ok(())
}

/// The same as a text of its own.
pub(crate) fn escaped(alloc: Global, words: &[u8]) -> Result<Vec<u8>, Memory>
    ensures { IfOk result (λ v. v.items ≡ escaped words.now) }
{
    let mut text = Vec::with_capacity(alloc, words.len())?;
    push_escaped(&mut text, words)?;
    Ok(text)
}

fn is_first(byte: u8) -> bool
    ensures { result ≡ is_first byte }
{
    byte < 128 || 192 <= byte
}

/// How many characters a text of UTF-8 has.
pub(crate) fn characters(text: &[u8]) -> usize
    ensures { result ≡ characters text.now }
{
    let mut count = 0;
    for byte in text {
        if is_first(*byte) {
            count += 1;
        }
    }
    count
}

/// Appends a text, and spaces up to a width in characters.
pub(crate) fn push_filled(text: &mut Vec<u8>, width: usize, words: &[u8]) -> Result<(), Memory>
    ensures { OnOk result (text.new.items ≡ text.old.items ++ filled width words.now) }
{
    push_all(text, words)?;
    push_copies(text, width.saturating_sub(characters(words)), b' ')
}

/// Appends one byte that often.
pub(crate) fn push_copies(text: &mut Vec<u8>, count: usize, byte: u8) -> Result<(), Memory>
    ensures { OnOk result (text.new.items ≡ text.old.items ++ replicate count byte) }
{
    let Some(len) = text.len().checked_add(count) else {
        return Err(Memory);
    };
    match text.resize(len, byte) {
        Ok(()) => Ok(()),
        Err(_) => Err(Memory),
    }
}
