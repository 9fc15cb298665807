// What stands between quotes.

ghost use Rattle.std.specs.Prelude.{◌≡◌, ◌≤◌, ◌<◌, ◌++◌, false, drop, length, IfOk, IfSome, option_map};
ghost use Rattle.std.specs.Str.{IsUtf8};
ghost use Rattle.sql_lex.specs.Quotes as spec;

use sp_value::{Memory, Text};
use std::alloc::Global;

/// A text of these bytes.
pub fn text_of(bytes: Vec<u8>) -> Text
    requires { IsUtf8 bytes.items }
    ensures { result ≡ bytes.items }
{
    match String::from_utf8(bytes) {
        Ok(text) => Text::from_string(text),
        Err(_) => unreachable!(),
    }
}

#[tactic(auto, using(crate::proofs::Lexing::steps))]
fn closed(alloc: Global, quote: u8, mut z: &[u8]) -> Result<Option<(Vec<u8>, usize)>, Memory>
    ensures value { IfOk result (λ found. option_map (λ f. (f.0.items, f.1)) found ≡ spec.closed false quote z.entry.now) }
    ensures within { IfOk result (λ found. IfSome found (λ f. f.1 ≤ length z.entry.now)) }
{
    let mut content = Vec::new(alloc);
    let mut read = 0usize;
    let mut is_second = false;
    'more: while let [b, rest @ ..] = z {
        let b = *b;
        z = rest;
        if is_second {
            if b != quote {
                return Ok(Some((content, read)));
            }
            let Ok(()) = content.push(b) else {
                return Err(Memory);
            };
            read += 1;
            is_second = false;
        } else if b == quote {
            read += 1;
            is_second = true;
        } else {
            let Ok(()) = content.push(b) else {
                return Err(Memory);
            };
            read += 1;
        }
    }
    if is_second {
        Ok(Some((content, read)))
    } else {
        Ok(None)
    }
}

/// What stands before the closing quote, and how many bytes that takes with the quote.
pub fn quoted(alloc: Global, quote: u8, z: &[u8]) -> Result<Option<(Text, usize)>, Memory>
    requires text { IsUtf8 z.now }
    requires ascii { quote < 128 }
    ensures value { IfOk result (λ found. found ≡ spec.closed false quote z.now) }
    ensures closes { IfOk result (λ found. spec.Closes quote z.now found) }
    ensures within { IfOk result (λ found. IfSome found (λ f. f.1 ≤ length z.now)) }
{
    match closed(alloc, quote, z)? {
        Some((content, len)) => Ok(Some((text_of(content), len))),
        None => Ok(None),
    }
}

fn doubled(alloc: Global, quote: u8, z: &[u8]) -> Result<Vec<u8>, Memory>
    ensures { IfOk result (λ found. found.items ≡ spec.quoted quote z.now) }
{
    let mut found = Vec::new(alloc);
    let Ok(()) = found.push(quote) else {
        return Err(Memory);
    };
    'more: for b in z {
        let Ok(()) = found.push(*b) else {
            return Err(Memory);
        };
        if *b == quote {
            let Ok(()) = found.push(quote) else {
                return Err(Memory);
            };
        }
    }
    let Ok(()) = found.push(quote) else {
        return Err(Memory);
    };
    Ok(found)
}

/// The text between quotes, each of its quotes twice.
pub fn quote_text(alloc: Global, quote: u8, text: &str) -> Result<Text, Memory>
    requires { quote < 128 }
    ensures { IfOk result (λ t. t ≡ spec.quoted quote text.now) }
{
    let found = doubled(alloc, quote, text.as_bytes())?;
    Ok(text_of(found))
}
