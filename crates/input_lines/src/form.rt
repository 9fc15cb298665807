// What one line is.

ghost use Rattle.std.specs.Prelude.{◌≡◌, IfOk};
ghost use Rattle.input_lines.specs.Lines.{is_blank, without_spaces, is_clear_cache, session_line, marked_line, line_of};

use crate::line::Line;
use sp_value::{Memory, Text};
use spelled_counts::count_of;
use std::alloc::Global;

/// Sessions are numbered from 1 to this.
const LAST_SESSION: u32 = 64;

/// Whether there are spaces and tabs alone.
pub(crate) fn is_blank(text: &[u8]) -> bool
    ensures { result ≡ is_blank text.now }
{
    text.iter().all(|byte| *byte == b' ' || *byte == b'\t')
}

fn without_spaces(text: &str) -> &str
    ensures { result.now ≡ without_spaces text.now }
{
    text.trim_start_matches(' ')
}

fn is_clear_cache(text: &[u8]) -> bool
    ensures { result ≡ is_clear_cache text.now }
{
    match text.strip_prefix(b".cache clear") {
        Some(rest) => is_blank(rest),
        None => false,
    }
}

/// What stands in the place of a session's statement.
fn session_line(alloc: Global, session: u32, text: &str) -> Result<Line, Memory>
    ensures { IfOk result (λ line. line ≡ session_line session text.now) }
{
    if !text.as_bytes().starts_with(b".") {
        let text = Text::from_str(alloc, text)?;
        return Ok(Line::Statement { session, text });
    }
    if is_clear_cache(text.as_bytes()) {
        Ok(Line::ClearCache { session })
    } else {
        Ok(Line::BadForm)
    }
}

/// The line that has this after its `@`.
fn marked_line(alloc: Global, text: &str) -> Result<Line, Memory>
    ensures { IfOk result (λ line. line ≡ marked_line text.now) }
{
    let Some((digits, rest)) = text.split_once(' ') else {
        return Ok(Line::BadForm);
    };
    let Some(session) = count_of(LAST_SESSION, digits) else {
        return Ok(Line::BadForm);
    };
    let rest = without_spaces(rest);
    if is_blank(rest.as_bytes()) {
        return Ok(Line::BadForm);
    }
    session_line(alloc, session, rest)
}

/// What a line is.
pub(crate) fn line_of(alloc: Global, line: &[u8]) -> Result<Line, Memory>
    ensures { IfOk result (λ l. l ≡ line_of line.now) }
{
    let Ok(text) = str::from_utf8(line) else {
        return Ok(Line::BadForm);
    };
    match text.strip_prefix('@') {
        Some(rest) => marked_line(alloc, rest),
        None => session_line(alloc, 1, text),
    }
}
