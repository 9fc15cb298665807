ghost use Rattle.std.specs.Prelude.{◌≡◌, ◌≤◌, ◌<◌, ◌+◌, ◌++◌, ◌∷◌, ℕ, List, true, false, length, take, drop, IfOk, IfSome, IfNone};
ghost use Rattle.sp_value.specs.Patterns.{fits, fits_some, some_end, is_literal};

use crate::copying::TryCopy;
use crate::text::{Memory, Text};
use std::alloc::Global;
use std::marker::Model;

/// A pattern in which `*` stands for any bytes, also none, and every other byte for itself. Contracts
/// see it as its bytes.
#[derive(Drop)]
pub struct Pattern {
    text: Text,
}

impl Model for Pattern {
    ghost use Rattle.std.specs.Prelude.{List, ℕ};

    ghost Value = { List ℕ };

    ghost view = { λ p. p.text };
}

impl Pattern {
    /// The pattern that a text spells, unless memory is wanting.
    pub fn read(alloc: Global, text: &str) -> Result<Pattern, Memory>
        ensures { IfOk result (λ p. p ≡ text.now) }
    {
        let text = Text::from_str(alloc, text)?;
        Ok(Pattern { text })
    }

    /// The text that spells the pattern.
    pub fn as_str(&self) -> &str
        ensures { result.now ≡ self.now }
    {
        self.text.as_str()
    }

    /// Whether the whole text fits the pattern.
    pub fn fits(&self, text: &Text) -> bool
        ensures { result ≡ fits self.now text.now }
    {
        fits_bytes(self.text.as_bytes(), text.as_bytes())
    }
}

impl TryCopy for Pattern {
    fn copy(&self, alloc: Global) -> Result<Pattern, Memory> {
        let text = self.text.copy(alloc)?;
        Ok(Pattern { text })
    }
}

/// Whether the whole text fits the pattern that another text spells.
pub fn fits_text(pattern: &Text, text: &Text) -> bool
    ensures { result ≡ fits pattern.now text.now }
{
    fits_bytes(pattern.as_bytes(), text.as_bytes())
}

fn fits_bytes(pattern: &[u8], text: &[u8]) -> bool
    ensures { result ≡ fits pattern.now text.now }
{
    let first = piece_len(pattern);
    if first == pattern.len() {
        return pattern == text;
    }
    text.starts_with(&pattern[..first]) && some_end_fits(&pattern[first + 1..], &text[first..])
}

/// Whether some end of the text fits. Each piece between stars is taken where it first stands, which
/// leaves the longest end for the pieces after it.
fn some_end_fits(pattern: &[u8], text: &[u8]) -> bool
    ensures { result ≡ some_end (fits pattern.now) text.now }
{
    let mut left = pattern;
    let mut end = text;
    loop {
        let piece = piece_len(left);
        if piece == left.len() {
            return end.ends_with(left);
        }
        let Some(after) = after_first(&left[..piece], end) else {
            return false;
        };
        left = &left[piece + 1..];
        end = &end[after..];
    }
}

/// How many bytes stand before the first star.
fn piece_len(pattern: &[u8]) -> usize
    ensures within { result ≤ length pattern.now }
    ensures literal { is_literal (take result pattern.now) ≡ true }
    ensures star { result < length pattern.now → pattern.now ≡ take result pattern.now ++ 42 ∷ drop (result + 1) pattern.now }
{
    for (index, byte) in pattern.iter().enumerate() {
        if *byte == b'*' {
            return index;
        }
    }
    pattern.len()
}

/// Where the first place ends at which a piece without stars stands in the text.
fn after_first(piece: &[u8], text: &[u8]) -> Option<usize>
    requires { is_literal piece.now ≡ true }
    ensures within { IfSome result (λ after. after ≤ length text.now) }
    ensures some { IfSome result (λ after. (rest : List ℕ) → some_end (fits (piece.now ++ 42 ∷ rest)) text.now ≡ some_end (fits rest) (drop after text.now)) }
    ensures none { IfNone result ((rest : List ℕ) → some_end (fits (piece.now ++ 42 ∷ rest)) text.now ≡ false) }
{
    if piece.is_empty() {
        return Some(0);
    }
    for start in 0..text.len() {
        if text[start..].starts_with(piece) {
            return Some(start + piece.len());
        }
    }
    None
}

/// Whether some pattern of a list fits the whole text.
pub fn fits_some(patterns: &[Pattern], text: &Text) -> bool
    ensures { result ≡ fits_some patterns.now text.now }
{
    for pattern in patterns {
        if pattern.fits(text) {
            return true;
        }
    }
    false
}
