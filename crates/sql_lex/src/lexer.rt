// The tokens of a text.

ghost use Rattle.std.specs.Prelude.{bytes_eq, true, false, ◌&&◌, ◌++◌, if◌then◌else◌, slice_index, ◌≡◌, ◌≤◌, ◌<◌, ◌+◌, ◌∷◌, drop, length, map, take_while, IfOk, MatchOption};
ghost use Rattle.std.specs.Str.{IsUtf8};
ghost use Rattle.sql_lex.specs.Lex as spec;
ghost use Rattle.sql_lex.specs.Lex.{IsShort};
ghost use Rattle.sql_lex.specs.Quotes.{closed};

use crate::quotes::{quoted, text_of};
use crate::token::{Kind, Token, Value};
use sp_value::Memory;
use std::alloc::Global;

/// A token at the front of a text, and how many bytes it has.
#[derive(Drop)]
pub struct Front {
    pub kind: Kind,
    pub value: Value,
    pub len: usize,
}

const WORDS: [(&[u8], Kind); 21] = [
    (b"select", Kind::Select),
    (b"from", Kind::From),
    (b"where", Kind::Where),
    (b"join", Kind::Join),
    (b"inner", Kind::Inner),
    (b"on", Kind::On),
    (b"order", Kind::Order),
    (b"by", Kind::By),
    (b"asc", Kind::Asc),
    (b"desc", Kind::Desc),
    (b"limit", Kind::Limit),
    (b"and", Kind::And),
    (b"or", Kind::Or),
    (b"not", Kind::Not),
    (b"in", Kind::In),
    (b"is", Kind::Is),
    (b"null", Kind::Null),
    (b"true", Kind::True),
    (b"false", Kind::False),
    (b"as", Kind::As),
    (b"group", Kind::Group),
];

fn is_letter(b: u8) -> bool
    ensures { result ≡ spec.is_letter b }
{
    matches!(b, b'A'..=b'Z' | b'a'..=b'z' | b'_')
}

fn is_digit(b: u8) -> bool
    ensures { result ≡ spec.is_digit b }
{
    matches!(b, b'0'..=b'9')
}

fn is_word(b: u8) -> bool
    ensures { result ≡ spec.is_word b }
{
    is_letter(b) || is_digit(b)
}

fn is_blank(b: u8) -> bool
    ensures { result ≡ spec.is_blank b }
{
    b == b' ' || b == b'\t'
}

fn lower(b: u8) -> u8
    ensures { result ≡ spec.lower b }
{
    match b {
        b'A'..=b'Z' => b + 32,
        _ => b,
    }
}

#[tactic(auto, using(crate::proofs::Lexing::runs))]
fn digits_len(z: &[u8]) -> usize
    ensures value { result ≡ length (take_while spec.is_digit z.now) }
    ensures within { result ≤ length z.now }
    ensures moves { 0 < length z.now → spec.is_digit (slice_index z.now 0) ≡ true → 1 ≤ result }
{
    z.iter().take_while(|b| is_digit(**b)).count()
}

#[tactic(auto, using(crate::proofs::Lexing::runs))]
fn word_len(z: &[u8]) -> usize
    ensures value { result ≡ length (take_while spec.is_word z.now) }
    ensures within { result ≤ length z.now }
    ensures moves { 0 < length z.now → spec.is_word (slice_index z.now 0) ≡ true → 1 ≤ result }
{
    z.iter().take_while(|b| is_word(**b)).count()
}

fn folded(alloc: Global, z: &[u8]) -> Result<Vec<u8>, Memory>
    ensures { IfOk result (λ found. found.items ≡ map spec.lower z.now) }
{
    match z.iter().map(|b| lower(*b)).collect(alloc) {
        Ok(found) => Ok(found),
        Err(_) => Err(Memory),
    }
}

fn lookup(mut words: &[(&[u8], Kind)], word: &[u8]) -> Option<Kind>
    ensures { result ≡ spec.lookup (map (λ w. (w.0.now, w.1)) words.entry.now) word.now }
{
    while let [entry, rest @ ..] = words {
        if same_word(entry.0, word) {
            return Some(entry.1);
        }
        words = rest;
    }
    None
}

fn same_word(a: &[u8], b: &[u8]) -> bool
    ensures { result ≡ bytes_eq a.now b.now }
{
    a == b
}

#[tactic(auto, unfolding(crate::specs::Lex::reserved))]
fn reserved(word: &[u8]) -> Option<Kind>
    ensures { result ≡ spec.reserved word.now }
{
    lookup(&WORDS, word)
}

fn is_low_word(b: u8) -> bool
    ensures { result ≡ spec.is_low_word b }
{
    if matches!(b, b'A'..=b'Z') {
        false
    } else {
        is_word(b)
    }
}

fn all_low(mut z: &[u8]) -> bool
    ensures { result ≡ spec.all_pass spec.is_low_word z.entry.now }
{
    'more: while let [b, rest @ ..] = z {
        let b = *b;
        z = rest;
        if !is_low_word(b) {
            return false;
        }
    }
    true
}

/// Whether a name is a plain one in lower case that is not reserved.
#[tactic(auto, unfolding(crate::specs::Lex::is_plain))]
pub fn is_plain(z: &[u8]) -> bool
    ensures { result ≡ spec.is_plain z.now }
{
    is_letter(first(z)) && all_low(z) && is_free(reserved(z))
}

fn is_free(found: Option<Kind>) -> bool
    ensures { result ≡ spec.is_free found }
{
    match found {
        None => true,
        Some(_) => false,
    }
}

#[tactic(auto, unfolding(crate::specs::Lex::word))]
fn word(alloc: Global, z: &[u8]) -> Result<Front, Memory>
    requires room { 0 < length z.now }
    requires begins { spec.is_letter (slice_index z.now 0) ≡ true }
    ensures value { IfOk result (λ f. f ≡ spec.word z.now) }
    ensures moves { IfOk result (λ f. (1 ≤ f.len) × (f.len ≤ length z.now)) }
{
    let len = word_len(z);
    let found = folded(alloc, &z[..len])?;
    match reserved(found.as_slice()) {
        Some(kind) => Ok(sign(kind, len)),
        None => Ok(Front {
            kind: Kind::Name,
            value: Value::Text(text_of(found)),
            len,
        }),
    }
}

const LIMIT: u128 = 1 << 63;

// The value of digits, where it is at most the limit.
fn value(digits: &[u8]) -> Option<u64>
    ensures { MatchOption result (spec.limit < spec.value_from 0 digits.now) (λ n. (n ≡ spec.value_from 0 digits.now) × (n ≤ spec.limit)) }
{
    let mut value: u64 = 0;
    for d in digits {
        let next = value as u128 * 10 + d.saturating_sub(b'0') as u128;
        if next > LIMIT {
            return None;
        }
        value = next as u64;
    }
    Some(value)
}

fn signed(is_negative: bool, value: u64) -> Option<i64>
    requires { value ≤ spec.limit }
    ensures { result ≡ spec.signed is_negative value }
{
    if is_negative {
        Some((-(value as i128)) as i64)
    } else if value as u128 == LIMIT {
        None
    } else {
        Some(value as i64)
    }
}

fn sign(kind: Kind, len: usize) -> Front
    ensures { result ≡ spec.sign kind len }
{
    Front {
        kind,
        value: Value::Fixed,
        len,
    }
}

// The number of a sign or none, and all digits that follow.
#[tactic(auto, using(crate::proofs::Lexing::out_of_range), unfolding(crate::specs::Lex::number))]
fn number(is_negative: bool, z: &[u8]) -> Front
    requires room { 0 < length z.now }
    requires begins { spec.is_digit (slice_index z.now 0) ≡ true }
    ensures value { result ≡ spec.number is_negative z.now }
    ensures moves { (1 ≤ result.len) × (result.len ≤ length z.now + spec.sign_len is_negative) }
{
    let len = digits_len(z);
    match signed_value(is_negative, &z[..len]) {
        Some(n) => Front {
            kind: Kind::Number,
            value: Value::Number(n),
            len: if is_negative { len + 1 } else { len },
        },
        None => sign(Kind::Bad, 1),
    }
}

#[tactic(auto, using(crate::proofs::Lexing::out_of_range))]
fn signed_value(is_negative: bool, digits: &[u8]) -> Option<i64>
    ensures { result ≡ spec.signed is_negative (spec.value_from 0 digits.now) }
{
    match value(digits) {
        Some(n) => signed(is_negative, n),
        None => None,
    }
}

fn first(z: &[u8]) -> u8
    ensures value { result ≡ spec.first z.now }
    ensures none { length z.now ≡ 0 → result ≡ 0 }
{
    match z {
        [] => 0,
        [b, ..] => *b,
    }
}

fn less(next: u8) -> Front
    ensures value { result ≡ spec.less next }
    ensures short { IsShort next result.len }
{
    match next {
        b'=' => sign(Kind::AtMost, 2),
        b'>' => sign(Kind::NotEqual, 2),
        _ => sign(Kind::Less, 1),
    }
}

fn greater(next: u8) -> Front
    ensures value { result ≡ spec.greater next }
    ensures short { IsShort next result.len }
{
    match next {
        b'=' => sign(Kind::AtLeast, 2),
        _ => sign(Kind::Greater, 1),
    }
}

fn not_equal(next: u8) -> Front
    ensures value { result ≡ spec.not_equal next }
    ensures short { IsShort next result.len }
{
    match next {
        b'=' => sign(Kind::NotEqual, 2),
        _ => sign(Kind::Bad, 1),
    }
}

#[tactic(auto, unfolding(crate::specs::Lex::sign_of))]
fn sign_of(b: u8, z: &[u8]) -> Front
    ensures value { result ≡ spec.sign_of b z.now }
    ensures moves { (1 ≤ result.len) × (result.len ≤ length z.now + 1) }
{
    match b {
        b'*' => sign(Kind::Star, 1),
        b',' => sign(Kind::Comma, 1),
        b'.' => sign(Kind::Dot, 1),
        b'(' => sign(Kind::Open, 1),
        b')' => sign(Kind::Close, 1),
        b';' => sign(Kind::Semi, 1),
        b'=' => sign(Kind::Equal, 1),
        b'<' => less(first(z)),
        b'>' => greater(first(z)),
        b'!' => not_equal(first(z)),
        _ => sign(Kind::Bad, 1),
    }
}

fn text(alloc: Global, z: &[u8]) -> Result<Front, Memory>
    requires room { 0 < length z.now }
    requires text { IsUtf8 z.now }
    requires begins { slice_index z.now 0 ≡ 39 }
    ensures value { IfOk result (λ f. f ≡ spec.text_by (closed false 39 (drop 1 z.now))) }
    ensures moves { IfOk result (λ f. (1 ≤ f.len) × (f.len ≤ length z.now)) }
{
    match quoted(alloc, b'\'', &z[1..])? {
        Some((content, len)) => Ok(Front {
            kind: Kind::Text,
            value: Value::Text(content),
            len: len + 1,
        }),
        None => Ok(sign(Kind::Bad, 1)),
    }
}

fn name(alloc: Global, z: &[u8]) -> Result<Front, Memory>
    requires room { 0 < length z.now }
    requires text { IsUtf8 z.now }
    requires begins { slice_index z.now 0 ≡ 34 }
    ensures value { IfOk result (λ f. f ≡ spec.name_by (closed false 34 (drop 1 z.now))) }
    ensures moves { IfOk result (λ f. (1 ≤ f.len) × (f.len ≤ length z.now)) }
{
    match quoted(alloc, b'"', &z[1..])? {
        Some((inner, len)) => {
            if inner.as_bytes().is_empty() {
                Ok(sign(Kind::Bad, 1))
            } else {
                Ok(Front {
                    kind: Kind::Name,
                    value: Value::Text(inner),
                    len: len + 1,
                })
            }
        }
        None => Ok(sign(Kind::Bad, 1)),
    }
}

#[tactic(auto, using(crate::proofs::Lexing::front_is))]
fn front_at(alloc: Global, z: &[u8]) -> Result<Front, Memory>
    requires room { 0 < length z.now }
    requires text { slice_index z.now 0 < 128 → IsUtf8 z.now }
    ensures value { IfOk result (λ f. f ≡ spec.front z.now) }
    ensures moves { IfOk result (λ f. (1 ≤ f.len) × (f.len ≤ length z.now)) }
{
    front_by(alloc, z)
}

fn front_by(alloc: Global, z: &[u8]) -> Result<Front, Memory>
    requires room { 0 < length z.now }
    requires text { slice_index z.now 0 < 128 → IsUtf8 z.now }
    ensures value { IfOk result (λ f. f ≡ spec.front_by (slice_index z.now 0) z.now) }
    ensures moves { IfOk result (λ f. (1 ≤ f.len) × (f.len ≤ length z.now)) }
{
    let b = z[0];
    if is_letter(b) {
        word(alloc, z)
    } else if is_digit(b) {
        Ok(number(false, z))
    } else if b == b'-' && is_digit(first(&z[1..])) {
        Ok(number(true, &z[1..]))
    } else if b == b'\'' {
        text(alloc, z)
    } else if b == b'"' {
        name(alloc, z)
    } else {
        Ok(sign_of(b, &z[1..]))
    }
}

fn is_bad(kind: Kind) -> bool
    ensures { result ≡ spec.is_bad kind }
{
    matches!(kind, Kind::Bad)
}

fn lex_bytes(alloc: Global, bytes: &[u8]) -> Result<Vec<Token>, Memory>
    requires { IsUtf8 bytes.now }
    ensures { IfOk result (λ v. v.items ≡ spec.tokens bytes.now) }
{
    let mut found = Vec::new(alloc);
    let mut at = 0usize;
    'more: while at < bytes.len() {
        if is_blank(bytes[at]) {
            at += 1;
        } else {
            let Front { kind, value, len } = front_at(alloc, &bytes[at..])?;
            let place = at as u64;
            let Ok(()) = found.push(Token { kind, value, place }) else {
                return Err(Memory);
            };
            if is_bad(kind) {
                return Ok(found);
            }
            at += len;
        }
    }
    Ok(found)
}

/// The tokens of a text, up to and with the first that is bad.
pub fn lex(alloc: Global, text: &str) -> Result<Vec<Token>, Memory>
    ensures { IfOk result (λ v. v.items ≡ spec.tokens text.now) }
{
    lex_bytes(alloc, text.as_bytes())
}
