ghost use Rattle.std.specs.Prelude.{◌≡◌};
ghost use Rattle.decl_words.specs.Words.{kind_of, operator_of, need_of, matching_of, backoff_of};

use sp_model::{Backoff, Matching, Need};
use sp_value::{Kind, Op};

/// The kind of a column.
pub fn kind_of(word: &str) -> Option<Kind>
    ensures { result ≡ kind_of word.now }
{
    if word == "bool" {
        Some(Kind::Bool)
    } else if word == "int" {
        Some(Kind::Int)
    } else if word == "text" {
        Some(Kind::Text)
    } else if word == "json" {
        Some(Kind::Json)
    } else {
        None
    }
}

/// An operator of a key.
pub fn operator_of(word: &str) -> Option<Op>
    ensures { result ≡ operator_of word.now }
{
    if word == "=" {
        Some(Op::Eq)
    } else if word == "<>" {
        Some(Op::Ne)
    } else if word == "<" {
        Some(Op::Lt)
    } else if word == "<=" {
        Some(Op::Le)
    } else if word == ">" {
        Some(Op::Gt)
    } else if word == ">=" {
        Some(Op::Ge)
    } else {
        None
    }
}

/// Whether a key needs a condition.
pub fn need_of(word: &str) -> Option<Need>
    ensures { result ≡ need_of word.now }
{
    if word == "required" {
        Some(Need::Required)
    } else if word == "optional" {
        Some(Need::Optional)
    } else if word == "any_of" {
        Some(Need::AnyOf)
    } else {
        None
    }
}

/// Whether a condition on a key only filters.
pub fn matching_of(word: &str) -> Option<Matching>
    ensures { result ≡ matching_of word.now }
{
    if word == "subset" {
        Some(Matching::Subset)
    } else if word == "exact" {
        Some(Matching::Exact)
    } else {
        None
    }
}

/// How the delays of a retry rule grow.
pub fn backoff_of(word: &str) -> Option<Backoff>
    ensures { result ≡ backoff_of word.now }
{
    if word == "constant" {
        Some(Backoff::Constant)
    } else if word == "fibonacci" {
        Some(Backoff::Fibonacci)
    } else if word == "exponential" {
        Some(Backoff::Exponential)
    } else {
        None
    }
}
