// Reading words, names and columns.

ghost use Rattle.std.specs.Prelude.{◌≡◌, [], ◌∷◌, IfOk};
ghost use Rattle.sql_grammar.specs.Reading.{next_in};
ghost use Rattle.sql_grammar.specs.Says as say;
ghost use Rattle.sql_grammar.specs.Gives.{Gives};
ghost use Rattle.sql_grammar.specs.Parser as spec;

use crate::ast::{Name, Ref};
use crate::stop::Stop;
use sp_value::{Memory, TryCopy};
use sql_lex::{Kind, Token, Value};
use std::alloc::Global;

pub fn next_is(tokens: &[Token], kind: Kind) -> bool
    ensures { result ≡ next_in (kind ∷ []) tokens.now }
{
    match tokens {
        [] => false,
        [first, ..] => kind == first.kind,
    }
}

pub fn word<'a>(tokens: &'a [Token], kind: Kind) -> Result<&'a [Token], Stop<'a>>
    ensures { Gives (λ x. (tt, x.now)) result (spec.word_at kind tokens.now) }
{
    match tokens {
        [] => Err(Stop::Fault {
            deep: false,
            rest: tokens,
        }),
        [first, rest @ ..] => {
            if first.kind == kind {
                Ok(rest)
            } else {
                Err(Stop::Fault {
                    deep: false,
                    rest: tokens,
                })
            }
        }
    }
}

fn name_by(alloc: Global, value: &Value, place: u64) -> Result<Option<Name>, Memory>
    ensures { IfOk result (λ found. found ≡ say.name_by value.now place) }
{
    match value {
        Value::Fixed => Ok(None),
        Value::Number(_) => Ok(None),
        Value::Text(text) => {
            if text.as_str().as_bytes().is_empty() {
                return Ok(None);
            }
            let text = text.copy(alloc)?;
            Ok(Some(Name { text, place }))
        }
    }
}

fn name_of(alloc: Global, token: &Token) -> Result<Option<Name>, Memory>
    ensures { IfOk result (λ found. found ≡ say.name token.now) }
{
    if token.kind == Kind::Name {
        name_by(alloc, &token.value, token.place)
    } else {
        Ok(None)
    }
}

pub fn name<'a>(alloc: Global, tokens: &'a [Token]) -> Result<(Name, &'a [Token]), Stop<'a>>
    ensures { Gives (λ x. (x.0, x.1.now)) result (spec.name_at tokens.now) }
{
    match tokens {
        [] => Err(Stop::Fault {
            deep: false,
            rest: tokens,
        }),
        [first, rest @ ..] => match name_of(alloc, first)? {
            Some(found) => Ok((found, rest)),
            None => Err(Stop::Fault {
                deep: false,
                rest: tokens,
            }),
        },
    }
}

/// A word and a name, where the word comes next.
#[tactic(auto, unfolding(crate::specs::Parser::word_name_at))]
pub fn word_name<'a>(
    alloc: Global,
    tokens: &'a [Token],
    kind: Kind,
) -> Result<(Option<Name>, &'a [Token]), Stop<'a>>
    ensures { Gives (λ x. (x.0, x.1.now)) result (spec.word_name_at kind tokens.now) }
{
    if next_is(tokens, kind) {
        let rest = word(tokens, kind)?;
        let (found, rest) = name(alloc, rest)?;
        Ok((Some(found), rest))
    } else {
        Ok((None, tokens))
    }
}

fn column_of(first: Name, other: Option<Name>) -> Ref
    ensures { result ≡ say.ref_by first other }
{
    let place = first.place;
    match other {
        None => Ref {
            source: None,
            column: first,
            place,
        },
        Some(column) => Ref {
            source: Some(first),
            column,
            place,
        },
    }
}

#[tactic(auto, unfolding(crate::specs::Parser::ref_at))]
pub fn column<'a>(alloc: Global, tokens: &'a [Token]) -> Result<(Ref, &'a [Token]), Stop<'a>>
    ensures { Gives (λ x. (x.0, x.1.now)) result (spec.ref_at tokens.now) }
{
    let (first, rest) = name(alloc, tokens)?;
    let (other, rest) = word_name(alloc, rest, Kind::Dot)?;
    Ok((column_of(first, other), rest))
}
