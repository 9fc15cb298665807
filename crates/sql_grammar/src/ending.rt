// Reading what stands behind the condition: order, limit and end.

ghost use Rattle.std.specs.Prelude.{◌≡◌, [], ◌∷◌};
ghost use Rattle.sql_grammar.specs.Reading.{one_at};
ghost use Rattle.sql_grammar.specs.Says as say;
ghost use Rattle.sql_grammar.specs.Gives.{Gives};
ghost use Rattle.sql_grammar.specs.Parser as spec;
ghost use Rattle.sql_grammar.specs.Parser.{with_front};
ghost use Rattle.sql_lex.specs.declared.token.Kind.TheVariants as Kind;

use crate::ast::Key;
use crate::stop::Stop;
use crate::words::{column, next_is, word};
use sql_lex::{Kind, Token, Value};
use sqlite_items::Items;
use std::alloc::Global;

#[tactic(auto, unfolding(crate::specs::Parser::direction_at))]
fn direction<'a>(tokens: &'a [Token]) -> Result<(Option<bool>, &'a [Token]), Stop<'a>>
    ensures { Gives (λ x. (x.0, x.1.now)) result (spec.direction_at tokens.now) }
{
    if next_is(tokens, Kind::Asc) {
        let rest = word(tokens, Kind::Asc)?;
        Ok((Some(false), rest))
    } else if next_is(tokens, Kind::Desc) {
        let rest = word(tokens, Kind::Desc)?;
        Ok((Some(true), rest))
    } else {
        Ok((None, tokens))
    }
}

fn descends(direction: Option<bool>) -> bool
    ensures { result ≡ say.descends direction }
{
    match direction {
        None => false,
        Some(descending) => descending,
    }
}

#[tactic(auto, unfolding(crate::specs::Parser::key_at))]
fn key<'a>(alloc: Global, tokens: &'a [Token]) -> Result<(Key, &'a [Token]), Stop<'a>>
    ensures { Gives (λ x. (x.0, x.1.now)) result (spec.key_at tokens.now) }
{
    let (of, rest) = column(alloc, tokens)?;
    let (direction, rest) = direction(rest)?;
    let descending = descends(direction);
    Ok((Key { of, descending }, rest))
}

// What goes on with `, key`, after the first.
fn more_keys<'a>(
    alloc: Global,
    first: Key,
    tokens: &'a [Token],
) -> Result<(Items<Key>, &'a [Token]), Stop<'a>>
    ensures { Gives (λ x. (x.0, x.1.now)) result (with_front (first ∷ []) (spec.more_at Kind.Comma spec.key_at tokens.now)) }
{
    let mut found = Items::new(alloc);
    found.push(first)?;
    let mut rest = tokens;
    'more: while next_is(rest, Kind::Comma) {
        let after = word(rest, Kind::Comma)?;
        let (next, after) = key(alloc, after)?;
        found.push(next)?;
        rest = after;
    }
    Ok((found, rest))
}

/// The keys of the order; none where there is no order.
#[tactic(auto, unfolding(crate::specs::Parser::order_at))]
pub fn order<'a>(alloc: Global, tokens: &'a [Token]) -> Result<(Items<Key>, &'a [Token]), Stop<'a>>
    ensures { Gives (λ x. (x.0, x.1.now)) result (spec.order_at tokens.now) }
{
    if next_is(tokens, Kind::Order) {
        let rest = word(tokens, Kind::Order)?;
        let rest = word(rest, Kind::By)?;
        let (first, rest) = key(alloc, rest)?;
        let (found, rest) = more_keys(alloc, first, rest)?;
        Ok((found, rest))
    } else {
        Ok((Items::new(alloc), tokens))
    }
}

fn limit_by(value: &Value) -> Option<u64>
    ensures { result ≡ say.limit_by value.now }
{
    match value {
        Value::Fixed => None,
        Value::Text(_) => None,
        Value::Number(n) => { if *n < 0 { None } else { Some(*n as u64) } }
    }
}

fn limit_of(token: &Token) -> Option<u64>
    ensures { result ≡ say.number token.now }
{
    if token.kind == Kind::Number {
        limit_by(&token.value)
    } else {
        None
    }
}

fn number<'a>(tokens: &'a [Token]) -> Result<(u64, &'a [Token]), Stop<'a>>
    ensures { Gives (λ x. (x.0, x.1.now)) result (one_at say.number tokens.now) }
{
    match tokens {
        [] => Err(Stop::Fault {
            deep: false,
            rest: tokens,
        }),
        [first, rest @ ..] => match limit_of(first) {
            Some(found) => Ok((found, rest)),
            None => Err(Stop::Fault {
                deep: false,
                rest: tokens,
            }),
        },
    }
}

#[tactic(auto, unfolding(crate::specs::Parser::limit_at))]
pub fn limit<'a>(tokens: &'a [Token]) -> Result<(Option<u64>, &'a [Token]), Stop<'a>>
    ensures { Gives (λ x. (x.0, x.1.now)) result (spec.limit_at tokens.now) }
{
    if next_is(tokens, Kind::Limit) {
        let rest = word(tokens, Kind::Limit)?;
        let (found, rest) = number(rest)?;
        Ok((Some(found), rest))
    } else {
        Ok((None, tokens))
    }
}

#[tactic(auto, unfolding(crate::specs::Parser::semi_at))]
pub fn semi<'a>(tokens: &'a [Token]) -> Result<(Option<()>, &'a [Token]), Stop<'a>>
    ensures { Gives (λ x. (x.0, x.1.now)) result (spec.semi_at tokens.now) }
{
    if next_is(tokens, Kind::Semi) {
        let rest = word(tokens, Kind::Semi)?;
        Ok((Some(()), rest))
    } else {
        Ok((None, tokens))
    }
}
