// Reading sources and joins.

ghost use Rattle.std.specs.Prelude.{◌≡◌, [], ◌∷◌};
ghost use Rattle.sql_grammar.specs.Reading.{next_in, has};
ghost use Rattle.sql_grammar.specs.Gives.{Gives};
ghost use Rattle.sql_grammar.specs.Parser as spec;

use crate::ast::{Join, Name, TableRef};
use crate::expr::expr;
use crate::stop::Stop;
use crate::words::{name, next_is, word};
use sql_lex::{Kind, Token};
use sqlite_items::Items;
use std::alloc::Global;

#[tactic(auto, unfolding(crate::specs::Parser::alias_at))]
fn alias<'a>(alloc: Global, tokens: &'a [Token]) -> Result<(Option<Name>, &'a [Token]), Stop<'a>>
    ensures { Gives (λ x. (x.0, x.1.now)) result (spec.alias_at tokens.now) }
{
    if next_is(tokens, Kind::As) {
        let rest = word(tokens, Kind::As)?;
        let (found, rest) = name(alloc, rest)?;
        Ok((Some(found), rest))
    } else if next_is(tokens, Kind::Name) {
        let (found, rest) = name(alloc, tokens)?;
        Ok((Some(found), rest))
    } else {
        Ok((None, tokens))
    }
}

#[tactic(auto, unfolding(crate::specs::Parser::source_at))]
pub fn source<'a>(alloc: Global, tokens: &'a [Token]) -> Result<(TableRef, &'a [Token]), Stop<'a>>
    ensures { Gives (λ x. (x.0, x.1.now)) result (spec.source_at tokens.now) }
{
    let (connection, rest) = name(alloc, tokens)?;
    let rest = word(rest, Kind::Dot)?;
    let (table, rest) = name(alloc, rest)?;
    let (alias, rest) = alias(alloc, rest)?;
    Ok((
        TableRef {
            connection,
            table,
            alias,
        },
        rest,
    ))
}

#[tactic(auto, unfolding(crate::specs::Parser::inner_at))]
fn inner<'a>(tokens: &'a [Token]) -> Result<(Option<()>, &'a [Token]), Stop<'a>>
    ensures { Gives (λ x. (x.0, x.1.now)) result (spec.inner_at tokens.now) }
{
    if next_is(tokens, Kind::Inner) {
        let rest = word(tokens, Kind::Inner)?;
        Ok((Some(()), rest))
    } else {
        Ok((None, tokens))
    }
}

#[tactic(auto, unfolding(crate::specs::Parser::join_at))]
fn join<'a>(alloc: Global, tokens: &'a [Token], levels: u8) -> Result<(Join, &'a [Token]), Stop<'a>>
    ensures { Gives (λ x. (x.0, x.1.now)) result (spec.join_at levels tokens.now) }
{
    let (_, rest) = inner(tokens)?;
    let rest = word(rest, Kind::Join)?;
    let (source, rest) = source(alloc, rest)?;
    let rest = word(rest, Kind::On)?;
    let (on, rest) = expr(alloc, rest, levels)?;
    Ok((Join { source, on }, rest))
}

fn joins_on(kind: Kind) -> bool
    ensures { result ≡ has spec.joinings kind }
{
    matches!(kind, Kind::Inner | Kind::Join)
}

fn next_joins(tokens: &[Token]) -> bool
    ensures { result ≡ next_in spec.joinings tokens.now }
{
    match tokens {
        [] => false,
        [first, ..] => joins_on(first.kind),
    }
}

/// The joins.
pub fn joins<'a>(
    alloc: Global,
    tokens: &'a [Token],
    levels: u8,
) -> Result<(Items<Join>, &'a [Token]), Stop<'a>>
    ensures { Gives (λ x. (x.0, x.1.now)) result (spec.joins_at levels tokens.now) }
{
    let mut found = Items::new(alloc);
    let mut rest = tokens;
    'more: while next_joins(rest) {
        let (next, after) = join(alloc, rest, levels)?;
        found.push(next)?;
        rest = after;
    }
    Ok((found, rest))
}
