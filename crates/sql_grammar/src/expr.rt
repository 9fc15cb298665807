// Reading an expression, to a depth.

ghost use Rattle.std.specs.Prelude.{◌≡◌, [], ◌∷◌};
ghost use Rattle.sql_grammar.specs.Gives.{Gives};
ghost use Rattle.sql_grammar.specs.Parser as spec;
ghost use Rattle.sql_grammar.specs.Parser.{with_front};
ghost use Rattle.sql_lex.specs.declared.token.Kind.TheVariants as Kind;

use crate::ast::Expr;
use crate::condition::test;
use crate::stop::Stop;
use crate::words::{next_is, word};
use sql_lex::{Kind, Token};
use sqlite_items::{Boxed, Items};
use std::alloc::Global;

/// An expression in which so many parentheses and nots may be open.
#[cycle(expr)]
pub fn expr<'a>(
    alloc: Global,
    tokens: &'a [Token],
    levels: u8,
) -> Result<(Expr, &'a [Token]), Stop<'a>>
    ensures { Gives (λ x. (x.0, x.1.now)) result (spec.expr_at (spec.single_at levels) tokens.now) }
{
    let (first, rest) = both(alloc, tokens, levels)?;
    if next_is(rest, Kind::Or) {
        let (found, rest) = disjuncts(alloc, first, rest, levels)?;
        Ok((Expr::Or(found), rest))
    } else {
        Ok((first, rest))
    }
}

#[cycle(expr)]
fn disjuncts<'a>(
    alloc: Global,
    first: Expr,
    tokens: &'a [Token],
    levels: u8,
) -> Result<(Items<Expr>, &'a [Token]), Stop<'a>>
    ensures { Gives (λ x. (x.0, x.1.now)) result (with_front (first ∷ []) (spec.more_at Kind.Or (spec.both_at (spec.single_at levels)) tokens.now)) }
{
    let mut found = Items::new(alloc);
    found.push(first)?;
    let mut rest = tokens;
    'more: while next_is(rest, Kind::Or) {
        let after = word(rest, Kind::Or)?;
        let (next, after) = both(alloc, after, levels)?;
        found.push(next)?;
        rest = after;
    }
    Ok((found, rest))
}

#[cycle(expr)]
fn both<'a>(alloc: Global, tokens: &'a [Token], levels: u8) -> Result<(Expr, &'a [Token]), Stop<'a>>
    ensures { Gives (λ x. (x.0, x.1.now)) result (spec.both_at (spec.single_at levels) tokens.now) }
{
    let (first, rest) = single(alloc, tokens, levels)?;
    if next_is(rest, Kind::And) {
        let (found, rest) = conjuncts(alloc, first, rest, levels)?;
        Ok((Expr::And(found), rest))
    } else {
        Ok((first, rest))
    }
}

#[cycle(expr)]
fn conjuncts<'a>(
    alloc: Global,
    first: Expr,
    tokens: &'a [Token],
    levels: u8,
) -> Result<(Items<Expr>, &'a [Token]), Stop<'a>>
    ensures { Gives (λ x. (x.0, x.1.now)) result (with_front (first ∷ []) (spec.more_at Kind.And (spec.single_at levels) tokens.now)) }
{
    let mut found = Items::new(alloc);
    found.push(first)?;
    let mut rest = tokens;
    'more: while next_is(rest, Kind::And) {
        let after = word(rest, Kind::And)?;
        let (next, after) = single(alloc, after, levels)?;
        found.push(next)?;
        rest = after;
    }
    Ok((found, rest))
}

#[cycle(expr)]
fn single<'a>(
    alloc: Global,
    tokens: &'a [Token],
    levels: u8,
) -> Result<(Expr, &'a [Token]), Stop<'a>>
    ensures { Gives (λ x. (x.0, x.1.now)) result (spec.single_at levels tokens.now) }
{
    if levels == 0 {
        lowest(alloc, tokens)
    } else {
        nested(alloc, tokens, levels - 1)
    }
}

#[tactic(auto, unfolding(crate::specs::Parser::single_at))]
fn lowest<'a>(alloc: Global, tokens: &'a [Token]) -> Result<(Expr, &'a [Token]), Stop<'a>>
    ensures { Gives (λ x. (x.0, x.1.now)) result (spec.single_at 0 tokens.now) }
{
    if next_is(tokens, Kind::Not) || next_is(tokens, Kind::Open) {
        return Err(Stop::Fault {
            deep: true,
            rest: tokens,
        });
    }
    test(alloc, tokens)
}

#[tactic(auto, unfolding(crate::specs::Parser::nested_at))]
#[cycle(expr)]
fn nested<'a>(
    alloc: Global,
    tokens: &'a [Token],
    levels: u8,
) -> Result<(Expr, &'a [Token]), Stop<'a>>
    ensures { Gives (λ x. (x.0, x.1.now)) result (spec.nested_at (spec.single_at levels) tokens.now) }
{
    if next_is(tokens, Kind::Not) {
        let rest = word(tokens, Kind::Not)?;
        let (inner, rest) = single(alloc, rest, levels)?;
        let inner = Boxed::new(alloc, inner)?;
        Ok((Expr::Not(inner), rest))
    } else if next_is(tokens, Kind::Open) {
        let rest = word(tokens, Kind::Open)?;
        let (inner, rest) = expr(alloc, rest, levels)?;
        let rest = word(rest, Kind::Close)?;
        Ok((inner, rest))
    } else {
        test(alloc, tokens)
    }
}
