// Reading a statement.

ghost use Rattle.std.specs.Prelude.{◌≡◌, Ok, IfOk, IfErr};
ghost use Rattle.sql_grammar.specs.Gives.{Gives};
ghost use Rattle.sql_grammar.specs.Parser as spec;
ghost use Rattle.sql_grammar.specs.Grammar.{StatementPhrase};
ghost use Rattle.sql_grammar.specs.Theorem.{depth};
ghost use Rattle.sql_grammar.specs.Answer.{IsRefusal};
ghost use Rattle.sql_grammar.specs.declared.ast.Statement.{Statement};

use crate::ast::{Expr, Statement};
use crate::ending::{limit, order, semi};
use crate::expr::expr;
use crate::items::shown;
use crate::sources::{joins, source};
use crate::stop::Stop;
use crate::words::{next_is, word};
use sql_lex::{Kind, Token};
use std::alloc::Global;

/// How many parentheses and nots may be open at once.
const DEPTH: u8 = 64;

#[tactic(auto, unfolding(crate::specs::Parser::where_at))]
fn test<'a>(
    alloc: Global,
    tokens: &'a [Token],
    levels: u8,
) -> Result<(Option<Expr>, &'a [Token]), Stop<'a>>
    ensures { Gives (λ x. (x.0, x.1.now)) result (spec.where_at levels tokens.now) }
{
    if next_is(tokens, Kind::Where) {
        let rest = word(tokens, Kind::Where)?;
        let (found, rest) = expr(alloc, rest, levels)?;
        Ok((Some(found), rest))
    } else {
        Ok((None, tokens))
    }
}

#[tactic(auto, unfolding(crate::specs::Parser::statement_at))]
fn statement<'a>(
    alloc: Global,
    tokens: &'a [Token],
    levels: u8,
) -> Result<(Statement, &'a [Token]), Stop<'a>>
    ensures { Gives (λ x. (x.0, x.1.now)) result (spec.statement_at levels tokens.now) }
{
    let rest = word(tokens, Kind::Select)?;
    let (shown, rest) = shown(alloc, rest)?;
    let rest = word(rest, Kind::From)?;
    let (from, rest) = source(alloc, rest)?;
    let (joins, rest) = joins(alloc, rest, levels)?;
    let (test, rest) = test(alloc, rest, levels)?;
    let (order, rest) = order(alloc, rest)?;
    let (limit, rest) = limit(rest)?;
    let (_, rest) = semi(rest)?;
    Ok((
        Statement {
            shown,
            from,
            joins,
            test,
            order,
            limit,
        },
        rest,
    ))
}

fn whole<'a>(alloc: Global, tokens: &'a [Token]) -> Result<Statement, Stop<'a>>
    ensures { Gives (λ s. s) result (spec.whole (spec.statement_at depth) tokens.now) }
{
    let (found, rest) = statement(alloc, tokens, DEPTH)?;
    if rest.is_empty() {
        Ok(found)
    } else {
        Err(Stop::Fault { deep: false, rest })
    }
}

/// The statement that the tokens are, or the first of them that no statement goes on with.
pub fn parse<'a>(alloc: Global, tokens: &'a [Token]) -> Result<Statement, Stop<'a>>
    // What is read is a statement.
    ensures found { IfOk result (λ s. StatementPhrase depth tokens.now s) }
    // A statement is read, unless memory runs out.
    ensures only { (s : Statement) → StatementPhrase depth tokens.now s → Gives (λ x. x) result (Ok s) }
    // Where and why reading stops.
    ensures refused { IfErr result (λ e. IsRefusal tokens.now e) }
{
    whole(alloc, tokens)
}
