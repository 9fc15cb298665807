// Reading an operand and what is asked of it.

ghost use Rattle.std.specs.Prelude.{◌≡◌, [], ◌∷◌, IfOk};
ghost use Rattle.sql_grammar.specs.Reading.{next_in, has, one_at};
ghost use Rattle.sql_grammar.specs.Says as say;
ghost use Rattle.sql_grammar.specs.Gives.{Gives};
ghost use Rattle.sql_grammar.specs.Parser as spec;
ghost use Rattle.sql_grammar.specs.Parser.{with_front};
ghost use Rattle.sql_lex.specs.declared.token.Kind.TheVariants as Kind;

use crate::ast::{Constant, Expr, Literal, Operand, Predicate};
use crate::stop::Stop;
use crate::words::{column, next_is, word};
use sp_value::{Memory, Op, TryCopy};
use sql_lex::{Kind, Token, Value};
use sqlite_items::Items;
use std::alloc::Global;

fn int_by(value: &Value) -> Option<Constant>
    ensures { result ≡ say.int_by value.now }
{
    match value {
        Value::Fixed => None,
        Value::Text(_) => None,
        Value::Number(n) => Some(Constant::Int(*n)),
    }
}

fn text_by(alloc: Global, value: &Value) -> Result<Option<Constant>, Memory>
    ensures { IfOk result (λ found. found ≡ say.text_by value.now) }
{
    match value {
        Value::Fixed => Ok(None),
        Value::Text(text) => Ok(Some(Constant::Text(text.copy(alloc)?))),
        Value::Number(_) => Ok(None),
    }
}

fn constant(alloc: Global, kind: Kind, value: &Value) -> Result<Option<Constant>, Memory>
    ensures { IfOk result (λ found. found ≡ say.constant_by kind value.now) }
{
    match kind {
        Kind::Null => Ok(Some(Constant::Null)),
        Kind::True => Ok(Some(Constant::Bool(true))),
        Kind::False => Ok(Some(Constant::Bool(false))),
        Kind::Number => Ok(int_by(value)),
        Kind::Text => text_by(alloc, value),
        _ => Ok(None),
    }
}

fn literal<'a>(alloc: Global, tokens: &'a [Token]) -> Result<(Literal, &'a [Token]), Stop<'a>>
    ensures { Gives (λ x. (x.0, x.1.now)) result (spec.literal_at tokens.now) }
{
    match tokens {
        [] => Err(Stop::Fault {
            deep: false,
            rest: tokens,
        }),
        [first, rest @ ..] => {
            let place = first.place;
            match constant(alloc, first.kind, &first.value)? {
                Some(constant) => Ok((Literal { constant, place }, rest)),
                None => Err(Stop::Fault {
                    deep: false,
                    rest: tokens,
                }),
            }
        }
    }
}

fn op(kind: Kind) -> Option<Op>
    ensures { result ≡ say.op_by kind }
{
    match kind {
        Kind::Equal => Some(Op::Eq),
        Kind::NotEqual => Some(Op::Ne),
        Kind::Less => Some(Op::Lt),
        Kind::AtMost => Some(Op::Le),
        Kind::Greater => Some(Op::Gt),
        Kind::AtLeast => Some(Op::Ge),
        _ => None,
    }
}

fn operator<'a>(tokens: &'a [Token]) -> Result<(Op, &'a [Token]), Stop<'a>>
    ensures { Gives (λ x. (x.0, x.1.now)) result (one_at say.operator tokens.now) }
{
    match tokens {
        [] => Err(Stop::Fault {
            deep: false,
            rest: tokens,
        }),
        [first, rest @ ..] => match op(first.kind) {
            Some(found) => Ok((found, rest)),
            None => Err(Stop::Fault {
                deep: false,
                rest: tokens,
            }),
        },
    }
}

fn compares(kind: Kind) -> bool
    ensures { result ≡ has spec.ops kind }
{
    match kind {
        Kind::Equal | Kind::NotEqual | Kind::Less | Kind::AtMost | Kind::Greater | Kind::AtLeast =>
            true,
        _ => false,
    }
}

fn next_compares(tokens: &[Token]) -> bool
    ensures { result ≡ next_in spec.ops tokens.now }
{
    match tokens {
        [] => false,
        [first, ..] => compares(first.kind),
    }
}

fn asks(kind: Kind) -> bool
    ensures { result ≡ has spec.askings kind }
{
    match kind {
        Kind::In | Kind::Not | Kind::Is => true,
        _ => compares(kind),
    }
}

fn next_asks(tokens: &[Token]) -> bool
    ensures { result ≡ next_in spec.askings tokens.now }
{
    match tokens {
        [] => false,
        [first, ..] => asks(first.kind),
    }
}

#[tactic(auto, unfolding(crate::specs::Parser::operand_at))]
fn operand<'a>(alloc: Global, tokens: &'a [Token]) -> Result<(Operand, &'a [Token]), Stop<'a>>
    ensures { Gives (λ x. (x.0, x.1.now)) result (spec.operand_at tokens.now) }
{
    if next_is(tokens, Kind::Name) {
        let (found, rest) = column(alloc, tokens)?;
        Ok((Operand::Ref(found), rest))
    } else {
        let (found, rest) = literal(alloc, tokens)?;
        Ok((Operand::Literal(found), rest))
    }
}

#[tactic(auto, unfolding(crate::specs::Parser::compares_at))]
fn comparison<'a>(alloc: Global, tokens: &'a [Token]) -> Result<(Predicate, &'a [Token]), Stop<'a>>
    ensures { Gives (λ x. (x.0, x.1.now)) result (spec.compares_at tokens.now) }
{
    let (op, rest) = operator(tokens)?;
    let (with, rest) = operand(alloc, rest)?;
    Ok((Predicate::Compares { op, with }, rest))
}

// What goes on with `, literal`, after the first.
fn more_literals<'a>(
    alloc: Global,
    first: Literal,
    tokens: &'a [Token],
) -> Result<(Items<Literal>, &'a [Token]), Stop<'a>>
    ensures { Gives (λ x. (x.0, x.1.now)) result (with_front (first ∷ []) (spec.more_at Kind.Comma spec.literal_at tokens.now)) }
{
    let mut found = Items::new(alloc);
    found.push(first)?;
    let mut rest = tokens;
    'more: while next_is(rest, Kind::Comma) {
        let after = word(rest, Kind::Comma)?;
        let (next, after) = literal(alloc, after)?;
        found.push(next)?;
        rest = after;
    }
    Ok((found, rest))
}

#[tactic(auto, unfolding(crate::specs::Parser::list_at))]
fn list<'a>(alloc: Global, tokens: &'a [Token]) -> Result<(Items<Literal>, &'a [Token]), Stop<'a>>
    ensures { Gives (λ x. (x.0, x.1.now)) result (spec.list_at tokens.now) }
{
    let rest = word(tokens, Kind::In)?;
    let rest = word(rest, Kind::Open)?;
    let (first, rest) = literal(alloc, rest)?;
    let (found, rest) = more_literals(alloc, first, rest)?;
    let rest = word(rest, Kind::Close)?;
    Ok((found, rest))
}

#[tactic(auto, unfolding(crate::specs::Parser::null_at))]
fn null<'a>(tokens: &'a [Token]) -> Result<(Predicate, &'a [Token]), Stop<'a>>
    ensures { Gives (λ x. (x.0, x.1.now)) result (spec.null_at tokens.now) }
{
    let rest = word(tokens, Kind::Is)?;
    if next_is(rest, Kind::Not) {
        let rest = word(rest, Kind::Not)?;
        let rest = word(rest, Kind::Null)?;
        Ok((Predicate::IsNull { negated: true }, rest))
    } else {
        let rest = word(rest, Kind::Null)?;
        Ok((Predicate::IsNull { negated: false }, rest))
    }
}

#[tactic(auto, unfolding(crate::specs::Parser::predicate_at))]
fn predicate<'a>(alloc: Global, tokens: &'a [Token]) -> Result<(Predicate, &'a [Token]), Stop<'a>>
    ensures { Gives (λ x. (x.0, x.1.now)) result (spec.predicate_at tokens.now) }
{
    if next_compares(tokens) {
        comparison(alloc, tokens)
    } else if next_is(tokens, Kind::In) {
        let (list, rest) = list(alloc, tokens)?;
        Ok((
            Predicate::IsIn {
                negated: false,
                list,
            },
            rest,
        ))
    } else if next_is(tokens, Kind::Not) {
        let rest = word(tokens, Kind::Not)?;
        let (list, rest) = list(alloc, rest)?;
        Ok((
            Predicate::IsIn {
                negated: true,
                list,
            },
            rest,
        ))
    } else {
        null(tokens)
    }
}

#[tactic(auto, unfolding(crate::specs::Parser::test_at))]
pub fn test<'a>(alloc: Global, tokens: &'a [Token]) -> Result<(Expr, &'a [Token]), Stop<'a>>
    ensures { Gives (λ x. (x.0, x.1.now)) result (spec.test_at tokens.now) }
{
    let (of, rest) = operand(alloc, tokens)?;
    if next_asks(rest) {
        let (predicate, rest) = predicate(alloc, rest)?;
        Ok((Expr::Test { of, predicate }, rest))
    } else {
        Ok((
            Expr::Test {
                of,
                predicate: Predicate::Truth,
            },
            rest,
        ))
    }
}
