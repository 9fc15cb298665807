// Conditions.

ghost use Rattle.std.specs.Prelude.{◌≡◌, ◌++◌, ◌∷◌, [], map, OnOk};
ghost use Rattle.sql_lex.specs.declared.token.Kind.TheVariants as k;
ghost use Rattle.sql_print.specs.Said as say;
ghost use Rattle.sql_print.specs.Said.{said, between, inside};
ghost use Rattle.sql_print.specs.Spelling.{writes};
ghost use Rattle.sql_print.specs.Page.{state};

use crate::page::Page;
use crate::parts::{literal, op_kind, operand};
use sp_value::Memory;
use sql_grammar::{Expr, Literal, Operand, Predicate};
use sql_lex::Kind;

// The literals with a comma between two.
#[tactic(auto, using(crate::proofs::Writing::writes_append))]
fn literals(page: &mut Page, list: &[Literal]) -> Result<(), Memory>
    ensures { OnOk result (state page.new ≡ writes (state page.old) (say.said_literals list.now)) }
{
    'more: for (i, member) in list.iter().enumerate() {
        if i > 0 {
            page.word(Kind::Comma)?;
        }
        literal(page, member)?;
    }
    Ok(())
}

fn negation(page: &mut Page, negated: bool) -> Result<(), Memory>
    ensures { OnOk result (state page.new ≡ writes (state page.old) (say.negation negated)) }
{
    if negated {
        page.word(Kind::Not)
    } else {
        Ok(())
    }
}

#[tactic(auto, using(crate::proofs::Writing::writes_append))]
fn is_in(page: &mut Page, negated: bool, list: &[Literal]) -> Result<(), Memory>
    ensures { OnOk result (state page.new ≡ writes (state page.old) (say.negation negated ++ (say.fixed k.In ++ (say.fixed k.Open ++ (say.said_literals list.now ++ say.fixed k.Close))))) }
{
    negation(page, negated)?;
    page.word(Kind::In)?;
    page.word(Kind::Open)?;
    literals(page, list)?;
    page.word(Kind::Close)
}

#[tactic(auto, using(crate::proofs::Writing::writes_append))]
fn predicate(page: &mut Page, predicate: &Predicate) -> Result<(), Memory>
    ensures { OnOk result (state page.new ≡ writes (state page.old) (say.said_predicate predicate.now)) }
{
    match predicate {
        Predicate::Truth => Ok(()),
        Predicate::Compares { op, with } => {
            page.word(op_kind(*op))?;
            operand(page, with)
        }
        Predicate::IsIn { negated, list } => is_in(page, *negated, list.as_slice()),
        Predicate::IsNull { negated } => {
            page.word(Kind::Is)?;
            negation(page, *negated)?;
            page.word(Kind::Null)
        }
    }
}

#[tactic(auto, using(crate::proofs::Writing::writes_append))]
fn test(page: &mut Page, of: &Operand, question: &Predicate) -> Result<(), Memory>
    ensures { OnOk result (state page.new ≡ writes (state page.old) (say.said_test of.now question.now)) }
{
    operand(page, of)?;
    predicate(page, question)
}

/// A condition that stands alone.
#[tactic(auto, using(crate::proofs::Writing::writes_append, crate::proofs::SaidLaws::laws))]
#[cycle(condition)]
pub fn alone(page: &mut Page, e: &Expr) -> Result<(), Memory>
    ensures { OnOk result (state page.new ≡ writes (state page.old) (said e.now).alone) }
{
    match e {
        Expr::Or(members) => disjuncts(page, members.as_slice()),
        Expr::And(members) => conjuncts(page, members.as_slice()),
        Expr::Not(inner) => {
            page.word(Kind::Not)?;
            in_and(page, inner.get())
        }
        Expr::Test { of, predicate } => test(page, of, predicate),
    }
}

#[tactic(auto, using(crate::proofs::Writing::writes_append))]
#[cycle(condition)]
fn disjuncts(page: &mut Page, members: &[Expr]) -> Result<(), Memory>
    ensures { OnOk result (state page.new ≡ writes (state page.old) (between k.Or (map (λ x. (said x).in_or) members.now))) }
{
    'more: for (i, member) in members.iter().enumerate() {
        if i > 0 {
            page.word(Kind::Or)?;
        }
        in_or(page, member)?;
    }
    Ok(())
}

#[tactic(auto, using(crate::proofs::Writing::writes_append))]
#[cycle(condition)]
fn conjuncts(page: &mut Page, members: &[Expr]) -> Result<(), Memory>
    ensures { OnOk result (state page.new ≡ writes (state page.old) (between k.And (map (λ x. (said x).in_and) members.now))) }
{
    'more: for (i, member) in members.iter().enumerate() {
        if i > 0 {
            page.word(Kind::And)?;
        }
        in_and(page, member)?;
    }
    Ok(())
}

// A member of an `or`.
#[tactic(auto, using(crate::proofs::SaidLaws::laws))]
#[cycle(condition)]
fn in_or(page: &mut Page, e: &Expr) -> Result<(), Memory>
    ensures { OnOk result (state page.new ≡ writes (state page.old) (said e.now).in_or) }
{
    match e {
        Expr::Or(_) => enclosed(page, e),
        Expr::And(_) => alone(page, e),
        Expr::Not(_) => alone(page, e),
        Expr::Test { .. } => alone(page, e),
    }
}

// A member of an `and`, or what stands behind a `not`.
#[tactic(auto, using(crate::proofs::SaidLaws::laws))]
#[cycle(condition)]
fn in_and(page: &mut Page, member: &Expr) -> Result<(), Memory>
    ensures { OnOk result (state page.new ≡ writes (state page.old) (said member.now).in_and) }
{
    match member {
        Expr::Or(_) => enclosed(page, member),
        Expr::And(_) => enclosed(page, member),
        Expr::Not(_) => alone(page, member),
        Expr::Test { .. } => alone(page, member),
    }
}

#[tactic(auto, using(crate::proofs::Writing::writes_append))]
#[cycle(condition)]
fn enclosed(page: &mut Page, e: &Expr) -> Result<(), Memory>
    ensures { OnOk result (state page.new ≡ writes (state page.old) (inside (said e.now).alone)) }
{
    page.word(Kind::Open)?;
    alone(page, e)?;
    page.word(Kind::Close)
}
