// Refs and kinds that are refused.

ghost use Rattle.std.specs.Prelude.{◌≡◌};
ghost use Rattle.std.specs.List.{list_all};
ghost use Rattle.sql_bind.specs.Refusals.{unknown_ref, ambiguous_ref, repeated_alias, ref_kind, constant_kind, operand_kind, is_json, may_compare, may_stand, may_ask, operand_place, mismatched_test};

use crate::fitting::Fits;
use crate::looked::Looked;
use crate::sources::{alias_of, unless};
use sp_value::Kind;
use sql_grammar::{Constant, Literal, Operand, Predicate, Ref, TableRef};

/// What is asked of each part of a statement: that its names are known, and told apart, and that its kinds fit.
#[derive(Clone, Copy)]
pub(crate) enum NameRule {
    UnknownColumn,
    Ambiguous,
    TypeMismatch,
}

pub(crate) fn unknown_ref(looked: &Looked, of: &Ref) -> Option<u64>
    ensures { result ≡ unknown_ref looked.now of.now }
{
    match looked.fits_of(of) {
        Fits::None => Some(of.place),
        Fits::One(_) => None,
        Fits::Several => None,
    }
}

pub(crate) fn ambiguous_ref(looked: &Looked, of: &Ref) -> Option<u64>
    ensures { result ≡ ambiguous_ref looked.now of.now }
{
    match looked.fits_of(of) {
        Fits::None => None,
        Fits::One(_) => None,
        Fits::Several => Some(of.place),
    }
}

pub(crate) fn repeated_alias(before: &Looked, source: &TableRef) -> Option<u64>
    ensures { result ≡ repeated_alias before.now source.now }
{
    unless(!before.has_alias(alias_of(source)), source.connection.place)
}

pub(crate) fn ref_kind(looked: &Looked, of: &Ref) -> Option<Kind>
    ensures { result ≡ ref_kind looked.now of.now }
{
    match looked.fits_of(of) {
        Fits::None => None,
        Fits::One(fit) => Some(fit.kind),
        Fits::Several => None,
    }
}

fn constant_kind(constant: &Constant) -> Option<Kind>
    ensures { result ≡ constant_kind constant.now }
{
    match constant {
        Constant::Null => None,
        Constant::Bool(_) => Some(Kind::Bool),
        Constant::Int(_) => Some(Kind::Int),
        Constant::Text(_) => Some(Kind::Text),
    }
}

fn operand_kind(looked: &Looked, operand: &Operand) -> Option<Kind>
    ensures { result ≡ operand_kind looked.now operand.now }
{
    match operand {
        Operand::Ref(of) => ref_kind(looked, of),
        Operand::Literal(literal) => constant_kind(&literal.constant),
    }
}

pub(crate) fn is_json(kind: Option<Kind>) -> bool
    ensures { result ≡ is_json kind }
{
    match kind {
        Some(Kind::Json) => true,
        _ => false,
    }
}

fn may_compare(first: Option<Kind>, second: Option<Kind>) -> bool
    ensures { result ≡ may_compare first second }
{
    match (first, second) {
        (None, kind) => !is_json(kind),
        (Some(Kind::Json), _) => false,
        (Some(_), None) => true,
        (Some(Kind::Bool), Some(Kind::Bool)) => true,
        (Some(Kind::Int), Some(Kind::Int)) => true,
        (Some(Kind::Text), Some(Kind::Text)) => true,
        _ => false,
    }
}

fn may_stand(kind: Option<Kind>) -> bool
    ensures { result ≡ may_stand kind }
{
    match kind {
        None => true,
        Some(Kind::Bool) => true,
        Some(_) => false,
    }
}

fn may_be_in(kind: Option<Kind>, list: &[Literal]) -> bool
    ensures { result ≡ list_all (λ l. may_compare kind (constant_kind l.constant)) list.now }
{
    list.iter().all(|literal| may_compare(kind, constant_kind(&literal.constant)))
}

fn may_ask(looked: &Looked, kind: Option<Kind>, predicate: &Predicate) -> bool
    ensures { result ≡ may_ask looked.now kind predicate.now }
{
    match predicate {
        Predicate::Truth => may_stand(kind),
        Predicate::Compares { with, .. } => may_compare(kind, operand_kind(looked, with)),
        Predicate::IsIn { list, .. } => may_be_in(kind, list.as_slice()),
        Predicate::IsNull { .. } => true,
    }
}

fn operand_place(operand: &Operand) -> u64
    ensures { result ≡ operand_place operand.now }
{
    match operand {
        Operand::Ref(of) => of.place,
        Operand::Literal(literal) => literal.place,
    }
}

pub(crate) fn mismatched_test(looked: &Looked, of: &Operand, predicate: &Predicate) -> Option<u64>
    ensures { result ≡ mismatched_test looked.now (record { of = of.now; predicate = predicate.now }) }
{
    let fits = may_ask(looked, operand_kind(looked, of), predicate);
    unless(fits, operand_place(of))
}
