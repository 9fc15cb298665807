// Where the parts of a statement break a rule first, in the order of the text.

ghost use Rattle.std.specs.Prelude.{◌≡◌, ◌+◌, ◌<◌, length, map, take};
ghost use Rattle.std.specs.Option.{option_copied, option_or};
ghost use Rattle.sql_bind.specs.First.{first_of};
ghost use Rattle.sql_bind.specs.Parts.{Shows, Opens, Tests, Sorts, operand_refs, predicate_refs, refs_of, shown_parts, condition_parts, source_parts, parts_of};
ghost use Rattle.sql_bind.specs.Refusals.{broken, broken_in};

use crate::judging::{
    NameRule, ambiguous_ref, is_json, mismatched_test, ref_kind, repeated_alias, unknown_ref,
};
use crate::looked::Looked;
use crate::sources::{Seen, unless};
use sql_grammar::{Expr, Item, Key, Operand, Predicate, Ref, Shown, Statement, TableRef};

fn ref_place(rule: NameRule, looked: &Looked, of: &Ref) -> Option<u64>
    ensures { result ≡ broken rule (Shows looked.now of.now) }
{
    match rule {
        NameRule::UnknownColumn => unknown_ref(looked, of),
        NameRule::Ambiguous => ambiguous_ref(looked, of),
        NameRule::TypeMismatch => None,
    }
}

fn source_place(rule: NameRule, before: &Looked, source: &TableRef) -> Option<u64>
    ensures { result ≡ broken rule (Opens before.now source.now) }
{
    match rule {
        NameRule::UnknownColumn => None,
        NameRule::Ambiguous => repeated_alias(before, source),
        NameRule::TypeMismatch => None,
    }
}

fn key_place(rule: NameRule, looked: &Looked, key: &Key) -> Option<u64>
    ensures { result ≡ broken rule (Sorts looked.now key.now) }
{
    match rule {
        NameRule::UnknownColumn => unknown_ref(looked, &key.of),
        NameRule::Ambiguous => ambiguous_ref(looked, &key.of),
        NameRule::TypeMismatch => unless(!is_json(ref_kind(looked, &key.of)), key.of.place),
    }
}

fn operand_place(rule: NameRule, looked: &Looked, operand: &Operand) -> Option<u64>
    ensures { result ≡ first_of (λ r. broken rule (Shows looked.now r)) (operand_refs operand.now) }
{
    match operand {
        Operand::Ref(of) => ref_place(rule, looked, of),
        Operand::Literal(_) => None,
    }
}

fn predicate_place(rule: NameRule, looked: &Looked, predicate: &Predicate) -> Option<u64>
    ensures { result ≡ first_of (λ r. broken rule (Shows looked.now r)) (predicate_refs predicate.now) }
{
    match predicate {
        Predicate::Truth => None,
        Predicate::Compares { with, .. } => operand_place(rule, looked, with),
        Predicate::IsIn { .. } => None,
        Predicate::IsNull { .. } => None,
    }
}

#[tactic(auto, using(crate::proofs::Firsts::first_of_append))]
fn refs_place(rule: NameRule, looked: &Looked, of: &Operand, predicate: &Predicate) -> Option<u64>
    ensures { result ≡ first_of (λ r. broken rule (Shows looked.now r)) (refs_of (record { of = of.now; predicate = predicate.now })) }
{
    if let Some(place) = operand_place(rule, looked, of) {
        return Some(place);
    }
    predicate_place(rule, looked, predicate)
}

fn test_place(rule: NameRule, looked: &Looked, of: &Operand, predicate: &Predicate) -> Option<u64>
    ensures { result ≡ broken rule (Tests looked.now (record { of = of.now; predicate = predicate.now })) }
{
    match rule {
        NameRule::UnknownColumn => refs_place(rule, looked, of, predicate),
        NameRule::Ambiguous => refs_place(rule, looked, of, predicate),
        NameRule::TypeMismatch => mismatched_test(looked, of, predicate),
    }
}

#[cycle(expr)]
#[tactic(auto, using(crate::proofs::TestLaws::laws))]
fn expr_place(rule: NameRule, looked: &Looked, e: &Expr) -> Option<u64>
    ensures { result ≡ broken_in rule looked.now e.now }
{
    match e {
        Expr::Or(members) => members_place(rule, looked, members.as_slice()),
        Expr::And(members) => members_place(rule, looked, members.as_slice()),
        Expr::Not(inner) => expr_place(rule, looked, inner.get()),
        Expr::Test { of, predicate } => test_place(rule, looked, of, predicate),
    }
}

#[cycle(expr)]
fn members_place(rule: NameRule, looked: &Looked, members: &[Expr]) -> Option<u64>
    ensures { result ≡ first_of (broken_in rule looked.now) members.now }
{
    for member in members {
        if let Some(place) = expr_place(rule, looked, member) {
            return Some(place);
        }
    }
    None
}

#[tactic(auto, unfolding(crate::specs::Refusals::broken_in))]
fn condition_place(rule: NameRule, looked: &Looked, condition: Option<&Expr>) -> Option<u64>
    ensures { result ≡ first_of (broken rule) (condition_parts looked.now (option_copied condition.entry)) }
{
    match condition {
        Some(e) => expr_place(rule, looked, e),
        None => None,
    }
}

fn seen_place(rule: NameRule, before: &Looked, looked: &Looked, seen: &Seen) -> Option<u64>
    ensures { result ≡ option_or (broken rule (Opens before.now seen.now.source)) (first_of (broken rule) (condition_parts looked.now seen.now.on)) }
{
    if let Some(place) = source_place(rule, before, seen.source()) {
        return Some(place);
    }
    condition_place(rule, looked, seen.on())
}

#[tactic(auto, using(crate::proofs::Firsts::first_of_append))]
fn sources_place(rule: NameRule, all: &Looked) -> Option<u64>
    ensures { result ≡ first_of (broken rule) (source_parts all.now 0 all.now) }
{
    let sources = all.sources();
    for (n, seen) in sources.iter().enumerate() {
        let before = all.first(n);
        let looked = all.first(n + 1);
        if let Some(place) = seen_place(rule, &before, &looked, seen) {
            return Some(place);
        }
    }
    None
}

fn items_place(rule: NameRule, all: &Looked, items: &[Item]) -> Option<u64>
    ensures { result ≡ first_of (broken rule) (map (λ i. Shows all.now i.of) items.now) }
{
    for item in items {
        if let Some(place) = ref_place(rule, all, &item.of) {
            return Some(place);
        }
    }
    None
}

fn shown_place(rule: NameRule, all: &Looked, shown: &Shown) -> Option<u64>
    ensures { result ≡ first_of (broken rule) (shown_parts all.now shown.now) }
{
    match shown {
        Shown::All => None,
        Shown::Items(items) => items_place(rule, all, items.as_slice()),
    }
}

fn keys_place(rule: NameRule, all: &Looked, keys: &[Key]) -> Option<u64>
    ensures { result ≡ first_of (broken rule) (map (Sorts all.now) keys.now) }
{
    for key in keys {
        if let Some(place) = key_place(rule, all, key) {
            return Some(place);
        }
    }
    None
}

/// The place of the first part that breaks a rule.
#[tactic(auto, using(crate::proofs::Firsts::first_of_append))]
pub(crate) fn first_place(rule: NameRule, all: &Looked, statement: &Statement) -> Option<u64>
    ensures { result ≡ first_of (broken rule) (parts_of all.now statement.now) }
{
    if let Some(place) = shown_place(rule, all, &statement.shown) {
        return Some(place);
    }
    if let Some(place) = sources_place(rule, all) {
        return Some(place);
    }
    if let Some(place) = condition_place(rule, all, statement.test.as_ref()) {
        return Some(place);
    }
    keys_place(rule, all, statement.order.as_slice())
}
