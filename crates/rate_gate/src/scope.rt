ghost use Rattle.std.specs.Prelude.{◌≡◌, [], is_some};
ghost use Rattle.std.specs.List.{list_all};
ghost use Rattle.std.specs.Option.{option_copied, unwrap_or};
ghost use Rattle.rate_gate.specs.Limits.{value_of, is_value, has_pairs, applies};

use crate::call_tags::CallTags;
use sp_model::{Limiter, Pair};
use sp_value::Text;

/// The value of the first pair of a name.
pub fn value_of<'a>(pairs: &'a [Pair], name: &Text) -> Option<&'a Text>
    ensures { option_copied result ≡ value_of name.now pairs.now }
{
    for pair in pairs {
        if pair.name == *name {
            return Some(&pair.value);
        }
    }
    None
}

/// Its bytes, none where there is no such pair.
pub fn value_bytes<'a>(pairs: &'a [Pair], name: &Text) -> &'a [u8]
    ensures { result.now ≡ unwrap_or (value_of name.now pairs.now) [] }
{
    match value_of(pairs, name) {
        Some(value) => value.as_bytes(),
        None => &[],
    }
}

fn has_value(pairs: &[Pair], name: &Text) -> bool
    ensures { result ≡ is_some (value_of name.now pairs.now) }
{
    value_of(pairs, name).is_some()
}

fn has_pair(pairs: &[Pair], wanted: &Pair) -> bool
    ensures { result ≡ is_value wanted.now.value (value_of wanted.now.name pairs.now) }
{
    match value_of(pairs, &wanted.name) {
        Some(value) => *value == wanted.value,
        None => false,
    }
}

fn has_pairs(pairs: &[Pair]) -> bool
    ensures { result ≡ has_pairs pairs.now }
{
    match pairs {
        [] => false,
        [_, ..] => true,
    }
}

fn has_scope(scope: &[Text], pairs: &[Pair]) -> bool
    ensures { result ≡ list_all (λ name. is_some (value_of name pairs.now)) scope.now }
{
    scope.iter().all(|name| has_value(pairs, name))
}

fn has_conditions(conditions: &[Pair], pairs: &[Pair]) -> bool
    ensures { result ≡ list_all (λ c. is_value c.value (value_of c.name pairs.now)) conditions.now }
{
    conditions.iter().all(|wanted| has_pair(pairs, wanted))
}

/// Whether a limiter applies to a call.
pub fn applies(limiter: &Limiter, tags: &CallTags) -> bool
    ensures { result ≡ applies limiter.now tags.now }
{
    let pairs = tags.pairs();
    has_pairs(pairs)
        && has_scope(limiter.scope.as_slice(), pairs)
        && has_conditions(limiter.conds.as_slice(), pairs)
}
