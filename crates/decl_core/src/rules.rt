ghost use Rattle.std.specs.Prelude.{◌≡◌, ◌<◌, ◌≤◌, ◌^◌, [], codes, IfOk, IfSome, option_and_then, suc};
ghost use Rattle.serde_json.specs.Find.{get, as_str};
ghost use Rattle.serde_json.specs.View.{view, items_view, members_view};
ghost use Rattle.sp_model.specs.Names.{has_name};
ghost use Rattle.decl_words.specs.Members.{each, optional, optional_or};
ghost use Rattle.decl_words.specs.Rules.{own_tags, tag_of, tags_in, tags_of, patterns_of, bounded, number_of, attempts_of, interval_of, cap_of, rule_in, call_rules_in};

use crate::from_json::{FromJson, optional, required};
use crate::limits::{ATTEMPTS, CAP, INTERVAL};
use decl_words::CallRules;
use read_members::{has_name, object_has_only};
use serde_json::{Map, Value};
use sp_model::{Backoff, Pair, Patterns, Retry, Rule};
use sp_value::{Memory, Text};
use sqlite_items::Items;
use std::alloc::Global;

fn is_own_tag(name: &str) -> bool
    ensures { result ≡ has_name own_tags name.now }
{
    has_name(&["plugin", "connection", "table", "function_name"], name)
}

fn tag_of(alloc: Global, name: &str, value: &Value) -> Result<Option<Pair>, Memory>
    ensures { IfOk result (λ t. t ≡ tag_of name.now (view value.now)) }
{
    if is_own_tag(name) {
        return Ok(None);
    }
    match value.as_str() {
        Some(text) => Ok(Some(Pair {
            name: Text::from_str(alloc, name)?,
            value: Text::from_str(alloc, text)?,
        })),
        None => Ok(None),
    }
}

fn tags_in(alloc: Global, members: &Map<String, Value>) -> Result<Option<Items<Pair>>, Memory>
    ensures { IfOk result (λ ts. ts ≡ tags_in (members_view members.now.entries)) }
{
    let mut tags = Items::new(alloc);
    for (key, member) in members.iter() {
        let Some(tag) = tag_of(alloc, key.as_str(), member)? else {
            return Ok(None);
        };
        tags.push(tag)?;
    }
    Ok(Some(tags))
}

fn tags_at(alloc: Global, value: &Value) -> Result<Option<Items<Pair>>, Memory>
    ensures { IfOk result (λ ts. ts ≡ optional_or [] tags_of (get (codes "tags") (view value.now))) }
{
    match value.get("tags") {
        Some(Value::Object(members)) => {
            let tags = tags_in(alloc, members)?;
            Ok(tags)
        }
        Some(_) => Ok(None),
        None => Ok(Some(Items::new(alloc))),
    }
}

fn texts_in(alloc: Global, values: &Vec<Value>) -> Result<Option<Patterns>, Memory>
    ensures { IfOk result (λ ps. ps ≡ each as_str (items_view values.now.items)) }
{
    let mut texts = Items::new(alloc);
    for value in values {
        let Some(text) = value.as_str() else {
            return Ok(None);
        };
        let text = Text::from_str(alloc, text)?;
        texts.push(text)?;
    }
    Ok(Some(texts))
}

fn patterns_of(alloc: Global, value: &Value) -> Result<Option<Patterns>, Memory>
    ensures { IfOk result (λ ps. ps ≡ patterns_of (view value.now)) }
{
    match value {
        Value::Array(values) => {
            let patterns = texts_in(alloc, values)?;
            Ok(patterns)
        }
        _ => Ok(None),
    }
}

fn ignore_at(alloc: Global, value: &Value) -> Result<Option<Option<Patterns>>, Memory>
    ensures { IfOk result (λ ps. ps ≡ optional patterns_of (get (codes "ignore") (view value.now))) }
{
    match value.get("ignore") {
        Some(found) => match patterns_of(alloc, found)? {
            Some(patterns) => Ok(Some(Some(patterns))),
            None => Ok(None),
        },
        None => Ok(Some(None)),
    }
}

fn patterns_at(alloc: Global, value: &Value) -> Result<Option<Patterns>, Memory>
    ensures { IfOk result (λ ps. ps ≡ option_and_then patterns_of (get (codes "patterns") (view value.now))) }
{
    match value.get("patterns") {
        Some(found) => {
            let patterns = patterns_of(alloc, found)?;
            Ok(patterns)
        }
        None => Ok(None),
    }
}

/// The number where it is within the bounds, and else the number after the highest, which the limits refuse.
fn bounded(low: u64, high: u64, number: i64) -> u64
    requires { high < 2 ^ 63 }
    ensures value { result ≡ bounded low high number }
    ensures small { result ≤ suc high }
{
    match u64::try_from(number) {
        Ok(natural) => if low <= natural && natural <= high {
            natural
        } else {
            high + 1
        },
        Err(_) => high + 1,
    }
}

fn number_of(low: u64, high: u64, value: &Value) -> Option<u64>
    requires { high < 2 ^ 63 }
    ensures value { result ≡ number_of low high (view value.now) }
    ensures small { IfSome result (λ n. n ≤ suc high) }
{
    match value.as_i64() {
        Some(number) => Some(bounded(low, high, number)),
        None => None,
    }
}

fn attempts_at(value: &Value) -> Option<u32>
    ensures { result ≡ option_and_then attempts_of (get (codes "attempts") (view value.now)) }
{
    match value.get("attempts") {
        Some(found) => match number_of(1, ATTEMPTS, found) {
            Some(attempts) => Some(attempts as u32),
            None => None,
        },
        None => None,
    }
}

fn interval_at(value: &Value) -> Option<u64>
    ensures { result ≡ option_and_then interval_of (get (codes "interval") (view value.now)) }
{
    match value.get("interval") {
        Some(found) => number_of(0, INTERVAL, found),
        None => None,
    }
}

fn cap_at(value: &Value) -> Option<u64>
    ensures { result ≡ optional_or 1000000000 cap_of (get (codes "cap") (view value.now)) }
{
    match value.get("cap") {
        Some(found) => number_of(0, CAP, found),
        None => Some(CAP),
    }
}

impl FromJson for Retry {
    ghost use Rattle.decl_words.specs.Rules.{retry_of};

    ghost read_as = { retry_of };

    fn from_json(alloc: Global, value: &Value) -> Result<Option<Retry>, Memory> {
        if !object_has_only(
            value,
            &["patterns", "attempts", "backoff", "interval", "cap"],
        ) {
            return Ok(None);
        }
        let Some(patterns) = patterns_at(alloc, value)? else {
            return Ok(None);
        };
        let Some(attempts) = attempts_at(value) else {
            return Ok(None);
        };
        let Some(backoff) = required::<Backoff>(alloc, value, "backoff")? else {
            return Ok(None);
        };
        let Some(interval) = interval_at(value) else {
            return Ok(None);
        };
        let Some(cap) = cap_at(value) else {
            return Ok(None);
        };
        Ok(Some(Retry {
            patterns,
            attempts,
            backoff,
            interval,
            cap,
        }))
    }
}

/// The members `ignore` and `retry` of an object.
pub fn rule_in(alloc: Global, value: &Value) -> Result<Option<Rule>, Memory>
    ensures { IfOk result (λ r. r ≡ rule_in (view value.now)) }
{
    let Some(ignore) = ignore_at(alloc, value)? else {
        return Ok(None);
    };
    let Some(retry) = optional::<Retry>(alloc, value, "retry")? else {
        return Ok(None);
    };
    Ok(Some(Rule { ignore, retry }))
}

/// The members `tags`, `ignore` and `retry` of an object.
pub fn call_rules_in(alloc: Global, value: &Value) -> Result<Option<CallRules>, Memory>
    ensures { IfOk result (λ r. r ≡ call_rules_in (view value.now)) }
{
    let Some(tags) = tags_at(alloc, value)? else {
        return Ok(None);
    };
    let Some(rule) = rule_in(alloc, value)? else {
        return Ok(None);
    };
    Ok(Some(CallRules { tags, rule }))
}
