//! What comes of the calls of `retry_ignore`.

use crate::tables::{number_at, table_at, text_at};
use case_tables::{push_word, word};
use retry_ignore::{Verdict, delay, judge, rule_of};
use sp_model::Rule;
use std::alloc::Global;

pub fn outcome(alloc: Global, call: &str, given: &[Vec<u8>]) -> Option<String> {
    match call {
        "delays" => delays(alloc, given),
        "judge" => judged(alloc, given),
        _ => None,
    }
}

/// The rules of the calls of the table's list.
fn rule_at(alloc: Global, given: &[Vec<u8>]) -> Option<Rule> {
    let table = table_at(alloc, given, 0)?;
    rule_of(alloc, &table, &None, &None).ok()
}

/// A declaration with a retry rule: the delays after its attempts, but for the last.
fn delays(alloc: Global, given: &[Vec<u8>]) -> Option<String> {
    let rule = rule_at(alloc, given)?;
    let retry = rule.retry.as_ref()?;
    let mut words = String::new(alloc);
    for attempt in 1..retry.attempts {
        let delay = format!(in alloc; "{}", delay(retry, attempt)).ok()?;
        push_word(&mut words, " ", delay.as_str())?;
    }
    Some(words)
}

/// A declaration, an attempt and the text of its error: what becomes of the call.
fn judged(alloc: Global, given: &[Vec<u8>]) -> Option<String> {
    let rule = rule_at(alloc, given)?;
    let attempt = number_at(given, 1)?;
    let text = text_at(alloc, given, 2)?;
    if attempt == 0 {
        return None;
    }
    match judge(&rule, attempt, &text) {
        Verdict::Ignore => word(alloc, "ignored"),
        Verdict::Again { delay } => format!(in alloc; "again after {delay}").ok(),
        Verdict::Fail => word(alloc, "fails"),
    }
}
