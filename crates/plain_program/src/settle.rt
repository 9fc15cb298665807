ghost use Rattle.std.specs.Prelude.{◌≡◌, ◌+◌, ◌<◌, ◌^◌, true, IfOk};
ghost use Rattle.sp_value.specs.Patterns.{fits_some};
ghost use Rattle.sp_model.specs.Settling.{rule_of, is_ignored, is_retried, settled_from, settled};

use crate::copies::or_else;
use crate::replies::Replies;
use sp_model::{Call, Ending, Patterns, Reply, Retry, Rule, Settled, TableDecl};
use sp_value::{Memory, Text, fits_text};
use std::alloc::Global;

/// The rules of a call with rules of its own: each rule is the call's, else the table's, else the plugin's.
pub fn rule_of(
    alloc: Global,
    table: &TableDecl,
    ignore: &Option<Patterns>,
    retry: &Option<Retry>,
) -> Result<Rule, Memory>
    ensures { IfOk result (λ rule. rule ≡ rule_of table.now ignore.now retry.now) }
{
    let table_ignore = or_else(alloc, &table.ignore, &table.plugin.ignore)?;
    let table_retry = or_else(alloc, &table.retry, &table.plugin.retry)?;
    Ok(Rule {
        ignore: or_else(alloc, ignore, &table_ignore)?,
        retry: or_else(alloc, retry, &table_retry)?,
    })
}

fn fits_some(patterns: &[Text], text: &Text) -> bool
    ensures { result ≡ fits_some patterns.now text.now }
{
    for pattern in patterns {
        if fits_text(pattern, text) {
            return true;
        }
    }
    false
}

pub(crate) fn is_ignored(ignore: &Option<Patterns>, text: &Text) -> bool
    ensures { result ≡ is_ignored ignore.now text.now }
{
    match ignore {
        Some(patterns) => fits_some(patterns.as_slice(), text),
        None => false,
    }
}

pub(crate) fn is_retried(retry: &Option<Retry>, attempt: u32, text: &Text) -> bool
    ensures value { result ≡ is_retried retry.now attempt text.now }
    ensures below { result ≡ true → attempt + 1 < 2 ^ 32 }
{
    match retry {
        Some(rule) => fits_some(rule.patterns.as_slice(), text) && attempt < rule.attempts,
        None => false,
    }
}

/// What a call comes to, asked again by its rule. `None` where an answer is missing.
pub fn settled<R: Replies>(
    alloc: Global,
    replies: &R,
    rule: &Rule,
    call: &Call,
) -> Result<Option<Settled>, Memory>
    ensures { IfOk result (λ s. s ≡ settled rule.now (R.answers replies.now call.now)) }
{
    let settled = settled_from(alloc, replies, rule, call, 1)?;
    Ok(settled)
}

#[tactic(auto, using(crate::proofs::Settles::end_settles, crate::proofs::Settles::ignored_settles, crate::proofs::Settles::refused_settles))]
fn settled_from<R: Replies>(
    alloc: Global,
    replies: &R,
    rule: &Rule,
    call: &Call,
    attempt: u32,
) -> Result<Option<Settled>, Memory>
    ensures { IfOk result (λ s. s ≡ settled_from rule.now (R.answers replies.now call.now) attempt) }
{
    let Some(reply) = replies.reply(alloc, call, attempt)? else {
        return Ok(None);
    };
    let Reply { items, ending } = reply;
    let Ending::Error(text) = ending else {
        return Ok(Some(Settled::Items(items)));
    };
    if is_ignored(&rule.ignore, &text) {
        return Ok(Some(Settled::Items(items)));
    }
    if is_retried(&rule.retry, attempt, &text) {
        let later = settled_from(alloc, replies, rule, call, attempt + 1)?;
        return Ok(later);
    }
    Ok(Some(Settled::Refused { attempt, text }))
}
