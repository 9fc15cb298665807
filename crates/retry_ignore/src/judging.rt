ghost use Rattle.std.specs.Prelude.{◌≡◌, ◌≤◌, ◌<◌, ◌+◌, ◌^◌, ℕ, true, Some};
ghost use Rattle.sp_value.specs.Patterns.{fits_some};
ghost use Rattle.sp_model.specs.Settling.{is_ignored, is_retried, judged, attempts_of};
ghost use Rattle.sp_model.specs.declared.call.Ending.TheVariants.{Error};
ghost use Rattle.retry_ignore.specs.Verdicts.{verdict_of};
ghost use Rattle.retry_ignore.specs.declared.verdict.Verdict.TheVariants.{Again};

use crate::delays::delay;
use crate::verdict::Verdict;
use sp_model::{Patterns, Retry, Rule};
use sp_value::{Text, fits_text};

fn fits_some(patterns: &[Text], text: &Text) -> bool
    ensures { result ≡ fits_some patterns.now text.now }
{
    for pattern in patterns {
        if fits_text(pattern, text) {
            return true;
        }
    }
    false
}

fn is_ignored(ignore: &Option<Patterns>, text: &Text) -> bool
    ensures { result ≡ is_ignored ignore.now text.now }
{
    match ignore {
        Some(patterns) => fits_some(patterns.as_slice(), text),
        None => false,
    }
}

fn is_retried(retry: &Retry, attempt: u32, text: &Text) -> bool
    ensures value { result ≡ is_retried (Some retry.now) attempt text.now }
    ensures left { result ≡ true → attempt + 1 ≤ retry.now.attempts }
    ensures room { result ≡ true → attempt + 1 < 2 ^ 32 }
{
    fits_some(retry.patterns.as_slice(), text) && attempt < retry.attempts
}

/// What an error means for its call in an attempt, which count from 1: it is ignored where it fits an ignore pattern; else the
/// call is asked again where it fits a retry pattern and attempts are left; else the call fails.
pub fn judge(rule: &Rule, attempt: u32, text: &Text) -> Verdict
    requires { 1 ≤ attempt }
    ensures verdict { result ≡ verdict_of rule.now attempt (judged rule.now attempt (Some (Error text.now))) }
    // A call that is asked again has an attempt left.
    ensures again { (delay : ℕ) → result ≡ Again delay → (attempt + 1 ≤ attempts_of rule.now.retry) × (attempt + 1 < 2 ^ 32) }
{
    if is_ignored(&rule.ignore, text) {
        return Verdict::Ignore;
    }
    match &rule.retry {
        Some(retry) => {
            if is_retried(retry, attempt, text) {
                Verdict::Again {
                    delay: delay(retry, attempt),
                }
            } else {
                Verdict::Fail
            }
        }
        None => Verdict::Fail,
    }
}
