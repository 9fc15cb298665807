ghost use Rattle.std.specs.Prelude.{◌≡◌, ◌≤◌, ◌<◌, ◌+◌, ◌^◌, ℕ, Some};
ghost use Rattle.sp_model.specs.Settling.{judged};
ghost use Rattle.retry_ignore.specs.Verdicts.{verdict_of};
ghost use Rattle.retry_ignore.specs.declared.verdict.Verdict.TheVariants.{Again};

use retry_ignore::{Verdict, judge};
use sp_model::{Ending, Rule};

/// What an ending means for its call in an attempt. An end ends the call as an error does that is ignored.
pub(crate) fn verdict_on(rule: &Rule, attempt: u32, ending: &Ending) -> Verdict
    requires { 1 ≤ attempt }
    ensures verdict { result ≡ verdict_of rule.now attempt (judged rule.now attempt (Some ending.now)) }
    ensures again { (delay : ℕ) → result ≡ Again delay → attempt + 1 < 2 ^ 32 }
{
    match ending {
        Ending::End => Verdict::Ignore,
        Ending::Error(text) => judge(rule, attempt, text),
    }
}
