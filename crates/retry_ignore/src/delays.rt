ghost use Rattle.std.specs.Prelude.{◌≡◌, ◌≤◌, ◌+◌, ◌-◌, ◌*◌, ◌^◌, min};
ghost use Rattle.sp_model.specs.Delays.{fibonacci, delay};

use sp_model::{Backoff, Retry};

/// The sum, and at most the cap. No sum wraps.
fn capped_sum(cap: u64, a: u64, b: u64) -> u64
    requires a { a ≤ cap }
    requires b { b ≤ cap }
    ensures { result ≡ min cap (a + b) }
{
    if a > cap - b { cap } else { a + b }
}

/// So many intervals as the fibonacci number of the attempt.
fn by_fibonacci(cap: u64, interval: u64, attempt: u32) -> u64
    requires { 1 ≤ attempt }
    ensures { result ≡ min cap (interval * fibonacci attempt) }
{
    let mut before = 0;
    let mut now = interval.min(cap);
    for _step in 1..attempt {
        let next = capped_sum(cap, before, now);
        before = now;
        now = next;
    }
    now
}

/// The interval, doubled for each attempt after the first.
fn by_doubling(cap: u64, interval: u64, attempt: u32) -> u64
    requires { 1 ≤ attempt }
    ensures { result ≡ min cap (interval * 2 ^ (attempt - 1)) }
{
    let mut now = interval.min(cap);
    for _step in 1..attempt {
        now = capped_sum(cap, now, now);
    }
    now
}

/// How many ticks pass between the ending of an attempt, which count from 1, and the next attempt, at least.
pub fn delay(rule: &Retry, attempt: u32) -> u64
    requires { 1 ≤ attempt }
    ensures { result ≡ delay rule.now attempt }
{
    match rule.backoff {
        Backoff::Constant => rule.interval.min(rule.cap),
        Backoff::Fibonacci => by_fibonacci(rule.cap, rule.interval, attempt),
        Backoff::Exponential => by_doubling(rule.cap, rule.interval, attempt),
    }
}
