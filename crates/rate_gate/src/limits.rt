ghost use Rattle.std.specs.Prelude.{◌≡◌, ◌≤◌, ◌^◌, [], ◌∷◌, ◌++◌, false, length, IfOk, OnOk};
ghost use Rattle.std.specs.List.{AllByRecursion, list_any};
ghost use Rattle.rate_bucket.specs.Windows.{IsFirstFrom};
ghost use Rattle.rate_gate.specs.declared.entry.Entry.TheVariants.{Return};
ghost use Rattle.rate_gate.specs.Journal.{IsOpen, last_tick};
ghost use Rattle.rate_gate.specs.Limits.{IsLimiter};
ghost use Rattle.rate_gate.specs.Asking.{Answered};
ghost use Rattle.rate_gate.specs.Instances.{Fits, Ready, Kept, Changed, Returned, MayReturn, Took, Before, TokenNow, full_now, First, Looked, limiters_of, view_of};

use crate::call_tags::CallTags;
use crate::journal::Journal;
use crate::limited::Limited;
use crate::permit::Permit;
use crate::wait::Wait;
use sp_model::Limiter;
use sp_value::Memory;
use std::alloc::Global;

/// The limiters, without grants.
pub fn limits_of(alloc: Global, limiters: &[Limiter]) -> Result<Vec<Limited>, Memory>
    requires { AllByRecursion IsLimiter limiters.now }
    ensures limiters { IfOk result (λ limits. limiters_of limits.items ≡ limiters.now) }
    ensures fits { IfOk result (λ limits. AllByRecursion (Fits []) limits.items) }
{
    let mut limits = Vec::new(alloc);
    for limiter in limiters {
        limits.push(Limited::new(alloc, limiter)?)?;
    }
    Ok(limits)
}

/// Looks at the instances of a call, and makes those that aren't there.
fn prepare_all(alloc: Global, limits: &mut [Limited], call: &CallTags) -> Result<(), Memory>
    requires { AllByRecursion (λ s. IsLimiter s.limiter) limits.old }
    ensures kept { First Kept limits.old limits.new (length limits.old) }
    ensures ready { OnOk result (AllByRecursion (Ready call.now) limits.new) }
{
    for k in 0..limits.len() {
        limits[k].prepare(alloc, call)?;
    }
    Ok(())
}

/// Whether some instance of the call has its full number of open grants.
fn any_full(limits: &[Limited]) -> bool
    ensures { result ≡ list_any full_now limits.now }
{
    limits.iter().any(|limited| limited.is_full())
}

/// What the instances of the call say.
fn look(limits: &[Limited], tick: u64) -> Result<(), Wait>
    requires since { AllByRecursion (Before tick) limits.now }
    requires range { tick ≤ 2 ^ 62 }
    ensures { Looked limits.now tick result }
{
    if any_full(limits) {
        return Err(Wait::Places);
    }
    let next = latest(limits, tick);
    if tick < next {
        return Err(Wait::Until(next));
    }
    Ok(())
}

/// The least tick, from this one on, at which each instance of the call has a token.
fn latest(limits: &[Limited], tick: u64) -> u64
    requires since { AllByRecursion (Before tick) limits.now }
    requires range { tick ≤ 2 ^ 62 }
    ensures { IsFirstFrom tick (λ u. AllByRecursion (TokenNow u) limits.now) result }
{
    let mut next = tick;
    for limited in limits {
        next = next.max(limited.next_token(tick));
    }
    next
}

/// Takes a place and a token of each instance of the call.
fn take_all(limits: &mut [Limited], tick: u64)
    requires since { AllByRecursion (Before tick) limits.old }
    requires token { AllByRecursion (TokenNow tick) limits.old }
    requires place { list_any full_now limits.old ≡ false }
    requires range { tick ≤ 2 ^ 62 }
    ensures { First (Changed (Took tick)) limits.old limits.new (length limits.old) }
{
    for k in 0..limits.len() {
        limits[k].take(tick);
    }
}

/// Gives back what a grant with these tags took.
fn give_all(limits: &mut [Limited], tags: &CallTags)
    requires { AllByRecursion (MayReturn tags.now) limits.old }
    ensures { First (Returned tags.now) limits.old limits.new (length limits.old) }
{
    for k in 0..limits.len() {
        limits[k].give_back(tags);
    }
}

/// Asks for a call: takes a place and a token of each of its instances, or of none.
pub fn ask_all(
    alloc: Global,
    limits: &mut [Limited],
    journal: &mut Journal,
    call: &CallTags,
    tick: u64,
) -> Result<Permit, Wait>
    requires fits { AllByRecursion (Fits journal.old) limits.old }
    requires since { last_tick journal.old ≤ tick }
    requires range { tick ≤ 2 ^ 62 }
    ensures fits { AllByRecursion (Fits journal.new) limits.new }
    ensures long { length limits.new ≡ length limits.old }
    ensures answered { Answered (view_of limits.old journal.old) call.now tick (view_of limits.new journal.new) result }
{
    prepare_all(alloc, limits, call)?;
    look(limits, tick)?;
    let tags = call.share()?;
    let noted = call.share()?;
    let number = journal.grant(noted, tick)?;
    take_all(limits, tick);
    Ok(Permit::new(number, tags))
}

/// Ends an open grant.
pub fn end_all(
    limits: &mut [Limited],
    journal: &mut Journal,
    number: u64,
    tags: &CallTags,
    tick: u64,
    sent: bool,
)
    requires fits { AllByRecursion (Fits journal.old) limits.old }
    requires open { IsOpen journal.old number tags.now }
    requires since { last_tick journal.old ≤ tick }
    ensures fits { AllByRecursion (Fits journal.new) limits.new }
    ensures long { length limits.new ≡ length limits.old }
    ensures limiters { limiters_of limits.new ≡ limiters_of limits.old }
    ensures noted { journal.new ≡ journal.old ++ Return number tick sent ∷ [] }
{
    give_all(limits, tags);
    journal.give_back(number, tick, sent);
}
