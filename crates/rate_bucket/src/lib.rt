//! A bucket of tokens that fills with the ticks, which are milliseconds.
//!
//! A bucket of a size, into which `fill` tokens flow every `per` ticks, starts full, and each grant takes a token. What it keeps is the
//! window law: from a tick s to a tick t, both included, there are at most `size + fill * (t - s) / per` grants, rounded down. A take is
//! refused exactly where the law would break in a window that ends at its tick, and then says the least tick at which it wouldn't.
//! No tick is lost to rounding: the bucket keeps what it owes in parts of a token. Nothing here takes memory, and no sum overflows at any
//! settings. Begin reading at `specs/Windows.antt`.
#![tactic(auto)]

ghost use Rattle.std.specs.Prelude.{◌≡◌, ℕ, ◌≤◌, ◌-◌, ◌*◌, ◌^◌, ◌↔◌, List, [], ◌∷◌, IsOk, OnOk, OnErr, IfErr};
ghost use Rattle.rate_bucket.specs.Windows.{IsHistory, IsFirstFrom, MayGrant, HasToken};

use std::marker::Model;

/// The least tick at which a token is there.
#[derive(Clone, Copy, Debug, PartialEq, Eq)]
pub struct Later {
    pub tick: u64,
}

/// A bucket of at most `size` tokens, of which `fill` come every `per` ticks. Contracts see what it owes and since when, and range over
/// every list of grant ticks that leads there (`IsHistory`).
#[derive(Drop)]
pub struct Bucket {
    size: u32,
    fill: u32,
    per: u32,
    debt: u64,
    last: u64,
}

impl Model for Bucket {
    ghost use Rattle.std.specs.Prelude.{◌*◌, ◌≤◌, ◌^◌};
    ghost use Rattle.rate_bucket.specs.Windows.{Rate, Meter};

    ghost Value = { Meter };

    ghost view = { λ b. record { rate = record { size = b.size; fill = b.fill; per = b.per }; debt = b.debt; last = b.last } };

    ghost invariant = { λ b. (1 ≤ b.size) × (1 ≤ b.fill) × (1 ≤ b.per) × (b.debt ≤ b.size * b.per) × (b.last ≤ 2 ^ 62) };
}

impl Bucket {
    /// A full bucket, from which nothing was taken.
    pub fn full(size: u32, fill: u32, per: u32) -> Bucket
        requires size { 1 ≤ size }
        requires fill { 1 ≤ fill }
        requires per { 1 ≤ per }
        ensures full { result ≡ record { rate = record { size = size; fill = fill; per = per }; debt = 0; last = 0 } }
        ensures fresh { IsHistory result [] }
    {
        Bucket {
            size,
            fill,
            per,
            debt: 0,
            last: 0,
        }
    }

    /// The tick of the last grant, 0 where there was none.
    pub fn last(&self) -> u64
        ensures { result ≡ self.now.last }
    {
        self.last
    }

    /// The least tick, from this one on, at which a token is there.
    pub fn next_token(&self, tick: u64) -> u64
        requires since { self.now.last ≤ tick }
        requires range { tick ≤ 2 ^ 62 }
        ensures token { IsFirstFrom tick (HasToken self.now) result }
        ensures law { (grants : List ℕ) → IsHistory self.now grants → IsFirstFrom tick (MayGrant self.now.rate grants) result }
    {
        let whole = u64::from(self.size) * u64::from(self.per);
        let room = whole - u64::from(self.per);
        if self.debt <= room {
            return tick;
        }
        let fill = u64::from(self.fill);
        let ticks = (self.debt - room + (fill - 1)) / fill;
        tick.max(self.last + ticks)
    }

    /// Takes a token, unless there is none at the tick.
    pub fn try_take(&mut self, tick: u64) -> Result<(), Later>
        requires since { self.old.last ≤ tick }
        requires range { tick ≤ 2 ^ 62 }
        ensures exact { (grants : List ℕ) → IsHistory self.old grants → (IsOk result ↔ MayGrant self.old.rate grants tick) }
        ensures later { (grants : List ℕ) → IsHistory self.old grants → IfErr result (λ l. IsFirstFrom tick (MayGrant self.old.rate grants) l.tick) }
        ensures history { (grants : List ℕ) → IsHistory self.old grants → OnOk result (IsHistory self.new (tick ∷ grants)) }
        ensures rate { self.new.rate ≡ self.old.rate }
        ensures last { OnOk result (self.new.last ≡ tick) }
        ensures err { OnErr result (self.new ≡ self.old) }
    {
        let next = self.next_token(tick);
        if tick < next {
            return Err(Later { tick: next });
        }
        self.take(tick);
        Ok(())
    }

    /// Takes a token that is there.
    pub fn take(&mut self, tick: u64)
        requires since { self.old.last ≤ tick }
        requires range { tick ≤ 2 ^ 62 }
        requires token { HasToken self.old tick }
        ensures history { (grants : List ℕ) → IsHistory self.old grants → IsHistory self.new (tick ∷ grants) }
        ensures rate { self.new.rate ≡ self.old.rate }
        ensures last { self.new.last ≡ tick }
    {
        let passed = tick - self.last;
        let fill = u64::from(self.fill);
        self.debt = debt_after(self.debt, fill, passed) + u64::from(self.per);
        self.last = tick;
    }
}

/// What is left of a debt after some ticks.
fn debt_after(debt: u64, fill: u64, passed: u64) -> u64
    requires { 1 ≤ fill }
    ensures { result ≡ debt - fill * passed }
{
    if passed > debt / fill {
        0
    } else {
        debt - fill * passed
    }
}
