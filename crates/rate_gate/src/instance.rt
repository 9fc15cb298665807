ghost use Rattle.std.specs.Prelude.{◌≡◌, ℕ, ◌+◌, [], false, ◌≤◌, ◌<◌, ◌^◌, IfSome, Some};
ghost use Rattle.rate_bucket.specs.Windows.{HasToken, IsFirstFrom};
ghost use Rattle.rate_gate.specs.Limits.{IsLimiter, rate_of};
ghost use Rattle.rate_gate.specs.Instances.{no_place, BucketStands, PlacesStand, BucketBefore, BucketToken, BucketTaken, PlaceTaken, Stands, Took, Gave, MayTake, MayGive};

use rate_bucket::Bucket;
use sp_model::Limiter;

/// The places of an instance: at most `most` grants are open.
#[derive(Clone, Copy, Debug, PartialEq, Eq)]
pub struct Places {
    pub most: u32,
    pub opened: u32,
}

/// An instance of a limiter.
#[derive(Drop)]
pub struct Instance {
    pub bucket: Option<Bucket>,
    pub places: Option<Places>,
}

impl Instance {
    /// An instance of a limiter, from which nothing was taken.
    pub fn fresh(limiter: &Limiter) -> Instance
        requires { IsLimiter limiter.now }
        ensures { (last : ℕ) → Stands limiter.now [] 0 last (Some result) }
    {
        Instance {
            bucket: full_bucket(limiter),
            places: free_places(limiter.max_concurrency),
        }
    }

    /// Whether it has its full number of open grants.
    pub fn is_full(&self) -> bool
        ensures { result ≡ no_place self.now.places }
    {
        match self.places {
            Some(places) => places.most <= places.opened,
            None => false,
        }
    }

    /// The least tick, from this one on, at which it has a token.
    pub fn next_token(&self, tick: u64) -> u64
        requires since { BucketBefore tick self.now }
        requires range { tick ≤ 2 ^ 62 }
        ensures { IsFirstFrom tick (λ u. BucketToken u self.now) result }
    {
        match &self.bucket {
            Some(bucket) => bucket.next_token(tick),
            None => tick,
        }
    }

    /// Takes a token and a place.
    pub fn take(&mut self, tick: u64)
        requires may { MayTake tick self.old }
        requires range { tick ≤ 2 ^ 62 }
        ensures { Took tick (Some self.old) (Some self.new) }
    {
        take_token(&mut self.bucket, tick);
        take_place(&mut self.places);
    }

    /// Gives a place back.
    pub fn give(&mut self)
        requires { MayGive self.old }
        ensures { Gave (Some self.old) (Some self.new) }
    {
        give_place(&mut self.places);
    }
}

fn full_bucket(limiter: &Limiter) -> Option<Bucket>
    requires { IsLimiter limiter.now }
    ensures { (last : ℕ) → BucketStands (rate_of limiter.now) result [] last }
{
    match (limiter.bucket_size, limiter.fill) {
        (Some(size), Some(fill)) => Some(Bucket::full(size, fill, limiter.per)),
        _ => None,
    }
}

fn free_places(most: Option<u32>) -> Option<Places>
    ensures { PlacesStand most result 0 }
{
    match most {
        Some(most) => Some(Places { most, opened: 0 }),
        None => None,
    }
}

fn take_token(bucket: &mut Option<Bucket>, tick: u64)
    requires since { IfSome bucket.old (λ b. b.last ≤ tick) }
    requires token { IfSome bucket.old (λ b. HasToken b tick) }
    requires range { tick ≤ 2 ^ 62 }
    ensures { BucketTaken tick bucket.old bucket.new }
{
    match bucket {
        Some(bucket) => bucket.take(tick),
        None => {}
    }
}

fn one_more(opened: u32, most: u32) -> u32
    requires { opened < most }
    ensures { result ≡ opened + 1 }
{
    opened + 1
}

fn take_place(places: &mut Option<Places>)
    requires { no_place places.old ≡ false }
    ensures { PlaceTaken places.old places.new }
{
    match places {
        Some(places) => {
            places.opened = one_more(places.opened, places.most);
        }
        None => {}
    }
}

fn give_place(places: &mut Option<Places>)
    requires { IfSome places.old (λ p. 0 < p.opened) }
    ensures { PlaceTaken places.new places.old }
{
    match places {
        Some(places) => places.opened -= 1,
        None => {}
    }
}
