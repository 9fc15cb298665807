ghost use Rattle.std.specs.Prelude.{◌≡◌, ◌≤◌, ◌^◌, [], None, true, false, length, IsSome, IfSome, IfOk, OnOk};
ghost use Rattle.std.specs.Option.{option_copied};
ghost use Rattle.std.specs.Vec.{vec_capacity};
ghost use Rattle.rate_bucket.specs.Windows.{IsFirstFrom};
ghost use Rattle.rate_gate.specs.Limits.{IsLimiter, applies, scope_values};
ghost use Rattle.rate_gate.specs.Held.{held};
ghost use Rattle.rate_gate.specs.Keys.{key_of};
ghost use Rattle.rate_gate.specs.Instances.{Fits, Turned, Ready, Kept, Changed, Returned, MayReturn, MayTake, MayGive, Took, Gave, Before, TokenNow, current, full_now};

use crate::call_tags::CallTags;
use crate::instance::Instance;
use crate::instances::Instances;
use crate::keys::{make_room, write_key};
use crate::scope::applies;
use sp_model::Limiter;
use sp_value::{Memory, TryCopy};
use std::alloc::Global;

/// A limiter with its instances. `applies` and `key` are those of the call that is asked about: whether the limiter applies to it, and the
/// key of its instance. `key` has room for the key of each open grant, so that a return takes no memory.
#[derive(Drop)]
pub struct Limited {
    pub limiter: Limiter,
    pub instances: Instances,
    pub applies: bool,
    pub key: Vec<u16>,
}

impl Limited {
    /// A limiter without grants.
    pub fn new(alloc: Global, limiter: &Limiter) -> Result<Limited, Memory>
        requires { IsLimiter limiter.now }
        ensures limiter { IfOk result (λ s. s.limiter ≡ limiter.now) }
        ensures fits { IfOk result (Fits []) }
    {
        let limiter = limiter.copy(alloc)?;
        Ok(Limited {
            limiter,
            instances: Instances::none(alloc),
            applies: false,
            key: Vec::new(alloc),
        })
    }

    /// Looks at the instance of a call. It takes no memory.
    fn turn(&mut self, tags: &CallTags)
        requires room { applies self.old.limiter tags.now ≡ true → length (key_of (scope_values self.old.limiter tags.now)) ≤ vec_capacity self.old.key }
        ensures turned { Turned tags.now self.new }
        ensures limiter { self.new.limiter ≡ self.old.limiter }
        ensures instances { self.new.instances ≡ self.old.instances }
        ensures room { vec_capacity self.new.key ≡ vec_capacity self.old.key }
    {
        self.applies = applies(&self.limiter, tags);
        if self.applies {
            write_key(&mut self.key, self.limiter.scope.as_slice(), tags.pairs());
        }
    }

    /// Makes the instance that is looked at.
    fn fill(&mut self, alloc: Global) -> Result<(), Memory>
        requires limiter { IsLimiter self.old.limiter }
        requires none { held self.old.instances self.old.key.items ≡ None }
        ensures kept { Kept self.old self.new }
        ensures applies { self.new.applies ≡ self.old.applies }
        ensures key { self.new.key.items ≡ self.old.key.items }
        ensures room { vec_capacity self.new.key ≡ vec_capacity self.old.key }
        ensures made { OnOk result (IsSome (held self.new.instances self.new.key.items)) }
    {
        let instance = Instance::fresh(&self.limiter);
        self.instances.add(alloc, self.key.as_slice(), instance)?;
        Ok(())
    }

    /// The same, unless it is there or the limiter doesn't apply.
    fn make(&mut self, alloc: Global) -> Result<(), Memory>
        requires limiter { IsLimiter self.old.limiter }
        ensures kept { Kept self.old self.new }
        ensures applies { self.new.applies ≡ self.old.applies }
        ensures key { self.new.key.items ≡ self.old.key.items }
        ensures room { vec_capacity self.new.key ≡ vec_capacity self.old.key }
        ensures made { OnOk result (self.new.applies ≡ true → IsSome (held self.new.instances self.new.key.items)) }
    {
        if !self.applies {
            return Ok(());
        }
        match self.instances.find(self.key.as_slice()) {
            Some(_) => Ok(()),
            None => self.fill(alloc),
        }
    }

    /// Looks at the instance of a call that is asked for, and makes it where it isn't there.
    pub fn prepare(&mut self, alloc: Global, tags: &CallTags) -> Result<(), Memory>
        requires { IsLimiter self.old.limiter }
        ensures kept { Kept self.old self.new }
        ensures ready { OnOk result (Ready tags.now self.new) }
    {
        make_room(&mut self.key, self.limiter.scope.as_slice(), tags.pairs())?;
        self.turn(tags);
        self.make(alloc)?;
        Ok(())
    }

    fn current(&self) -> Option<&Instance>
        ensures { option_copied result ≡ current self.now }
    {
        if self.applies {
            self.instances.find(self.key.as_slice())
        } else {
            None
        }
    }

    /// Whether the instance of the call has its full number of open grants.
    pub fn is_full(&self) -> bool
        ensures { result ≡ full_now self.now }
    {
        match self.current() {
            Some(instance) => instance.is_full(),
            None => false,
        }
    }

    /// The least tick, from this one on, at which the instance of the call has a token.
    pub fn next_token(&self, tick: u64) -> u64
        requires since { Before tick self.now }
        requires range { tick ≤ 2 ^ 62 }
        ensures { IsFirstFrom tick (λ u. TokenNow u self.now) result }
    {
        match self.current() {
            Some(instance) => instance.next_token(tick),
            None => tick,
        }
    }

    /// Takes a token and a place of the instance of the call.
    pub fn take(&mut self, tick: u64)
        requires since { Before tick self.old }
        requires token { TokenNow tick self.old }
        requires place { full_now self.old ≡ false }
        requires range { tick ≤ 2 ^ 62 }
        ensures { Changed (Took tick) self.old self.new }
    {
        if self.applies {
            self.instances.take(self.key.as_slice(), tick);
        }
    }

    fn give(&mut self)
        requires { self.old.applies ≡ true → IfSome (held self.old.instances self.old.key.items) MayGive }
        ensures { Changed Gave self.old self.new }
    {
        if self.applies {
            self.instances.give(self.key.as_slice());
        }
    }

    /// Gives back what a grant with these tags took. It takes no memory.
    pub fn give_back(&mut self, tags: &CallTags)
        requires { MayReturn tags.now self.old }
        ensures { Returned tags.now self.old self.new }
    {
        self.turn(tags);
        self.give();
    }
}
