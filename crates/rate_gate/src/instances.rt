ghost use Rattle.std.specs.Prelude.{◌≡◌, ℕ, List, None, Some, ◌≤◌, ◌^◌, IfSome, OnOk, OnErr};
ghost use Rattle.std.specs.Option.{option_copied};
ghost use Rattle.rate_gate.specs.Held.{held};
ghost use Rattle.rate_gate.specs.Instances.{MayTake, MayGive, Took, Gave};

use crate::instance::Instance;
use sp_value::Memory;
use std::alloc::Global;
use std::collections::HashMap;

/// The instances of one limiter by their keys (`Held.held`).
#[derive(Drop)]
pub struct Instances {
    map: HashMap<Vec<u16>, Instance>,
}

impl Instances {
    /// No instances.
    pub fn none(alloc: Global) -> Instances
        ensures { (key : List ℕ) → held result key ≡ None }
    {
        Instances {
            map: HashMap::new(alloc),
        }
    }

    /// The instance of a key.
    pub fn find(&self, key: &[u16]) -> Option<&Instance>
        ensures { option_copied result ≡ held self.now key.now }
    {
        self.map.get(key)
    }

    /// Puts an instance under a key.
    pub fn add(&mut self, alloc: Global, key: &[u16], instance: Instance) -> Result<(), Memory>
        ensures here { OnOk result (held self.new key.now ≡ Some instance) }
        ensures others { (other : List ℕ) → (other ≡ key.now → ⊥) → held self.new other ≡ held self.old other }
        ensures err { OnErr result ((other : List ℕ) → held self.new other ≡ held self.old other) }
    {
        let stored = Vec::from_slice(alloc, key)?;
        self.map.insert(stored, instance)?;
        Ok(())
    }

    /// Takes a token and a place of the instance of a key, if there is one.
    pub fn take(&mut self, key: &[u16], tick: u64)
        requires may { IfSome (held self.old key.now) (MayTake tick) }
        requires range { tick ≤ 2 ^ 62 }
        ensures here { Took tick (held self.old key.now) (held self.new key.now) }
        ensures others { (other : List ℕ) → (other ≡ key.now → ⊥) → held self.new other ≡ held self.old other }
    {
        match self.map.get_mut(key) {
            Some(instance) => instance.take(tick),
            None => {}
        }
    }

    /// Gives a place back to the instance of a key, if there is one.
    pub fn give(&mut self, key: &[u16])
        requires may { IfSome (held self.old key.now) MayGive }
        ensures here { Gave (held self.old key.now) (held self.new key.now) }
        ensures others { (other : List ℕ) → (other ≡ key.now → ⊥) → held self.new other ≡ held self.old other }
    {
        match self.map.get_mut(key) {
            Some(instance) => instance.give(),
            None => {}
        }
    }
}
