ghost use Rattle.std.specs.Prelude.{◌≡◌, ◌↔◌, ◌+◌, ◌<◌, ◌^◌, true, None, IsErr, IfOk, IfErr, OnOk, OnErr, OnSome, IfNone, option_copied};
ghost use Rattle.std.specs.Option.{option_copied_mut};
ghost use Rattle.std.specs.Borrow.{sem};
ghost use Rattle.row_pool.specs.Pools.{empty, shown, taken, with_value, Changes};

use crate::held::Held;
use crate::key::Key;
use slab::Slab;
use std::alloc::{AllocError, Global};
use std::marker::Model;

/// Values in a fixed number of slots, each shown by its own key alone.
#[derive(Drop)]
pub struct Pool<T> {
    slots: Slab<Held<T>>,
    count: usize,
    drawn: u64,
}

impl<T> Model for Pool<T> {
    ghost use Rattle.std.specs.Prelude.{◌≤◌};
    ghost use Rattle.slab.specs.Slab.{slab_len};
    ghost use Rattle.row_pool.specs.Pools.{Pool as Shown, pool_code};

    ghost Value = { Shown T };

    ghost coded = { pool_code T.code };

    ghost view = { λ p. record { slots = p.slots.slots; count = p.count; drawn = p.drawn } };

    ghost invariant = { λ p. (slab_len p.slots ≤ p.count) × (p.count ≤ p.slots.capacity) };
}

impl<T> Pool<T> {
    ghost use Rattle.row_pool.specs.Lends.{lends_value};

    /// A pool of so many slots. This is the one call that takes memory.
    pub fn with_slots(alloc: Global, count: u32) -> Result<Pool<T>, AllocError>
        ensures { IfOk result (λ p. p ≡ empty count) }
    {
        let count = count as usize;
        Ok(Pool {
            slots: Slab::with_capacity(alloc, count)?,
            count,
            drawn: 0,
        })
    }

    /// Whether every slot has a value.
    pub fn is_full(&self) -> bool
        ensures { (result ≡ true) ↔ (taken self.now ≡ self.now.count) }
    {
        self.slots.len() == self.count
    }

    /// Puts a value into a free slot, under a key that no value had before. It is handed back exactly where the pool is full.
    pub fn take(&mut self, value: T) -> Result<Key, T>
        requires { self.old.drawn < 2 ^ 63 }
        ensures full { IsErr result ↔ (taken self.old ≡ self.old.count) }
        ensures handed_back { IfErr result (λ back. back ≡ value) }
        ensures refused { OnErr result (self.new ≡ self.old) }
        // The generations are 1, 2, 3 and so on: a value that is handed back draws none.
        ensures generation { IfOk result (λ key. key.generation ≡ self.old.drawn + 1) }
        ensures drawn { OnOk result (self.new.drawn ≡ self.old.drawn + 1) }
        ensures new_key { IfOk result (λ key. shown self.old key ≡ None) }
        ensures shows { IfOk result (λ key. Changes self.old self.new key (Some value)) }
        ensures taken { OnOk result (taken self.new ≡ taken self.old + 1) }
        ensures count { self.new.count ≡ self.old.count }
    {
        if self.is_full() {
            return Err(value);
        }
        let generation = self.drawn + 1;
        let slot = self.slots.insert_reserved(Held { generation, value });
        self.drawn = generation;
        Ok(Key { slot, generation })
    }

    /// The value of a key, until it is given back.
    pub fn get(&self, key: &Key) -> Option<&T>
        ensures { option_copied result ≡ shown self.now key.now }
    {
        match self.slots.get(key.slot) {
            Some(held) if held.generation == key.generation => Some(&held.value),
            _ => None,
        }
    }

    /// The value of a key for writing, until it is given back.
    #[tactic(auto, using(crate::proofs::Writing::written_changes, crate::proofs::Writing::written_taken))]
    pub fn get_mut(&mut self, key: &Key) -> Option<&mut T>
        ensures* writes_back { sem 𝓛 (lends_value T.row self.entry key.now result) }
        ensures value { option_copied_mut result ≡ shown self.old key.now }
        // Whatever is written, the key shows it then, and every other key shows what it showed.
        ensures shows { OnSome result ((value : T) → Changes self.old (with_value self.old key.now value) key.now (Some value)) }
        ensures taken { OnSome result ((value : T) → taken (with_value self.old key.now value) ≡ taken self.old) }
    {
        match self.slots.get_mut(key.slot) {
            Some(held) if held.generation == key.generation => Some(&mut held.value),
            _ => None,
        }
    }

    /// Gives back the slot of a key, with its value. The key shows nothing from then on.
    pub fn give_back(&mut self, key: Key) -> Option<T>
        ensures value { result ≡ shown self.old key }
        ensures absent { IfNone result (self.new ≡ self.old) }
        ensures shows { Changes self.old self.new key None }
        ensures taken { OnSome result (taken self.new + 1 ≡ taken self.old) }
        ensures drawn { self.new.drawn ≡ self.old.drawn }
        ensures count { self.new.count ≡ self.old.count }
    {
        self.get(&key)?;
        match self.slots.try_remove(key.slot) {
            Some(held) => Some(held.value),
            None => None,
        }
    }
}
