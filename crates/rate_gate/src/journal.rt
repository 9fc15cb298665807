ghost use Rattle.std.specs.Prelude.{◌≡◌, ◌≤◌, [], ◌∷◌, ◌++◌, IsSome, IfOk, OnErr};
ghost use Rattle.rate_gate.specs.declared.entry.Entry.TheVariants.{Grant, Return};
ghost use Rattle.rate_gate.specs.Journal.{IsOrdered, open_grants, tags_under, last_tick, count_grants};

use crate::call_tags::CallTags;
use crate::entry::Entry;
use sp_value::Memory;
use std::alloc::Global;
use std::marker::Model;

/// Grants and returns in their order. There is room for the return of each open grant.
#[derive(Drop)]
pub struct Journal {
    entries: Vec<Entry>,
    granted: u64,
    opened: usize,
    last: u64,
}

impl Model for Journal {
    ghost use Rattle.std.specs.Prelude.{List, ◌+◌, ◌≤◌};
    ghost use Rattle.std.specs.Vec.{vec_len, vec_capacity};
    ghost use Rattle.rate_gate.specs.declared.entry.Entry.{Entry};
    ghost use Rattle.rate_gate.specs.Journal.{IsNoted};

    ghost Value = { List Entry };

    ghost view = { λ j. j.entries.items };

    ghost invariant = { λ j. IsNoted j.entries.items j.granted j.opened j.last × (vec_len j.entries + j.opened ≤ vec_capacity j.entries) };
}

impl Journal {
    /// No grants.
    pub(crate) fn new(alloc: Global) -> Journal
        ensures { result ≡ [] }
    {
        Journal {
            entries: Vec::new(alloc),
            granted: 0,
            opened: 0,
            last: 0,
        }
    }

    /// The entries, in their order.
    pub fn entries(&self) -> &[Entry]
        ensures entries { result.now ≡ self.now }
        ensures ordered { IsOrdered self.now }
    {
        self.entries.as_slice()
    }

    /// The tick of the last entry, 0 where there is none.
    pub fn last(&self) -> u64
        ensures last { result ≡ last_tick self.now }
        ensures ordered { IsOrdered self.now }
    {
        self.last
    }

    /// Notes a grant, with room for its return, and tells its number.
    pub(crate) fn grant(&mut self, tags: CallTags, tick: u64) -> Result<u64, Memory>
        requires { last_tick self.old ≤ tick }
        ensures number { IfOk result (λ number. number ≡ count_grants self.old) }
        ensures noted { IfOk result (λ number. self.new ≡ self.old ++ Grant number tags tick ∷ []) }
        ensures err { OnErr result (self.new ≡ self.old) }
    {
        let number = self.granted;
        let Some(granted) = number.checked_add(1) else {
            return Err(Memory);
        };
        let Some(opened) = self.opened.checked_add(1) else {
            return Err(Memory);
        };
        let Some(room) = opened.checked_add(1) else {
            return Err(Memory);
        };
        self.entries.reserve(room)?;
        self.entries
            .push_reserved(Entry::Grant { number, tags, tick });
        self.granted = granted;
        self.opened = opened;
        self.last = tick;
        Ok(number)
    }

    /// Notes the return of an open grant. It takes no memory.
    pub(crate) fn give_back(&mut self, number: u64, tick: u64, sent: bool)
        requires open { IsSome (tags_under number (open_grants self.old)) }
        requires since { last_tick self.old ≤ tick }
        ensures { self.new ≡ self.old ++ Return number tick sent ∷ [] }
    {
        self.entries
            .push_reserved(Entry::Return { number, tick, sent });
        self.opened -= 1;
        self.last = tick;
    }
}
