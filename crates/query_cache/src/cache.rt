ghost use Rattle.std.specs.Prelude.{◌≡◌, suc, ◌≤◌, ◌<◌, ◌∷◌, [], length, map, take, option_map, IfOk, OnOk, OnErr};
ghost use Rattle.std.specs.Arc.{arc_value};
ghost use Rattle.std.specs.List.{find, position_or_len, cons_option, slice_get, remove};
ghost use Rattle.std.specs.Vec.{vec_len, vec_capacity};
ghost use Rattle.query_cache.specs.Entries.{with_entries, serves, first_in_front, put_in_front};

use crate::covering::covers;
use sp_model::ScanRequest;
use sp_value::Memory;
use sp_world::{Kept, World};
use std::alloc::Global;
use std::marker::Model;
use std::sync::Arc;

/// Kept scans, the last used one first, each of which serves for some ticks.
#[derive(Drop)]
pub struct Cache<W: World> {
    entries: Vec<Arc<Kept<W>, Global>>,
    limit: u32,
    ttl: u64,
}

impl<W: World> Model for Cache<W> {
    ghost use Rattle.std.specs.Prelude.{ℕ, ◌≤◌, map};
    ghost use Rattle.std.specs.Arc.{arc_value};
    ghost use Rattle.std.specs.Vec.{vec_len, vec_capacity};
    ghost use Rattle.std.specs.Coded.{codes};
    ghost use Rattle.sp_world.specs.contracts.kept_scan.KeptScan as kept_scans;
    ghost use Rattle.query_cache.specs.Entries.{CacheView};

    ghost Value = { CacheView };

    ghost coded = { Prim.hlevel (codes, kept_scans.the_row.coded) };

    ghost view = { λ c. record { limit = c.limit; ttl = c.ttl; entries = map arc_value c.entries.items } };

    ghost invariant = { λ c. (1 ≤ c.limit) × (vec_len c.entries ≤ c.limit) × (c.limit ≤ vec_capacity c.entries) };
}

impl<W: World> Cache<W> {
    /// No kept scans; of at most `limit`, each serves for `ttl` ticks. The room for them is made here.
    pub fn with(alloc: Global, limit: u32, ttl: u64) -> Result<Cache<W>, Memory>
        requires { 1 ≤ limit }
        ensures { IfOk result (λ c. c ≡ record { limit = limit; ttl = ttl; entries = [] }) }
    {
        let entries = Vec::with_capacity(alloc, limit as usize)?;
        Ok(Cache {
            entries,
            limit,
            ttl,
        })
    }

    /// The first kept scan, the last used one first, that serves a request at a tick. It moves to the front.
    pub fn find(
        &mut self,
        request: &ScanRequest,
        tick: u64,
    ) -> Result<Option<Arc<Kept<W>, Global>>, Memory>
        ensures found { IfOk result (λ found. option_map arc_value found ≡ find (serves request.now tick self.old.ttl) self.old.entries) }
        ensures ok { OnOk result (self.new ≡ with_entries self.old (first_in_front (serves request.now tick self.old.ttl) self.old.entries)) }
        ensures err { OnErr result (self.new ≡ self.old) }
    {
        let found = use_first::<W>(&mut self.entries, request, tick, self.ttl)?;
        Ok(found)
    }

    /// Puts a kept scan in front; at the limit the last one goes. It takes no memory.
    pub fn keep(&mut self, kept: Arc<Kept<W>, Global>)
        ensures { self.new ≡ put_in_front (arc_value kept) self.old }
    {
        put_before::<W>(&mut self.entries, self.limit as usize - 1, kept);
    }

    /// Forgets the kept scans.
    pub fn clear(&mut self)
        ensures { self.new ≡ with_entries self.old [] }
    {
        self.entries.clear();
    }
}

/// Whether a kept scan serves a request at a tick.
fn serves<W: World>(kept: &Kept<W>, request: &ScanRequest, tick: u64, ttl: u64) -> bool
    ensures { result ≡ serves request.now tick ttl kept.now }
{
    let note = kept.note();
    covers(&note.request, kept.complete(), request)
        && (tick < note.asked || tick - note.asked < ttl)
}

/// The place of the first that serves a request at a tick, or their number.
fn first_serving<W: World>(
    entries: &[Arc<Kept<W>, Global>],
    request: &ScanRequest,
    tick: u64,
    ttl: u64,
) -> usize
    ensures place { result ≡ position_or_len (serves request.now tick ttl) (map arc_value entries.now) }
    ensures within { result ≤ length entries.now }
{
    for (index, kept) in entries.iter().enumerate() {
        if serves::<W>(kept, request, tick, ttl) {
            return index;
        }
    }
    entries.len()
}

/// Puts a scan in front, for which there is room.
fn push_front<W: World>(entries: &mut Vec<Arc<Kept<W>, Global>>, kept: Arc<Kept<W>, Global>)
    requires room { vec_len entries.old < vec_capacity entries.old }
    ensures items { entries.new.items ≡ kept ∷ entries.old.items }
    ensures len { vec_len entries.new ≡ suc (vec_len entries.old) }
    ensures capacity { vec_capacity entries.old ≤ vec_capacity entries.new }
{
    match entries.insert(0, kept) {
        Ok(()) => {}
        Err(_) => unreachable!(),
    }
}

/// Moves the scan at a place to the front.
fn bring_to_front<W: World>(entries: &mut Vec<Arc<Kept<W>, Global>>, place: usize)
    requires within { place < vec_len entries.old }
    requires item { place < length entries.old.items }
    ensures items { map arc_value entries.new.items ≡ cons_option (slice_get (map arc_value entries.old.items) place) (remove (map arc_value entries.old.items) place) }
    ensures len { vec_len entries.new ≡ vec_len entries.old }
    ensures capacity { vec_capacity entries.old ≤ vec_capacity entries.new }
{
    let kept = entries.remove(place);
    push_front::<W>(entries, kept);
}

/// The first scan that serves a request at a tick. It moves to the front.
fn use_first<W: World>(
    entries: &mut Vec<Arc<Kept<W>, Global>>,
    request: &ScanRequest,
    tick: u64,
    ttl: u64,
) -> Result<Option<Arc<Kept<W>, Global>>, Memory>
    ensures found { IfOk result (λ found. option_map arc_value found ≡ find (serves request.now tick ttl) (map arc_value entries.old.items)) }
    ensures ok { OnOk result (map arc_value entries.new.items ≡ first_in_front (serves request.now tick ttl) (map arc_value entries.old.items)) }
    ensures err { OnErr result (entries.new.items ≡ entries.old.items) }
    ensures len { vec_len entries.new ≡ vec_len entries.old }
    ensures capacity { vec_capacity entries.old ≤ vec_capacity entries.new }
{
    let place = first_serving::<W>(entries.as_slice(), request, tick, ttl);
    if place == entries.len() {
        return Ok(None);
    }
    let found = Arc::try_clone(&entries[place])?;
    bring_to_front::<W>(entries, place);
    Ok(Some(found))
}

/// Puts a scan in front of the first others, and drops those after them.
fn put_before<W: World>(
    entries: &mut Vec<Arc<Kept<W>, Global>>,
    others: usize,
    kept: Arc<Kept<W>, Global>,
)
    requires room { others < vec_capacity entries.old }
    ensures items { map arc_value entries.new.items ≡ arc_value kept ∷ take others (map arc_value entries.old.items) }
    ensures len { vec_len entries.new ≤ suc others }
    ensures capacity { vec_capacity entries.old ≤ vec_capacity entries.new }
{
    entries.truncate(others);
    push_front::<W>(entries, kept);
}
