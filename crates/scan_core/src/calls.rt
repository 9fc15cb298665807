ghost use Rattle.std.specs.Prelude.{IfNone, IfSome, ◌∷◌, ◌≡◌, ◌≤◌, ◌<◌, ◌+◌, ◌^◌, [], true, false, Option, Some, None, IfOk, OnOk, OnErr};
ghost use Rattle.scan_core.specs.Calls.{open_first, open_again, items_again, passed};

use row_stream::ListStream;
use sp_model::{Call, CallKey};
use sp_value::{Cell, Memory, TryCopy};
use sp_world::World;
use std::alloc::Global;
use std::collections::VecDeque;

/// The state in which an attempt was entered: how many rows were kept, and the rest of the walk's state.
#[derive(Clone, Copy, Debug, Drop)]
pub struct Entry {
    pub rows: usize,
    pub items: u64,
    pub steady: bool,
}

/// How far a call of the scan is: its present attempt's reply, whether this attempt is listed, from which tick it may be sent, the
/// generation of its seat, and the tick at which its ending was taken in. Its items are counted once they went on.
#[derive(Drop)]
pub struct OpenCall<W: World> {
    pub stream: ListStream<W>,
    pub listed: bool,
    pub due: u64,
    pub generation: u64,
    pub ended_at: u64,
    pub taken: u64,
}

/// The get, list or child list whose items are asked for, with the state in which its present attempt was entered. Its items are taken
/// once they are decided.
#[derive(Drop)]
pub struct ItemsCall<W: World> {
    pub call: OpenCall<W>,
    pub entered: Option<Entry>,
}

/// The parents call, with its items whose child lists aren't begun. The others are taken.
#[derive(Drop)]
pub struct ParentsCall<W: World> {
    pub call: OpenCall<W>,
    pub waiting: VecDeque<Cell>,
}

impl<W: World> OpenCall<W> {
    /// The first attempt of a call.
    pub(crate) fn begin(alloc: Global, key: CallKey, generation: u64) -> OpenCall<W>
        ensures { result ≡ open_first key generation }
    {
        OpenCall {
            stream: ListStream::begin(alloc, key),
            listed: false,
            due: 0,
            generation,
            ended_at: 0,
            taken: 0,
        }
    }

    /// The next attempt, which is due after a delay since the ending of this one was taken in.
    pub(crate) fn again(&mut self, alloc: Global, delay: u64, generation: u64) -> Result<(), Memory>
        ensures ok { OnOk result (self.new ≡ open_again self.old delay generation) }
        ensures err { OnErr result (self.new ≡ self.old) }
    {
        let mut key = self.stream.call().copy(alloc)?;
        let Some(attempt) = key.attempt.checked_add(1) else {
            return Err(Memory);
        };
        key.attempt = attempt;
        let due = self.ended_at.saturating_add(delay);
        *self = OpenCall {
            stream: ListStream::begin(alloc, key),
            listed: false,
            due,
            generation,
            ended_at: 0,
            taken: 0,
        };
        Ok(())
    }
}

impl<W: World> ItemsCall<W> {
    /// The next attempt, whose entry isn't reached yet.
    pub(crate) fn again(&mut self, alloc: Global, delay: u64, generation: u64) -> Result<(), Memory>
        ensures ok { OnOk result (self.new ≡ items_again self.old delay generation) }
        ensures err { OnErr result (self.new ≡ self.old) }
    {
        let Ok(()) = self.call.again(alloc, delay, generation) else {
            return Err(Memory);
        };
        self.entered = None;
        Ok(())
    }

    /// One more item is decided. The first one of an attempt is entered so.
    pub(crate) fn pass(&mut self, entry: Entry)
        requires { self.old.call.taken + 1 < 2 ^ 64 }
        ensures { self.new ≡ passed self.old entry }
    {
        self.entered = Some(self.entered.unwrap_or(entry));
        self.call.taken += 1;
    }
}

impl<W: World> ParentsCall<W> {
    /// The next attempt, of which nothing waits.
    pub(crate) fn again(&mut self, alloc: Global, delay: u64, generation: u64) -> Result<(), Memory>
        ensures ok { OnOk result ((self.new.call ≡ open_again self.old.call delay generation) × (self.new.waiting ≡ self.old.waiting)) }
        ensures err { OnErr result (self.new ≡ self.old) }
    {
        let Ok(()) = self.call.again(alloc, delay, generation) else {
            return Err(Memory);
        };
        Ok(())
    }

    /// Takes the first parent that waits.
    pub(crate) fn next(&mut self) -> Option<Cell>
        requires { self.old.call.taken + 1 < 2 ^ 64 }
        ensures none { IfNone result (self.old.waiting.items ≡ []) }
        ensures some { IfSome result (λ parent. (self.old.waiting.items ≡ parent ∷ self.new.waiting.items) × (self.new.call ≡ record self.old.call { taken = self.old.call.taken + 1 })) }
    {
        let Some(parent) = self.waiting.pop_front() else {
            return None;
        };
        self.call.taken += 1;
        Some(parent)
    }
}
