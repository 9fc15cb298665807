ghost use Rattle.std.specs.Prelude.{◌≡◌, ◌≤◌, ◌^◌};

use crate::clock::{Clock, ClockPass};
use sqlite_items::Items;
use std::sync::atomic::{AtomicU64, Ordering};

/// The greatest tick, 2^62.
const LAST: u64 = 1 << 62;

/// A tick in memory. `now` first lets it advance by what the list has for the number of the reading, from 0;
/// `wait_until` sets it to what is asked where that is greater. Both count as readings.
#[derive(Drop)]
pub struct MemoryClock {
    tick: AtomicU64,
    readings: AtomicU64,
    advances: Items<u64>,
}

impl MemoryClock {
    /// A clock that stands at this tick.
    pub fn new(tick: u64, advances: Items<u64>) -> MemoryClock {
        MemoryClock {
            tick: AtomicU64::new(tick),
            readings: AtomicU64::new(0),
            advances,
        }
    }

    /// The tick at which it stands.
    pub fn tick(&self) -> u64
        ensures { result ≤ 2 ^ 62 }
    {
        self.tick.load(Ordering::SeqCst).min(LAST)
    }

    /// How far the next reading advances the tick.
    fn next_advance(&self) -> u64 {
        let number = self.readings.fetch_add(1, Ordering::SeqCst);
        match self.advances.get(number as usize) {
            Some(advance) => *advance,
            None => 0,
        }
    }
}

impl Clock for MemoryClock {
    fn now(&self, pass: &mut ClockPass) -> u64 {
        let advance = self.next_advance();
        let tick = self.tick().saturating_add(advance);
        self.tick.fetch_max(tick, Ordering::SeqCst);
        pass.readings = pass.readings.saturating_add(1);
        pass.latest = pass.latest.max(self.tick());
        pass.latest
    }

    fn wait_until(&self, pass: &mut ClockPass, tick: u64) -> u64 {
        let _ = self.next_advance();
        self.tick.fetch_max(tick, Ordering::SeqCst);
        pass.readings = pass.readings.saturating_add(1);
        pass.latest = pass.latest.max(tick).max(self.tick());
        pass.latest
    }
}
