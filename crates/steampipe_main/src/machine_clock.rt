ghost use Rattle.std.specs.Prelude.{◌≤◌, ◌^◌};

use sp_outside::{Clock, ClockPass};
use std::thread;
use std::time::{self, Duration, Instant};

/// The machine's clock in milliseconds since its start, of at most 2^62. Where it can't be read, it stands at 0.
#[derive(Drop)]
pub(crate) struct MachineClock<R: time::Clock + Drop> {
    rt: R,
    start: Option<Instant>,
}

const LAST: u64 = 1 << 62;

/// The milliseconds since an instant, 0 where the clock can't be read.
pub(crate) fn passed_millis<R: time::Clock>(rt: &R, start: Instant) -> u64
    ensures { result ≤ 2 ^ 62 }
{
    match start.elapsed(rt) {
        Ok(passed) => {
            let whole = passed.as_millis();
            if whole < LAST as u128 {
                whole as u64
            } else {
                LAST
            }
        }
        Err(_) => 0,
    }
}

impl<R: time::Clock + Drop> MachineClock<R> {
    /// A clock that starts now.
    pub(crate) fn new(rt: R) -> MachineClock<R> {
        let start = Instant::now(&rt).ok();
        MachineClock { rt, start }
    }

    /// The instant at which it started, none where the clock can't be read.
    pub(crate) fn start(&self) -> Option<Instant> {
        self.start
    }

    /// The milliseconds since the start, 0 where the clock can't be read.
    fn millis(&self) -> u64
        ensures { result ≤ 2 ^ 62 }
    {
        match self.start {
            Some(start) => passed_millis(&self.rt, start),
            None => 0,
        }
    }
}

impl<R: time::Clock + Drop> Clock for MachineClock<R> {
    fn now(&self, pass: &mut ClockPass) -> u64 {
        pass.readings = pass.readings.saturating_add(1);
        pass.latest = pass.latest.max(self.millis());
        pass.latest
    }

    fn wait_until(&self, pass: &mut ClockPass, tick: u64) -> u64 {
        let now = self.millis();
        if now < tick {
            thread::sleep(&self.rt, Duration::from_millis(tick - now));
        }
        pass.readings = pass.readings.saturating_add(1);
        pass.latest = pass.latest.max(tick).max(self.millis());
        pass.latest
    }
}
