ghost use Rattle.std.specs.Prelude.{◌≡◌, ◌≤◌, ◌^◌};

use sp_outside::{Clock, ClockPass};

/// The greatest tick, 2^62.
const LAST: u64 = 1 << 62;

/// A clock as one session reads it, with the tick of the session's last reading.
#[derive(Drop)]
pub struct SessionClock<'a, K: Clock> {
    clock: &'a K,
    pass: ClockPass,
    pub tick: u64,
    pub ghost read: { (tick ≤ pass.latest) × (pass.latest ≤ 2 ^ 62) },
}

impl<'a, K: Clock> SessionClock<'a, K> {
    /// A clock that the session didn't read yet.
    pub fn of(clock: &'a K) -> SessionClock<'a, K>
        ensures { result.tick ≡ 0 }
    {
        SessionClock {
            clock,
            pass: ClockPass {
                readings: 0,
                latest: 0,
            },
            tick: 0,
        }
    }

    /// Reads the clock for the session.
    pub(crate) fn read(&mut self) -> u64
        ensures later { self.old.tick ≤ result }
        ensures range { result ≤ 2 ^ 62 }
        ensures tick { self.new.tick ≡ result }
    {
        let tick = self.clock.now(&mut self.pass);
        self.tick = tick;
        tick
    }

    /// The present tick; the session's last reading stays.
    pub(crate) fn present(&mut self) -> u64
        ensures range { result ≤ 2 ^ 62 }
        ensures tick { self.new.tick ≡ self.old.tick }
    {
        self.clock.now(&mut self.pass)
    }

    /// Waits until a tick; the session's last reading stays.
    pub(crate) fn wait(&mut self, tick: u64)
        ensures { self.new.tick ≡ self.old.tick }
    {
        let _ = self.clock.wait_until(&mut self.pass, tick.min(LAST));
    }
}
