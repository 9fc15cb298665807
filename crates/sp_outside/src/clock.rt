ghost use Rattle.std.specs.Prelude.{◌≡◌, ◌≤◌, ◌^◌};
ghost use Rattle.sp_outside.specs.Causes.{up};

/// What one session has read of a clock: how often, and the latest tick.
#[derive(Clone, Copy, Debug, PartialEq, Eq)]
pub struct ClockPass {
    pub readings: u64,
    pub latest: u64,
}

/// A clock. Ticks are milliseconds, at most 2^62.
pub trait Clock {
    /// The present tick, never below what the pass has read.
    fn now(&self, pass: &mut ClockPass) -> u64
        ensures later { pass.old.latest ≤ result }
        ensures latest { pass.new.latest ≡ result }
        ensures readings { pass.new.readings ≡ up pass.old.readings }
        ensures small { pass.old.latest ≤ 2 ^ 62 → result ≤ 2 ^ 62 };

    /// Waits until the tick, and gives the tick then.
    fn wait_until(&self, pass: &mut ClockPass, tick: u64) -> u64
        requires { tick ≤ 2 ^ 62 }
        ensures due { tick ≤ result }
        ensures later { pass.old.latest ≤ result }
        ensures latest { pass.new.latest ≡ result }
        ensures readings { pass.new.readings ≡ up pass.old.readings }
        ensures small { pass.old.latest ≤ 2 ^ 62 → result ≤ 2 ^ 62 };
}
