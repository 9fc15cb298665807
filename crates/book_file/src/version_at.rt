ghost use Rattle.std.specs.Prelude.{◌≡◌, ◌<◌};
ghost use Rattle.book_file.specs.Sayable.{number_limit};

use std::marker::Model;

/// A version that holds from a tick on. It is below the limit of numbers that lines can say.
#[derive(Drop)]
pub(crate) struct VersionAt {
    tick: u64,
    number: u64,
}

impl Model for VersionAt {
    ghost use Rattle.std.specs.Prelude.{ℕ, ◌<◌};
    ghost use Rattle.book_file.specs.Sayable.{number_limit};

    ghost Value = { ℕ × ℕ };

    ghost view = { λ v. (v.tick, v.number) };

    ghost invariant = { λ v. v.number < number_limit };
}

impl VersionAt {
    pub(crate) fn of(tick: u64, number: u64) -> VersionAt
        requires { number < number_limit }
        ensures { result ≡ (tick, number) }
    {
        VersionAt { tick, number }
    }

    pub(crate) fn tick(&self) -> u64
        ensures { result ≡ self.now.0 }
    {
        self.tick
    }

    pub(crate) fn number(&self) -> u64
        ensures number { result ≡ self.now.1 }
        ensures below { result < number_limit }
    {
        self.number
    }
}
