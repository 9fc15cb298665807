use sp_value::Memory;

/// Why a call gets no permit now: some instance has its full number of open grants; or none has, and this is the least tick at which each
/// bucket has a token; or want of memory.
#[derive(Clone, Copy, Debug, PartialEq, Eq)]
pub enum Wait {
    Places,
    Until(u64),
    Memory,
}

impl From<Memory> for Wait {
    ghost use Rattle.std.specs.Prelude.{◌≡◌};
    ghost use Rattle.rate_gate.specs.declared.wait.Wait.TheVariants.{Memory};

    ghost from_gives = { λ _ e. e ≡ Memory };

    fn from(_memory: Memory) -> Wait {
        Wait::Memory
    }
}
