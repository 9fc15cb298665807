use sp_value::{Memory, Texts};

/// Why no access is chosen.
#[derive(Drop)]
pub enum ChoiceFault {
    /// Keys without a condition, by their columns.
    MissingKeys { columns: Texts },
    /// Want of memory.
    Memory,
}

impl From<Memory> for ChoiceFault {
    ghost use Rattle.std.specs.Prelude.{◌≡◌};
    ghost use Rattle.access_choice.specs.declared.fault.ChoiceFault.TheVariants as faults;

    ghost from_gives = { λ _ fault. fault ≡ faults.Memory };

    fn from(_memory: Memory) -> ChoiceFault {
        ChoiceFault::Memory
    }
}
