use sp_value::Memory;

/// Why a statement is refused. Places are bytes of its text, from 0.
#[derive(Clone, Copy, Debug, PartialEq, Eq)]
pub enum BindFault {
    /// A connection that isn't in the settings, at its name.
    UnknownConnection { place: u64 },
    /// A table that isn't declared, at its name.
    UnknownTable { place: u64 },
    /// A ref that fits no source, at the ref.
    UnknownColumn { place: u64 },
    /// A ref that fits two or more sources, at the ref, or a source with an earlier one's alias, at its connection's name.
    Ambiguous { place: u64 },
    /// Kinds that don't fit, at the first operand of the test, or at the order key.
    TypeMismatch { place: u64 },
    /// More than 8 sources, at the ninth's connection.
    TooManyTables { place: u64 },
    /// Want of memory.
    Memory,
}

impl From<Memory> for BindFault {
    ghost use Rattle.std.specs.Prelude.{◌≡◌};
    ghost use Rattle.sql_bind.specs.declared.fault.BindFault.TheVariants as faults;

    ghost from_gives = { λ _ fault. fault ≡ faults.Memory };

    fn from(_memory: Memory) -> BindFault {
        BindFault::Memory
    }
}
