use sp_value::Memory;
use std::fmt;
use thiserror::Error;

/// A place in a settings file. Connections and limiters count from 1.
#[derive(Clone, Copy, Debug, PartialEq, Eq)]
pub enum Entry {
    Top,
    Options,
    Connection(u64),
    Limiter(u64),
}

impl fmt::Display for Entry {
    fn fmt<W: fmt::Write>(&self, f: &mut fmt::Formatter<W>) -> fmt::Result {
        match self {
            Entry::Top => write!(f, "top"),
            Entry::Options => write!(f, "options"),
            Entry::Connection(number) => write!(f, "connection {number}"),
            Entry::Limiter(number) => write!(f, "limiter {number}"),
        }
    }
}

/// Why a settings file is refused, at the first such entry in the order top, options, connections,
/// limiters. The kinds stand in the order in which they are looked for.
#[derive(Clone, Copy, Debug, PartialEq, Eq, Error)]
pub enum SettingsFault {
    /// No TOML document.
    #[error("toml")]
    Toml,
    /// A value of another form, a key that is missing or isn't known here, or a name that may not be one.
    #[error("shape in {at}")]
    Shape { at: Entry },
    /// An aggregator or a limiter, which can be read but not yet served.
    #[error("not yet in {at}")]
    NotYet { at: Entry },
    /// A second connection, or a second limiter, of one name.
    #[error("duplicate in {at}")]
    Duplicate { at: Entry },
    /// An aggregator that stands for no connection.
    #[error("empty aggregator in {at}")]
    EmptyAggregator { at: Entry },
    /// An aggregator that names a connection of another plugin.
    #[error("members differ in {at}")]
    MembersDiffer { at: Entry },
    /// A number or a list beyond its limits.
    #[error("limit in {at}")]
    Limit { at: Entry },
    /// Want of memory.
    #[error("memory")]
    Memory,
}

impl From<Memory> for SettingsFault {
    ghost use Rattle.std.specs.Prelude.{◌≡◌};
    ghost use Rattle.settings_text.specs.declared.fault.SettingsFault.TheVariants as faults;

    ghost from_gives = { λ _ fault. fault ≡ faults.Memory };

    fn from(_memory: Memory) -> SettingsFault {
        SettingsFault::Memory
    }
}
