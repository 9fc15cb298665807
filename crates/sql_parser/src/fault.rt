// Why a text is no statement.

ghost use Rattle.std.specs.Prelude.{◌≡◌};
ghost use Rattle.sql_parser.specs.declared.fault.SqlFault.TheVariants as fault;

use sp_value::Memory;
use thiserror::Error;

/// Why a text is no statement. Places are bytes from 0.
#[derive(Debug, Drop, Error)]
pub enum SqlFault {
    /// At the first byte of the first token with which no statement goes on, or at the end of the text.
    #[error("syntax at {place}")]
    Syntax { place: u64 },
    /// At the token that opens the 65th parenthesis or `not`.
    #[error("too deep at {place}")]
    TooDeep { place: u64 },
    #[error("memory")]
    Memory,
}

impl From<Memory> for SqlFault {
    ghost from_gives = { λ _ e. e ≡ fault.Memory };

    fn from(_e: Memory) -> SqlFault {
        SqlFault::Memory
    }
}
