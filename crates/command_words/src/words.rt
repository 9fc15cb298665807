use answer_text::Form;
use sp_value::{Memory, Text};
use thiserror::Error;

/// What the command is to do.
#[derive(Drop)]
pub enum Command {
    /// To answer the lines of the input, by a settings file.
    Query { settings: Text },
    /// To print the scans of statements, by a settings file and a declaration for every plain connection.
    Explain { settings: Text, declaration: Text },
    /// To run a statement over so many generated rows, from 1 to 100,000.
    Load { count: u64 },
}

/// What the words say.
#[derive(Drop)]
pub struct Words {
    pub command: Command,
    pub form: Form,
}

/// Why words say nothing.
#[derive(Debug, Drop, Error)]
pub enum WordsFault {
    /// They are none of the command's. A request for help is so, too.
    #[error("usage")]
    Usage,
    #[error("memory")]
    Memory,
}

impl From<Memory> for WordsFault {
    ghost use Rattle.std.specs.Prelude.{◌≡◌};
    ghost use Rattle.command_words.specs.declared.words.WordsFault.TheVariants as fault;

    ghost from_gives = { λ _ e. e ≡ fault.Memory };

    fn from(_memory: Memory) -> WordsFault {
        WordsFault::Memory
    }
}
