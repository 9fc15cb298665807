use sp_value::{Memory, Texts};
use sql_bind::BindFault;
use sql_parser::SqlFault;

/// Why a text isn't explained: the first refusal, in the order of these.
#[derive(Drop)]
pub enum ExplainFault {
    /// The text is no statement.
    Sql(SqlFault),
    /// A name or a kind doesn't fit.
    Bind(BindFault),
    /// A source lacks conditions on these of its keys. Sources count from 1.
    MissingKeys { source: u32, columns: Texts },
    /// Want of memory.
    Memory,
}

impl From<Memory> for ExplainFault {
    ghost use Rattle.std.specs.Prelude.{◌≡◌};
    ghost use Rattle.explain_text.specs.declared.fault.ExplainFault.TheVariants as faults;

    ghost from_gives = { λ _ fault. fault ≡ faults.Memory };

    fn from(_memory: Memory) -> ExplainFault {
        ExplainFault::Memory
    }
}
