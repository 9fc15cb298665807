// Why reading stopped.

ghost use Rattle.std.specs.Prelude.{◌≡◌};
ghost use Rattle.sql_grammar.specs.declared.stop.Stop.TheVariants.{Memory};

use sql_lex::Token;
use std::alloc::AllocError;

/// Why reading stopped: for memory, or before these tokens, and whether for the depth.
#[derive(Drop)]
pub enum Stop<'a> {
    Memory,
    Fault { deep: bool, rest: &'a [Token] },
}

impl<'a> From<AllocError> for Stop<'a> {
    ghost from_gives = { λ _ e. e ≡ Memory };

    fn from(_e: AllocError) -> Stop<'a> {
        Stop::Memory
    }
}

impl<'a> From<sp_value::Memory> for Stop<'a> {
    ghost from_gives = { λ _ e. e ≡ Memory };

    fn from(_e: sp_value::Memory) -> Stop<'a> {
        Stop::Memory
    }
}
