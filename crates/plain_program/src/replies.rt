use sp_model::{Call, Reply};
use sp_value::Memory;
use std::alloc::Global;

/// Replies as far as they are known.
pub trait Replies {
    ghost use Rattle.std.specs.Prelude.{ℕ, IfOk, ◌≡◌};
    ghost use Rattle.sp_model.specs.Settling.{Seen};
    ghost use Rattle.sp_model.specs.declared.call.Call.{Call};
    ghost use Rattle.plain_program.specs.Known.{seen_of};

    /// What is known of the reply to each call and attempt.
    ghost answers: { Self → Call → ℕ → Seen };

    /// The whole reply to a call in an attempt, or `None` where nothing is known of it.
    fn reply(&self, alloc: Global, call: &Call, attempt: u32) -> Result<Option<Reply>, Memory>
        ensures { IfOk result (λ r. seen_of r ≡ answers self.now call.now attempt) };
}
