// How many calls were sent.

ghost use Rattle.std.specs.Prelude.{◌≡◌};
ghost use Rattle.run_lines.specs.Calls.{calls_of};

use plain_desk::Slot;
use sp_outside::Child;
use sp_world::World;

/// How many calls the children of these slots were sent together, failed sends too. The count stays at `u64::MAX`.
#[tactic(auto, using(crate::proofs::CallLaws::one_more))]
pub(crate) fn calls_of<W: World, C: Child<W>>(slots: &[Slot<W, C>]) -> u64
    ensures { result ≡ calls_of (λ s. C.sends s.link.child) slots.now }
{
    let mut calls: u64 = 0;
    for slot in slots {
        calls = calls.saturating_add(slot.parts().link.child().sent());
    }
    calls
}
