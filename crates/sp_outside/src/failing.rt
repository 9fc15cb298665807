ghost use Rattle.std.specs.Prelude.{◌≡◌, ◌↔◌, IsTrue, Contains};
ghost use Rattle.sp_outside.specs.Causes.{up};

use sqlite_items::Items;

/// A fault of the outside, which was counted.
#[derive(Clone, Copy, Debug, PartialEq, Eq)]
pub struct Failed;

/// Counts a call, and says whether the call of this number, from 0, is to fail.
pub(crate) fn fails_now(fails: &Items<u64>, calls: &mut u64) -> bool
    ensures listed { IsTrue result ↔ Contains fails.now calls.old }
    ensures counted { calls.new ≡ up calls.old }
{
    let number = *calls;
    *calls = number.saturating_add(1);
    fails.as_slice().contains(&number)
}
