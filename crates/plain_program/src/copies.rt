ghost use Rattle.std.specs.Prelude.{◌≡◌, IfOk};
ghost use Rattle.sp_model.specs.Settling.{or_else};

use sp_value::{Memory, TryCopy};
use std::alloc::Global;

/// The first where there is one, else the other.
pub(crate) fn or_else<T: TryCopy>(
    alloc: Global,
    first: &Option<T>,
    other: &Option<T>,
) -> Result<Option<T>, Memory>
    ensures { IfOk result (λ o. o ≡ or_else first.now other.now) }
{
    match first {
        Some(thing) => Ok(Some(thing.copy(alloc)?)),
        None => other.copy(alloc),
    }
}
