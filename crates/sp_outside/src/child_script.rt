ghost use Rattle.std.specs.Prelude.{◌≡◌, IfOk};
ghost use Rattle.sp_outside.specs.ChildState.{script_of};

use sp_value::{Memory, Text, TryCopy};
use sqlite_items::Items;
use std::alloc::Global;

/// How the child of a connection answers: its picks among open calls, and the numbers of its calls that fail.
#[derive(Drop)]
pub struct ChildScript {
    pub connection: Text,
    pub picks: Items<u64>,
    pub fails: Items<u64>,
}

impl TryCopy for ChildScript {
    fn copy(&self, alloc: Global) -> Result<ChildScript, Memory> {
        Ok(ChildScript {
            connection: self.connection.copy(alloc)?,
            picks: copy_numbers(alloc, &self.picks)?,
            fails: copy_numbers(alloc, &self.fails)?,
        })
    }
}

fn copy_numbers(alloc: Global, numbers: &Items<u64>) -> Result<Items<u64>, Memory>
    ensures { IfOk result (λ copy. copy ≡ numbers.now) }
{
    match Items::from_slice(alloc, numbers.as_slice()) {
        Ok(copy) => Ok(copy),
        Err(_) => Err(Memory),
    }
}

/// The first script of a connection, or one without picks and faults.
pub(crate) fn script_of(
    alloc: Global,
    scripts: &[ChildScript],
    connection: &Text,
) -> Result<ChildScript, Memory>
    ensures { IfOk result (λ script. script ≡ script_of scripts.now connection.now) }
{
    for script in scripts {
        if script.connection == *connection {
            let script = script.copy(alloc)?;
            return Ok(script);
        }
    }
    Ok(ChildScript {
        connection: connection.copy(alloc)?,
        picks: Items::new(alloc),
        fails: Items::new(alloc),
    })
}
