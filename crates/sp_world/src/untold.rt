ghost use Rattle.std.specs.Prelude.{IsErr};

use crate::world::World;
use serde_json::Value;
use sp_model::{CallKey, Reply, Version};
use sp_value::{Memory, Text};
use std::alloc::Global;

/// A world that tells nothing.
pub struct Untold;

impl World for Untold {
    ghost use Rattle.std.specs.Prelude.{false};
    ghost use Rattle.sp_world.specs.Nothing.{no_book};

    ghost tells = { false };

    ghost book = { no_book };

    fn answer(_alloc: Global, _key: &CallKey) -> Result<Reply, Memory>
        ensures { IsErr result }
    {
        Err(Memory)
    }

    fn answer_version(_alloc: Global, _connection: &Text, _tick: u64) -> Result<Version, Memory>
        ensures { IsErr result }
    {
        Err(Memory)
    }

    fn answer_declaration(_alloc: Global, _connection: &Text) -> Result<Value, Memory>
        ensures { IsErr result }
    {
        Err(Memory)
    }
}
