use crate::book::Book;
use plugin_kit::Routes;
use serde_json::Value;
use sp_model::{CallKey, Reply, Version};
use sp_value::{Memory, Text};
use std::alloc::Global;

/// It tells nothing: that the answers are the file's is shown by runs alone.
impl Routes for Book {
    ghost use Rattle.std.specs.Prelude.{None};

    ghost book = { λ _. None };

    fn declaration(&self, _alloc: Global, _connection: &Text) -> Result<Value, Memory> {
        match Book::declaration(self).clone() {
            Ok(value) => Ok(value),
            Err(_) => Err(Memory),
        }
    }

    fn version(&self, alloc: Global, _connection: &Text, tick: u64) -> Result<Version, Memory> {
        self.version_at(alloc, tick)
    }

    fn reply(&self, alloc: Global, key: &CallKey) -> Result<Reply, Memory> {
        self.reply_to(alloc, key)
    }
}
