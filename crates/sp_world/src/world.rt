ghost use Rattle.std.specs.Prelude.{◌≡◌, IfOk, IsTrue};
ghost use Rattle.serde_json.specs.View.{view};

use serde_json::Value;
use sp_model::{CallKey, Reply, Version};
use sp_value::{Memory, Text};
use std::alloc::Global;

/// A world whose answers a contract can name.
pub trait World {
    ghost use Rattle.std.specs.Prelude.{Bool};
    ghost use Rattle.sp_model.specs.Book.{Book};

    /// Whether the book is told.
    ghost tells: { Bool };

    /// The book.
    ghost book: { Book };

    fn answer(alloc: Global, key: &CallKey) -> Result<Reply, Memory>
        requires { IsTrue tells }
        ensures { IfOk result (λ r. r ≡ book.reply key.now) };

    fn answer_version(alloc: Global, connection: &Text, tick: u64) -> Result<Version, Memory>
        requires { IsTrue tells }
        ensures { IfOk result (λ v. v ≡ book.version connection.now tick) };

    fn answer_declaration(alloc: Global, connection: &Text) -> Result<Value, Memory>
        requires { IsTrue tells }
        ensures { IfOk result (λ v. view v ≡ book.declaration connection.now) };
}
