ghost use Rattle.std.specs.Prelude.{◌≡◌, IfOk, IfSome};
ghost use Rattle.serde_json.specs.View.{view};
ghost use Rattle.sp_model.specs.Sayable.{IsSayableDeclaration, IsSayableReply, IsSayableVersion};

use serde_json::Value;
use sp_model::{CallKey, Reply, Version};
use sp_value::{Memory, Text};
use std::alloc::Global;

/// What a plugin answers. Its answers are of the forms that reply lines have: a declaration is an object that nests at most 100 deep,
/// with integers of 64 bits alone, a version is below 2^63, and a reply has fewer than 1,000,000 items, objects that nest at most 100 deep.
pub trait Routes {
    ghost use Rattle.std.specs.declared.option.Option.{Option};
    ghost use Rattle.sp_model.specs.Book.{Book};

    /// The book that is answered from, where it is told.
    ghost book: { Self → Option Book };

    /// The declaration of a connection.
    fn declaration(&self, alloc: Global, connection: &Text) -> Result<Value, Memory>
        ensures told { IfOk result (λ v. IfSome (book self.now) (λ b. view v ≡ b.declaration connection.now)) }
        ensures form { IfOk result (λ v. IsSayableDeclaration (view v)) };

    /// The version of a connection's data at a tick, or why there is none.
    fn version(&self, alloc: Global, connection: &Text, tick: u64) -> Result<Version, Memory>
        ensures told { IfOk result (λ v. IfSome (book self.now) (λ b. v ≡ b.version connection.now tick)) }
        ensures form { IfOk result IsSayableVersion };

    /// The whole reply to a call.
    fn reply(&self, alloc: Global, key: &CallKey) -> Result<Reply, Memory>
        ensures told { IfOk result (λ r. IfSome (book self.now) (λ b. r ≡ b.reply key.now)) }
        ensures form { IfOk result IsSayableReply };
}
