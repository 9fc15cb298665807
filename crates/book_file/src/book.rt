ghost use Rattle.std.specs.Prelude.{IfOk};
ghost use Rattle.serde_json.specs.View as json;
ghost use Rattle.sp_model.specs.Sayable.{IsSayableDeclaration, IsSayableReply, IsSayableVersion};

use crate::attempt::Attempt;
use crate::declared::Declared;
use crate::matching::{request_json, serves};
use crate::version_at::VersionAt;
use serde_json::{Map, Value};
use sp_model::{CallKey, Ending, Reply, Version};
use sp_value::{Memory, Text};
use sqlite_items::Items;
use std::alloc::Global;

/// What is answered to the calls whose requests have these members.
#[derive(Drop)]
pub(crate) struct Entry {
    pub(crate) call: Map<String, Value>,
    pub(crate) attempts: Items<Attempt>,
}

/// What a plugin answers: one declaration for every connection, versions by their ticks, and entries for calls. Its answers are of
/// the forms that reply lines have.
#[derive(Drop)]
pub struct Book {
    pub(crate) declaration: Declared,
    pub(crate) versions: Items<VersionAt>,
    pub(crate) entries: Items<Entry>,
}

impl Entry {
    /// What is answered to an attempt: the attempt of that number, or the last.
    fn attempt(&self, number: u32) -> Option<&Attempt> {
        let last = self.attempts.len().checked_sub(1)?;
        let place = (number.saturating_sub(1) as usize).min(last);
        self.attempts.get(place)
    }
}

impl Book {
    /// The first entry that serves a request.
    fn entry(&self, request: &Value) -> Option<&Entry> {
        for entry in self.entries.as_slice() {
            if serves(&entry.call, request) {
                return Some(entry);
            }
        }
        None
    }

    /// The version of the last pair whose tick is not greater.
    fn number_at(&self, tick: u64) -> Option<&VersionAt> {
        for pair in self.versions.as_slice().iter().rev() {
            if pair.tick() <= tick {
                return Some(pair);
            }
        }
        None
    }

    /// The declaration.
    pub fn declaration(&self) -> &Value
        ensures { IsSayableDeclaration (json.view result.now) }
    {
        self.declaration.value()
    }

    /// The version at a tick: that of the last pair whose tick is not greater, or the error `no version`.
    pub fn version_at(&self, alloc: Global, tick: u64) -> Result<Version, Memory>
        ensures { IfOk result IsSayableVersion }
    {
        match self.number_at(tick) {
            Some(pair) => Ok(Version::Is(pair.number())),
            None => Ok(Version::Bad(Text::from_str(alloc, "no version")?)),
        }
    }

    /// The reply to a call: that of the first entry that serves it, or the error `no reply`.
    pub fn reply_to(&self, alloc: Global, key: &CallKey) -> Result<Reply, Memory>
        ensures { IfOk result IsSayableReply }
    {
        let request = request_json(alloc, self.declaration.value(), key)?;
        let attempt = match self.entry(&request) {
            Some(entry) => entry.attempt(key.attempt),
            None => None,
        };
        match attempt {
            Some(attempt) => attempt.reply_to(alloc, &key.call),
            None => failed(alloc, "no reply"),
        }
    }
}

/// A reply that is an error alone.
#[tactic(auto, using(crate::proofs::Items::error_alone))]
fn failed(alloc: Global, text: &str) -> Result<Reply, Memory>
    ensures { IfOk result IsSayableReply }
{
    let text = Text::from_str(alloc, text)?;
    Ok(Reply {
        items: Items::new(alloc),
        ending: Ending::Error(text),
    })
}
