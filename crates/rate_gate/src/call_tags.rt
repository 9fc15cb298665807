ghost use Rattle.std.specs.Prelude.{◌≡◌, [], IfOk};

use crate::tag_list::TagList;
use sp_model::Pair;
use sp_value::{Memory, Text, TryCopy};
use sqlite_items::Items;
use std::alloc::Global;
use std::marker::Model;
use std::sync::Arc;

/// The tags of a call. Contracts see the list; a copy shares it and takes no room.
#[derive(Drop)]
pub struct CallTags {
    shared: Arc<TagList, Global>,
}

impl Model for CallTags {
    ghost use Rattle.std.specs.Arc.{arc_value};
    ghost use Rattle.rate_gate.specs.declared.tag_list.TagList.{TagList};

    ghost Value = { TagList };

    ghost view = { λ t. arc_value t.shared };
}

impl CallTags {
    pub(crate) fn with(alloc: Global, list: TagList) -> Result<CallTags, Memory>
        ensures { IfOk result (λ t. t ≡ list) }
    {
        let shared = Arc::new(alloc, list)?;
        Ok(CallTags { shared })
    }

    /// The tags of a declare or version call of a connection, which no limiter applies to.
    pub fn free(alloc: Global, connection: &Text) -> Result<CallTags, Memory>
        ensures { IfOk result (λ t. t ≡ record { connection = connection.now; pairs = [] }) }
    {
        let connection = connection.copy(alloc)?;
        let pairs = Items::new(alloc);
        let tags = CallTags::with(alloc, TagList { connection, pairs })?;
        Ok(tags)
    }

    /// The same tags once more, unless memory is wanting.
    pub fn share(&self) -> Result<CallTags, Memory>
        ensures { IfOk result (λ t. t ≡ self.now) }
    {
        let shared = Arc::try_clone(&self.shared)?;
        Ok(CallTags { shared })
    }

    /// The connection of the call.
    pub fn connection(&self) -> &Text
        ensures { result.now ≡ self.now.connection }
    {
        &self.shared.connection
    }

    /// The names and values that limiters see.
    pub fn pairs(&self) -> &[Pair]
        ensures { result.now ≡ self.now.pairs }
    {
        self.shared.pairs.as_slice()
    }
}

impl TryCopy for CallTags {
    fn copy(&self, _alloc: Global) -> Result<CallTags, Memory> {
        let tags = self.share()?;
        Ok(tags)
    }
}
