use sp_model::Pair;
use sp_value::Text;
use sqlite_items::Items;

/// The connection of a call, and the names and values that limiters see of it. A call without values has no instances.
#[derive(Drop)]
pub struct TagList {
    pub connection: Text,
    pub pairs: Items<Pair>,
}
