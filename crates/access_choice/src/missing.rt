// The keys that are missing where no access is chosen.

ghost use Rattle.std.specs.Prelude.{◌≡◌, IfOk};
ghost use Rattle.sp_model.specs.Keys.{missing_of_get};
ghost use Rattle.access_choice.specs.Choices.{missing_of};

use key_columns::{Given, missing_keys};
use sp_model::{Condition, GetDecl, TableDecl};
use sp_value::{Memory, Text, Texts};
use sqlite_items::Items;
use std::alloc::Global;

fn missing_of_get(
    alloc: Global,
    get: &Option<GetDecl>,
    conditions: &[Condition],
    lists: &[Text],
) -> Result<Texts, Memory>
    ensures { IfOk result (λ columns. columns ≡ missing_of_get get.now conditions.now lists.now) }
{
    match get {
        Some(get) => {
            let keys = get.keys.as_slice();
            let given = Given::by_equals(keys, lists, conditions);
            let missing = missing_keys(alloc, keys, &given)?;
            Ok(missing)
        }
        None => Ok(Items::new(alloc)),
    }
}

/// The keys that a list, or else the get, lacks.
pub(crate) fn missing(
    alloc: Global,
    table: &TableDecl,
    conditions: &[Condition],
    lists: &[Text],
) -> Result<Texts, Memory>
    ensures { IfOk result (λ columns. columns ≡ missing_of table.now conditions.now lists.now) }
{
    match &table.list {
        Some(list) => {
            let keys = list.keys.as_slice();
            let given = Given::with_fan(keys, lists, conditions);
            let missing = missing_keys(alloc, keys, &given)?;
            Ok(missing)
        }
        None => {
            let missing = missing_of_get(alloc, &table.get, conditions, lists)?;
            Ok(missing)
        }
    }
}
