// Which access is chosen.

ghost use Rattle.std.specs.Prelude.{◌≡◌};
ghost use Rattle.sp_model.specs.Keys.{is_met, with_fan, is_get_met, list_access, choose_list, choose};
ghost use Rattle.access_choice.specs.Choices.{chosen_access, IsChoice};

use crate::fault::ChoiceFault;
use crate::missing::missing;
use key_columns::{Given, is_met};
use sp_model::{Access, Condition, GetDecl, ListDecl, TableDecl};
use sp_value::Text;
use std::alloc::Global;

/// Whether the keys of the get are met by conditions by `=`.
fn is_get_met(get: &Option<GetDecl>, conditions: &[Condition], lists: &[Text]) -> bool
    ensures { result ≡ is_get_met get.now conditions.now lists.now }
{
    match get {
        Some(get) => {
            let keys = get.keys.as_slice();
            is_met(keys, &Given::by_equals(keys, lists, conditions))
        }
        None => false,
    }
}

fn list_access(list: &ListDecl) -> Access
    ensures { result ≡ list_access list.now.parent }
{
    match &list.parent {
        None => Access::List,
        Some(_) => Access::Parents,
    }
}

fn is_list_met(list: &ListDecl, conditions: &[Condition], lists: &[Text]) -> bool
    ensures { result ≡ is_met list.now.keys (with_fan list.now.keys lists.now conditions.now) }
{
    let keys = list.keys.as_slice();
    is_met(keys, &Given::with_fan(keys, lists, conditions))
}

fn access_of_list(table: &TableDecl, conditions: &[Condition], lists: &[Text]) -> Option<Access>
    ensures { result ≡ chosen_access (choose_list table.now.list table.now.get conditions.now lists.now) }
{
    match &table.list {
        Some(list) if is_list_met(list, conditions, lists) => Some(list_access(list)),
        _ => None,
    }
}

/// How the items of a table are asked for, `None` where keys are missing. It takes no memory.
pub fn access_of(table: &TableDecl, conditions: &[Condition], lists: &[Text]) -> Option<Access>
    ensures { result ≡ chosen_access (choose table.now conditions.now lists.now) }
{
    if is_get_met(&table.get, conditions, lists) {
        return Some(Access::Get);
    }
    access_of_list(table, conditions, lists)
}

/// How the items of a table are asked for: by a get where its keys are met by `=`, else by the list where its keys are met, under parents
/// where it has some. Else the keys that are missing, of the list, or of the get where there is no list; unless memory is wanting for
/// their names. `lists` has the columns of the `in` conjuncts without `not`, in the order of the text; an equality with an earlier source
/// is a condition of any value.
#[tactic(auto, using(crate::proofs::Accepting::taken, crate::proofs::Accepting::refused, crate::proofs::Accepting::wanting))]
pub fn choose(
    alloc: Global,
    table: &TableDecl,
    conditions: &[Condition],
    lists: &[Text],
) -> Result<Access, ChoiceFault>
    ensures { IsChoice (choose table.now conditions.now lists.now) result }
{
    if let Some(access) = access_of(table, conditions, lists) {
        return Ok(access);
    }
    let columns = missing(alloc, table, conditions, lists)?;
    Err(ChoiceFault::MissingKeys { columns })
}
