// The keys of a chosen access, and the column that is fanned out.

ghost use Rattle.std.specs.Prelude.{◌≡◌, option_copied, option_map};
ghost use Rattle.sp_model.specs.Requests.{keys_of_get, keys_of_list, keys_for, fan_for};

use key_columns::fan_of;
use sp_model::{Access, GetDecl, KeyDecl, ListDecl, TableDecl};
use sp_value::Text;

fn keys_of_get(get: &Option<GetDecl>) -> Option<&[KeyDecl]>
    ensures { option_map (λ keys. keys.now) result ≡ keys_of_get get.now }
{
    match get {
        Some(get) => Some(get.keys.as_slice()),
        None => None,
    }
}

fn keys_of_list(list: &Option<ListDecl>) -> Option<&[KeyDecl]>
    ensures { option_map (λ keys. keys.now) result ≡ keys_of_list list.now }
{
    match list {
        Some(list) => Some(list.keys.as_slice()),
        None => None,
    }
}

/// The keys of an access, `None` where the table has no such access.
#[tactic(auto, unfolding(sp_model::specs::Requests::keys_for))]
pub fn keys_for(table: &TableDecl, access: Access) -> Option<&[KeyDecl]>
    ensures { option_map (λ keys. keys.now) result ≡ keys_for table.now access }
{
    match access {
        Access::Get => keys_of_get(&table.get),
        Access::List => keys_of_list(&table.list),
        Access::Parents => keys_of_list(&table.list),
    }
}

/// The column whose `in` list is fanned out under an access: the first of the columns of the `in` conjuncts that is a key by `=` of it.
#[tactic(auto, unfolding(sp_model::specs::Requests::fan_for))]
pub fn fan_for<'a>(table: &TableDecl, access: Access, lists: &'a [Text]) -> Option<&'a Text>
    ensures { option_copied result ≡ fan_for table.now access lists.now }
{
    match keys_for(table, access) {
        Some(keys) => fan_of(keys, lists),
        None => None,
    }
}
