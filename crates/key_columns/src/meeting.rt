// Whether keys are met, and which are missing.

ghost use Rattle.std.specs.Prelude.{◌≡◌, ◌++◌, ◌&&◌, ◌||◌, not, filter, OnOk, IfOk};
ghost use Rattle.std.specs.List.{list_any, list_all};
ghost use Rattle.sp_model.specs.Keys.{is_required, is_any_of, has_condition, is_met, columns_of_keys, missing_keys};
ghost use Rattle.key_columns.specs.Counted.{counted};

use crate::given::Given;
use sp_model::{KeyDecl, Need};
use sp_value::{Memory, Texts, TryCopy};
use sqlite_items::Items;
use std::alloc::Global;

fn is_required(key: &KeyDecl) -> bool
    ensures { result ≡ is_required key.now }
{
    matches!(key.need, Need::Required)
}

fn is_any_of(key: &KeyDecl) -> bool
    ensures { result ≡ is_any_of key.now }
{
    matches!(key.need, Need::AnyOf)
}

fn has_required(keys: &[KeyDecl], given: &Given) -> bool
    ensures { result ≡ list_all (λ key. not (is_required key) || has_condition (counted given.now) key) keys.now }
{
    keys.iter()
        .all(|key| !is_required(key) || given.has_condition(key))
}

fn has_any_of(keys: &[KeyDecl], given: &Given) -> bool
    ensures { result ≡ list_any (λ key. is_any_of key && has_condition (counted given.now) key) keys.now }
{
    keys.iter()
        .any(|key| is_any_of(key) && given.has_condition(key))
}

fn have_any_of(keys: &[KeyDecl]) -> bool
    ensures { result ≡ list_any is_any_of keys.now }
{
    keys.iter().any(is_any_of)
}

/// Whether each required key has a condition, and one of the any-of keys has, where there are any. It takes no memory.
pub fn is_met(keys: &[KeyDecl], given: &Given) -> bool
    ensures { result ≡ is_met keys.now (counted given.now) }
{
    has_required(keys, given) && (!have_any_of(keys) || has_any_of(keys, given))
}

/// The columns of the required keys without a condition, and then of all any-of keys where none of them has one, in declared order, unless
/// memory is wanting.
pub fn missing_keys(alloc: Global, keys: &[KeyDecl], given: &Given) -> Result<Texts, Memory>
    ensures { IfOk result (λ columns. columns ≡ missing_keys keys.now (counted given.now)) }
{
    let mut missing = Items::new(alloc);
    push_required(alloc, &mut missing, keys, given)?;
    if !has_any_of(keys, given) {
        push_any_of(alloc, &mut missing, keys)?;
    }
    Ok(missing)
}

fn push_required(
    alloc: Global,
    missing: &mut Texts,
    keys: &[KeyDecl],
    given: &Given,
) -> Result<(), Memory>
    ensures { OnOk result (missing.new ≡ missing.old ++ columns_of_keys (filter (λ key. is_required key && not (has_condition (counted given.now) key)) keys.now)) }
{
    for key in keys {
        if is_required(key) && !given.has_condition(key) {
            missing.push(key.column.copy(alloc)?)?;
        }
    }
    Ok(())
}

fn push_any_of(alloc: Global, missing: &mut Texts, keys: &[KeyDecl]) -> Result<(), Memory>
    ensures { OnOk result (missing.new ≡ missing.old ++ columns_of_keys (filter is_any_of keys.now)) }
{
    for key in keys {
        if is_any_of(key) {
            missing.push(key.column.copy(alloc)?)?;
        }
    }
    Ok(())
}
