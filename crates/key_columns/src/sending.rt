// Conditions in canonical order.

ghost use Rattle.std.specs.Prelude.{◌≡◌, ◌++◌, ◌∷◌, [], filter, IfOk, OnOk};
ghost use Rattle.sp_model.specs.Covers.{same_condition};
ghost use Rattle.sp_model.specs.Keys.{is_sent, canonical, sent};

use crate::keys::is_sent;
use sp_model::{Condition, Conditions, KeyDecl, compare_conditions};
use sp_value::{Memory, TryCopy};
use sqlite_items::Items;
use std::alloc::Global;
use std::cmp::Ordering;

/// The conditions that are on a key by one of its operators, in canonical order, each once, unless memory is wanting.
pub fn sent(alloc: Global, keys: &[KeyDecl], conditions: &[Condition]) -> Result<Conditions, Memory>
    ensures { IfOk result (λ cs. cs ≡ sent keys.now conditions.now) }
{
    let found = copies_of_sent(alloc, keys, conditions)?;
    let sent = put_in_order(found)?;
    Ok(sent)
}

/// The conditions in canonical order, each once, unless memory is wanting: by the bytes of the column, then by the operator, then by the value.
pub fn canonical(alloc: Global, conditions: &[Condition]) -> Result<Conditions, Memory>
    ensures { IfOk result (λ cs. cs ≡ canonical conditions.now) }
{
    let copies = copies(alloc, conditions)?;
    let canonical = put_in_order(copies)?;
    Ok(canonical)
}

fn copies_of_sent(
    alloc: Global,
    keys: &[KeyDecl],
    conditions: &[Condition],
) -> Result<Vec<Condition>, Memory>
    ensures { IfOk result (λ found. found.items ≡ filter (is_sent keys.now) conditions.now) }
{
    let mut found = Vec::new(alloc);
    for condition in conditions {
        if is_sent(keys, condition) {
            push_copy(alloc, &mut found, condition)?;
        }
    }
    Ok(found)
}

fn copies(alloc: Global, conditions: &[Condition]) -> Result<Vec<Condition>, Memory>
    ensures { IfOk result (λ copies. copies.items ≡ conditions.now) }
{
    let mut copies = Vec::new(alloc);
    for condition in conditions {
        push_copy(alloc, &mut copies, condition)?;
    }
    Ok(copies)
}

fn push_copy(alloc: Global, into: &mut Vec<Condition>, condition: &Condition) -> Result<(), Memory>
    ensures { OnOk result (into.new.items ≡ into.old.items ++ condition.now ∷ []) }
{
    let copy = condition.copy(alloc)?;
    let Ok(()) = into.push(copy) else {
        return Err(Memory);
    };
    Ok(())
}

/// Sorts, and drops equals. Of conditions that the order doesn't tell apart the last one stays, so the list is turned round first.
fn put_in_order(conditions: Vec<Condition>) -> Result<Conditions, Memory>
    ensures { IfOk result (λ cs. cs ≡ canonical conditions.items) }
{
    let mut conditions = conditions;
    conditions.reverse();
    conditions.sort_by(|left, right| compare_conditions(left, right))?;
    conditions.dedup_by(|later, kept| is_repeated(later, kept));
    Ok(Items::from_vec(conditions))
}

/// Whether the order doesn't tell the two apart.
fn is_repeated(later: &Condition, kept: &Condition) -> bool
    ensures { result ≡ same_condition later.now kept.now }
{
    compare_conditions(later, kept) == Ordering::Equal
}
