// What counts as a condition where keys are looked at.

ghost use Rattle.std.specs.Prelude.{◌≡◌, filter, option_copied};
ghost use Rattle.std.specs.List.{list_any};
ghost use Rattle.sp_model.specs.Keys.{is_on, has_condition, is_equality, equals, with_fan};
ghost use Rattle.key_columns.specs.Counted.{counted, among, fan_counts};

use crate::keys::{fan_of, is_equal_key, is_on};
use sp_model::{Condition, KeyDecl};
use sp_value::{Op, Text};

/// Conditions as keys see them. A column that is fanned out counts as a condition by `=`; values don't count.
#[derive(Clone, Copy)]
pub struct Given<'a> {
    fan: Option<&'a Text>,
    conditions: &'a [Condition],
    by_equals: bool,
}

impl<'a> Given<'a> {
    /// The conditions alone.
    pub fn all(conditions: &'a [Condition]) -> Given<'a>
        ensures { counted result ≡ conditions.now }
    {
        Given {
            fan: None,
            conditions,
            by_equals: false,
        }
    }

    /// The conditions, and the first of the columns of `in` conjuncts that is one of the keys by `=`.
    pub fn with_fan(keys: &[KeyDecl], lists: &'a [Text], conditions: &'a [Condition]) -> Given<'a>
        ensures { counted result ≡ with_fan keys.now lists.now conditions.now }
    {
        Given {
            fan: fan_of(keys, lists),
            conditions,
            by_equals: false,
        }
    }

    /// The same, of which those by `=` alone count.
    pub fn by_equals(keys: &[KeyDecl], lists: &'a [Text], conditions: &'a [Condition]) -> Given<'a>
        ensures { counted result ≡ filter is_equality (with_fan keys.now lists.now conditions.now) }
    {
        Given {
            fan: fan_of(keys, lists),
            conditions,
            by_equals: true,
        }
    }

    #[tactic(auto, using(crate::proofs::Counting::counts))]
    pub(crate) fn has_condition(&self, key: &KeyDecl) -> bool
        ensures { result ≡ has_condition (counted self.now) key.now }
    {
        self.has_fan(key) || self.has_own(key)
    }

    fn has_fan(&self, key: &KeyDecl) -> bool
        ensures { result ≡ fan_counts (option_copied self.now.fan) key.now }
    {
        match self.fan {
            Some(column) => is_equal_key(key, column),
            None => false,
        }
    }

    fn has_own(&self, key: &KeyDecl) -> bool
        ensures { result ≡ has_condition (among self.now.by_equals self.now.conditions.now) key.now }
    {
        if self.by_equals {
            has_equality(self.conditions, key)
        } else {
            self.conditions
                .iter()
                .any(|condition| is_on(key, condition))
        }
    }
}

/// Whether a condition by `=` is on the key.
fn has_equality(conditions: &[Condition], key: &KeyDecl) -> bool
    ensures { result ≡ has_condition (filter is_equality conditions.now) key.now }
{
    for condition in conditions {
        if condition.operator == Op::Eq && is_on(key, condition) {
            return true;
        }
    }
    false
}
