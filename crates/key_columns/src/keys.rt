// Which conditions are on a key.

ghost use Rattle.std.specs.Prelude.{◌≡◌, ◌&&◌, bytes_eq, option_copied};
ghost use Rattle.std.specs.List.{list_any};
ghost use Rattle.sp_model.specs.Keys.{same_operator, is_on, is_sent, equals, fan_of};

use sp_model::{Condition, KeyDecl};
use sp_value::{Op, Text};

fn same_operator(left: Op, right: Op) -> bool
    ensures { result ≡ same_operator left right }
{
    left == right
}

fn declares(operators: &[Op], operator: Op) -> bool
    ensures { result ≡ list_any (same_operator operator) operators.now }
{
    operators
        .iter()
        .any(|known| same_operator(operator, *known))
}

/// Whether conditions on this column by this operator are on the key.
fn takes(key: &KeyDecl, column: &Text, operator: Op) -> bool
    ensures { result ≡ (bytes_eq key.now.column column.now && list_any (same_operator operator) key.now.operators) }
{
    key.column == *column && declares(key.operators.as_slice(), operator)
}

pub(crate) fn is_on(key: &KeyDecl, condition: &Condition) -> bool
    ensures { result ≡ is_on key.now condition.now }
{
    takes(key, &condition.column, condition.operator)
}

pub(crate) fn is_sent(keys: &[KeyDecl], condition: &Condition) -> bool
    ensures { result ≡ is_sent keys.now condition.now }
{
    keys.iter().any(|key| is_on(key, condition))
}

/// Whether an equality with the column would be on the key.
pub(crate) fn is_equal_key(key: &KeyDecl, column: &Text) -> bool
    ensures { result ≡ is_on key.now (equals column.now) }
{
    takes(key, column, Op::Eq)
}

fn has_equal_key(keys: &[KeyDecl], column: &Text) -> bool
    ensures { result ≡ is_sent keys.now (equals column.now) }
{
    keys.iter().any(|key| is_equal_key(key, column))
}

/// The column that is fanned out: the first of the columns of `in` conjuncts, in the order of the text, that is a key by `=`.
pub fn fan_of<'a>(keys: &[KeyDecl], lists: &'a [Text]) -> Option<&'a Text>
    ensures { option_copied result ≡ fan_of keys.now lists.now }
{
    for column in lists {
        if has_equal_key(keys, column) {
            return Some(column);
        }
    }
    None
}
