// Scans told apart by their connection and their conditions.

ghost use Rattle.std.specs.Prelude.{◌≡◌, ◌++◌, fold};
ghost use Rattle.std.specs.List.{flat_map};
ghost use Rattle.std.specs.Cmp.Lexicographic.{pointwise};
ghost use Rattle.std.specs.Hash as fed;
ghost use Rattle.sp_model.specs.Conditions.{operator_rank};
ghost use Rattle.source_scans.specs.Telling.{same_sent, sent_writes};

use crate::value::{hash_value, same_value};
use sp_model::{Condition, Conditions};
use sp_value::{Op, Text};
use std::hash::{Hash, Hasher};

/// A scan that a left row asks for: of a plain connection, under the conditions that are sent.
#[derive(Drop)]
pub(crate) struct UnitScan {
    pub connection: Text,
    pub conditions: Conditions,
}

fn operator_rank(operator: Op) -> u8
    ensures { result ≡ operator_rank operator }
{
    match operator {
        Op::Eq => 0,
        Op::Ne => 1,
        Op::Lt => 2,
        Op::Le => 3,
        Op::Gt => 4,
        Op::Ge => 5,
    }
}

fn same_sent(left: &Condition, right: &Condition) -> bool
    ensures { result ≡ same_sent left.now right.now }
{
    left.column == right.column
        && operator_rank(left.operator) == operator_rank(right.operator)
        && same_value(&left.value, &right.value)
}

fn same_conditions(left: &[Condition], right: &[Condition]) -> bool
    ensures { result ≡ pointwise same_sent left.now right.now }
{
    let mut others = right;
    for condition in left {
        let [other, later @ ..] = others else {
            return false;
        };
        if !same_sent(condition, other) {
            return false;
        }
        others = later;
    }
    others.is_empty()
}

fn hash_condition<H: Hasher>(condition: &Condition, state: &mut H)
    ensures { state.new ≡ fold H.write state.old (sent_writes condition.now) }
{
    condition.column.as_str().hash(state);
    state.write_u8(operator_rank(condition.operator));
    hash_value(&condition.value, state);
}

fn hash_conditions<H: Hasher>(conditions: &[Condition], state: &mut H)
    ensures { state.new ≡ fold H.write state.old (fed.slice sent_writes conditions.now) }
{
    state.write_usize(conditions.len());
    for condition in conditions {
        hash_condition(condition, state);
    }
}

impl PartialEq for UnitScan {
    ghost use Rattle.std.specs.Cmp.{partial_equiv_from_equiv};
    ghost use Rattle.source_scans.specs.Asking.{same_unit};
    ghost use Rattle.source_scans.specs.SameUnits.{same_unit_equivalence};

    ghost eq = { same_unit };

    ghost laws = { partial_equiv_from_equiv same_unit_equivalence };

    fn eq(&self, other: &UnitScan) -> bool {
        self.connection == other.connection
            && same_conditions(self.conditions.as_slice(), other.conditions.as_slice())
    }
}

impl Eq for UnitScan {
    ghost use Rattle.source_scans.specs.SameUnits.{same_unit_equivalence};

    ghost laws = { same_unit_equivalence };
}

impl Hash for UnitScan {
    ghost use Rattle.source_scans.specs.SameUnits.{same_units_are_fed_alike};

    ghost hash_input = { λ u. fed.str u.connection ++ fed.slice sent_writes u.conditions };

    ghost respects_eq = { same_units_are_fed_alike };

    fn hash<H: Hasher>(&self, state: &mut H) {
        self.connection.as_str().hash(state);
        hash_conditions(self.conditions.as_slice(), state);
    }
}
