// The values of a list without repeats and nulls.

ghost use Rattle.std.specs.Prelude.{◌≡◌, [], map, IfOk, OnOk};
ghost use Rattle.sp_model.specs.Units.{distinct_values};
ghost use Rattle.source_scans.specs.Distinct.{with_value};

use crate::value::{hash_value, same_value};
use indexmap::IndexSet;
use sp_model::is_scalar;
use sp_value::{Cell, Cells, Memory, TryCopy};
use sqlite_items::Items;
use std::alloc::Global;
use std::hash::{Hash, Hasher};

/// A value, told apart as sent conditions tell values apart.
#[derive(Drop)]
pub(crate) struct Scalar {
    pub value: Cell,
}

impl PartialEq for Scalar {
    ghost use Rattle.std.specs.Cmp.{partial_equiv_from_equiv};
    ghost use Rattle.source_scans.specs.Distinct.{same_scalar_value};
    ghost use Rattle.source_scans.specs.SameUnits.{same_scalar_equivalence};

    ghost eq = { same_scalar_value };

    ghost laws = { partial_equiv_from_equiv same_scalar_equivalence };

    fn eq(&self, other: &Scalar) -> bool {
        same_value(&self.value, &other.value)
    }
}

impl Eq for Scalar {
    ghost use Rattle.source_scans.specs.SameUnits.{same_scalar_equivalence};

    ghost laws = { same_scalar_equivalence };
}

impl Hash for Scalar {
    ghost use Rattle.source_scans.specs.SameUnits.{same_scalars_are_fed_alike};
    ghost use Rattle.source_scans.specs.Telling.{value_writes};

    ghost hash_input = { λ s. value_writes s.value };

    ghost respects_eq = { same_scalars_are_fed_alike };

    fn hash<H: Hasher>(&self, state: &mut H) {
        hash_value(&self.value, state);
    }
}

/// Puts a boolean, an integer or a text at the end, unless it is there.
fn put(alloc: Global, found: &mut IndexSet<Scalar>, value: &Cell) -> Result<(), Memory>
    ensures { OnOk result (found.new.keys ≡ with_value found.old.keys value.now) }
{
    if is_scalar(value) {
        let value = value.copy(alloc)?;
        found.insert(Scalar { value })?;
    }
    Ok(())
}

fn values_of(alloc: Global, found: &[Scalar]) -> Result<Cells, Memory>
    ensures { IfOk result (λ values. values ≡ map (λ s. s.value) found.now) }
{
    let mut values = Items::new(alloc);
    for scalar in found {
        let value = scalar.value.copy(alloc)?;
        let Ok(()) = values.push(value) else {
            return Err(Memory);
        };
    }
    Ok(values)
}

fn found_in(alloc: Global, found: &mut IndexSet<Scalar>, values: &[Cell]) -> Result<(), Memory>
    requires { found.old.keys ≡ [] }
    ensures { OnOk result (map (λ s. s.value) found.new.keys ≡ distinct_values [] values.now) }
{
    for value in values {
        put(alloc, found, value)?;
    }
    Ok(())
}

/// The booleans, integers and texts among values, each where it stands first.
pub fn distinct_values(alloc: Global, values: &[Cell]) -> Result<Cells, Memory>
    ensures { IfOk result (λ distinct. distinct ≡ distinct_values [] values.now) }
{
    let mut found = IndexSet::new(alloc);
    found_in(alloc, &mut found, values)?;
    let distinct = values_of(alloc, found.as_slice())?;
    Ok(distinct)
}
