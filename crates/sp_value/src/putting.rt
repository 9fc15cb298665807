ghost use Rattle.std.specs.Prelude.{◌≡◌, ◌++◌, ◌∷◌, [], length, true, OnOk, IfOk};
ghost use Rattle.std.specs.List.{zip};
ghost use Rattle.sp_value.specs.Names.{rise, names_of, values_of, put_under};

use crate::cell::Cell;
use crate::copying::TryCopy;
use crate::lists::{Cells, Texts};
use crate::members::Members;
use crate::text::{Memory, Text};
use sqlite_items::Items;
use std::alloc::Global;
use std::cmp::Ordering;

impl Members<Cell> {
    /// The members with a value put under a name, in the place of what stood there, unless memory is wanting.
    #[tactic(auto, using(crate::proofs::PutLaws::rise_put))]
    pub fn put_under(&self, alloc: Global, name: &Text, value: &Cell) -> Result<Members, Memory>
        ensures { IfOk result (λ ms. ms ≡ put_under name.now value.now self.now) }
    {
        let mut names = Items::new(alloc);
        let mut values = Items::new(alloc);
        put_parts(
            alloc,
            name,
            value,
            self.names(),
            self.values(),
            &mut names,
            &mut values,
        )?;
        Ok(Members::from_parts(names, values))
    }
}

fn put_parts(
    alloc: Global,
    name: &Text,
    value: &Cell,
    names: &[Text],
    values: &[Cell],
    into_names: &mut Texts,
    into_values: &mut Cells,
) -> Result<(), Memory>
    requires { length names.now ≡ length values.now }
    ensures names { OnOk result (into_names.new ≡ into_names.old ++ names_of (put_under name.now value.now (zip names.now values.now))) }
    ensures values { OnOk result (into_values.new ≡ into_values.old ++ values_of (put_under name.now value.now (zip names.now values.now))) }
{
    for (index, first) in names.iter().enumerate() {
        match name.cmp(first) {
            Ordering::Less => {
                push_rest(
                    alloc,
                    name,
                    value,
                    &names[index..],
                    &values[index..],
                    into_names,
                    into_values,
                )?;
                return Ok(());
            }
            Ordering::Equal => {
                push_rest(
                    alloc,
                    name,
                    value,
                    &names[index + 1..],
                    &values[index + 1..],
                    into_names,
                    into_values,
                )?;
                return Ok(());
            }
            Ordering::Greater => push_both(alloc, first, &values[index], into_names, into_values)?,
        }
    }
    push_both(alloc, name, value, into_names, into_values)?;
    Ok(())
}

fn push_rest(
    alloc: Global,
    name: &Text,
    value: &Cell,
    names: &[Text],
    values: &[Cell],
    into_names: &mut Texts,
    into_values: &mut Cells,
) -> Result<(), Memory>
    ensures names { OnOk result (into_names.new ≡ into_names.old ++ name.now ∷ names.now) }
    ensures values { OnOk result (into_values.new ≡ into_values.old ++ value.now ∷ values.now) }
{
    push_both(alloc, name, value, into_names, into_values)?;
    push_copies(alloc, into_names, names)?;
    push_copies(alloc, into_values, values)?;
    Ok(())
}

fn push_both(
    alloc: Global,
    name: &Text,
    value: &Cell,
    names: &mut Texts,
    values: &mut Cells,
) -> Result<(), Memory>
    ensures names { OnOk result (names.new ≡ names.old ++ name.now ∷ []) }
    ensures values { OnOk result (values.new ≡ values.old ++ value.now ∷ []) }
{
    names.push(name.copy(alloc)?)?;
    values.push(value.copy(alloc)?)?;
    Ok(())
}

/// Puts copies of things at the end of a list.
fn push_copies<T: TryCopy>(alloc: Global, into: &mut Items<T>, things: &[T]) -> Result<(), Memory>
    ensures { OnOk result (into.new ≡ into.old ++ things.now) }
{
    for thing in things {
        into.push(thing.copy(alloc)?)?;
    }
    Ok(())
}
