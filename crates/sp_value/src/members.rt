ghost use Rattle.std.specs.Prelude.{◌≡◌, [], length, true};
ghost use Rattle.std.specs.Option.{option_copied};
ghost use Rattle.std.specs.List.{zip};
ghost use Rattle.sp_value.specs.Names.{rise, names_of, values_of, value_under};

use crate::cell::Cell;
use crate::text::Text;
use sqlite_items::Items;
use std::alloc::Global;
use std::marker::Model;

/// Values under names that rise. Contracts see the pairs.
#[derive(Drop)]
pub struct Members<T = Cell> {
    names: Items<Text>,
    values: Items<T>,
}

impl<T> Model for Members<T> {
    ghost use Rattle.std.specs.Prelude.{◌≡◌, List, ℕ, length, true};
    ghost use Rattle.std.specs.List.{zip};
    ghost use Rattle.std.specs.Coded.{coded_list, coded×, coded_ℕ};
    ghost use Rattle.sp_value.specs.Names.{rise};

    ghost Value = { List (List ℕ × T) };

    ghost coded = { coded_list (coded× (coded_list coded_ℕ) T.code) };

    ghost view = { λ m. zip m.names m.values };

    ghost invariant = { λ m. (length m.values ≡ length m.names) × (rise m.names ≡ true) };
}

impl<T> Members<T> {
    /// No members.
    pub fn new(alloc: Global) -> Members<T>
        ensures { result ≡ [] }
    {
        Members {
            names: Items::new(alloc),
            values: Items::new(alloc),
        }
    }

    /// Each value under the name at its place. There are as many names as values, and each name is
    /// below the next by its bytes.
    pub fn from_parts(names: Items<Text>, values: Items<T>) -> Members<T>
        requires as_many { length values ≡ length names }
        requires rising { rise names ≡ true }
        ensures { result ≡ zip names values }
    {
        Members { names, values }
    }

    /// The names, which rise.
    #[tactic(auto, using(crate::proofs::Zips::names_of_zip))]
    pub fn names(&self) -> &[Text]
        ensures value { result.now ≡ names_of self.now }
        ensures rising { rise result.now ≡ true }
    {
        self.names.as_slice()
    }

    /// The values, in the order of their names.
    #[tactic(auto, using(crate::proofs::Zips::values_of_zip))]
    pub fn values(&self) -> &[T]
        ensures { result.now ≡ values_of self.now }
    {
        self.values.as_slice()
    }

    /// How many members there are.
    #[tactic(auto, using(crate::proofs::Zips::length_of_zip))]
    pub fn len(&self) -> usize
        ensures { result ≡ length self.now }
    {
        self.values.len()
    }

    /// The value under a name, where there is one.
    pub fn get(&self, name: &str) -> Option<&T>
        ensures { option_copied result ≡ value_under name.now self.now }
    {
        find(self.names.as_slice(), self.values.as_slice(), name)
    }
}

fn find<'a, T>(names: &[Text], values: &'a [T], name: &str) -> Option<&'a T>
    requires { length values.now ≡ length names.now }
    ensures { option_copied result ≡ value_under name.now (zip names.now values.now) }
{
    for (index, known) in names.iter().enumerate() {
        if known.as_str() == name {
            return Some(&values[index]);
        }
    }
    None
}
