ghost use Rattle.std.specs.Prelude.{◌≡◌, [], ◌∷◌, ◌++◌, not, if◌then◌else◌, position, bytes_eq, IfOk};
ghost use Rattle.sp_model.specs.Names.{has_name};

use indexmap::IndexSet;
use sp_value::Memory;
use std::alloc::Global;
use std::marker::Model;

/// Names, each once, in the order in which they came. Contracts see their list.
#[derive(Drop)]
pub struct NameSet<'a> {
    names: IndexSet<&'a str>,
}

impl<'a> Model for NameSet<'a> {
    ghost use Rattle.std.specs.Prelude.{List, ℕ, map};

    ghost Value = { List (List ℕ) };

    ghost view = { λ s. map (λ n. n.now) s.names.keys };
}

impl<'a> NameSet<'a> {
    /// No names.
    pub fn new(alloc: Global) -> NameSet<'a>
        ensures { result ≡ [] }
    {
        NameSet {
            names: IndexSet::new(alloc),
        }
    }

    /// Puts a name at the end, unless it is there already, and answers whether it was new.
    pub fn insert(&mut self, name: &'a str) -> Result<bool, Memory>
        ensures added { IfOk result (λ b. b ≡ not (has_name self.old name.now)) }
        ensures names { IfOk result (λ b. self.new ≡ (if b then self.old ++ name.now ∷ [] else self.old)) }
    {
        let added = self.names.insert(name)?;
        Ok(added)
    }

    /// Whether a name is there.
    pub fn contains(&self, name: &str) -> bool
        ensures { result ≡ has_name self.now name.now }
    {
        self.names.contains(name)
    }

    /// The place of a name, counted from 0.
    pub fn place(&self, name: &str) -> Option<usize>
        ensures { result ≡ position (bytes_eq name.now) self.now }
    {
        self.names.get_index_of(name)
    }
}
