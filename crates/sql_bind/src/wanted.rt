// What refs ask for, as keys.

ghost use Rattle.std.specs.Prelude.{◌≡◌, bytes_eq, fold};
ghost use Rattle.std.specs.Option.{option_copied, option_eq};
ghost use Rattle.sql_bind.specs.Wanted.{alias_writes, wanted_by, wanted_writes};

use sql_grammar::Ref;
use std::hash::{Hash, Hasher};
use std::marker::Model;

/// A column's name, of the sources of an alias or of all.
#[derive(Drop)]
pub(crate) struct Wanted<'a> {
    alias: Option<&'a str>,
    column: &'a str,
}

impl<'a> Model for Wanted<'a> {
    ghost use Rattle.std.specs.Option.{option_copied as copied};
    ghost use Rattle.sql_bind.specs.Wanted.{Wanted as WantedValue};

    ghost Value = { WantedValue };

    ghost view = { λ w. record { alias = copied w.alias; column = w.column.now } };
}

impl<'a> Wanted<'a> {
    pub fn new(alias: Option<&'a str>, column: &'a str) -> Wanted<'a>
        ensures { result ≡ record { alias = option_copied alias.entry; column = column.now } }
    {
        Wanted { alias, column }
    }

    pub fn by(of: &'a Ref) -> Wanted<'a>
        ensures { result ≡ wanted_by of.now }
    {
        let column = of.column.text.as_str();
        match &of.source {
            Some(name) => Wanted::new(Some(name.text.as_str()), column),
            None => Wanted::new(None, column),
        }
    }
}

fn same_alias(left: Option<&str>, right: Option<&str>) -> bool
    ensures { result ≡ option_eq bytes_eq (option_copied left.entry) (option_copied right.entry) }
{
    match (left, right) {
        (Some(left), Some(right)) => left == right,
        (None, None) => true,
        _ => false,
    }
}

fn hash_alias<H: Hasher>(alias: Option<&str>, state: &mut H)
    ensures { state.new ≡ fold H.write state.old (alias_writes (option_copied alias.entry)) }
{
    match alias {
        Some(alias) => {
            state.write_u8(1);
            alias.hash(state);
        }
        None => state.write_u8(0),
    }
}

impl<'a> PartialEq for Wanted<'a> {
    ghost use Rattle.std.specs.Cmp.{partial_equiv_from_equiv};
    ghost use Rattle.sql_bind.specs.Wanted.{same_wanted, same_wanted_equivalence};

    ghost eq = { same_wanted };

    ghost laws = { partial_equiv_from_equiv same_wanted_equivalence };

    fn eq(&self, other: &Wanted<'a>) -> bool {
        same_alias(self.alias, other.alias) && self.column == other.column
    }
}

impl<'a> Eq for Wanted<'a> {
    ghost use Rattle.sql_bind.specs.Wanted.{same_wanted_equivalence};

    ghost laws = { same_wanted_equivalence };
}

impl<'a> Hash for Wanted<'a> {
    ghost use Rattle.sql_bind.specs.Wanted.{same_wanted_are_fed_alike};

    ghost hash_input = { wanted_writes };

    ghost respects_eq = { same_wanted_are_fed_alike };

    fn hash<H: Hasher>(&self, state: &mut H) {
        hash_alias(self.alias, state);
        self.column.hash(state);
    }
}
