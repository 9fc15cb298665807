// The sources that are looked at.

ghost use Rattle.std.specs.Prelude.{◌≡◌, ◌≤◌, length, take, bytes_eq, IfSome};
ghost use Rattle.std.specs.List.{list_any};
ghost use Rattle.sql_bind.specs.Fits.{fits_of};
ghost use Rattle.sql_bind.specs.Index.{Indexes};
ghost use Rattle.sql_bind.specs.Sources.{alias_of};

use crate::fitting::{Fits, fits_of};
use crate::index::Index;
use crate::sources::{Seen, alias_of};
use sp_value::Text;
use sql_grammar::Ref;
use std::marker::Model;

/// The first sources of a statement, so many. An index of all of them, where there is one, tells what a ref fits.
#[derive(Drop)]
pub(crate) struct Looked<'s, 'a> {
    all: &'s [Seen<'a>],
    count: usize,
    index: Option<&'s Index<'a>>,
}

impl<'s, 'a> Model for Looked<'s, 'a> {
    ghost use Rattle.std.specs.Coded.{codes};
    ghost use Rattle.std.specs.Prelude.{List, ◌≤◌, take, length, IfSome};
    ghost use Rattle.sql_grammar.specs.contracts.ast.Expr as e;
    ghost use Rattle.sql_bind.specs.Index.{Indexes};
    ghost use Rattle.sql_bind.specs.Sources.{Seen as SeenValue};

    ghost Value = { List SeenValue };

    ghost coded = { Prim.hlevel (codes, e.the_row.coded) };

    ghost view = { λ l. take l.count l.all.now };

    ghost invariant = { λ l. (l.count ≤ length l.all.now) × IfSome l.index (λ i. Indexes i.now l.all.now) };
}

fn is_alias(looked: &[Seen], alias: &Text) -> bool
    ensures { result ≡ list_any (λ b. bytes_eq (alias_of b.source) alias.now) looked.now }
{
    looked.iter().any(|seen| *alias_of(seen.source()) == *alias)
}

impl<'s, 'a> Looked<'s, 'a> {
    /// All sources, and their index, where there is one.
    pub fn all(all: &'s [Seen<'a>], index: Option<&'s Index<'a>>) -> Looked<'s, 'a>
        requires { IfSome index (λ i. Indexes i.now all.now) }
        ensures { result ≡ all.now }
    {
        Looked {
            all,
            count: all.len(),
            index,
        }
    }

    /// The first of them, so many.
    pub fn first(&self, count: usize) -> Looked<'s, 'a>
        requires { count ≤ length self.now }
        ensures { result ≡ take count self.now }
    {
        Looked {
            all: self.all,
            count,
            index: self.index,
        }
    }

    pub fn sources(&self) -> &'s [Seen<'a>]
        ensures { result.now ≡ self.now }
    {
        &self.all[..self.count]
    }

    /// What a ref fits.
    pub fn fits_of(&self, of: &Ref) -> Fits
        ensures { result ≡ fits_of self.now of.now }
    {
        match self.index {
            Some(index) => index.fits_of(self.count, of),
            None => fits_of(self.sources(), of),
        }
    }

    /// Whether one has this alias.
    pub fn has_alias(&self, alias: &Text) -> bool
        ensures { result ≡ list_any (λ b. bytes_eq (alias_of b.source) alias.now) self.now }
    {
        let Some(index) = self.index else {
            return is_alias(self.sources(), alias);
        };
        match index.source_at(alias) {
            Some(source) => source < self.count,
            None => false,
        }
    }
}
