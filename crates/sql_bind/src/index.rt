// An index of many sources, so that what a ref fits is told at once.

ghost use Rattle.std.specs.Prelude.{◌≡◌, ◌+◌, ◌<◌, length, IfOk, IfSome, OnOk};
ghost use Rattle.sql_bind.specs.Index.{NotesFrom, AliasesFrom, Indexes, fits_below, noted_at, source_at};
ghost use Rattle.sql_bind.specs.Wanted.{wanted_by};

use crate::fitting::{Fit, Fits};
use crate::notes::{Noted, fits_below, put_column};
use crate::sources::{Seen, alias_of};
use crate::wanted::Wanted;
use indexmap::IndexMap;
use sp_value::{Memory, Text};
use sql_grammar::Ref;
use std::alloc::Global;

/// For what refs ask for, the first column and the next source with one; and for each alias its first source.
#[derive(Drop)]
pub(crate) struct Index<'a> {
    notes: IndexMap<Wanted<'a>, Noted>,
    aliases: IndexMap<&'a str, usize>,
}

/// Puts the columns of the n-th source before those of the sources after it.
fn note_columns<'a>(
    notes: &mut IndexMap<Wanted<'a>, Noted>,
    all: &[Seen<'a>],
    n: usize,
) -> Result<(), Memory>
    requires within { n < length all.now }
    requires later { NotesFrom notes.old (n + 1) all.now }
    ensures { OnOk result (NotesFrom notes.new n all.now) }
{
    let seen = &all[n];
    let alias = alias_of(seen.source()).as_str();
    let columns = seen.table().columns.as_slice();
    for column in (0..columns.len()).rev() {
        let declared = &columns[column];
        let fit = Fit {
            source: n,
            column,
            kind: declared.kind,
        };
        put_column(notes, alias, declared.name.as_str(), fit)?;
    }
    Ok(())
}

/// Gives the n-th source's alias to it.
fn note_alias<'a>(
    aliases: &mut IndexMap<&'a str, usize>,
    all: &[Seen<'a>],
    n: usize,
) -> Result<(), Memory>
    requires within { n < length all.now }
    requires later { AliasesFrom aliases.old (n + 1) all.now }
    ensures { OnOk result (AliasesFrom aliases.new n all.now) }
{
    aliases.insert(alias_of(all[n].source()).as_str(), n)?;
    Ok(())
}

impl<'a> Index<'a> {
    /// The index of sources. The last is put in first, so that the first of an alias or a name stands.
    fn of(alloc: Global, all: &[Seen<'a>]) -> Result<Index<'a>, Memory>
        ensures { IfOk result (λ index. Indexes index all.now) }
    {
        let mut notes = IndexMap::new(alloc);
        let mut aliases = IndexMap::new(alloc);
        for n in (0..all.len()).rev() {
            note_columns(&mut notes, all, n)?;
            note_alias(&mut aliases, all, n)?;
        }
        Ok(Index { notes, aliases })
    }

    /// What a ref fits among the first sources, so many.
    pub fn fits_of(&self, count: usize, of: &Ref) -> Fits
        ensures { result ≡ fits_below count (noted_at self.now.notes (wanted_by of.now)) }
    {
        fits_below(count, self.notes.get(&Wanted::by(of)))
    }

    /// The first source of an alias.
    pub fn source_at(&self, alias: &Text) -> Option<usize>
        ensures { result ≡ source_at self.now.aliases alias.now }
    {
        self.aliases.get(alias.as_str()).copied()
    }
}

/// The index of sources, where they are more than a ref is looked up in one by one.
pub(crate) fn index_of<'a>(alloc: Global, all: &[Seen<'a>]) -> Result<Option<Index<'a>>, Memory>
    ensures { IfOk result (λ index. IfSome index (λ i. Indexes i all.now)) }
{
    if all.len() <= 8 {
        return Ok(None);
    }
    let index = Index::of(alloc, all)?;
    Ok(Some(index))
}
