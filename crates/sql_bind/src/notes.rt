// The columns of many sources, by what refs ask for.

ghost use Rattle.std.specs.Prelude.{◌≡◌, Some, if◌then◌else◌, OnOk};
ghost use Rattle.std.specs.Option.{option_copied};
ghost use Rattle.sql_grammar.specs.declared.ast.Ref.{Ref as RefValue};
ghost use Rattle.sql_bind.specs.Index.{next_after, is_meant, put_first, fits_below, is_below, noted_at};
ghost use Rattle.sql_bind.specs.Wanted.{Wanted as WantedValue, same_wanted, wanted_by};

use crate::fitting::{Fit, Fits};
use crate::wanted::Wanted;
use indexmap::IndexMap;
use sp_value::Memory;

/// The first column that a ref fits, and the next source with one.
#[derive(Clone, Copy)]
pub(crate) struct Noted {
    pub first: Fit,
    pub next: Option<usize>,
}

fn next_after(source: usize, noted: Option<&Noted>) -> Option<usize>
    ensures { result ≡ next_after source (option_copied noted.entry) }
{
    let noted = noted?;
    if noted.first.source == source {
        noted.next
    } else {
        Some(noted.first.source)
    }
}

/// Puts a column before those that are noted.
fn put<'a>(
    notes: &mut IndexMap<Wanted<'a>, Noted>,
    wanted: Wanted<'a>,
    first: Fit,
) -> Result<(), Memory>
    ensures { OnOk result ((w : WantedValue) → noted_at notes.new w ≡ (if same_wanted wanted.entry w then Some (put_first first (noted_at notes.old wanted.entry)) else noted_at notes.old w)) }
{
    let next = next_after(first.source, notes.get(&wanted));
    notes.insert(wanted, Noted { first, next })?;
    Ok(())
}

/// Puts a column of a source with an alias before those that are noted, for each ref that may mean it.
pub(crate) fn put_column<'a>(
    notes: &mut IndexMap<Wanted<'a>, Noted>,
    alias: &'a str,
    name: &'a str,
    first: Fit,
) -> Result<(), Memory>
    ensures { OnOk result ((r : RefValue) → noted_at notes.new (wanted_by r) ≡ (if is_meant alias.now name.now r then Some (put_first first (noted_at notes.old (wanted_by r))) else noted_at notes.old (wanted_by r))) }
{
    put(notes, Wanted::new(None, name), first)?;
    put(notes, Wanted::new(Some(alias), name), first)?;
    Ok(())
}

fn is_below(count: usize, source: Option<usize>) -> bool
    ensures { result ≡ is_below count source }
{
    match source {
        Some(source) => source < count,
        None => false,
    }
}

/// What is noted says of the first sources, so many.
pub(crate) fn fits_below(count: usize, noted: Option<&Noted>) -> Fits
    ensures { result ≡ fits_below count (option_copied noted.entry) }
{
    let Some(noted) = noted else {
        return Fits::None;
    };
    if noted.first.source >= count {
        Fits::None
    } else if is_below(count, noted.next) {
        Fits::Several
    } else {
        Fits::One(noted.first)
    }
}
