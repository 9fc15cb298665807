// Which columns a ref fits.

ghost use Rattle.std.specs.Prelude.{◌≡◌, option_to_list};
ghost use Rattle.sql_bind.specs.Fits.{may_mean, column_named, fit_in, count_fits, fits_of};

use crate::sources::{Seen, alias_of};
use sp_model::ColumnDecl;
use sp_value::{Kind, Text};
use sql_grammar::{Name, Ref};

/// A column of a source, both counted from 0, with its kind.
#[derive(Clone, Copy)]
pub(crate) struct Fit {
    pub source: usize,
    pub column: usize,
    pub kind: Kind,
}

/// What a ref fits among some sources.
#[derive(Clone, Copy)]
pub(crate) enum Fits {
    None,
    One(Fit),
    Several,
}

fn may_mean(name: &Option<Name>, seen: &Seen) -> bool
    ensures { result ≡ may_mean name.now seen.now }
{
    match name {
        None => true,
        Some(name) => *alias_of(seen.source()) == name.text,
    }
}

fn column_named(source: usize, name: &Text, columns: &[ColumnDecl]) -> Option<Fit>
    ensures { result ≡ column_named source 0 name.now columns.now }
{
    for (column, declared) in columns.iter().enumerate() {
        if declared.name == *name {
            return Some(Fit {
                source,
                column,
                kind: declared.kind,
            });
        }
    }
    None
}

fn fit_in(of: &Ref, source: usize, seen: &Seen) -> Option<Fit>
    ensures { result ≡ fit_in of.now source seen.now }
{
    if may_mean(&of.source, seen) {
        column_named(source, &of.column.text, seen.table().columns.as_slice())
    } else {
        None
    }
}

fn counted(found: Option<Fit>) -> Fits
    ensures { result ≡ count_fits (option_to_list found) }
{
    match found {
        None => Fits::None,
        Some(fit) => Fits::One(fit),
    }
}

/// What a ref fits among these sources.
pub(crate) fn fits_of(looked: &[Seen], of: &Ref) -> Fits
    ensures { result ≡ fits_of looked.now of.now }
{
    let mut found = None;
    for (source, seen) in looked.iter().enumerate() {
        if let Some(fit) = fit_in(of, source, seen) {
            if found.is_some() {
                return Fits::Several;
            }
            found = Some(fit);
        }
    }
    counted(found)
}
