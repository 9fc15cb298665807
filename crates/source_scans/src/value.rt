// Values told apart, as sent conditions tell them apart.

ghost use Rattle.std.specs.Prelude.{◌≡◌, ◌++◌, fold};
ghost use Rattle.sp_value.specs.declared.cell.Cell.TheViews.{out-Cell};
ghost use Rattle.sp_model.specs.Conditions.{value_rank};
ghost use Rattle.source_scans.specs.Telling.{number_of, text_of, same_value, value_writes};

use sp_value::Cell;
use std::hash::{Hash, Hasher};

fn value_rank(value: &Cell) -> u8
    ensures { result ≡ value_rank (out-Cell value.now) }
{
    match value {
        Cell::Bool(_) => 0,
        Cell::Int(_) => 1,
        Cell::Text(_) => 2,
        _ => 3,
    }
}

fn number_of(value: &Cell) -> i64
    ensures { result ≡ number_of value.now }
{
    match value {
        Cell::Bool(true) => 1,
        Cell::Int(number) => *number,
        _ => 0,
    }
}

fn text_of(value: &Cell) -> &str
    ensures { result.now ≡ text_of value.now }
{
    match value {
        Cell::Text(text) => text.as_str(),
        _ => "",
    }
}

/// Whether two values are the same boolean, integer or text, or both none of these.
pub(crate) fn same_value(left: &Cell, right: &Cell) -> bool
    ensures { result ≡ same_value left.now right.now }
{
    value_rank(left) == value_rank(right)
        && number_of(left) == number_of(right)
        && text_of(left) == text_of(right)
}

pub(crate) fn hash_value<H: Hasher>(value: &Cell, state: &mut H)
    ensures { state.new ≡ fold H.write state.old (value_writes value.now) }
{
    state.write_u8(value_rank(value));
    state.write_i64(number_of(value));
    text_of(value).hash(state);
}
