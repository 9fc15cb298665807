ghost use Rattle.std.specs.Prelude.{◌≡◌};
ghost use Rattle.std.specs.Option.{option_copied};
ghost use Rattle.sp_model.specs.Fields.{or_null, field, is_of_kind};

use sp_value::{Cell, Kind, Text};

/// The value under a name in an object, lent; `None`, which stands for null, where there is none.
pub fn field<'a>(name: &Text, item: &'a Cell) -> Option<&'a Cell>
    ensures { or_null (option_copied result) ≡ field name.now item.now }
{
    match item {
        Cell::Object(members) => members.get(name.as_str()),
        _ => None,
    }
}

/// Whether a value is of a kind: null is of every kind, and every value is of the kind json.
pub fn is_of_kind(kind: Kind, value: &Cell) -> bool
    ensures { result ≡ is_of_kind kind value.now }
{
    match kind {
        Kind::Bool => matches!(value, Cell::Null | Cell::Bool(_)),
        Kind::Int => matches!(value, Cell::Null | Cell::Int(_)),
        Kind::Text => matches!(value, Cell::Null | Cell::Text(_)),
        Kind::Json => true,
    }
}
