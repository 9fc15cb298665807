// What stands among others, looked for where it is expected.

ghost use Rattle.std.specs.Prelude.{◌≡◌, ◌≤◌, ◌<◌, length, is_some, IfSome, bytes_eq};
ghost use Rattle.std.specs.List.{list_any, list_all};
ghost use Rattle.sp_model.specs.Covers.{same_condition};

use sp_model::{Condition, compare_conditions};
use sp_value::Text;
use std::cmp::Ordering;

/// What can be told from others of its kind.
pub(crate) trait Alike {
    ghost use Rattle.std.specs.Prelude.{Bool};

    ghost same: { Self → Self → Bool };

    fn is_same(&self, other: &Self) -> bool
        ensures { result ≡ same self.now other.now };
}

impl Alike for Text {
    ghost use Rattle.std.specs.Prelude.{bytes_eq};

    ghost same = { bytes_eq };

    fn is_same(&self, other: &Text) -> bool {
        *self == *other
    }
}

impl Alike for Condition {
    ghost use Rattle.sp_model.specs.Covers.{same_condition};

    ghost same = { same_condition };

    fn is_same(&self, other: &Condition) -> bool {
        compare_conditions(self, other) == Ordering::Equal
    }
}

/// The place of the first that is the same.
fn first_place<T: Alike>(all: &[T], one: &T) -> Option<usize>
    ensures among { is_some result ≡ list_any (T.same one.now) all.now }
    ensures within { IfSome result (λ place. place < length all.now) }
{
    for (index, other) in all.iter().enumerate() {
        if one.is_same(other) {
            return Some(index);
        }
    }
    None
}

/// A place of one that is the same, looked for from a place on, and then before it.
fn place_from<T: Alike>(all: &[T], from: usize, one: &T) -> Option<usize>
    requires { from ≤ length all.now }
    ensures among { is_some result ≡ list_any (T.same one.now) all.now }
    ensures within { IfSome result (λ place. place < length all.now) }
{
    let (before, after) = all.split_at(from);
    match first_place(after, one) {
        Some(place) => Some(from + place),
        None => first_place(before, one),
    }
}

/// Whether each of some is among all. Where some stand in the order of all, it goes over all once.
pub(crate) fn are_among<T: Alike>(all: &[T], some: &[T]) -> bool
    ensures { result ≡ list_all (λ one. list_any (T.same one) all.now) some.now }
{
    let mut from = 0;
    for one in some {
        match place_from(all, from, one) {
            Some(place) => from = place + 1,
            None => return false,
        }
    }
    true
}

/// Whether one is among all.
pub(crate) fn is_among<T: Alike>(all: &[T], one: &T) -> bool
    ensures { result ≡ list_any (T.same one.now) all.now }
{
    first_place(all, one).is_some()
}
