ghost use Rattle.std.specs.Prelude.{◌≡◌, ◌↔◌, IsTrue};

use sp_model::{Backoff, Matching, Need};
use sp_value::{Kind, Op, Text};
use sqlite_items::Items;

/// A value that can be compared as a whole.
pub trait Same {
    /// Whether it is the other one.
    fn same(&self, other: &Self) -> bool
        ensures { IsTrue result ↔ (self.now ≡ other.now) };
}

impl Same for Text {
    fn same(&self, other: &Text) -> bool {
        *self == *other
    }
}

impl Same for Kind {
    fn same(&self, other: &Kind) -> bool {
        *self == *other
    }
}

impl Same for Op {
    fn same(&self, other: &Op) -> bool {
        *self == *other
    }
}

impl Same for Need {
    fn same(&self, other: &Need) -> bool {
        *self == *other
    }
}

impl Same for Matching {
    fn same(&self, other: &Matching) -> bool {
        *self == *other
    }
}

impl Same for Backoff {
    fn same(&self, other: &Backoff) -> bool {
        *self == *other
    }
}

/// Whether two lists are the same.
fn same_items<T: Same>(left: &[T], right: &[T]) -> bool
    ensures { IsTrue result ↔ (left.now ≡ right.now) }
{
    if left.len() != right.len() {
        return false;
    }
    for index in 0..left.len() {
        if !left[index].same(&right[index]) {
            return false;
        }
    }
    true
}

impl<T: Same> Same for Items<T> {
    fn same(&self, other: &Items<T>) -> bool {
        same_items(self.as_slice(), other.as_slice())
    }
}

impl<T: Same> Same for Option<T> {
    fn same(&self, other: &Option<T>) -> bool {
        match (self, other) {
            (None, None) => true,
            (Some(left), Some(right)) => left.same(right),
            _ => false,
        }
    }
}
