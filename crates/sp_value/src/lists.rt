ghost use Rattle.std.specs.Prelude.{◌≡◌, IfOk};

use crate::cell::Cell;
use crate::kind::Kind;
use crate::text::{Memory, Text};
use sqlite_items::Items;
use std::alloc::Global;

/// A list of values, seen by contracts as a list.
pub type Cells = Items<Cell>;

/// A list of texts, seen by contracts as a list of lists of bytes.
pub type Texts = Items<Text>;

/// A list of kinds, seen by contracts as a list.
pub type Kinds = Items<Kind>;

/// Equal texts in the same order, unless memory is wanting.
pub fn copy_texts(alloc: Global, texts: &[Text]) -> Result<Texts, Memory>
    ensures { IfOk result (λ copies. copies ≡ texts.now) }
{
    let mut copies = Vec::with_capacity(alloc, texts.len())?;
    for text in texts {
        copies.push(Text::from_str(alloc, text.as_str())?)?;
    }
    Ok(Items::from_vec(copies))
}
