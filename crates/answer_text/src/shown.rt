ghost use Rattle.std.specs.Prelude.{◌≡◌, IfOk, codes};
ghost use Rattle.answer_text.specs.Columns.{escaped, shown};
ghost use Rattle.answer_text.specs.Spelled.{spelled, text_in};

use crate::columns::escaped;
use crate::spelled::{spelled, spelled_json};
use sp_value::{Cell, Kind, Memory};
use std::alloc::Global;

fn printed(alloc: Global, kind: Kind, cell: &Cell) -> Result<Vec<u8>, Memory>
    ensures { IfOk result (λ v. v.items ≡ escaped (spelled kind cell.now)) }
{
    let plain = spelled(alloc, kind, cell)?;
    let text = escaped(alloc, &plain)?;
    Ok(text)
}

fn printed_text(alloc: Global, kind: Kind, words: &[u8], cell: &Cell) -> Result<Vec<u8>, Memory>
    ensures { IfOk result (λ v. v.items ≡ escaped (text_in kind words.now cell.now)) }
{
    if kind == Kind::Json {
        let json = spelled_json(alloc, cell)?;
        let text = escaped(alloc, &json)?;
        Ok(text)
    } else {
        let text = escaped(alloc, words)?;
        Ok(text)
    }
}

/// A cell as columns show it.
pub(crate) fn shown(alloc: Global, kind: Kind, cell: &Cell) -> Result<Vec<u8>, Memory>
    ensures { IfOk result (λ v. v.items ≡ shown kind cell.now) }
{
    match cell {
        Cell::Null => {
            let text = Vec::from_slice(alloc, b"<null>")?;
            Ok(text)
        }
        Cell::Text(words) => {
            let text = printed_text(alloc, kind, words.as_bytes(), cell)?;
            Ok(text)
        }
        _ => {
            let text = printed(alloc, kind, cell)?;
            Ok(text)
        }
    }
}
