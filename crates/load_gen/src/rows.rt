//! Rows, and what functions give of them.

ghost use Rattle.std.specs.Prelude.{◌≡◌, ◌≤◌, [], ◌∷◌, codes, pos, IfOk};
ghost use Rattle.sp_value.specs.declared.cell.Cell as c;
ghost use Rattle.load_gen.specs.Rows.{item, items, is_throttled, owner, score};

use sp_value::{Cell, Cells, Members, Memory, Text, Texts};
use std::alloc::Global;

/// One value.
pub(crate) fn one_value(alloc: Global, value: Cell) -> Result<Cells, Memory>
    ensures { IfOk result (λ values. values ≡ value ∷ []) }
{
    let mut values = Cells::new(alloc);
    values.push(value)?;
    Ok(values)
}

fn one_name(alloc: Global, name: &str) -> Result<Texts, Memory>
    ensures { IfOk result (λ names. names ≡ name.now ∷ []) }
{
    let mut names = Texts::new(alloc);
    names.push(Text::from_str(alloc, name)?)?;
    Ok(names)
}

/// An object with one value.
fn object(alloc: Global, name: &str, value: Cell) -> Result<Cell, Memory>
    ensures { IfOk result (λ x. x ≡ c.Object ((name.now, value) ∷ [])) }
{
    let values = one_value(alloc, value)?;
    let names = one_name(alloc, name)?;
    Ok(Cell::Object(Members::from_parts(names, values)))
}

fn item_names(alloc: Global) -> Result<Texts, Memory>
    ensures { IfOk result (λ names. names ≡ codes "id" ∷ codes "size" ∷ []) }
{
    let mut names = one_name(alloc, "id")?;
    names.push(Text::from_str(alloc, "size")?)?;
    Ok(names)
}

/// The row of a number, among so many.
fn item(alloc: Global, size: u64, id: u64) -> Result<Cell, Memory>
    requires size { size ≤ 100000 }
    requires id { id ≤ size }
    ensures { IfOk result (λ x. x ≡ item size id) }
{
    let mut values = one_value(alloc, Cell::Int(id as i64))?;
    values.push(Cell::Int(size as i64))?;
    let names = item_names(alloc)?;
    Ok(Cell::Object(Members::from_parts(names, values)))
}

/// So many rows, numbered from 0.
#[tactic(auto, using(crate::proofs::More::items_more))]
pub(crate) fn items(alloc: Global, size: u64) -> Result<Cells, Memory>
    requires { size ≤ 100000 }
    ensures { IfOk result (λ rows. rows ≡ items size) }
{
    let mut rows = Cells::new(alloc);
    for id in 0..size {
        rows.push(item(alloc, size, id)?)?;
    }
    Ok(rows)
}

/// Whether this attempt at the owner of a row is throttled.
pub(crate) fn is_throttled(id: u64, attempt: u32) -> bool
    ensures { result ≡ is_throttled id attempt }
{
    attempt == 1 && id % 10 == 3
}

/// The owner of a row.
pub(crate) fn owner(alloc: Global, id: u64) -> Result<Cell, Memory>
    ensures { IfOk result (λ x. x ≡ owner id) }
{
    let name = format!(in alloc; "o{}", id % 7)?;
    object(alloc, "owner", Cell::Text(Text::from_string(name)))
}

/// The score of a row.
pub(crate) fn score(alloc: Global, id: u64) -> Result<Cell, Memory>
    ensures { IfOk result (λ x. x ≡ score id) }
{
    object(alloc, "score", Cell::Int((id % 1000) as i64))
}
