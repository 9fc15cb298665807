//! The lines at the end of a load.

ghost use Rattle.std.specs.Prelude.{◌≡◌, ◌<◌, ◌^◌, length, IfOk};
ghost use Rattle.load_gen.specs.Summary.{third, sum_of, summary};

use sp_value::{Cell, Cells, Memory, Rows};
use std::alloc::Global;

/// The integer in the third column, 0 where there is none.
fn third(row: &[Cell]) -> i64
    ensures { result ≡ third row.now }
{
    match row.get(2) {
        Some(Cell::Int(number)) => *number,
        _ => 0,
    }
}

/// The sum of the third column.
fn sum_of(rows: &[Cells]) -> i128
    ensures { result ≡ sum_of rows.now }
{
    let mut sum = 0;
    for row in rows {
        sum += i128::from(third(row.as_slice()));
    }
    sum
}

/// How many rows and calls there were, and the sum of the integers in the third column, as three lines.
pub fn summary(alloc: Global, rows: &Rows, calls: u64) -> Result<Vec<u8>, Memory>
    ensures { IfOk result (λ text. text.items ≡ summary rows.now calls) }
{
    let sum = sum_of(rows.as_slice());
    let text = format!(in alloc; "rows {}\ncalls {calls}\nsum {sum}\n", rows.len())?;
    Ok(text.into_bytes())
}
