// The end of a scan, once it is decided.

ghost use Rattle.std.specs.Prelude.{◌≡◌, true, Some, IsTrue, IfOk, IfErr};
ghost use Rattle.std.specs.Arc.{arc_value};
ghost use Rattle.sp_model.specs.declared.outcome.ScanValue.TheVariants as value;
ghost use Rattle.one_scan.specs.Views.{IsOfScan, AreRows};
ghost use Rattle.statement_words.specs.Ended.{IsFailedEnd};
ghost use Rattle.statement_words.specs.Runs.{IsLater};

use desk::Desk;
use one_scan::{Scan, ScanEnd};
use sp_value::{Memory, Rows, TryCopy};
use sp_world::{Kept, World};
use statement_words::Stop;
use std::alloc::Global;
use std::sync::Arc;

/// Whether a scan ended in rows; it stops where it failed.
pub(crate) fn is_done<W: World>(alloc: Global, scan: &Scan<W>, number: u64) -> Result<bool, Stop>
    ensures rows { IfOk result (λ done. IsTrue done → AreRows scan.now.end) }
    ensures failed { IfErr result (IsFailedEnd number scan.now.end) }
    ensures told { IsTrue W.tells → IsOfScan W.book scan.now }
{
    match scan.result() {
        None => Ok(false),
        Some(ScanEnd::Rows) => Ok(true),
        Some(ScanEnd::Failed { row, column, cause }) => {
            let cause = cause.copy(alloc)?;
            let column = match column {
                Some(column) => Some(column.copy(alloc)?),
                None => None,
            };
            Err(Stop::ScanFailed {
                scan: number,
                row,
                column,
                cause,
            })
        }
    }
}

/// The rows of a scan that was given to a desk: its own where nobody else has it, else equal ones.
fn rows_of<W: World>(alloc: Global, kept: Arc<Kept<W>>) -> Result<Rows, Memory>
    ensures { IfOk result (λ rows. rows ≡ (arc_value kept).rows) }
{
    match Arc::try_unwrap(kept) {
        Ok(kept) => Ok(kept.into_scan().rows),
        Err(shared) => shared.rows().copy(alloc),
    }
}

/// Keeps a finished scan, and gives its rows.
#[tactic(auto, using(statement_words::proofs::Stops::later_still, statement_words::proofs::Stops::later_refl))]
fn keep<W: World, D: Desk<W>>(alloc: Global, desk: &mut D, kept: Kept<W>) -> Result<Rows, Memory>
    ensures rows { IfOk result (λ rows. rows ≡ kept.rows) }
    ensures state { IsLater (D.state desk.old) (D.state desk.new) }
{
    let Ok(kept) = Arc::new(alloc, kept) else {
        return Err(Memory);
    };
    match desk.keep_scan(&kept) {
        Ok(()) => rows_of::<W>(alloc, kept),
        Err(_) => Err(Memory),
    }
}

/// Keeps a steady scan that ended in rows, and gives these.
#[tactic(auto, using(statement_words::proofs::Stops::later_refl))]
fn hand_over<W: World, D: Desk<W>>(
    alloc: Global,
    desk: &mut D,
    scan: Scan<W>,
) -> Result<Rows, Memory>
    requires rows { AreRows scan.end }
    requires steady { scan.steady ≡ true }
    ensures rows { IfOk result (λ rows. scan.end ≡ Some (value.Rows rows)) }
    ensures state { IsLater (D.state desk.old) (D.state desk.new) }
{
    match scan.into_kept() {
        Ok(kept) => keep::<W, D>(alloc, desk, kept),
        Err(_) => Err(Memory),
    }
}

/// The rows of a scan that ended in rows. Where it was steady it is kept.
#[tactic(auto, using(statement_words::proofs::Stops::later_refl))]
pub(crate) fn finish<W: World, D: Desk<W>>(
    alloc: Global,
    desk: &mut D,
    scan: Scan<W>,
) -> Result<Rows, Memory>
    requires rows { AreRows scan.end }
    ensures rows { IfOk result (λ rows. scan.end ≡ Some (value.Rows rows)) }
    ensures state { IsLater (D.state desk.old) (D.state desk.new) }
{
    if scan.steady() {
        hand_over::<W, D>(alloc, desk, scan)
    } else {
        Ok(scan.into_rows())
    }
}
