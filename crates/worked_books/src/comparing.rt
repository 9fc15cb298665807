//! A scan beside the plain program.

use crate::scans::is_done;
use one_scan::{Scan, ScanEnd};
use sp_model::{Cause, ScanValue};
use sp_value::{Cells, Rows, Text, same_cell, same_cells};
use sp_world::Untold;

fn same_rows(left: &[Cells], right: &[Cells]) -> bool {
    left.len() == right.len()
        && left
            .iter()
            .zip(right.iter())
            .all(|(a, b)| same_cells(a.as_slice(), b.as_slice()))
}

fn same_column(left: Option<&Text>, right: &Option<Text>) -> bool {
    match (left, right) {
        (None, None) => true,
        (Some(left), Some(right)) => *left == *right,
        _ => false,
    }
}

fn same_cause(left: &Cause, right: &Cause) -> bool {
    match (left, right) {
        (
            Cause::Error {
                function: f,
                attempt: a,
                text: t,
            },
            Cause::Error {
                function: g,
                attempt: b,
                text: u,
            },
        ) => *f == *g && *a == *b && *t == *u,
        (Cause::BadValue(a), Cause::BadValue(b)) => same_cell(a, b),
        (
            Cause::TooMany {
                function: f,
                count: a,
            },
            Cause::TooMany {
                function: g,
                count: b,
            },
        ) => { *f == *g && *a == *b }
        (Cause::BadVersion(a), Cause::BadVersion(b)) => *a == *b,
        _ => false,
    }
}

/// Whether a scan ended in these rows.
fn ends_in_rows(scan: &Scan<Untold>, rows: &Rows) -> bool {
    is_done(scan) && same_rows(scan.rows().as_slice(), rows.as_slice())
}

/// Whether a scan failed so.
fn fails_at(scan: &Scan<Untold>, at: u64, in_column: &Option<Text>, by: &Cause) -> bool {
    match scan.result() {
        Some(ScanEnd::Failed { row, column, cause }) => {
            row == at && same_column(column, in_column) && same_cause(cause, by)
        }
        _ => false,
    }
}

/// Whether a scan ended as the plain program says.
pub fn same_end(scan: &Scan<Untold>, value: &ScanValue) -> bool {
    match value {
        ScanValue::Rows(rows) => ends_in_rows(scan, rows),
        ScanValue::Failed { row, column, cause } => fails_at(scan, *row, column, cause),
    }
}
