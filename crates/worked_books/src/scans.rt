//! Scans in a world that tells nothing: how they begin, and in which way they ended.

ghost use Rattle.std.specs.Prelude.{◌≡◌, ◌≤◌, true, IfSome, IsTrue};
ghost use Rattle.std.specs.Arc.{arc_value};
ghost use Rattle.sp_model.specs.Requests.{IsRequestOf};
ghost use Rattle.sp_model.specs.Sayable.{IsSayableVersion};
ghost use Rattle.sp_model.specs.declared.call.Asked.TheVariants as asks;
ghost use Rattle.decl_words.specs.Sound.{IsSound};
ghost use Rattle.model_laws.specs.LawfulScans.{is_lawful_scan};
ghost use Rattle.one_scan.specs.Views.{AreRows};

use crate::lawful::{is_lawful, is_request_of};
use one_scan::{Scan, ScanEnd};
use sp_model::{Asked, ScanRequest, TableDecl, Version, Walk};
use sp_value::{Text, TryCopy};
use sp_world::{Told, Untold};
use std::alloc::Global;
use std::sync::Arc;

/// In which way a scan ended in rows: a call other than those of functions was asked again, or it stopped at its limit, or all calls came to
/// their ending.
#[derive(Clone, Copy, PartialEq, Eq)]
pub enum Way {
    AskedAgain,
    Incomplete,
    Complete,
}

/// What is asked of a connection for its version.
fn version_asked(alloc: Global, connection: &Text) -> Option<Arc<Asked, Global>>
    ensures { IfSome result (λ a. arc_value a ≡ asks.Version connection.now 0) }
{
    let connection = connection.copy(alloc).ok()?;
    let asked = Asked::Version {
        connection,
        tick: 0,
    };
    Arc::new(alloc, asked).ok()
}

/// Whether a request is one of a sound table and its scan lawful, unless memory is wanting.
fn may_begin(alloc: Global, table: &TableDecl, request: &ScanRequest) -> bool
    requires { IsSound table.now }
    ensures request { IsTrue result → IsRequestOf table.now request.now }
    ensures lawful { IsTrue result → is_lawful_scan table.now request.now ≡ true }
{
    match is_request_of(alloc, table, request) {
        Ok(true) => is_lawful(table, request),
        _ => false,
    }
}

/// The scan of a request at a version, where the request is one of its table and lawful.
pub fn begin(
    alloc: Global,
    table: &Arc<TableDecl, Global>,
    request: &ScanRequest,
    version: Version,
    window: u32,
) -> Option<Scan<Untold>>
    requires sound { IsSound (arc_value table.now) }
    requires sayable { IsSayableVersion version }
    requires window { (1 ≤ window) × (window ≤ 4096) }
{
    if !may_begin(alloc, table, request) {
        return None;
    }
    let Ok(table) = Arc::try_clone(table) else {
        return None;
    };
    let Ok(request) = request.copy(alloc) else {
        return None;
    };
    let asked = version_asked(alloc, &request.connection)?;
    Scan::begin(alloc, request, table, Told::of(asked, version), 0, window).ok()
}

/// Whether a scan ended in rows.
pub fn is_done(scan: &Scan<Untold>) -> bool
    ensures { IsTrue result → AreRows scan.now.end }
{
    match scan.result() {
        Some(ScanEnd::Rows) => true,
        _ => false,
    }
}

/// How many rows a scan ended in.
pub fn row_count(scan: &Scan<Untold>) -> usize {
    if is_done(scan) { scan.rows().len() } else { 0 }
}

/// In which way a scan ended in rows.
pub fn way_of(scan: Scan<Untold>) -> Option<Way> {
    if !is_done(&scan) {
        return None;
    }
    if !scan.steady() {
        return Some(Way::AskedAgain);
    }
    match scan.into_kept() {
        Ok(kept) => Some(if kept.complete() {
            Way::Complete
        } else {
            Way::Incomplete
        }),
        Err(_) => None,
    }
}

/// The same of the plain program's walk.
pub fn way_of_walk(walk: &Walk) -> Option<Way> {
    match walk {
        Walk::Going(state) | Walk::Full(state) if !state.steady => Some(Way::AskedAgain),
        Walk::Going(_) => Some(Way::Complete),
        Walk::Full(_) => Some(Way::Incomplete),
        _ => None,
    }
}
