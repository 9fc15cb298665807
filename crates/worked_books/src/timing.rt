//! One scan in memory of a table of many items, to be timed.

ghost use Rattle.std.specs.Prelude.{◌≡◌, ◌≤◌, ◌<◌, IfSome};
ghost use Rattle.sp_model.specs.Sayable.{IsItem};
ghost use Rattle.sp_world.specs.Pieces.{IsSoundPiece};

use crate::scans::{begin, row_count};
use crate::tables::declared;
use one_scan::Scan;
use row_flight::{JobList, Taken, Wanted};
use serde_json::Value;
use sp_model::{
    Access, Asked, Call, ColumnDecl, Ending, Piece, ScanRequest, Seat, TableDecl, Version,
};
use sp_value::{Cell, Text, Texts, TryCopy};
use sp_world::{Told, Untold, item_from};
use sqlite_items::Items;
use std::alloc::Global;
use std::sync::Arc;

const PLAIN: &str = r#"{"tables":[{"name":"item","columns":[
  {"name":"name","kind":"text"},{"name":"size","kind":"int"},{"name":"region","kind":"text"},{"name":"acl","kind":"text"},
  {"name":"policy","kind":"text"}],"list":{"function":"list"}}]}"#;

/// The second of its functions needs what the first gives.
const WITH_FUNCTIONS: &str = r#"{"tables":[{"name":"item","columns":[
  {"name":"name","kind":"text"},{"name":"size","kind":"int"},{"name":"region","kind":"text"},
  {"name":"acl","kind":"text","function":"getAcl"},{"name":"policy","kind":"text","function":"getPolicy"}],
  "list":{"function":"list"},"functions":[{"name":"getAcl"},{"name":"getPolicy","depends":["getAcl"]}]}]}"#;

/// Each item, and what each function gives.
const ITEM: &str = r#"{"name":"b1","size":7,"region":"eu","acl":"x","policy":"p"}"#;

/// What is listed and what functions are called for.
#[derive(Clone, Copy, PartialEq, Eq)]
pub enum Timed {
    Items,
    Calls,
}

impl Timed {
    pub fn named(word: &str) -> Option<Timed> {
        match word {
            "items" => Some(Timed::Items),
            "calls" => Some(Timed::Calls),
            _ => None,
        }
    }

    fn declaration(self) -> &'static str {
        match self {
            Timed::Items => PLAIN,
            Timed::Calls => WITH_FUNCTIONS,
        }
    }
}

fn item(alloc: Global) -> Option<Cell>
    ensures { IfSome result IsItem }
{
    item_from(alloc, &Value::from_str(alloc, ITEM).ok()?).ok()?
}

fn names(alloc: Global, columns: &[ColumnDecl]) -> Option<Texts> {
    let mut names = Items::new(alloc);
    for column in columns {
        names.push(column.name.copy(alloc).ok()?).ok()?;
    }
    Some(names)
}

/// A request for all columns of all items.
fn request(alloc: Global, table: &TableDecl) -> Option<ScanRequest> {
    Some(ScanRequest {
        connection: Text::from_str(alloc, "c").ok()?,
        table: table.name.copy(alloc).ok()?,
        access: Access::List,
        conditions: Items::new(alloc),
        columns: names(alloc, table.columns.as_slice())?,
        subset: Items::new(alloc),
        limit: None,
    })
}

fn scan_of(alloc: Global, timed: Timed) -> Option<Scan<Untold>> {
    let table = declared(alloc, timed.declaration())?;
    let request = request(alloc, &table)?;
    let Ok(table) = Arc::new(alloc, table) else {
        return None;
    };
    begin(alloc, &table, &request, Version::Is(7), 256)
}

fn item_piece(alloc: Global, place: u64, item: &Cell) -> Option<Piece>
    requires item { IsItem item.now }
    requires place { place < 999999 }
    ensures { IfSome result IsSoundPiece }
{
    let item = item.copy(alloc).ok()?;
    Some(Piece::Item { place, item })
}

/// Gives a piece to the scan, which has to use it.
fn give(
    alloc: Global,
    scan: &mut Scan<Untold>,
    seat: Seat,
    asked: &Arc<Asked, Global>,
    piece: Piece,
) -> Option<()>
    requires { IsSoundPiece piece }
{
    let told = Told::of(Arc::try_clone(asked).ok()?, piece);
    match scan.answered(alloc, seat, told, 0) {
        Taken::Used => Some(()),
        Taken::Late | Taken::Memory => None,
    }
}

/// Answers a call by an item so many times.
fn answer(
    alloc: Global,
    scan: &mut Scan<Untold>,
    wanted: Wanted,
    item: &Cell,
    count: u64,
) -> Option<()>
    requires item { IsItem item.now }
    requires count { count ≤ 999999 }
{
    let Wanted { call, seat, due: _ } = wanted;
    let asked = Arc::new(alloc, Asked::Call(call)).ok()?;
    for place in 0..count {
        let piece = item_piece(alloc, place, item)?;
        give(alloc, scan, seat, &asked, piece)?;
    }
    let ending = Ending::End;
    give(alloc, scan, seat, &asked, Piece::Ending { count, ending })
}

/// Answers calls: the list by so many items, a function by one.
fn answer_all(
    alloc: Global,
    scan: &mut Scan<Untold>,
    calls: &mut JobList,
    item: &Cell,
    count: u64,
) -> Option<()>
    requires item { IsItem item.now }
    requires count { (1 ≤ count) × (count ≤ 999999) }
{
    for _ in 0..calls.len() {
        let wanted = calls.pop()?;
        let items = match &wanted.call.call {
            Call::Hydrate { .. } => 1,
            _ => count,
        };
        answer(alloc, scan, wanted, item, items)?;
    }
    Some(())
}

/// Answers all calls that the scan makes.
fn feed(alloc: Global, scan: &mut Scan<Untold>, item: &Cell, count: u64) -> Option<()>
    requires item { IsItem item.now }
    requires count { (1 ≤ count) × (count ≤ 999999) }
{
    for _ in 0..u64::MAX {
        let mut calls = Items::new(alloc);
        scan.wanted(alloc, 1, &mut calls).ok()?;
        if calls.is_empty() {
            return Some(());
        }
        answer_all(alloc, scan, &mut calls, item, count)?;
    }
    None
}

/// How many rows the scan of so many items gives, of which there may be 1 to 999,999.
pub fn rows_of(alloc: Global, timed: Timed, count: u64) -> Option<usize> {
    if count == 0 || count > 999_999 {
        return None;
    }
    let item = item(alloc)?;
    let mut scan = scan_of(alloc, timed)?;
    feed(alloc, &mut scan, &item, count)?;
    Some(row_count(&scan))
}
