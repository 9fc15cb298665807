ghost use Rattle.std.specs.Prelude.{◌≡◌, Some, IfOk, true, false, IsTrue, ◌↔◌, ◌≤◌, ◌<◌};
ghost use Rattle.serde_json.specs.Data.{items_depth, members_depth, depth as data_depth};
ghost use Rattle.serde_json.specs.View.{view, items_view, members_view};
ghost use Rattle.serde_json.specs.Written.{has_float};
ghost use Rattle.sp_value.specs.Depth.{depth};
ghost use Rattle.sp_value.specs.Json.{has_odd_number, items_odd, members_odd, cell_of, cells_of, pairs_of, data_of, cells_data, pairs_data};

use crate::cell::Cell;
use crate::members::Members;
use crate::text::{Memory, Text};
use serde_json::{Map, Number, Value};
use sqlite_items::Items;
use std::alloc::Global;
use thiserror::Error;

/// Why JSON is no value here.
#[derive(Debug, Drop, Error)]
pub enum CellFault {
    #[error("a number is no integer of 64 bits")]
    Number,
    #[error("lists and objects nest more than 100 deep")]
    TooDeep,
    #[error("out of memory")]
    Memory,
}

impl From<Memory> for CellFault {
    ghost use Rattle.sp_value.specs.declared.json.CellFault.TheVariants as fault;

    ghost from_gives = { λ _ e. e ≡ fault.Memory };

    fn from(_e: Memory) -> CellFault {
        CellFault::Memory
    }
}

/// The value that JSON stands for. It is `Number` exactly where some number is no integer of 64 bits
/// with a sign, else `TooDeep` exactly where lists and objects nest more than 100 deep.
#[tactic(auto, using(crate::proofs::JsonLaws::depth_of_cell))]
pub fn from_json(alloc: Global, value: &Value) -> Result<Cell, CellFault>
    ensures value { IfOk result (λ c. cell_of (view value.now) ≡ Some c) }
    ensures same_depth { IfOk result (λ c. depth c ≡ data_depth (view value.now)) }
    ensures within { IfOk result (λ c. depth c ≤ 100) }
    ensures number { (result ≡ Err CellFault.Number) ↔ (has_odd_number (view value.now) ≡ true) }
    ensures deep { (result ≡ Err CellFault.TooDeep) ↔ ((has_odd_number (view value.now) ≡ false) × (100 < data_depth (view value.now))) }
{
    if has_odd_number(value) {
        return Err(CellFault::Number);
    }
    if !nests(value, 100) {
        return Err(CellFault::TooDeep);
    }
    let cell = convert(alloc, value)?;
    Ok(cell)
}

/// Whether some number is no integer of 64 bits with a sign.
#[cycle(odd)]
pub fn has_odd_number(value: &Value) -> bool
    ensures { result ≡ has_odd_number (view value.now) }
{
    match value {
        Value::Number(n) => n.as_i64().is_none(),
        Value::Array(items) => items_odd(items),
        Value::Object(members) => members_odd(members),
        _ => false,
    }
}

#[cycle(odd)]
fn items_odd(items: &Vec<Value>) -> bool
    ensures { result ≡ items_odd (items_view items.now.items) }
{
    for item in items {
        if has_odd_number(item) {
            return true;
        }
    }
    false
}

#[cycle(odd)]
fn members_odd(members: &Map<String, Value>) -> bool
    ensures { result ≡ members_odd (members_view members.now.entries) }
{
    for (_key, member) in members.iter() {
        if has_odd_number(member) {
            return true;
        }
    }
    false
}

/// Whether lists and objects nest at most `room` deep.
#[cycle(nests)]
pub fn nests(value: &Value, room: u64) -> bool
    ensures { IsTrue result ↔ (data_depth (view value.now) ≤ room) }
{
    match value {
        Value::Array(items) => room > 0 && items_nest(items, room - 1),
        Value::Object(members) => room > 0 && members_nest(members, room - 1),
        _ => true,
    }
}

#[cycle(nests)]
fn items_nest(items: &Vec<Value>, room: u64) -> bool
    ensures { IsTrue result ↔ (items_depth (items_view items.now.items) ≤ room) }
{
    for item in items {
        if !nests(item, room) {
            return false;
        }
    }
    true
}

#[cycle(nests)]
fn members_nest(members: &Map<String, Value>, room: u64) -> bool
    ensures { IsTrue result ↔ (members_depth (members_view members.now.entries) ≤ room) }
{
    for (_key, member) in members.iter() {
        if !nests(member, room) {
            return false;
        }
    }
    true
}

#[cycle(convert)]
fn convert(alloc: Global, value: &Value) -> Result<Cell, Memory>
    requires { has_odd_number (view value.now) ≡ false }
    ensures { IfOk result (λ c. cell_of (view value.now) ≡ Some c) }
{
    match value {
        Value::Null => Ok(Cell::Null),
        Value::Bool(b) => Ok(Cell::Bool(*b)),
        Value::Number(n) => match n.as_i64() {
            Some(z) => Ok(Cell::Int(z)),
            None => unreachable!(),
        },
        Value::String(text) => Ok(Cell::Text(Text::from_str(alloc, text.as_str())?)),
        Value::Array(items) => Ok(Cell::List(convert_items(alloc, items)?)),
        Value::Object(members) => Ok(Cell::Object(convert_members(alloc, members)?)),
    }
}

#[cycle(convert)]
fn convert_items(alloc: Global, items: &Vec<Value>) -> Result<Items<Cell>, Memory>
    requires { items_odd (items_view items.now.items) ≡ false }
    ensures { IfOk result (λ cs. cells_of (items_view items.now.items) ≡ Some cs) }
{
    let mut cells = Vec::with_capacity(alloc, items.len())?;
    for item in items {
        cells.push(convert(alloc, item)?)?;
    }
    Ok(Items::from_vec(cells))
}

#[cycle(convert)]
fn convert_members(alloc: Global, members: &Map<String, Value>) -> Result<Members, Memory>
    requires { members_odd (members_view members.now.entries) ≡ false }
    ensures { IfOk result (λ ms. pairs_of (members_view members.now.entries) ≡ Some ms) }
{
    let mut names = Vec::with_capacity(alloc, members.len())?;
    let mut values = Vec::with_capacity(alloc, members.len())?;
    for (key, member) in members.iter() {
        let name = Text::from_str(alloc, key.as_str())?;
        let value = convert(alloc, member)?;
        names.push(name)?;
        values.push(value)?;
    }
    Ok(Members::from_parts(Items::from_vec(names), Items::from_vec(values)))
}

/// The values under their names that a JSON object stands for, where each of its numbers is an integer of 64 bits with a sign.
pub fn members_from_json(alloc: Global, members: &Map<String, Value>) -> Result<Members, Memory>
    requires { members_odd (members_view members.now.entries) ≡ false }
    ensures { IfOk result (λ ms. pairs_of (members_view members.now.entries) ≡ Some ms) }
{
    let members = convert_members(alloc, members)?;
    Ok(members)
}

/// The JSON that a value is written as. Its numbers are integers of 64 bits with a sign, it has no
/// float, it nests as deep as the value, and it reads as the value again.
#[tactic(auto, using(crate::proofs::JsonLaws::whole_of_cell, crate::proofs::JsonLaws::no_float_of_cell, crate::proofs::JsonLaws::depth_of_cell))]
pub fn to_json(alloc: Global, cell: &Cell) -> Result<Value, Memory>
    ensures value { IfOk result (λ v. view v ≡ data_of cell.now) }
    ensures reads_back { IfOk result (λ v. cell_of (view v) ≡ Some cell.now) }
    ensures whole { IfOk result (λ v. has_odd_number (view v) ≡ false) }
    ensures no_float { IfOk result (λ v. has_float (view v) ≡ false) }
    ensures same_depth { IfOk result (λ v. depth cell.now ≡ data_depth (view v)) }
{
    let value = written(alloc, cell)?;
    Ok(value)
}

/// The JSON object that values under names are written as. It reads as these values again.
pub fn members_to_json(alloc: Global, members: &Members) -> Result<Map<String, Value>, Memory>
    ensures value { IfOk result (λ m. members_view m.entries ≡ pairs_data members.now) }
    ensures reads_back { IfOk result (λ m. pairs_of (members_view m.entries) ≡ Some members.now) }
{
    let map = members_written(alloc, members)?;
    Ok(map)
}

#[cycle(written)]
fn written(alloc: Global, cell: &Cell) -> Result<Value, Memory>
    ensures value { IfOk result (λ v. view v ≡ data_of cell.now) }
    ensures reads_back { IfOk result (λ v. cell_of (view v) ≡ Some cell.now) }
{
    match cell {
        Cell::Null => Ok(Value::Null),
        Cell::Bool(b) => Ok(Value::Bool(*b)),
        Cell::Int(n) => Ok(Value::Number(Number::from(*n))),
        Cell::Text(text) => Ok(Value::String(String::from_str(alloc, text.as_str())?)),
        Cell::List(cells) => Ok(Value::Array(cells_written(alloc, cells.as_slice())?)),
        Cell::Object(members) => Ok(Value::Object(members_written(alloc, members)?)),
    }
}

#[cycle(written)]
fn cells_written(alloc: Global, cells: &[Cell]) -> Result<Vec<Value>, Memory>
    ensures value { IfOk result (λ vs. items_view vs.items ≡ cells_data cells.now) }
    ensures reads_back { IfOk result (λ vs. cells_of (items_view vs.items) ≡ Some cells.now) }
{
    let mut values = Vec::with_capacity(alloc, cells.len())?;
    for cell in cells {
        values.push(written(alloc, cell)?)?;
    }
    Ok(values)
}

#[cycle(written)]
fn members_written(alloc: Global, members: &Members) -> Result<Map<String, Value>, Memory>
    ensures value { IfOk result (λ m. members_view m.entries ≡ pairs_data members.now) }
    ensures reads_back { IfOk result (λ m. pairs_of (members_view m.entries) ≡ Some members.now) }
{
    let mut map = Map::new(alloc);
    let names = members.names();
    let values = members.values();
    for (index, value) in values.iter().enumerate() {
        let json = written(alloc, value)?;
        let key = String::from_str(alloc, names[index].as_str())?;
        let before = map.insert(key, json)?;
        drop(before);
    }
    Ok(map)
}
