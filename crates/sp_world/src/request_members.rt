// The members of a request, before and behind its number.

ghost use Rattle.std.specs.Prelude.{◌≡◌, ◌≤◌, ◌<◌, ◌^◌, Some, false, true, IfOk, OnOk};
ghost use Rattle.serde_json.specs.Data.{depth, object};
ghost use Rattle.serde_json.specs.View.{view};
ghost use Rattle.serde_json.specs.Written.{has_float};
ghost use Rattle.sp_value.specs.Json.{has_odd_number, data_of, pairs_data, members_from};
ghost use Rattle.sp_model.specs.Conditions.{is_canonical};
ghost use Rattle.sp_model.specs.Sayable.{IsItem};
ghost use Rattle.sp_world.specs.ReplyLines.{item_of};
ghost use Rattle.sp_world.specs.RequestLines.{function_data, conditions_data, parent_data, selecting_before, naming_before, list_behind, table_behind, hydrate_behind, connection_before, version_behind, declare_behind, members_before, members_behind, conditions_of, parent_of, results_of, IsParentForm, AreResults};
ghost use Rattle.sp_world.specs.LineParts.{IsBeforeForm, IsBehindForm, IsReadBefore, IsReadBehind};
ghost use Rattle.sp_model.specs.declared.call.Asked.TheVariants as asked;

use crate::reply_lines::made;
use crate::request_json::{conditions_json, function_json, parent_json, results_json};
use serde_json::{Value, json};
use sp_model::{Asked, Call, CallKey, Conditions};
use sp_value::{Cell, Members, Memory, Text, to_json};
use std::alloc::{AllocError, Global};

// ---- as JSON

fn selecting_json(
    alloc: Global,
    key: &CallKey,
    function: Value,
    conditions: Value,
) -> Result<Value, AllocError>
    ensures value { IfOk result (λ v. view v ≡ object (members_from (selecting_before key.now (view function) (view conditions)))) }
    ensures attempt { OnOk result (key.now.attempt < 2 ^ 32) }
{
    json!(in alloc; {"attempt": key.attempt, "conditions": conditions, "connection": key.connection.as_str(), "function": function})
}

fn naming_json(alloc: Global, key: &CallKey, function: Value) -> Result<Value, AllocError>
    ensures value { IfOk result (λ v. view v ≡ object (members_from (naming_before key.now (view function)))) }
    ensures attempt { OnOk result (key.now.attempt < 2 ^ 32) }
{
    json!(in alloc; {"attempt": key.attempt, "connection": key.connection.as_str(), "function": function})
}

fn connection_json(alloc: Global, connection: &str) -> Result<Value, AllocError>
    ensures { IfOk result (λ v. view v ≡ object (members_from (connection_before connection.now))) }
{
    json!(in alloc; {"connection": connection})
}

fn list_json(alloc: Global, key: &CallKey, table: &str, parent: Value) -> Result<Value, AllocError>
    ensures { IfOk result (λ v. view v ≡ object (members_from (list_behind key.now table.now (view parent)))) }
{
    json!(in alloc; {"op": "list", "parent": parent, "table": table, "version": key.version})
}

fn table_json(
    alloc: Global,
    operation: &str,
    key: &CallKey,
    table: &str,
) -> Result<Value, AllocError>
    ensures { IfOk result (λ v. view v ≡ object (members_from (table_behind operation.now key.now table.now))) }
{
    json!(in alloc; {"op": operation, "table": table, "version": key.version})
}

fn hydrate_json(
    alloc: Global,
    key: &CallKey,
    table: &str,
    item: Value,
    results: Value,
) -> Result<Value, AllocError>
    ensures { IfOk result (λ v. view v ≡ object (members_from (hydrate_behind key.now table.now (view item) (view results)))) }
{
    json!(in alloc; {"item": item, "op": "hydrate", "results": results, "table": table, "version": key.version})
}

fn version_json(alloc: Global, tick: u64) -> Result<Value, AllocError>
    ensures { IfOk result (λ v. view v ≡ object (members_from (version_behind tick))) }
{
    json!(in alloc; {"op": "version", "tick": tick})
}

fn declare_json(alloc: Global) -> Result<Value, AllocError>
    ensures { IfOk result (λ v. view v ≡ object (members_from declare_behind)) }
{
    json!(in alloc; {"op": "declare"})
}

// ---- before the number

fn selecting(
    alloc: Global,
    key: &CallKey,
    function: &Option<Text>,
    conditions: &Conditions,
) -> Result<Value, Memory>
    ensures value { IfOk result (λ v. view v ≡ object (members_from (selecting_before key.now (function_data function.now) (conditions_data conditions.now)))) }
    ensures attempt { OnOk result (key.now.attempt < 2 ^ 32) }
    ensures back { OnOk result (is_canonical conditions.now ≡ true → conditions_of (conditions_data conditions.now) ≡ Some conditions.now) }
    ensures no_float { IfOk result (λ v. has_float (view v) ≡ false) }
    ensures whole { IfOk result (λ v. has_odd_number (view v) ≡ false) }
    ensures nests { IfOk result (λ v. is_canonical conditions.now ≡ true → depth (view v) ≤ 102) }
{
    let name = function_json(alloc, function)?;
    let conditions = conditions_json(alloc, conditions.as_slice())?;
    let value = made(selecting_json(alloc, key, name, conditions))?;
    Ok(value)
}

fn naming(alloc: Global, key: &CallKey, function: &Option<Text>) -> Result<Value, Memory>
    ensures value { IfOk result (λ v. view v ≡ object (members_from (naming_before key.now (function_data function.now)))) }
    ensures attempt { OnOk result (key.now.attempt < 2 ^ 32) }
    ensures no_float { IfOk result (λ v. has_float (view v) ≡ false) }
    ensures whole { IfOk result (λ v. has_odd_number (view v) ≡ false) }
    ensures nests { IfOk result (λ v. depth (view v) ≤ 102) }
{
    let name = function_json(alloc, function)?;
    let value = made(naming_json(alloc, key, name))?;
    Ok(value)
}

fn connection(alloc: Global, connection: &Text) -> Result<Value, Memory>
    ensures { IfOk result (λ v. view v ≡ object (members_from (connection_before connection.now))) }
{
    made(connection_json(alloc, connection.as_str()))
}

fn call_before(alloc: Global, key: &CallKey, function: &Option<Text>) -> Result<Value, Memory>
    ensures value { IfOk result (λ v. view v ≡ object (members_from (members_before function.now (asked.Call key.now)))) }
    ensures back { OnOk result (IsBeforeForm (asked.Call key.now) → IsReadBefore (asked.Call key.now)) }
    ensures no_float { IfOk result (λ v. has_float (view v) ≡ false) }
    ensures whole { IfOk result (λ v. has_odd_number (view v) ≡ false) }
    ensures nests { IfOk result (λ v. IsBeforeForm (asked.Call key.now) → depth (view v) ≤ 102) }
{
    match &key.call {
        Call::List {
            table: _,
            conditions,
            parent: _,
        } => selecting(alloc, key, function, conditions),
        Call::Get {
            table: _,
            conditions,
        } => selecting(alloc, key, function, conditions),
        _ => naming(alloc, key, function),
    }
}

/// The members of a request before its number, as an object.
pub(crate) fn members_before(
    alloc: Global,
    asked: &Asked,
    function: &Option<Text>,
) -> Result<Value, Memory>
    ensures value { IfOk result (λ v. view v ≡ object (members_from (members_before function.now asked.now))) }
    ensures back { OnOk result (IsBeforeForm asked.now → IsReadBefore asked.now) }
    ensures no_float { IfOk result (λ v. has_float (view v) ≡ false) }
    ensures whole { IfOk result (λ v. has_odd_number (view v) ≡ false) }
    ensures nests { IfOk result (λ v. IsBeforeForm asked.now → depth (view v) ≤ 102) }
{
    match asked {
        Asked::Call(key) => call_before(alloc, key, function),
        Asked::Version {
            connection: name,
            tick: _,
        } => connection(alloc, name),
        Asked::Declare { connection: name } => connection(alloc, name),
    }
}

// ---- behind the number

fn listing(
    alloc: Global,
    key: &CallKey,
    table: &Text,
    parent: &Option<Cell>,
) -> Result<Value, Memory>
    ensures value { IfOk result (λ v. view v ≡ object (members_from (list_behind key.now table.now (parent_data parent.now)))) }
    ensures back { OnOk result (IsParentForm parent.now → parent_of (parent_data parent.now) ≡ Some parent.now) }
    ensures no_float { IfOk result (λ v. has_float (view v) ≡ false) }
    ensures whole { IfOk result (λ v. key.now.version < 2 ^ 63 → has_odd_number (view v) ≡ false) }
    ensures nests { IfOk result (λ v. IsParentForm parent.now → depth (view v) ≤ 102) }
{
    let parent = parent_json(alloc, parent)?;
    let value = made(list_json(alloc, key, table.as_str(), parent))?;
    Ok(value)
}

fn of_table(alloc: Global, operation: &str, key: &CallKey, table: &Text) -> Result<Value, Memory>
    ensures value { IfOk result (λ v. view v ≡ object (members_from (table_behind operation.now key.now table.now))) }
    ensures no_float { IfOk result (λ v. has_float (view v) ≡ false) }
    ensures whole { IfOk result (λ v. key.now.version < 2 ^ 63 → has_odd_number (view v) ≡ false) }
    ensures nests { IfOk result (λ v. depth (view v) ≤ 102) }
{
    let value = made(table_json(alloc, operation, key, table.as_str()))?;
    Ok(value)
}

fn hydrating(
    alloc: Global,
    key: &CallKey,
    table: &Text,
    item: &Cell,
    results: &Members,
) -> Result<Value, Memory>
    ensures value { IfOk result (λ v. view v ≡ object (members_from (hydrate_behind key.now table.now (data_of item.now) (object (pairs_data results.now))))) }
    ensures item { OnOk result (IsItem item.now → item_of (data_of item.now) ≡ Some item.now) }
    ensures results { OnOk result (AreResults results.now → results_of (object (pairs_data results.now)) ≡ Some results.now) }
    ensures no_float { IfOk result (λ v. has_float (view v) ≡ false) }
    ensures whole { IfOk result (λ v. key.now.version < 2 ^ 63 → has_odd_number (view v) ≡ false) }
    ensures nests { IfOk result (λ v. IsItem item.now → AreResults results.now → depth (view v) ≤ 102) }
{
    let item = to_json(alloc, item)?;
    let results = results_json(alloc, results)?;
    let value = made(hydrate_json(alloc, key, table.as_str(), item, results))?;
    Ok(value)
}

fn versioning(alloc: Global, tick: u64) -> Result<Value, Memory>
    ensures value { IfOk result (λ v. view v ≡ object (members_from (version_behind tick))) }
    ensures no_float { IfOk result (λ v. has_float (view v) ≡ false) }
    ensures whole { IfOk result (λ v. tick < 2 ^ 63 → has_odd_number (view v) ≡ false) }
    ensures nests { IfOk result (λ v. depth (view v) ≤ 102) }
{
    let value = made(version_json(alloc, tick))?;
    Ok(value)
}

fn declaring(alloc: Global) -> Result<Value, Memory>
    ensures { IfOk result (λ v. view v ≡ object (members_from declare_behind)) }
{
    made(declare_json(alloc))
}

fn call_behind(alloc: Global, key: &CallKey) -> Result<Value, Memory>
    ensures value { IfOk result (λ v. view v ≡ object (members_from (members_behind (asked.Call key.now)))) }
    ensures back { OnOk result (IsBehindForm (asked.Call key.now) → IsReadBehind (asked.Call key.now)) }
    ensures no_float { IfOk result (λ v. has_float (view v) ≡ false) }
    ensures whole { IfOk result (λ v. key.now.version < 2 ^ 63 → has_odd_number (view v) ≡ false) }
    ensures nests { IfOk result (λ v. IsBehindForm (asked.Call key.now) → depth (view v) ≤ 102) }
{
    match &key.call {
        Call::List {
            table,
            conditions: _,
            parent,
        } => listing(alloc, key, table, parent),
        Call::Parents { table } => of_table(alloc, "parents", key, table),
        Call::Get {
            table,
            conditions: _,
        } => of_table(alloc, "get", key, table),
        Call::Hydrate {
            table,
            function: _,
            item,
            results,
        } => hydrating(alloc, key, table, item, results),
    }
}

/// The members of a request behind its number, as an object.
pub(crate) fn members_behind(alloc: Global, asked: &Asked) -> Result<Value, Memory>
    ensures value { IfOk result (λ v. view v ≡ object (members_from (members_behind asked.now))) }
    ensures back { OnOk result (IsBehindForm asked.now → IsReadBehind asked.now) }
    ensures no_float { IfOk result (λ v. has_float (view v) ≡ false) }
    ensures whole { IfOk result (λ v. IsBehindForm asked.now → has_odd_number (view v) ≡ false) }
    ensures nests { IfOk result (λ v. IsBehindForm asked.now → depth (view v) ≤ 102) }
{
    match asked {
        Asked::Call(key) => call_behind(alloc, key),
        Asked::Version {
            connection: _,
            tick,
        } => versioning(alloc, *tick),
        Asked::Declare { connection: _ } => declaring(alloc),
    }
}
