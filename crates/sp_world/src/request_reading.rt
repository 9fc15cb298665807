ghost use Rattle.std.specs.Prelude.{◌≡◌, ◌<◌, ◌^◌, ℕ, List, Some, Ok, true, false, IfOk, IfSome, codes, option_and_then, option_map};
ghost use Rattle.serde_json.specs.Find.{at};
ghost use Rattle.serde_json.specs.View.{view, items_view, members_view};
ghost use Rattle.sp_model.specs.declared.call.Call.TheVariants as call;
ghost use Rattle.sp_value.specs.Json.{has_odd_number};
ghost use Rattle.sp_model.specs.Conditions.{is_canonical};
ghost use Rattle.sp_model.specs.Sayable.{IsItem};
ghost use Rattle.sp_world.specs.LineJson.{IsUnlessMemory, shaped, text_at, number_at};
ghost use Rattle.sp_world.specs.RequestLines.{request_of, members_request, request_by, call_from, call_of, conditions_at, parent_at, item_at, results_at, conditions_of, parent_of, results_of, are_results, is_result, condition_of, scalar_of, operator_of, operation_of, text_in, attempt_at, if_spelled, list_from, hydrate_from, condition_list, IsRequestForm, IsCallForm, IsParentForm, AreResults};

use crate::line::{LineFault, Request};
use crate::line_json::{number_at, read_json, text_at};
use crate::operation::Operation;
use crate::reply_lines::{is_shallow_object, item_from};
use crate::request_lines::request_line;
use serde_json::{Map, Value};
use sp_model::{Asked, Call, CallKey, Condition, Conditions, is_canonical};
use sp_value::{Cell, Members, Memory, Op, Text, TryCopy, has_odd_number, members_from_json};
use sqlite_items::Items;
use std::alloc::Global;

/// The request whose one spelling a line is.
pub fn read_request(alloc: Global, line: &[u8]) -> Result<Request, LineFault>
    ensures answer { IsUnlessMemory result (request_of line.now) }
    ensures form { IfOk result (λ r. IsRequestForm r) }
{
    let value = read_json(alloc, line)?;
    match members_request(alloc, &value) {
        Ok(Some(request)) => spelled_request(alloc, line, request),
        Ok(None) => Err(LineFault::Shape),
        Err(_) => Err(LineFault::Memory),
    }
}

fn spelled_request(alloc: Global, line: &[u8], request: Request) -> Result<Request, LineFault>
    ensures answer { IsUnlessMemory result (shaped (if_spelled line.now request)) }
    ensures same { IfOk result (λ r. r ≡ request) }
{
    match request_line(alloc, &request) {
        Ok(text) => if text.as_slice() == line {
            Ok(request)
        } else {
            Err(LineFault::Shape)
        },
        Err(_) => Err(LineFault::Memory),
    }
}

/// The request whose members an object has.
fn members_request(alloc: Global, value: &Value) -> Result<Option<Request>, Memory>
    requires { has_odd_number (view value.now) ≡ false }
    ensures value { IfOk result (λ r. r ≡ members_request (view value.now)) }
    ensures form { IfOk result (λ o. IfSome o IsRequestForm) }
{
    let Some(operation) = operation_at(value) else {
        return Ok(None);
    };
    let Some(id) = number_at(value, "id") else {
        return Ok(None);
    };
    let Some(connection) = text_at(alloc, value, "connection")? else {
        return Ok(None);
    };
    let request = request_by(alloc, operation, id, connection, value)?;
    Ok(request)
}

fn operation_at(value: &Value) -> Option<Operation>
    ensures { result ≡ option_and_then operation_of (text_at (codes "op") (view value.now)) }
{
    match value.get("op").and_then(Value::as_str) {
        Some(name) => operation_of(name),
        None => None,
    }
}

fn operation_of(name: &str) -> Option<Operation>
    ensures { result ≡ operation_of name.now }
{
    if name == "declare" {
        Some(Operation::Declare)
    } else if name == "version" {
        Some(Operation::Version)
    } else if name == "list" {
        Some(Operation::List)
    } else if name == "parents" {
        Some(Operation::Parents)
    } else if name == "get" {
        Some(Operation::Get)
    } else if name == "hydrate" {
        Some(Operation::Hydrate)
    } else {
        None
    }
}

fn request_by(
    alloc: Global,
    operation: Operation,
    id: u64,
    connection: Text,
    value: &Value,
) -> Result<Option<Request>, Memory>
    requires whole { has_odd_number (view value.now) ≡ false }
    requires below { id < 2 ^ 63 }
    ensures value { IfOk result (λ r. r ≡ request_by operation id connection (view value.now)) }
    ensures form { IfOk result (λ o. IfSome o IsRequestForm) }
{
    match operation {
        Operation::Declare => Ok(Some(Request::Ask {
            id,
            asked: Asked::Declare { connection },
            function: None,
        })),
        Operation::Version => Ok(version_request(id, connection, value)),
        _ => {
            let request = call_request(alloc, operation, id, connection, value)?;
            Ok(request)
        }
    }
}

fn version_request(id: u64, connection: Text, value: &Value) -> Option<Request>
    requires whole { has_odd_number (view value.now) ≡ false }
    requires below { id < 2 ^ 63 }
    ensures value { result ≡ request_by Operation.Version id connection (view value.now) }
    ensures form { IfSome result IsRequestForm }
{
    match number_at(value, "tick") {
        Some(tick) => Some(Request::Ask {
            id,
            asked: Asked::Version { connection, tick },
            function: None,
        }),
        None => None,
    }
}

fn attempt_at(value: &Value) -> Option<u32>
    ensures { result ≡ attempt_at (view value.now) }
{
    match number_at(value, "attempt") {
        Some(attempt) => if attempt < 4_294_967_296 {
            Some(attempt as u32)
        } else {
            None
        },
        None => None,
    }
}

fn call_request(
    alloc: Global,
    operation: Operation,
    id: u64,
    connection: Text,
    value: &Value,
) -> Result<Option<Request>, Memory>
    requires whole { has_odd_number (view value.now) ≡ false }
    requires below { id < 2 ^ 63 }
    ensures form { IfOk result (λ o. IfSome o IsRequestForm) }
    ensures value { IfOk result (λ r. r ≡ call_from operation id connection (view value.now) (text_at (codes "table") (view value.now)) (text_at (codes "function") (view value.now)) (number_at (codes "version") (view value.now)) (attempt_at (view value.now))) }
{
    let Some(table) = text_at(alloc, value, "table")? else {
        return Ok(None);
    };
    let Some(function) = text_at(alloc, value, "function")? else {
        return Ok(None);
    };
    let Some(version) = number_at(value, "version") else {
        return Ok(None);
    };
    let Some(attempt) = attempt_at(value) else {
        return Ok(None);
    };
    let Some(call) = call_of(alloc, operation, table, &function, value)? else {
        return Ok(None);
    };
    Ok(Some(Request::Ask {
        id,
        asked: Asked::Call(CallKey {
            connection,
            version,
            call,
            attempt,
        }),
        function: Some(function),
    }))
}

fn call_of(
    alloc: Global,
    operation: Operation,
    table: Text,
    function: &Text,
    value: &Value,
) -> Result<Option<Call>, Memory>
    ensures value { IfOk result (λ c. c ≡ call_of operation table function.now (view value.now)) }
    ensures form { IfOk result (λ o. IfSome o (IsCallForm (Some function.now))) }
{
    match operation {
        Operation::List => {
            let call = list_call(alloc, table, value)?;
            Ok(call)
        }
        Operation::Parents => Ok(Some(Call::Parents { table })),
        Operation::Get => {
            let call = get_call(alloc, table, value)?;
            Ok(call)
        }
        Operation::Hydrate => hydrate_call(alloc, table, function, value),
        _ => Ok(None),
    }
}

fn list_call(alloc: Global, table: Text, value: &Value) -> Result<Option<Call>, Memory>
    ensures value { IfOk result (λ c. c ≡ list_from table (conditions_at (view value.now)) (parent_at (view value.now))) }
    ensures form { IfOk result (λ o. (function : List ℕ) → IfSome o (IsCallForm (Some function))) }
{
    let Some(conditions) = conditions_at(alloc, value)? else {
        return Ok(None);
    };
    let Some(parent) = parent_at(alloc, value)? else {
        return Ok(None);
    };
    Ok(Some(Call::List {
        table,
        conditions,
        parent,
    }))
}

fn get_call(alloc: Global, table: Text, value: &Value) -> Result<Option<Call>, Memory>
    ensures value { IfOk result (λ c. c ≡ option_map (call.Get table) (conditions_at (view value.now))) }
    ensures form { IfOk result (λ o. (function : List ℕ) → IfSome o (IsCallForm (Some function))) }
{
    let Some(conditions) = conditions_at(alloc, value)? else {
        return Ok(None);
    };
    Ok(Some(Call::Get { table, conditions }))
}

fn hydrate_call(
    alloc: Global,
    table: Text,
    function: &Text,
    value: &Value,
) -> Result<Option<Call>, Memory>
    ensures value { IfOk result (λ c. c ≡ hydrate_from table function.now (item_at (view value.now)) (results_at (view value.now))) }
    ensures form { IfOk result (λ o. IfSome o (IsCallForm (Some function.now))) }
{
    let Some(item) = item_at(alloc, value)? else {
        return Ok(None);
    };
    let Some(results) = results_at(alloc, value)? else {
        return Ok(None);
    };
    Ok(Some(Call::Hydrate {
        table,
        function: function.copy(alloc)?,
        item,
        results,
    }))
}

fn conditions_at(alloc: Global, value: &Value) -> Result<Option<Conditions>, Memory>
    ensures value { IfOk result (λ o. o ≡ conditions_at (view value.now)) }
    ensures form { IfOk result (λ o. IfSome o (λ cs. is_canonical cs ≡ true)) }
{
    match value.get("conditions") {
        Some(found) => {
            let conditions = conditions_of(alloc, found)?;
            Ok(conditions)
        }
        None => Ok(None),
    }
}

fn parent_at(alloc: Global, value: &Value) -> Result<Option<Option<Cell>>, Memory>
    ensures value { IfOk result (λ o. o ≡ parent_at (view value.now)) }
    ensures form { IfOk result (λ o. IfSome o IsParentForm) }
{
    match value.get("parent") {
        Some(found) => {
            let parent = parent_of(alloc, found)?;
            Ok(parent)
        }
        None => Ok(None),
    }
}

fn item_at(alloc: Global, value: &Value) -> Result<Option<Cell>, Memory>
    ensures value { IfOk result (λ o. o ≡ item_at (view value.now)) }
    ensures form { IfOk result (λ o. IfSome o IsItem) }
{
    match value.get("item") {
        Some(found) => {
            let item = item_from(alloc, found)?;
            Ok(item)
        }
        None => Ok(None),
    }
}

fn results_at(alloc: Global, value: &Value) -> Result<Option<Members>, Memory>
    ensures value { IfOk result (λ o. o ≡ results_at (view value.now)) }
    ensures form { IfOk result (λ o. IfSome o AreResults) }
{
    match value.get("results") {
        Some(found) => {
            let results = results_of(alloc, found)?;
            Ok(results)
        }
        None => Ok(None),
    }
}

fn conditions_of(alloc: Global, value: &Value) -> Result<Option<Conditions>, Memory>
    ensures value { IfOk result (λ o. o ≡ conditions_of (view value.now)) }
    ensures form { IfOk result (λ o. IfSome o (λ cs. is_canonical cs ≡ true)) }
{
    let Value::Array(values) = value else {
        return Ok(None);
    };
    let Some(conditions) = condition_list(alloc, values)? else {
        return Ok(None);
    };
    if !is_canonical(conditions.as_slice()) {
        return Ok(None);
    }
    Ok(Some(conditions))
}

fn condition_list(alloc: Global, values: &Vec<Value>) -> Result<Option<Conditions>, Memory>
    ensures { IfOk result (λ o. o ≡ condition_list (items_view values.now.items)) }
{
    let mut conditions = Items::new(alloc);
    for value in values {
        let Some(condition) = condition_of(alloc, value)? else {
            return Ok(None);
        };
        let Ok(()) = conditions.push(condition) else {
            return Err(Memory);
        };
    }
    Ok(Some(conditions))
}

fn condition_of(alloc: Global, value: &Value) -> Result<Option<Condition>, Memory>
    ensures { IfOk result (λ o. o ≡ condition_of (view value.now)) }
{
    let Some(column) = text_in(alloc, value, 0)? else {
        return Ok(None);
    };
    let Some(operator) = operator_in(value) else {
        return Ok(None);
    };
    let Some(value) = scalar_in(alloc, value)? else {
        return Ok(None);
    };
    Ok(Some(Condition {
        column,
        operator,
        value,
    }))
}

fn text_in(alloc: Global, value: &Value, place: usize) -> Result<Option<Text>, Memory>
    ensures { IfOk result (λ o. o ≡ text_in place (view value.now)) }
{
    match value.get(place).and_then(Value::as_str) {
        Some(text) => Ok(Some(Text::from_str(alloc, text)?)),
        None => Ok(None),
    }
}

fn operator_in(value: &Value) -> Option<Op>
    ensures { result ≡ option_and_then operator_of (text_in 1 (view value.now)) }
{
    match value.get(1usize).and_then(Value::as_str) {
        Some(text) => operator_of(text),
        None => None,
    }
}

fn operator_of(text: &str) -> Option<Op>
    ensures { result ≡ operator_of text.now }
{
    if text == "=" {
        Some(Op::Eq)
    } else if text == "<>" {
        Some(Op::Ne)
    } else if text == "<" {
        Some(Op::Lt)
    } else if text == "<=" {
        Some(Op::Le)
    } else if text == ">" {
        Some(Op::Gt)
    } else if text == ">=" {
        Some(Op::Ge)
    } else {
        None
    }
}

fn scalar_in(alloc: Global, value: &Value) -> Result<Option<Cell>, Memory>
    ensures { IfOk result (λ o. o ≡ option_and_then scalar_of (at 2 (view value.now))) }
{
    match value.get(2usize) {
        Some(found) => {
            let scalar = scalar_of(alloc, found)?;
            Ok(scalar)
        }
        None => Ok(None),
    }
}

fn scalar_of(alloc: Global, value: &Value) -> Result<Option<Cell>, Memory>
    ensures { IfOk result (λ o. o ≡ scalar_of (view value.now)) }
{
    match value {
        Value::Bool(b) => Ok(Some(Cell::Bool(*b))),
        Value::Number(n) => match n.as_i64() {
            Some(n) => Ok(Some(Cell::Int(n))),
            None => Ok(None),
        },
        Value::String(text) => Ok(Some(Cell::Text(Text::from_str(alloc, text.as_str())?))),
        _ => Ok(None),
    }
}

fn parent_of(alloc: Global, value: &Value) -> Result<Option<Option<Cell>>, Memory>
    ensures value { IfOk result (λ o. o ≡ parent_of (view value.now)) }
    ensures form { IfOk result (λ o. IfSome o IsParentForm) }
{
    match value {
        Value::Null => Ok(Some(None)),
        _ => match item_from(alloc, value)? {
            Some(parent) => Ok(Some(Some(parent))),
            None => Ok(None),
        },
    }
}

#[tactic(auto, using(crate::proofs::OddNumbers::odd_no_pairs, crate::proofs::RequestTexts::results_form))]
fn results_of(alloc: Global, value: &Value) -> Result<Option<Members>, Memory>
    ensures value { IfOk result (λ o. o ≡ results_of (view value.now)) }
    ensures form { IfOk result (λ o. IfSome o AreResults) }
{
    let Value::Object(members) = value else {
        return Ok(None);
    };
    if !are_results(members) {
        return Ok(None);
    }
    if has_odd_number(value) {
        return Ok(None);
    }
    let results = members_from_json(alloc, members)?;
    Ok(Some(results))
}

fn are_results(members: &Map<String, Value>) -> bool
    ensures { result ≡ are_results (members_view members.now.entries) }
{
    for (_name, value) in members.iter() {
        if !is_result(value) {
            return false;
        }
    }
    true
}

fn is_result(value: &Value) -> bool
    ensures { result ≡ is_result (view value.now) }
{
    match value {
        Value::Null => true,
        _ => is_shallow_object(value),
    }
}
