use serde_json::{Map, Value};
use sp_model::{Asked, Call, CallKey, Condition};
use sp_value::{Cell, Memory, Text, Truth, TryCopy, compare};
use sp_world::{Request, read_json, request_line};
use std::alloc::Global;

/// The value of a field of an item, null where there is none.
fn meets(item: &Cell, condition: &Condition) -> bool {
    let Cell::Object(members) = item else {
        return false;
    };
    match members.get(condition.column.as_str()) {
        Some(field) => compare(condition.operator, field, &condition.value) == Truth::Yes,
        None => false,
    }
}

/// Whether an item meets each condition on its field of the column's name.
pub(crate) fn meets_all(item: &Cell, conditions: &[Condition]) -> bool {
    for condition in conditions {
        if !meets(item, condition) {
            return false;
        }
    }
    true
}

/// The table of this name in a declaration.
fn table_of<'a>(declaration: &'a Value, name: &str) -> Option<&'a Value> {
    let tables = declaration.get("tables")?.as_array()?;
    for table in tables {
        if table.get("name").and_then(Value::as_str) == Some(name) {
            return Some(table);
        }
    }
    None
}

/// The function that a declaration names for a list, parents or get call; a hydrate call's own.
fn function_name<'a>(declaration: &'a Value, call: &'a Call) -> Option<&'a str> {
    let function = match call {
        Call::List { table, .. } => {
            table_of(declaration, table.as_str())?
                .get("list")?
                .get("function")?
        }
        Call::Parents { table } => table_of(declaration, table.as_str())?
            .get("list")?
            .get("parent")?
            .get("function")?,
        Call::Get { table, .. } => {
            table_of(declaration, table.as_str())?
                .get("get")?
                .get("function")?
        }
        Call::Hydrate { function, .. } => return Some(function.as_str()),
    };
    function.as_str()
}

/// The function's name as a text, if there is one.
fn function_of(alloc: Global, declaration: &Value, call: &Call) -> Result<Option<Text>, Memory> {
    match function_name(declaration, call) {
        Some(name) => Ok(Some(Text::from_str(alloc, name)?)),
        None => Ok(None),
    }
}

/// The members of a call's request as JSON, with the number 0.
pub(crate) fn request_json(
    alloc: Global,
    declaration: &Value,
    key: &CallKey,
) -> Result<Value, Memory> {
    let request = Request::Ask {
        id: 0,
        asked: Asked::Call(key.copy(alloc)?),
        function: function_of(alloc, declaration, &key.call)?,
    };
    let line = request_line(alloc, &request)?;
    match read_json(alloc, &line) {
        Ok(value) => Ok(value),
        Err(_) => Err(Memory),
    }
}

/// Whether each member of an entry's call, but a number, equals the request's member of that name.
pub(crate) fn serves(call: &Map<String, Value>, request: &Value) -> bool {
    for (name, value) in call.iter() {
        if name.as_str() == "id" {
            return false;
        }
        match request.get(name.as_str()) {
            Some(member) => if member != value {
                return false;
            },
            None => return false,
        }
    }
    true
}
