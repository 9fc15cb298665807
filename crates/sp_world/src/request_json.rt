ghost use Rattle.std.specs.Prelude.{◌≡◌, ◌≤◌, [], ◌∷◌, Some, false, true, IfOk};
ghost use Rattle.serde_json.specs.Data.{depth, array, object, string};
ghost use Rattle.serde_json.specs.View.{view, items_of};
ghost use Rattle.serde_json.specs.Written.{has_float};
ghost use Rattle.sp_value.specs.Json.{has_odd_number, cell_of, data_of, pairs_data};
ghost use Rattle.sp_model.specs.Conditions.{is_canonical};
ghost use Rattle.sp_world.specs.RequestLines.{function_data, parent_data, condition_data, conditions_data, conditions_of, parent_of, results_of, operator_text, IsParentForm, AreResults};

use crate::reply_lines::made;
use serde_json::{Value, json};
use sp_model::Condition;
use sp_value::{Cell, Members, Memory, Op, Text, members_to_json, to_json};
use std::alloc::{AllocError, Global};

pub(crate) fn function_json(alloc: Global, function: &Option<Text>) -> Result<Value, Memory>
    ensures { IfOk result (λ v. view v ≡ function_data function.now) }
{
    match function {
        Some(name) => text_json(alloc, name.as_str()),
        None => Ok(Value::Null),
    }
}

/// A text as a JSON string.
pub fn text_json(alloc: Global, text: &str) -> Result<Value, Memory>
    ensures { IfOk result (λ v. view v ≡ string text.now) }
{
    match String::from_str(alloc, text) {
        Ok(text) => Ok(Value::String(text)),
        Err(_) => Err(Memory),
    }
}

pub(crate) fn parent_json(alloc: Global, parent: &Option<Cell>) -> Result<Value, Memory>
    ensures value { IfOk result (λ v. view v ≡ parent_data parent.now) }
    ensures back { IfOk result (λ v. IsParentForm parent.now → parent_of (view v) ≡ Some parent.now) }
    ensures no_float { IfOk result (λ v. has_float (view v) ≡ false) }
    ensures whole { IfOk result (λ v. has_odd_number (view v) ≡ false) }
    ensures nests { IfOk result (λ v. IsParentForm parent.now → depth (view v) ≤ 100) }
{
    match parent {
        Some(item) => {
            let value = to_json(alloc, item)?;
            Ok(value)
        }
        None => Ok(Value::Null),
    }
}

/// How an operator is spelled.
pub fn operator_text(operator: Op) -> &'static str
    ensures { result.now ≡ operator_text operator }
{
    match operator {
        Op::Eq => "=",
        Op::Ne => "<>",
        Op::Lt => "<",
        Op::Le => "<=",
        Op::Gt => ">",
        Op::Ge => ">=",
    }
}

fn triple_json(
    alloc: Global,
    column: &str,
    operator: &str,
    value: Value,
) -> Result<Value, AllocError>
    ensures { IfOk result (λ v. view v ≡ array (items_of (string column.now ∷ string operator.now ∷ view value ∷ []))) }
{
    json!(in alloc; [column, operator, value])
}

fn condition_json(alloc: Global, condition: &Condition) -> Result<Value, Memory>
    ensures value { IfOk result (λ v. view v ≡ condition_data condition.now) }
    ensures back { IfOk result (λ v. cell_of (data_of condition.now.value) ≡ Some condition.now.value) }
{
    let value = to_json(alloc, &condition.value)?;
    made(triple_json(
        alloc,
        condition.column.as_str(),
        operator_text(condition.operator),
        value,
    ))
}

/// The JSON of conditions: a list of `["column", "operator", value]`, the operators spelled `=`, `<>`, `<`, `<=`, `>`, `>=`. It has no
/// float, and canonical conditions are read again from it.
pub fn conditions_json(alloc: Global, conditions: &[Condition]) -> Result<Value, Memory>
    ensures value { IfOk result (λ v. view v ≡ conditions_data conditions.now) }
    ensures back { IfOk result (λ v. is_canonical conditions.now ≡ true → conditions_of (view v) ≡ Some conditions.now) }
    ensures no_float { IfOk result (λ v. has_float (view v) ≡ false) }
    ensures whole { IfOk result (λ v. has_odd_number (view v) ≡ false) }
    ensures nests { IfOk result (λ v. is_canonical conditions.now ≡ true → depth (view v) ≤ 2) }
{
    let mut values = Vec::new(alloc);
    for condition in conditions {
        let value = condition_json(alloc, condition)?;
        let Ok(()) = values.push(value) else {
            return Err(Memory);
        };
    }
    Ok(Value::Array(values))
}

pub(crate) fn results_json(alloc: Global, results: &Members) -> Result<Value, Memory>
    ensures value { IfOk result (λ v. view v ≡ object (pairs_data results.now)) }
    ensures back { IfOk result (λ v. AreResults results.now → results_of (view v) ≡ Some results.now) }
    ensures no_float { IfOk result (λ v. has_float (view v) ≡ false) }
    ensures whole { IfOk result (λ v. has_odd_number (view v) ≡ false) }
    ensures nests { IfOk result (λ v. AreResults results.now → depth (view v) ≤ 101) }
{
    let map = members_to_json(alloc, results)?;
    Ok(Value::Object(map))
}
