ghost use Rattle.std.specs.Prelude.{◌≡◌, ◌++◌, ◌∷◌, false, map, codes, IfOk, OnOk};
ghost use Rattle.serde_json.specs.View.{view, items_of};
ghost use Rattle.serde_json.specs.Written.{compact_text, comma_if, items_text, has_float};
ghost use Rattle.answer_text.specs.JsonLines.{texts_data, row_data, rows_data, json_line, json_text};

use crate::spelled::push_all;
use serde_json::Value;
use sp_value::{Cell, Cells, Memory, Text, to_json};
use sp_world::text_json;
use std::alloc::Global;

/// Texts as a list of JSON strings.
pub(crate) fn texts_json(alloc: Global, texts: &[Text]) -> Result<Value, Memory>
    ensures value { IfOk result (λ v. view v ≡ texts_data texts.now) }
    ensures no_float { IfOk result (λ v. has_float (view v) ≡ false) }
{
    let mut values = Vec::new(alloc);
    for text in texts {
        let value = text_json(alloc, text.as_str())?;
        let Ok(()) = values.push(value) else {
            return Err(Memory);
        };
    }
    Ok(Value::Array(values))
}

fn row_json(alloc: Global, row: &[Cell]) -> Result<Value, Memory>
    ensures value { IfOk result (λ v. view v ≡ row_data row.now) }
    ensures no_float { IfOk result (λ v. has_float (view v) ≡ false) }
{
    let mut values = Vec::with_capacity(alloc, row.len())?;
    for cell in row {
        let value = to_json(alloc, cell)?;
        let Ok(()) = values.push(value) else {
            return Err(Memory);
        };
    }
    Ok(Value::Array(values))
}

/// Appends the compact text of JSON.
fn push_value(alloc: Global, text: &mut Vec<u8>, value: &Value) -> Result<(), Memory>
    requires { has_float (view value.now) ≡ false }
    ensures { OnOk result (text.new.items ≡ text.old.items ++ compact_text (view value.now)) }
{
    let Ok(json) = value.to_vec(alloc) else {
        return Err(Memory);
    };
    push_all(text, &json)
}

/// A line of compact JSON.
pub(crate) fn json_line(alloc: Global, value: &Value) -> Result<Vec<u8>, Memory>
    requires { has_float (view value.now) ≡ false }
    ensures { IfOk result (λ v. v.items ≡ json_line (view value.now)) }
{
    let mut text = Vec::new(alloc);
    push_value(alloc, &mut text, value)?;
    push_all(&mut text, b"\n")?;
    Ok(text)
}

/// Appends a row, behind a comma where it isn't the first.
fn push_row(alloc: Global, text: &mut Vec<u8>, later: bool, row: &[Cell]) -> Result<(), Memory>
    ensures { OnOk result (text.new.items ≡ text.old.items ++ (comma_if later ++ compact_text (row_data row.now))) }
{
    let value = row_json(alloc, row)?;
    if later {
        push_all(text, b",")?;
    }
    push_value(alloc, text, &value)
}

/// Appends rows and the bracket that closes their list.
fn push_rows(alloc: Global, text: &mut Vec<u8>, rows: &[Cells]) -> Result<(), Memory>
    ensures { OnOk result (text.new.items ≡ text.old.items ++ items_text false (items_of (map row_data rows.now))) }
{
    let mut later = false;
    for row in rows {
        push_row(alloc, text, later, row.as_slice())?;
        later = true;
    }
    push_all(text, b"]")
}

#[tactic(auto, using(crate::proofs::JsonRows::json_parts))]
/// A line of JSON: an object of the columns' names and the rows.
pub(crate) fn json_text(alloc: Global, names: &[Text], rows: &[Cells]) -> Result<Vec<u8>, Memory>
    ensures { IfOk result (λ v. v.items ≡ json_text names.now rows.now) }
{
    let columns = texts_json(alloc, names)?;
    let mut text = Vec::from_slice(alloc, b"{\"columns\":")?;
    push_value(alloc, &mut text, &columns)?;
    push_all(&mut text, b",\"rows\":[")?;
    push_rows(alloc, &mut text, rows)?;
    push_all(&mut text, b"}\n")?;
    Ok(text)
}
