ghost use Rattle.std.specs.Prelude.{◌≡◌, [], IfOk, option_and_then};
ghost use Rattle.std.specs.List.{list_all};
ghost use Rattle.std.specs.Option.{option_map};
ghost use Rattle.toml.specs.Data.{get, as_str};
ghost use Rattle.toml.specs.View.{view, items_view};
ghost use Rattle.sp_model.specs.Names.{is_name};
ghost use Rattle.settings_text.specs.Members.{optional, optional_or, each, name_of, connection_name_of, says, some_texts_of, names_of, list_of, pair_from, pair_in};

use sp_model::{Pair, is_connection_name, is_name};
use sp_value::{Memory, Text, Texts};
use sqlite_items::Items;
use std::alloc::Global;
use toml::Value;

/// What a TOML value of some form is read as.
pub trait FromToml: Drop {
    ghost use Rattle.std.specs.Prelude.{Option};
    ghost use Rattle.toml.specs.Data.{Data};

    ghost read_as: { Data → Option Self };

    /// What the value is read as, or `None` where it has another form.
    fn from_toml(alloc: Global, value: &Value) -> Result<Option<Self>, Memory>
        ensures { IfOk result (λ r. r ≡ read_as (view value.now)) };
}

impl FromToml for bool {
    ghost use Rattle.toml.specs.Data.{as_bool};

    ghost read_as = { as_bool };

    fn from_toml(_alloc: Global, value: &Value) -> Result<Option<bool>, Memory> {
        Ok(value.as_bool())
    }
}

impl FromToml for i64 {
    ghost use Rattle.toml.specs.Data.{as_integer};

    ghost read_as = { as_integer };

    fn from_toml(_alloc: Global, value: &Value) -> Result<Option<i64>, Memory> {
        Ok(value.as_integer())
    }
}

impl FromToml for Text {
    ghost use Rattle.toml.specs.Data.{as_str};

    ghost read_as = { as_str };

    fn from_toml(alloc: Global, value: &Value) -> Result<Option<Text>, Memory> {
        match value.as_str() {
            Some(text) => Ok(Some(Text::from_str(alloc, text)?)),
            None => Ok(None),
        }
    }
}

/// An array of values of the form.
impl<T: FromToml> FromToml for Items<T> {
    ghost use Rattle.settings_text.specs.Members.{list_of};

    ghost read_as = { list_of T.read_as };

    fn from_toml(alloc: Global, value: &Value) -> Result<Option<Items<T>>, Memory> {
        match value {
            Value::Array(values) => {
                let items = each(alloc, values)?;
                Ok(items)
            }
            _ => Ok(None),
        }
    }
}

fn each<T: FromToml>(alloc: Global, values: &Vec<Value>) -> Result<Option<Items<T>>, Memory>
    ensures { IfOk result (λ o. o ≡ each T.read_as (items_view values.now.items)) }
{
    let mut items = Items::new(alloc);
    for value in values {
        let Some(item) = T::from_toml(alloc, value)? else {
            return Ok(None);
        };
        let Ok(()) = items.push(item) else {
            return Err(Memory);
        };
    }
    Ok(Some(items))
}

/// `["name", "value"]`.
impl FromToml for Pair {
    ghost use Rattle.settings_text.specs.Members.{pair_of};

    ghost read_as = { pair_of };

    fn from_toml(alloc: Global, value: &Value) -> Result<Option<Pair>, Memory> {
        match value {
            Value::Array(parts) => {
                let pair = pair_in(alloc, parts.as_slice())?;
                Ok(pair)
            }
            _ => Ok(None),
        }
    }
}

fn pair_in(alloc: Global, parts: &[Value]) -> Result<Option<Pair>, Memory>
    ensures { IfOk result (λ o. o ≡ pair_in (items_view parts.now)) }
{
    match parts {
        [] | [_] => Ok(None),
        [name, value] => {
            let pair = pair_from(alloc, name, value)?;
            Ok(pair)
        }
        [_, _, _, ..] => Ok(None),
    }
}

fn pair_from(alloc: Global, name: &Value, value: &Value) -> Result<Option<Pair>, Memory>
    ensures { IfOk result (λ o. o ≡ pair_from (name_of (view name.now)) (as_str (view value.now))) }
{
    let Some(name) = name_of(alloc, name)? else {
        return Ok(None);
    };
    let Some(value) = Text::from_toml(alloc, value)? else {
        return Ok(None);
    };
    Ok(Some(Pair { name, value }))
}

fn name_of(alloc: Global, value: &Value) -> Result<Option<Text>, Memory>
    ensures { IfOk result (λ o. o ≡ name_of (view value.now)) }
{
    match value.as_str() {
        Some(name) => if is_name(name) {
            Ok(Some(Text::from_str(alloc, name)?))
        } else {
            Ok(None)
        },
        None => Ok(None),
    }
}

fn connection_name_of(alloc: Global, value: &Value) -> Result<Option<Text>, Memory>
    ensures { IfOk result (λ o. o ≡ connection_name_of (view value.now)) }
{
    match value.as_str() {
        Some(name) => if is_connection_name(name.as_bytes()) {
            Ok(Some(Text::from_str(alloc, name)?))
        } else {
            Ok(None)
        },
        None => Ok(None),
    }
}

/// Whether a key stands in a table with this text.
pub fn says(value: &Value, key: &str, word: &str) -> bool
    ensures { result ≡ says word.now (get key.now (view value.now)) }
{
    match value.get(key).and_then(Value::as_str) {
        Some(text) => word == text,
        None => false,
    }
}

/// What a key of a table is read as, `Some(None)` where it is absent, or `None` where it has another form.
pub fn optional<T: FromToml>(
    alloc: Global,
    value: &Value,
    key: &str,
) -> Result<Option<Option<T>>, Memory>
    ensures { IfOk result (λ o. o ≡ optional T.read_as (get key.now (view value.now))) }
{
    match value.get(key) {
        Some(member) => match T::from_toml(alloc, member)? {
            Some(read) => Ok(Some(Some(read))),
            None => Ok(None),
        },
        None => Ok(Some(None)),
    }
}

/// What a key of a table is read as, the default where it is absent, or `None` where it has another form.
pub fn optional_or<T: FromToml>(
    alloc: Global,
    value: &Value,
    key: &str,
    default: T,
) -> Result<Option<T>, Memory>
    ensures { IfOk result (λ o. o ≡ optional_or default T.read_as (get key.now (view value.now))) }
{
    match value.get(key) {
        Some(member) => {
            let read = T::from_toml(alloc, member)?;
            Ok(read)
        }
        None => Ok(Some(default)),
    }
}

/// The name under a key of a table.
pub fn name_at(alloc: Global, value: &Value, key: &str) -> Result<Option<Text>, Memory>
    ensures { IfOk result (λ o. o ≡ option_and_then name_of (get key.now (view value.now))) }
{
    match value.get(key) {
        Some(member) => {
            let name = name_of(alloc, member)?;
            Ok(name)
        }
        None => Ok(None),
    }
}

/// The name of a connection under a key of a table.
pub fn connection_name_at(alloc: Global, value: &Value, key: &str) -> Result<Option<Text>, Memory>
    ensures { IfOk result (λ o. o ≡ option_and_then connection_name_of (get key.now (view value.now))) }
{
    match value.get(key) {
        Some(member) => {
            let name = connection_name_of(alloc, member)?;
            Ok(name)
        }
        None => Ok(None),
    }
}

fn some_texts_of(alloc: Global, value: &Value) -> Result<Option<Texts>, Memory>
    ensures { IfOk result (λ o. o ≡ some_texts_of (view value.now)) }
{
    let Some(texts) = Texts::from_toml(alloc, value)? else {
        return Ok(None);
    };
    if texts.is_empty() {
        return Ok(None);
    }
    Ok(Some(texts))
}

/// The texts under a key of a table, of which there is one at least.
pub fn some_texts_at(alloc: Global, value: &Value, key: &str) -> Result<Option<Texts>, Memory>
    ensures { IfOk result (λ o. o ≡ option_and_then some_texts_of (get key.now (view value.now))) }
{
    match value.get(key) {
        Some(member) => {
            let texts = some_texts_of(alloc, member)?;
            Ok(texts)
        }
        None => Ok(None),
    }
}

fn are_names(texts: &[Text]) -> bool
    ensures { result ≡ list_all is_name texts.now }
{
    for text in texts {
        if !is_name(text.as_str()) {
            return false;
        }
    }
    true
}

fn names_of(alloc: Global, value: &Value) -> Result<Option<Texts>, Memory>
    ensures { IfOk result (λ o. o ≡ names_of (view value.now)) }
{
    let Some(texts) = Texts::from_toml(alloc, value)? else {
        return Ok(None);
    };
    if !are_names(texts.as_slice()) {
        return Ok(None);
    }
    Ok(Some(texts))
}

/// The names under a key of a table, none where it is absent.
pub fn names_at(alloc: Global, value: &Value, key: &str) -> Result<Option<Texts>, Memory>
    ensures { IfOk result (λ o. o ≡ optional_or [] names_of (get key.now (view value.now))) }
{
    match value.get(key) {
        Some(member) => {
            let names = names_of(alloc, member)?;
            Ok(names)
        }
        None => Ok(Some(Items::new(alloc))),
    }
}
