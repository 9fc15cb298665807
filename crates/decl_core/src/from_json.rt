ghost use Rattle.std.specs.Prelude.{◌≡◌, IfOk, option_and_then};
ghost use Rattle.std.specs.List.{list_all};
ghost use Rattle.serde_json.specs.Find.{get};
ghost use Rattle.serde_json.specs.View.{view, items_view};
ghost use Rattle.sp_model.specs.Names.{is_plain_byte};
ghost use Rattle.decl_words.specs.Members.{optional, optional_or, each, is_plain_text};

use crate::words::{backoff_of, kind_of, matching_of, need_of, operator_of};
use serde_json::Value;
use sp_model::{Backoff, Matching, Need};
use sp_value::{Kind, Memory, Op, Text};
use sqlite_items::Items;
use std::alloc::Global;

/// What a JSON value of some form is read as.
pub trait FromJson: Drop {
    ghost use Rattle.std.specs.Prelude.{Option};
    ghost use Rattle.serde_json.specs.Data.{Data};

    ghost read_as: { Data → Option Self };

    /// What the value is read as, or `None` where it has another form.
    fn from_json(alloc: Global, value: &Value) -> Result<Option<Self>, Memory>
        ensures { IfOk result (λ r. r ≡ read_as (view value.now)) };
}

/// A name: a text that isn't empty and has no control character. Its length is limited elsewhere.
impl FromJson for Text {
    ghost use Rattle.decl_words.specs.Members.{name_of};

    ghost read_as = { name_of };

    fn from_json(alloc: Global, value: &Value) -> Result<Option<Text>, Memory> {
        match value.as_str() {
            Some(name) => if is_plain_text(name) {
                Ok(Some(Text::from_str(alloc, name)?))
            } else {
                Ok(None)
            },
            None => Ok(None),
        }
    }
}

impl FromJson for Kind {
    ghost use Rattle.decl_words.specs.Members.{word_of};
    ghost use Rattle.decl_words.specs.Words.{kind_of};

    ghost read_as = { word_of kind_of };

    fn from_json(_alloc: Global, value: &Value) -> Result<Option<Kind>, Memory> {
        match value.as_str() {
            Some(word) => Ok(kind_of(word)),
            None => Ok(None),
        }
    }
}

impl FromJson for Op {
    ghost use Rattle.decl_words.specs.Members.{word_of};
    ghost use Rattle.decl_words.specs.Words.{operator_of};

    ghost read_as = { word_of operator_of };

    fn from_json(_alloc: Global, value: &Value) -> Result<Option<Op>, Memory> {
        match value.as_str() {
            Some(word) => Ok(operator_of(word)),
            None => Ok(None),
        }
    }
}

impl FromJson for Need {
    ghost use Rattle.decl_words.specs.Members.{word_of};
    ghost use Rattle.decl_words.specs.Words.{need_of};

    ghost read_as = { word_of need_of };

    fn from_json(_alloc: Global, value: &Value) -> Result<Option<Need>, Memory> {
        match value.as_str() {
            Some(word) => Ok(need_of(word)),
            None => Ok(None),
        }
    }
}

impl FromJson for Matching {
    ghost use Rattle.decl_words.specs.Members.{word_of};
    ghost use Rattle.decl_words.specs.Words.{matching_of};

    ghost read_as = { word_of matching_of };

    fn from_json(_alloc: Global, value: &Value) -> Result<Option<Matching>, Memory> {
        match value.as_str() {
            Some(word) => Ok(matching_of(word)),
            None => Ok(None),
        }
    }
}

impl FromJson for Backoff {
    ghost use Rattle.decl_words.specs.Members.{word_of};
    ghost use Rattle.decl_words.specs.Words.{backoff_of};

    ghost read_as = { word_of backoff_of };

    fn from_json(_alloc: Global, value: &Value) -> Result<Option<Backoff>, Memory> {
        match value.as_str() {
            Some(word) => Ok(backoff_of(word)),
            None => Ok(None),
        }
    }
}

/// An array of values of the form.
impl<T: FromJson> FromJson for Items<T> {
    ghost use Rattle.decl_words.specs.Members.{list_of};

    ghost read_as = { list_of T.read_as };

    fn from_json(alloc: Global, value: &Value) -> Result<Option<Items<T>>, Memory> {
        match value {
            Value::Array(values) => {
                let items = each(alloc, values)?;
                Ok(items)
            }
            _ => Ok(None),
        }
    }
}

fn each<T: FromJson>(alloc: Global, values: &Vec<Value>) -> Result<Option<Items<T>>, Memory>
    ensures { IfOk result (λ o. o ≡ each T.read_as (items_view values.now.items)) }
{
    let mut items = Items::new(alloc);
    for value in values {
        let Some(item) = T::from_json(alloc, value)? else {
            return Ok(None);
        };
        items.push(item)?;
    }
    Ok(Some(items))
}

fn is_plain_byte(byte: u8) -> bool
    ensures { result ≡ is_plain_byte byte }
{
    byte >= 32 && (byte <= 126 || byte >= 128)
}

fn are_plain_bytes(bytes: &[u8]) -> bool
    ensures { result ≡ list_all is_plain_byte bytes.now }
{
    bytes.iter().all(|b| is_plain_byte(*b))
}

/// Whether a text isn't empty and has no control character.
fn is_plain_text(name: &str) -> bool
    ensures { result ≡ is_plain_text name.now }
{
    !name.is_empty() && are_plain_bytes(name.as_bytes())
}

/// What a member is read as, or `None` where it is absent or has another form.
pub fn required<T: FromJson>(alloc: Global, value: &Value, name: &str) -> Result<Option<T>, Memory>
    ensures { IfOk result (λ o. o ≡ option_and_then T.read_as (get name.now (view value.now))) }
{
    match value.get(name) {
        Some(member) => {
            let read = T::from_json(alloc, member)?;
            Ok(read)
        }
        None => Ok(None),
    }
}

/// What a member is read as, `Some(None)` where it is absent, or `None` where it has another form.
pub fn optional<T: FromJson>(
    alloc: Global,
    value: &Value,
    name: &str,
) -> Result<Option<Option<T>>, Memory>
    ensures { IfOk result (λ o. o ≡ optional T.read_as (get name.now (view value.now))) }
{
    match value.get(name) {
        Some(member) => match T::from_json(alloc, member)? {
            Some(read) => Ok(Some(Some(read))),
            None => Ok(None),
        },
        None => Ok(Some(None)),
    }
}

/// What a member is read as, the default where it is absent, or `None` where it has another form.
pub fn optional_or<T: FromJson>(
    alloc: Global,
    value: &Value,
    name: &str,
    default: T,
) -> Result<Option<T>, Memory>
    ensures { IfOk result (λ o. o ≡ optional_or default T.read_as (get name.now (view value.now))) }
{
    match value.get(name) {
        Some(member) => {
            let read = T::from_json(alloc, member)?;
            Ok(read)
        }
        None => Ok(Some(default)),
    }
}
