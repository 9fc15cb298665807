ghost use Rattle.std.specs.Prelude.{◌≡◌, [], ◌∷◌, codes, not, IfOk, option_and_then};
ghost use Rattle.std.specs.List.{list_all, list_any};
ghost use Rattle.serde_json.specs.Find.{get};
ghost use Rattle.serde_json.specs.View.{view, items_view};
ghost use Rattle.decl_words.specs.Keys.{default_matching, key_of, keys_of, is_equality, are_equalities, is_optional, fit_get, get_keys_of, list_access_of, get_access_of};
ghost use Rattle.decl_words.specs.Members.{each, optional, optional_or};

use crate::columns::KeyColumns;
use crate::from_json::{FromJson, optional, optional_or, required};
use crate::rules::call_rules_in;
use read_members::object_has_only;
use serde_json::Value;
use sp_model::{AccessDecl, GetDecl, KeyDecl, ListDecl, Matching, Need};
use sp_value::{Memory, Op, Text};
use sqlite_items::Items;
use std::alloc::Global;

fn default_matching(columns: &KeyColumns, column: &Text) -> Matching
    ensures { result ≡ default_matching columns.now column.now }
{
    if columns.is_hydrated(column.as_str()) {
        Matching::Exact
    } else {
        Matching::Subset
    }
}

fn equality(alloc: Global) -> Result<Items<Op>, Memory>
    ensures { IfOk result (λ os. os ≡ Op.Eq ∷ []) }
{
    let mut operators = Items::new(alloc);
    operators.push(Op::Eq)?;
    Ok(operators)
}

fn key_of(alloc: Global, columns: &KeyColumns, value: &Value) -> Result<Option<KeyDecl>, Memory>
    ensures { IfOk result (λ k. k ≡ key_of columns.now (view value.now)) }
{
    if !object_has_only(value, &["column", "operators", "require", "match"]) {
        return Ok(None);
    }
    let Some(column) = required::<Text>(alloc, value, "column")? else {
        return Ok(None);
    };
    let Some(operators) = optional_or::<Items<Op>>(alloc, value, "operators", equality(alloc)?)?
    else {
        return Ok(None);
    };
    let Some(need) = optional_or::<Need>(alloc, value, "require", Need::Required)? else {
        return Ok(None);
    };
    let Some(given) = optional::<Matching>(alloc, value, "match")? else {
        return Ok(None);
    };
    if !columns.contains(column.as_str()) {
        return Ok(None);
    }
    let matching = match given {
        Some(matching) => matching,
        None => default_matching(columns, &column),
    };
    Ok(Some(KeyDecl {
        column,
        operators,
        need,
        matching,
    }))
}

fn keys_in(
    alloc: Global,
    columns: &KeyColumns,
    values: &Vec<Value>,
) -> Result<Option<Items<KeyDecl>>, Memory>
    ensures { IfOk result (λ ks. ks ≡ each (key_of columns.now) (items_view values.now.items)) }
{
    let mut keys = Items::new(alloc);
    for value in values {
        let Some(key) = key_of(alloc, columns, value)? else {
            return Ok(None);
        };
        keys.push(key)?;
    }
    Ok(Some(keys))
}

fn keys_of(
    alloc: Global,
    columns: &KeyColumns,
    value: &Value,
) -> Result<Option<Items<KeyDecl>>, Memory>
    ensures { IfOk result (λ ks. ks ≡ keys_of columns.now (view value.now)) }
{
    match value {
        Value::Array(values) => {
            let keys = keys_in(alloc, columns, values)?;
            Ok(keys)
        }
        _ => Ok(None),
    }
}

fn list_keys_at(
    alloc: Global,
    columns: &KeyColumns,
    value: &Value,
) -> Result<Option<Items<KeyDecl>>, Memory>
    ensures { IfOk result (λ ks. ks ≡ optional_or [] (keys_of columns.now) (get (codes "keys") (view value.now))) }
{
    match value.get("keys") {
        Some(found) => {
            let keys = keys_of(alloc, columns, found)?;
            Ok(keys)
        }
        None => Ok(Some(Items::new(alloc))),
    }
}

fn is_equality(operator: Op) -> bool
    ensures { result ≡ is_equality operator }
{
    operator == Op::Eq
}

fn all_equalities(operators: &[Op]) -> bool
    ensures { result ≡ list_all is_equality operators.now }
{
    operators.iter().all(|o| is_equality(*o))
}

fn are_equalities(operators: &[Op]) -> bool
    ensures { result ≡ are_equalities operators.now }
{
    !operators.is_empty() && all_equalities(operators)
}

fn is_optional(need: Need) -> bool
    ensures { result ≡ is_optional need }
{
    need == Need::Optional
}

fn all_by_equality(keys: &[KeyDecl]) -> bool
    ensures { result ≡ list_all (λ k. are_equalities k.operators) keys.now }
{
    for key in keys {
        if !are_equalities(key.operators.as_slice()) {
            return false;
        }
    }
    true
}

fn some_needed(keys: &[KeyDecl]) -> bool
    ensures { result ≡ list_any (λ k. not (is_optional k.need)) keys.now }
{
    for key in keys {
        if !is_optional(key.need) {
            return true;
        }
    }
    false
}

fn fit_get(keys: &[KeyDecl]) -> bool
    ensures { result ≡ fit_get keys.now }
{
    all_by_equality(keys) && some_needed(keys)
}

fn get_keys_of(
    alloc: Global,
    columns: &KeyColumns,
    value: &Value,
) -> Result<Option<Items<KeyDecl>>, Memory>
    ensures { IfOk result (λ ks. ks ≡ get_keys_of columns.now (view value.now)) }
{
    let Some(keys) = keys_of(alloc, columns, value)? else {
        return Ok(None);
    };
    if fit_get(keys.as_slice()) {
        Ok(Some(keys))
    } else {
        Ok(None)
    }
}

fn get_keys_at(
    alloc: Global,
    columns: &KeyColumns,
    value: &Value,
) -> Result<Option<Items<KeyDecl>>, Memory>
    ensures { IfOk result (λ ks. ks ≡ option_and_then (get_keys_of columns.now) (get (codes "keys") (view value.now))) }
{
    match value.get("keys") {
        Some(found) => {
            let keys = get_keys_of(alloc, columns, found)?;
            Ok(keys)
        }
        None => Ok(None),
    }
}

impl FromJson for AccessDecl {
    ghost use Rattle.decl_words.specs.Keys.{access_of};

    ghost read_as = { access_of };

    fn from_json(alloc: Global, value: &Value) -> Result<Option<AccessDecl>, Memory> {
        if !object_has_only(value, &["function", "tags", "ignore", "retry"]) {
            return Ok(None);
        }
        let Some(function) = required::<Text>(alloc, value, "function")? else {
            return Ok(None);
        };
        let Some(rules) = call_rules_in(alloc, value)? else {
            return Ok(None);
        };
        Ok(Some(AccessDecl {
            function,
            tags: rules.tags,
            ignore: rules.rule.ignore,
            retry: rules.rule.retry,
        }))
    }
}

fn list_of(alloc: Global, columns: &KeyColumns, value: &Value) -> Result<Option<ListDecl>, Memory>
    ensures { IfOk result (λ l. l ≡ list_access_of columns.now (view value.now)) }
{
    if !object_has_only(
        value,
        &["function", "keys", "parent", "tags", "ignore", "retry"],
    ) {
        return Ok(None);
    }
    let Some(function) = required::<Text>(alloc, value, "function")? else {
        return Ok(None);
    };
    let Some(keys) = list_keys_at(alloc, columns, value)? else {
        return Ok(None);
    };
    let Some(parent) = optional::<AccessDecl>(alloc, value, "parent")? else {
        return Ok(None);
    };
    let Some(rules) = call_rules_in(alloc, value)? else {
        return Ok(None);
    };
    Ok(Some(ListDecl {
        function,
        keys,
        parent,
        tags: rules.tags,
        ignore: rules.rule.ignore,
        retry: rules.rule.retry,
    }))
}

fn get_of(alloc: Global, columns: &KeyColumns, value: &Value) -> Result<Option<GetDecl>, Memory>
    ensures { IfOk result (λ g. g ≡ get_access_of columns.now (view value.now)) }
{
    if !object_has_only(value, &["function", "keys", "tags", "ignore", "retry"]) {
        return Ok(None);
    }
    let Some(function) = required::<Text>(alloc, value, "function")? else {
        return Ok(None);
    };
    let Some(keys) = get_keys_at(alloc, columns, value)? else {
        return Ok(None);
    };
    let Some(rules) = call_rules_in(alloc, value)? else {
        return Ok(None);
    };
    Ok(Some(GetDecl {
        function,
        keys,
        tags: rules.tags,
        ignore: rules.rule.ignore,
        retry: rules.rule.retry,
    }))
}

/// The list of a table with these columns, `Some(None)` where it has none, or `None` where it has another form.
pub fn list_at(
    alloc: Global,
    columns: &KeyColumns,
    value: &Value,
) -> Result<Option<Option<ListDecl>>, Memory>
    ensures { IfOk result (λ l. l ≡ optional (list_access_of columns.now) (get (codes "list") (view value.now))) }
{
    match value.get("list") {
        Some(found) => match list_of(alloc, columns, found)? {
            Some(list) => Ok(Some(Some(list))),
            None => Ok(None),
        },
        None => Ok(Some(None)),
    }
}

/// The get of a table with these columns, `Some(None)` where it has none, or `None` where it has another form.
pub fn get_at(
    alloc: Global,
    columns: &KeyColumns,
    value: &Value,
) -> Result<Option<Option<GetDecl>>, Memory>
    ensures { IfOk result (λ g. g ≡ optional (get_access_of columns.now) (get (codes "get") (view value.now))) }
{
    match value.get("get") {
        Some(found) => match get_of(alloc, columns, found)? {
            Some(get) => Ok(Some(Some(get))),
            None => Ok(None),
        },
        None => Ok(Some(None)),
    }
}
