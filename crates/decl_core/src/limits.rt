ghost use Rattle.std.specs.Prelude.{◌≡◌, true};
ghost use Rattle.std.specs.List.{list_all};
ghost use Rattle.std.specs.Option.{option_map_or};
ghost use Rattle.decl_words.specs.Limits.{is_short, optional_is_short, few_patterns, retry_fits, rule_fits, call_fits, column_fits, keys_fit, access_fits, list_fits, get_fits, function_fits, table_fits, outside_fits};

use crate::table_rule::TableRule;
use sp_model::{
    AccessDecl, ColumnDecl, Declaration, FunctionDecl, GetDecl, KeyDecl, ListDecl, Pair, Patterns,
    Retry, TableDecl,
};
use sp_value::{Memory, Text};
use std::alloc::Global;

/// Bytes of a name.
const NAME_BYTES: usize = 63;

/// Patterns of a rule.
const PATTERNS: usize = 64;

/// Tags of a call.
const TAGS: usize = 16;

/// Columns of a table.
const COLUMNS: usize = 256;

/// Functions of a table.
const FUNCTIONS: usize = 64;

/// Tables of a declaration.
const TABLES: usize = 512;

/// Attempts of a call.
pub const ATTEMPTS: u64 = 20;

/// Ticks of a retry rule's interval.
pub const INTERVAL: u64 = 1_000_000;

/// Ticks above which no delay of a retry rule is.
pub const CAP: u64 = 1_000_000_000;

fn is_short(name: &Text) -> bool
    ensures { result ≡ is_short name.now }
{
    name.as_bytes().len() <= NAME_BYTES
}

fn optional_is_short(name: &Option<Text>) -> bool
    ensures { result ≡ optional_is_short name.now }
{
    match name {
        Some(name) => is_short(name),
        None => true,
    }
}

fn are_short(names: &[Text]) -> bool
    ensures { result ≡ list_all is_short names.now }
{
    for name in names {
        if !is_short(name) {
            return false;
        }
    }
    true
}

fn few_patterns(patterns: &Patterns) -> bool
    ensures { result ≡ few_patterns patterns.now }
{
    patterns.len() <= PATTERNS
}

fn retry_fits(retry: &Retry) -> bool
    ensures { result ≡ retry_fits retry.now }
{
    few_patterns(&retry.patterns)
        && retry.attempts >= 1
        && u64::from(retry.attempts) <= ATTEMPTS
        && retry.interval <= INTERVAL
        && retry.cap <= CAP
}

fn ignore_fits(ignore: &Option<Patterns>) -> bool
    ensures { result ≡ option_map_or few_patterns ignore.now true }
{
    match ignore {
        Some(patterns) => few_patterns(patterns),
        None => true,
    }
}

fn optional_retry_fits(retry: &Option<Retry>) -> bool
    ensures { result ≡ option_map_or retry_fits retry.now true }
{
    match retry {
        Some(retry) => retry_fits(retry),
        None => true,
    }
}

fn rule_fits(ignore: &Option<Patterns>, retry: &Option<Retry>) -> bool
    ensures { result ≡ rule_fits ignore.now retry.now }
{
    ignore_fits(ignore) && optional_retry_fits(retry)
}

fn call_fits(tags: &[Pair], ignore: &Option<Patterns>, retry: &Option<Retry>) -> bool
    ensures { result ≡ call_fits tags.now ignore.now retry.now }
{
    tags.len() <= TAGS && rule_fits(ignore, retry)
}

fn column_fits(column: &ColumnDecl) -> bool
    ensures { result ≡ column_fits column.now }
{
    is_short(&column.name) && optional_is_short(&column.function) && is_short(&column.field)
}

fn columns_fit(columns: &[ColumnDecl]) -> bool
    ensures { result ≡ list_all column_fits columns.now }
{
    for column in columns {
        if !column_fits(column) {
            return false;
        }
    }
    true
}

fn keys_fit(keys: &[KeyDecl]) -> bool
    ensures { result ≡ keys_fit keys.now }
{
    for key in keys {
        if !is_short(&key.column) {
            return false;
        }
    }
    true
}

fn access_fits(access: &AccessDecl) -> bool
    ensures { result ≡ access_fits access.now }
{
    is_short(&access.function) && call_fits(access.tags.as_slice(), &access.ignore, &access.retry)
}

fn parent_fits(parent: &Option<AccessDecl>) -> bool
    ensures { result ≡ option_map_or access_fits parent.now true }
{
    match parent {
        Some(parent) => access_fits(parent),
        None => true,
    }
}

fn list_fits(list: &ListDecl) -> bool
    ensures { result ≡ list_fits list.now }
{
    is_short(&list.function)
        && keys_fit(list.keys.as_slice())
        && parent_fits(&list.parent)
        && call_fits(list.tags.as_slice(), &list.ignore, &list.retry)
}

fn get_fits(get: &GetDecl) -> bool
    ensures { result ≡ get_fits get.now }
{
    is_short(&get.function)
        && keys_fit(get.keys.as_slice())
        && call_fits(get.tags.as_slice(), &get.ignore, &get.retry)
}

fn function_fits(function: &FunctionDecl) -> bool
    ensures { result ≡ function_fits function.now }
{
    is_short(&function.name)
        && are_short(function.depends.as_slice())
        && call_fits(function.tags.as_slice(), &function.ignore, &function.retry)
}

fn functions_fit(functions: &[FunctionDecl]) -> bool
    ensures { result ≡ list_all function_fits functions.now }
{
    for function in functions {
        if !function_fits(function) {
            return false;
        }
    }
    true
}

fn optional_list_fits(list: &Option<ListDecl>) -> bool
    ensures { result ≡ option_map_or list_fits list.now true }
{
    match list {
        Some(list) => list_fits(list),
        None => true,
    }
}

fn optional_get_fits(get: &Option<GetDecl>) -> bool
    ensures { result ≡ option_map_or get_fits get.now true }
{
    match get {
        Some(get) => get_fits(get),
        None => true,
    }
}

fn table_fits(table: &TableDecl) -> bool
    ensures { result ≡ table_fits table.now }
{
    is_short(&table.name)
        && table.columns.len() <= COLUMNS
        && columns_fit(table.columns.as_slice())
        && table.functions.len() <= FUNCTIONS
        && functions_fit(table.functions.as_slice())
        && optional_list_fits(&table.list)
        && optional_get_fits(&table.get)
        && rule_fits(&table.ignore, &table.retry)
}

/// Whether the members outside of tables are within their limits.
pub fn outside_fits(declaration: &Declaration) -> bool
    ensures { result ≡ outside_fits declaration.now }
{
    declaration.tables.len() <= TABLES && rule_fits(&declaration.ignore, &declaration.retry)
}

/// A list, a name or a number of a table is beyond its limit.
pub struct BeyondLimit;

impl TableRule for BeyondLimit {
    ghost use Rattle.std.specs.Prelude.{not};
    ghost use Rattle.decl_words.specs.Limits.{table_fits};

    ghost refuses = { λ t. not (table_fits t) };

    fn refuses(_alloc: Global, table: &TableDecl) -> Result<bool, Memory> {
        Ok(!table_fits(table))
    }
}
