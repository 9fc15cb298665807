//! Whether a request is one of its table, and its scan lawful: a scan begins with no other.

ghost use Rattle.std.specs.Prelude.{◌≡◌, ◌&&◌, not, [], true, option_copied, IsTrue, IfOk};
ghost use Rattle.std.specs.List.{list_any, list_all};
ghost use Rattle.sp_model.specs.Calls.{fit_keys};
ghost use Rattle.sp_model.specs.Conditions.{is_canonical};
ghost use Rattle.sp_model.specs.Keys.{same_operator, is_on, is_sent, is_equality};
ghost use Rattle.sp_model.specs.Names.{has_name};
ghost use Rattle.sp_model.specs.Requests.{keys_for, subset_names, subset_of_list, subset_for, are_sent, is_positive, IsRequestOf};
ghost use Rattle.sp_model.specs.RowOf.{names_of_columns, columns_named};
ghost use Rattle.sp_model.specs.SubsetKeys.{is_subset};
ghost use Rattle.decl_words.specs.Sound.{IsSound};
ghost use Rattle.model_laws.specs.LawfulScans.{has_attempts, is_lawful_access, is_lawful_scan};

use access_choice::keys_for;
use key_columns::{Given, is_met};
use sp_model::{
    Access, ColumnDecl, Condition, KeyDecl, ListDecl, Matching, Patterns, Retry, ScanRequest,
    TableDecl, has_name, is_canonical,
};
use sp_value::{Memory, Op, Text, Texts, TryCopy, same_texts};
use sqlite_items::Items;
use std::alloc::Global;

fn same_operator(left: Op, right: Op) -> bool
    ensures { result ≡ same_operator left right }
{
    left == right
}

fn declares(operators: &[Op], operator: Op) -> bool
    ensures { result ≡ list_any (same_operator operator) operators.now }
{
    operators
        .iter()
        .any(|known| same_operator(operator, *known))
}

fn is_on(key: &KeyDecl, condition: &Condition) -> bool
    ensures { result ≡ is_on key.now condition.now }
{
    key.column == condition.column && declares(key.operators.as_slice(), condition.operator)
}

fn is_sent(keys: &[KeyDecl], condition: &Condition) -> bool
    ensures { result ≡ is_sent keys.now condition.now }
{
    keys.iter().any(|key| is_on(key, condition))
}

fn are_all_sent(keys: &[KeyDecl], conditions: &[Condition]) -> bool
    ensures { result ≡ list_all (is_sent keys.now) conditions.now }
{
    conditions.iter().all(|condition| is_sent(keys, condition))
}

fn are_equalities(conditions: &[Condition]) -> bool
    ensures { result ≡ list_all is_equality conditions.now }
{
    conditions.iter().all(|it| it.operator == Op::Eq)
}

fn fit_keys(keys: &[KeyDecl], conditions: &[Condition]) -> bool
    ensures { result ≡ fit_keys keys.now conditions.now }
{
    is_canonical(conditions)
        && are_all_sent(keys, conditions)
        && is_met(keys, &Given::all(conditions))
}

fn has_attempts(table: &TableDecl, _ignore: &Option<Patterns>, retry: &Option<Retry>) -> bool
    ensures { result ≡ has_attempts table.now _ignore.now retry.now }
{
    match (retry, &table.retry, &table.plugin.retry) {
        (Some(retry), _, _) => retry.attempts >= 1,
        (None, Some(retry), _) => retry.attempts >= 1,
        (None, None, Some(retry)) => retry.attempts >= 1,
        (None, None, None) => true,
    }
}

fn fits_list(table: &TableDecl, conditions: &[Condition], list: &ListDecl) -> bool
    ensures { result ≡ (has_attempts table.now list.now.ignore list.now.retry && fit_keys list.now.keys conditions.now) }
{
    has_attempts(table, &list.ignore, &list.retry) && fit_keys(list.keys.as_slice(), conditions)
}

fn is_lawful_access(table: &TableDecl, conditions: &[Condition], access: Access) -> bool
    ensures { result ≡ is_lawful_access table.now conditions.now access }
{
    match (access, &table.get, &table.list) {
        (Access::Get, Some(get), _) => {
            has_attempts(table, &get.ignore, &get.retry)
                && fit_keys(get.keys.as_slice(), conditions)
                && are_equalities(conditions)
        }
        (Access::List, _, Some(list)) => {
            fits_list(table, conditions, list) && list.parent.is_none()
        }
        (Access::Parents, _, Some(list)) => {
            fits_list(table, conditions, list)
                && match &list.parent {
                    Some(parent) => has_attempts(table, &parent.ignore, &parent.retry),
                    None => false,
                }
        }
        _ => false,
    }
}

fn functions_have_attempts(table: &TableDecl) -> bool
    ensures { result ≡ list_all (λ f. has_attempts table.now f.ignore f.retry) table.now.functions }
{
    let functions = table.functions.as_slice();
    functions
        .iter()
        .all(|f| has_attempts(table, &f.ignore, &f.retry))
}

/// Whether the scan of a request of a sound table is lawful.
pub fn is_lawful(table: &TableDecl, request: &ScanRequest) -> bool
    requires { IsSound table.now }
    ensures { result ≡ is_lawful_scan table.now request.now }
{
    is_lawful_access(table, request.conditions.as_slice(), request.access)
        && functions_have_attempts(table)
}

fn are_exact(keys: &[KeyDecl]) -> bool
    ensures { result ≡ list_all (λ key. not (is_subset key.matching)) keys.now }
{
    keys.iter()
        .all(|key| matches!(key.matching, Matching::Exact))
}

/// Whether no keys only filter.
#[tactic(auto, using(crate::proofs::Subset::exact_leaves_none))]
fn leave_no_subset(keys: &[KeyDecl]) -> bool
    ensures { IsTrue result → subset_names keys.now ≡ [] }
{
    are_exact(keys)
}

fn is_exact_list(list: &Option<ListDecl>) -> bool
    ensures { IsTrue result → subset_of_list list.now ≡ [] }
{
    match list {
        Some(list) => leave_no_subset(list.keys.as_slice()),
        None => true,
    }
}

fn are_named(names: &[Text], conditions: &[Condition]) -> bool
    ensures { result ≡ list_all (λ condition. has_name names.now condition.column) conditions.now }
{
    conditions.iter().all(|it| has_name(names, &it.column))
}

fn are_sent(keys: &[KeyDecl], request: &ScanRequest) -> bool
    ensures { result ≡ (is_canonical request.now.conditions && list_all (is_sent keys.now) request.now.conditions && list_all (λ condition. has_name request.now.columns condition.column) request.now.conditions) }
{
    let conditions = request.conditions.as_slice();
    is_canonical(conditions)
        && are_all_sent(keys, conditions)
        && are_named(request.columns.as_slice(), conditions)
}

fn is_positive(limit: Option<u64>) -> bool
    ensures { result ≡ is_positive limit }
{
    match limit {
        Some(limit) => limit >= 1,
        None => true,
    }
}

fn names_among(alloc: Global, names: &[Text], columns: &[ColumnDecl]) -> Result<Texts, Memory>
    ensures { IfOk result (λ found. found ≡ names_of_columns (columns_named names.now columns.now)) }
{
    let mut found = Items::new(alloc);
    for column in columns {
        if has_name(names, &column.name) {
            let name = column.name.copy(alloc)?;
            let Ok(()) = found.push(name) else {
                return Err(Memory);
            };
        }
    }
    Ok(found)
}

/// Whether no keys of an access only filter.
#[tactic(auto, unfolding(sp_model::specs::Requests::subset_for))]
fn has_exact_keys(table: &TableDecl, access: Access) -> bool
    ensures { IsTrue result → subset_for table.now access ≡ [] }
{
    match access {
        Access::Get => true,
        Access::List => is_exact_list(&table.list),
        Access::Parents => is_exact_list(&table.list),
    }
}

/// Whether the conditions of a request are sent on keys of its access.
#[tactic(auto, unfolding(sp_model::specs::Requests::are_sent))]
fn is_sent_as(table: &TableDecl, request: &ScanRequest) -> bool
    ensures { result ≡ are_sent (keys_for table.now request.now.access) request.now }
{
    match keys_for(table, request.access) {
        Some(keys) => are_sent(keys, request),
        None => false,
    }
}

/// Whether a request is one of a table whose list keys are exact.
pub fn is_request_of(
    alloc: Global,
    table: &TableDecl,
    request: &ScanRequest,
) -> Result<bool, Memory>
    ensures { IfOk result (λ b. IsTrue b → IsRequestOf table.now request.now) }
{
    let names = request.columns.as_slice();
    let columns = names_among(alloc, names, table.columns.as_slice())?;
    Ok(
        request.table == table.name
            && same_texts(names, columns.as_slice())
            && request.subset.is_empty()
            && has_exact_keys(table, request.access)
            && is_sent_as(table, request)
            && is_positive(request.limit),
    )
}
