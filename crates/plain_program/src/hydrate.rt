ghost use Rattle.std.specs.Prelude.{◌≡◌, Some, IfOk};
ghost use Rattle.std.specs.Option.{option_copied};
ghost use Rattle.sp_model.specs.Hydration.{with_result, with_results, find_function, outcome_of, hydrate_call, hydrated_in, hydrated};

use crate::replies::Replies;
use crate::settle::{rule_of, settled};
use sp_model::{Call, Cause, FunctionDecl, Outcome, Results, Settled, TableDecl};
use sp_value::{Cell, Members, Memory, Text, TryCopy};
use std::alloc::Global;

/// What a function gives for an item, its dependencies first. `None` where an answer is missing.
pub fn hydrated<R: Replies>(
    alloc: Global,
    replies: &R,
    table: &TableDecl,
    item: &Cell,
    name: &Text,
) -> Result<Option<Outcome>, Memory>
    ensures { IfOk result (λ o. o ≡ hydrated table.now (R.answers replies.now) item.now name.now) }
{
    let depth = table.functions.len();
    let outcome = hydrated_in(alloc, replies, table, item, depth, name)?;
    Ok(outcome)
}

fn hydrated_in<R: Replies>(
    alloc: Global,
    replies: &R,
    table: &TableDecl,
    item: &Cell,
    depth: usize,
    name: &Text,
) -> Result<Option<Outcome>, Memory>
    ensures { IfOk result (λ o. o ≡ hydrated_in depth table.now.functions (hydrate_call table.now (R.answers replies.now) item.now) name.now) }
{
    if depth == 0 {
        return Ok(None);
    }
    let Some(function) = find_function(table.functions.as_slice(), name) else {
        return Ok(None);
    };
    let depends = function.depends.as_slice();
    let mut results = Results::Given(Members::new(alloc));
    for index in 0..depends.len() {
        let dependency = &depends[depends.len() - 1 - index];
        let outcome = hydrated_in(alloc, replies, table, item, depth - 1, dependency)?;
        results = with_result(alloc, dependency, outcome, results)?;
    }
    let outcome = with_results(alloc, replies, table, item, function, results)?;
    Ok(outcome)
}

fn find_function<'a>(functions: &'a [FunctionDecl], name: &Text) -> Option<&'a FunctionDecl>
    ensures { option_copied result ≡ find_function name.now functions.now }
{
    for function in functions {
        if function.name == *name {
            return Some(function);
        }
    }
    None
}

fn with_result(
    alloc: Global,
    name: &Text,
    outcome: Option<Outcome>,
    rest: Results,
) -> Result<Results, Memory>
    ensures { IfOk result (λ r. r ≡ with_result name.now outcome rest) }
{
    match outcome {
        None => Ok(Results::Pending),
        Some(Outcome::Fails(cause)) => Ok(Results::Missed(cause)),
        Some(Outcome::Gave(value)) => match rest {
            Results::Given(members) => {
                Ok(Results::Given(members.put_under(alloc, name, &value)?))
            }
            other => Ok(other),
        },
    }
}

fn with_results<R: Replies>(
    alloc: Global,
    replies: &R,
    table: &TableDecl,
    item: &Cell,
    function: &FunctionDecl,
    results: Results,
) -> Result<Option<Outcome>, Memory>
    ensures { IfOk result (λ o. o ≡ with_results results (hydrate_call table.now (R.answers replies.now) item.now function.now)) }
{
    match results {
        Results::Pending => Ok(None),
        Results::Missed(cause) => Ok(Some(Outcome::Fails(cause))),
        Results::Given(members) => hydrate_call(alloc, replies, table, item, function, members),
    }
}

fn hydrate_call<R: Replies>(
    alloc: Global,
    replies: &R,
    table: &TableDecl,
    item: &Cell,
    function: &FunctionDecl,
    results: Members,
) -> Result<Option<Outcome>, Memory>
    ensures { IfOk result (λ o. o ≡ hydrate_call table.now (R.answers replies.now) item.now function.now results) }
{
    let call = Call::Hydrate {
        table: table.name.copy(alloc)?,
        function: function.name.copy(alloc)?,
        item: item.copy(alloc)?,
        results,
    };
    let rule = rule_of(alloc, table, &function.ignore, &function.retry)?;
    let settled = settled(alloc, replies, &rule, &call)?;
    outcome_of(alloc, &function.name, settled)
}

fn outcome_of(
    alloc: Global,
    name: &Text,
    settled: Option<Settled>,
) -> Result<Option<Outcome>, Memory>
    ensures { IfOk result (λ o. o ≡ outcome_of name.now settled) }
{
    match settled {
        None => Ok(None),
        Some(Settled::Items(items)) => Ok(Some(outcome_of_items(alloc, name, items.as_slice())?)),
        Some(Settled::Refused { attempt, text }) => Ok(Some(Outcome::Fails(Cause::Error {
            function: name.copy(alloc)?,
            attempt,
            text,
        }))),
    }
}

fn outcome_of_items(alloc: Global, name: &Text, items: &[Cell]) -> Result<Outcome, Memory>
    ensures { IfOk result (λ o. outcome_of name.now (Some (Settled.Items items.now)) ≡ Some o) }
{
    match items {
        [] => Ok(Outcome::Gave(Cell::Null)),
        [only] => Ok(Outcome::Gave(only.copy(alloc)?)),
        more => Ok(Outcome::Fails(Cause::TooMany {
            function: name.copy(alloc)?,
            count: more.len() as u64,
        })),
    }
}
