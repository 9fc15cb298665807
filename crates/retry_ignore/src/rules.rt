ghost use Rattle.std.specs.Prelude.{◌≡◌, IfOk};
ghost use Rattle.sp_model.specs.Settling.{or_else, rule_of};

use sp_model::{Patterns, Retry, Rule, TableDecl};
use sp_value::{Memory, TryCopy};
use std::alloc::Global;

fn or_else<'a, T>(own: &'a Option<T>, other: &'a Option<T>) -> &'a Option<T>
    ensures { result.now ≡ or_else own.now other.now }
{
    match own {
        Some(_) => own,
        None => other,
    }
}

/// The rules of a call that has these of its own: each rule by itself is the call's, else the table's, else the plugin's.
pub fn rule_of(
    alloc: Global,
    table: &TableDecl,
    ignore: &Option<Patterns>,
    retry: &Option<Retry>,
) -> Result<Rule, Memory>
    ensures { IfOk result (λ rule. rule ≡ rule_of table.now ignore.now retry.now) }
{
    let ignore = or_else(ignore, or_else(&table.ignore, &table.plugin.ignore));
    let retry = or_else(retry, or_else(&table.retry, &table.plugin.retry));
    Ok(Rule {
        ignore: ignore.copy(alloc)?,
        retry: retry.copy(alloc)?,
    })
}
