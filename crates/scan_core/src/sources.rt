ghost use Rattle.std.specs.Prelude.{◌≡◌, IfOk};
ghost use Rattle.std.specs.Arc.{arc_value};
ghost use Rattle.sp_model.specs.Settling.{rule_of};
ghost use Rattle.sp_model.specs.Walk.{no_source, list_source, get_source, parent_source, parent_of};
ghost use Rattle.scan_core.specs.Calls.{source_of, items_source};
ghost use Rattle.scan_core.specs.Courses.{IsScope};

use crate::scope::{CallSource, ScanScope};
use retry_ignore::rule_of;
use sp_model::{
    Access, AccessDecl, GetDecl, ListDecl, Patterns, Retry, Rule, ScanRequest, TableDecl,
};
use sp_value::{Memory, Text, TryCopy};
use std::alloc::Global;
use std::sync::Arc;

/// The function of a call with its rules.
fn source(
    alloc: Global,
    table: &TableDecl,
    function: &Text,
    ignore: &Option<Patterns>,
    retry: &Option<Retry>,
    single: bool,
) -> Result<CallSource, Memory>
    ensures { IfOk result (λ s. source_of s ≡ record { function = function.now; rule = rule_of table.now ignore.now retry.now; single = single }) }
{
    let function = function.copy(alloc)?;
    let rule = rule_of(alloc, table, ignore, retry)?;
    Ok(CallSource {
        function,
        rule,
        single,
    })
}

/// No function, and no rules.
fn no_source(alloc: Global) -> Result<CallSource, Memory>
    ensures { IfOk result (λ s. source_of s ≡ no_source) }
{
    let function = Text::from_str(alloc, "")?;
    Ok(CallSource {
        function,
        rule: Rule {
            ignore: None,
            retry: None,
        },
        single: false,
    })
}

fn list_source(
    alloc: Global,
    table: &TableDecl,
    list: &Option<ListDecl>,
) -> Result<CallSource, Memory>
    ensures { IfOk result (λ s. source_of s ≡ list_source table.now list.now) }
{
    match list {
        Some(d) => source(alloc, table, &d.function, &d.ignore, &d.retry, false),
        None => no_source(alloc),
    }
}

fn get_source(alloc: Global, table: &TableDecl, get: &Option<GetDecl>) -> Result<CallSource, Memory>
    ensures { IfOk result (λ s. source_of s ≡ get_source table.now get.now) }
{
    match get {
        Some(d) => source(alloc, table, &d.function, &d.ignore, &d.retry, true),
        None => no_source(alloc),
    }
}

fn parent_source(
    alloc: Global,
    table: &TableDecl,
    parent: &Option<AccessDecl>,
) -> Result<CallSource, Memory>
    ensures { IfOk result (λ s. source_of s ≡ parent_source table.now parent.now) }
{
    match parent {
        Some(d) => source(alloc, table, &d.function, &d.ignore, &d.retry, false),
        None => no_source(alloc),
    }
}

/// The source of the parents of a table's list.
fn parents_source(alloc: Global, table: &TableDecl) -> Result<CallSource, Memory>
    ensures { IfOk result (λ s. source_of s ≡ parent_source table.now (parent_of table.now.list)) }
{
    match &table.list {
        Some(d) => parent_source(alloc, table, &d.parent),
        None => no_source(alloc),
    }
}

/// The source of the items of an access.
fn items_source(alloc: Global, table: &TableDecl, access: Access) -> Result<CallSource, Memory>
    ensures { IfOk result (λ s. source_of s ≡ items_source access table.now) }
{
    match access {
        Access::Get => get_source(alloc, table, &table.get),
        Access::List => list_source(alloc, table, &table.list),
        Access::Parents => list_source(alloc, table, &table.list),
    }
}

impl ScanScope {
    /// What a scan of a request of a table at a version is of.
    pub fn of(
        alloc: Global,
        request: ScanRequest,
        table: Arc<TableDecl, Global>,
        version: u64,
        window: u32,
    ) -> Result<ScanScope, Memory>
        ensures sources { IfOk result IsScope }
        ensures fields { IfOk result (λ s. (s.request ≡ request) × (s.table ≡ table) × (s.version ≡ version) × (s.window ≡ window)) }
    {
        let items = items_source(alloc, &table, request.access)?;
        let parents = parents_source(alloc, &table)?;
        Ok(ScanScope {
            request,
            table,
            version,
            window,
            items,
            parents,
        })
    }
}
