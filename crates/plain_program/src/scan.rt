ghost use Rattle.std.specs.Prelude.{◌≡◌, ◌++◌, ◌∷◌, [], suc, IfOk};
ghost use Rattle.sp_model.specs.Book.{Book};
ghost use Rattle.sp_model.specs.declared.outcome.Walk.TheVariants.{Going};
ghost use Rattle.sp_model.specs.Walk.{cell_of, meets, is_reached, with_row_kept, with_row, walk_items, walk_by, scan_walk, walk_value, scan_value, start, no_source, list_source, get_source, parent_source, parent_of};
ghost use Rattle.plain_program.specs.Known.{AreAnswersAt};
ghost use Rattle.plain_program.specs.Sources.{source_of};

use crate::item::row_of;
use crate::replies::Replies;
use crate::settle::rule_of;
use crate::walking::{Source, Visit, next_row, walk};
use sp_model::{
    Access, AccessDecl, Call, Cause, ColumnDecl, Condition, GetDecl, ListDecl, Row, Rule,
    ScanRequest, ScanValue, TableDecl, Version, Walk, WalkState, columns_named,
};
use sp_value::{Cell, Cells, Memory, Rows, Text, Truth, TryCopy, compare};
use std::alloc::Global;

fn cell_of(
    alloc: Global,
    columns: &[ColumnDecl],
    cells: &[Cell],
    name: &Text,
) -> Result<Cell, Memory>
    ensures { IfOk result (λ c. c ≡ cell_of columns.now cells.now name.now) }
{
    for (index, column) in columns.iter().enumerate() {
        if index >= cells.len() {
            return Ok(Cell::Null);
        }
        if column.name == *name {
            return cells[index].copy(alloc);
        }
    }
    Ok(Cell::Null)
}

fn meets(
    alloc: Global,
    conditions: &[Condition],
    columns: &[ColumnDecl],
    cells: &[Cell],
) -> Result<bool, Memory>
    ensures { IfOk result (λ b. b ≡ meets conditions.now columns.now cells.now) }
{
    for condition in conditions {
        let cell = cell_of(alloc, columns, cells, &condition.column)?;
        if compare(condition.operator, &cell, &condition.value) != Truth::Yes {
            return Ok(false);
        }
    }
    Ok(true)
}

fn is_reached(limit: Option<u64>, count: usize) -> bool
    ensures { result ≡ is_reached limit count }
{
    match limit {
        None => false,
        Some(limit) => limit <= count as u64,
    }
}

fn with_row_kept(limit: Option<u64>, cells: Cells, state: WalkState) -> Result<Walk, Memory>
    ensures { IfOk result (λ w. w ≡ with_row_kept limit (state.rows ++ cells ∷ []) state) }
{
    let items = next_row(&state)?;
    let WalkState {
        mut rows,
        items: _,
        steady,
    } = state;
    rows.push(cells)?;
    let full = is_reached(limit, rows.len());
    let state = WalkState {
        rows,
        items,
        steady,
    };
    if full {
        Ok(Walk::Full(state))
    } else {
        Ok(Walk::Going(state))
    }
}

fn with_row_left(state: WalkState) -> Result<Walk, Memory>
    ensures { IfOk result (λ w. w ≡ Going (record { rows = state.rows; items = suc state.items; steady = state.steady })) }
{
    let items = next_row(&state)?;
    Ok(Walk::Going(WalkState {
        rows: state.rows,
        items,
        steady: state.steady,
    }))
}

fn with_row(
    alloc: Global,
    conditions: &[Condition],
    columns: &[ColumnDecl],
    limit: Option<u64>,
    row: Option<Row>,
    state: WalkState,
) -> Result<Walk, Memory>
    ensures { IfOk result (λ w. w ≡ with_row conditions.now columns.now limit row state) }
{
    match row {
        None => Ok(Walk::Waiting),
        Some(Row::Broken { column, cause }) => Ok(Walk::Failed {
            row: next_row(&state)?,
            column: Some(column),
            cause,
        }),
        Some(Row::Whole(cells)) => {
            if meets(alloc, conditions, columns, cells.as_slice())? {
                let walk = with_row_kept(limit, cells, state)?;
                return Ok(walk);
            }
            let walk = with_row_left(state)?;
            Ok(walk)
        }
    }
}

/// Visits the items of a list or get.
#[derive(Drop)]
pub struct OfItem<'a, R: Replies> {
    pub replies: &'a R,
    pub table: &'a TableDecl,
    pub request: &'a ScanRequest,
}

impl<R: Replies> Visit for OfItem<'_, R> {
    ghost use Rattle.sp_model.specs.Walk.{visit_item};

    ghost visits = { λ v. visit_item v.table.now v.request.now (R.answers v.replies.now) };

    fn visit(&self, alloc: Global, item: &Cell, state: WalkState) -> Result<Walk, Memory> {
        let columns = columns_named(
            alloc,
            self.request.columns.as_slice(),
            self.table.columns.as_slice(),
        )?;
        let row = row_of(alloc, self.replies, self.table, columns.as_slice(), item)?;
        let walk = with_row(
            alloc,
            self.request.conditions.as_slice(),
            columns.as_slice(),
            self.request.limit,
            row,
            state,
        )?;
        Ok(walk)
    }
}

/// Visits the parent items of a list, each by the walk of its child list.
#[derive(Drop)]
pub struct OfParent<'a, R: Replies> {
    pub replies: &'a R,
    pub table: &'a TableDecl,
    pub request: &'a ScanRequest,
}

impl<R: Replies> Visit for OfParent<'_, R> {
    ghost use Rattle.sp_model.specs.Walk.{visit_parent};

    ghost visits = { λ v. visit_parent v.table.now v.request.now (R.answers v.replies.now) };

    fn visit(&self, alloc: Global, item: &Cell, state: WalkState) -> Result<Walk, Memory> {
        let source = list_source(alloc, self.table, &self.table.list)?;
        let parent = Some(item.copy(alloc)?);
        let walk = walk_list(
            alloc,
            self.replies,
            self.table,
            self.request,
            &source,
            parent,
            state,
        )?;
        Ok(walk)
    }
}

fn walk_list<R: Replies>(
    alloc: Global,
    replies: &R,
    table: &TableDecl,
    request: &ScanRequest,
    source: &Source,
    parent: Option<Cell>,
    state: WalkState,
) -> Result<Walk, Memory>
    ensures { IfOk result (λ w. w ≡ walk_items table.now request.now (R.answers replies.now) (source_of source.now) (Call.List table.now.name request.now.conditions parent) state) }
{
    let call = Call::List {
        table: table.name.copy(alloc)?,
        conditions: request.conditions.copy(alloc)?,
        parent,
    };
    let visitor = OfItem {
        replies,
        table,
        request,
    };
    let walked = walk(alloc, &visitor, replies, source, &call, state)?;
    Ok(walked)
}

fn walk_get<R: Replies>(
    alloc: Global,
    replies: &R,
    table: &TableDecl,
    request: &ScanRequest,
) -> Result<Walk, Memory>
    ensures { IfOk result (λ w. w ≡ walk_by Access.Get table.now request.now (R.answers replies.now)) }
{
    let source = get_source(alloc, table, &table.get)?;
    let call = Call::Get {
        table: table.name.copy(alloc)?,
        conditions: request.conditions.copy(alloc)?,
    };
    let visitor = OfItem {
        replies,
        table,
        request,
    };
    let walked = walk(alloc, &visitor, replies, &source, &call, start(alloc))?;
    Ok(walked)
}

fn walk_parents<R: Replies>(
    alloc: Global,
    replies: &R,
    table: &TableDecl,
    request: &ScanRequest,
) -> Result<Walk, Memory>
    ensures { IfOk result (λ w. w ≡ walk_by Access.Parents table.now request.now (R.answers replies.now)) }
{
    let source = parents_source(alloc, table, &table.list)?;
    let call = Call::Parents {
        table: table.name.copy(alloc)?,
    };
    let visitor = OfParent {
        replies,
        table,
        request,
    };
    let walked = walk(alloc, &visitor, replies, &source, &call, start(alloc))?;
    Ok(walked)
}

fn start(alloc: Global) -> WalkState
    ensures { result ≡ start }
{
    WalkState {
        rows: Rows::new(alloc),
        items: 0,
        steady: true,
    }
}

fn no_source(alloc: Global) -> Result<Source, Memory>
    ensures { IfOk result (λ s. source_of s ≡ no_source) }
{
    Ok(Source {
        function: Text::from_str(alloc, "")?,
        rule: Rule {
            ignore: None,
            retry: None,
        },
        single: false,
    })
}

fn list_source(alloc: Global, table: &TableDecl, list: &Option<ListDecl>) -> Result<Source, Memory>
    ensures { IfOk result (λ s. source_of s ≡ list_source table.now list.now) }
{
    let Some(list) = list else {
        return no_source(alloc);
    };
    Ok(Source {
        function: list.function.copy(alloc)?,
        rule: rule_of(alloc, table, &list.ignore, &list.retry)?,
        single: false,
    })
}

fn get_source(alloc: Global, table: &TableDecl, get: &Option<GetDecl>) -> Result<Source, Memory>
    ensures { IfOk result (λ s. source_of s ≡ get_source table.now get.now) }
{
    let Some(get) = get else {
        return no_source(alloc);
    };
    Ok(Source {
        function: get.function.copy(alloc)?,
        rule: rule_of(alloc, table, &get.ignore, &get.retry)?,
        single: true,
    })
}

fn parent_source(
    alloc: Global,
    table: &TableDecl,
    parent: &Option<AccessDecl>,
) -> Result<Source, Memory>
    ensures { IfOk result (λ s. source_of s ≡ parent_source table.now parent.now) }
{
    let Some(parent) = parent else {
        return no_source(alloc);
    };
    Ok(Source {
        function: parent.function.copy(alloc)?,
        rule: rule_of(alloc, table, &parent.ignore, &parent.retry)?,
        single: false,
    })
}

fn parents_source(
    alloc: Global,
    table: &TableDecl,
    list: &Option<ListDecl>,
) -> Result<Source, Memory>
    ensures { IfOk result (λ s. source_of s ≡ parent_source table.now (parent_of list.now)) }
{
    match list {
        None => no_source(alloc),
        Some(list) => parent_source(alloc, table, &list.parent),
    }
}

/// The walk of a scan over replies that are known.
pub fn scan_walk<R: Replies>(
    alloc: Global,
    replies: &R,
    table: &TableDecl,
    request: &ScanRequest,
) -> Result<Walk, Memory>
    ensures { IfOk result (λ w. w ≡ scan_walk table.now request.now (R.answers replies.now)) }
{
    match request.access {
        Access::Get => walk_get(alloc, replies, table, request),
        Access::List => {
            let source = list_source(alloc, table, &table.list)?;
            let walk = walk_list(alloc, replies, table, request, &source, None, start(alloc))?;
            Ok(walk)
        }
        Access::Parents => walk_parents(alloc, replies, table, request),
    }
}

fn walk_value(walk: Walk) -> Option<ScanValue>
    ensures { result ≡ walk_value walk }
{
    match walk {
        Walk::Going(state) | Walk::Full(state) => Some(ScanValue::Rows(state.rows)),
        Walk::Failed { row, column, cause } => Some(ScanValue::Failed { row, column, cause }),
        Walk::Waiting => None,
    }
}

/// What a scan gives at a version of its connection: rows, or its first failure. `replies` are those of that connection and version.
pub fn scan_value<R: Replies>(
    alloc: Global,
    replies: &R,
    table: &TableDecl,
    request: &ScanRequest,
    version: &Version,
) -> Result<Option<ScanValue>, Memory>
    ensures { IfOk result (λ v. (book : Book) → AreAnswersAt book request.now.connection version.now (R.answers replies.now) → v ≡ scan_value book table.now request.now version.now) }
{
    match version {
        Version::Is(_) => {
            let walk = scan_walk(alloc, replies, table, request)?;
            Ok(walk_value(walk))
        }
        Version::Bad(text) => Ok(Some(ScanValue::Failed {
            row: 0,
            column: None,
            cause: Cause::BadVersion(text.copy(alloc)?),
        })),
    }
}
