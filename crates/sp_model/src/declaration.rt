ghost use Rattle.std.specs.Prelude.{◌≡◌, IfOk};

use crate::settings::Pair;
use sp_value::{Kind, Memory, Op, Text, Texts, TryCopy};
use sqlite_items::Items;
use std::alloc::Global;

/// Error patterns, in which `*` stands for any bytes.
pub type Patterns = Texts;

/// How the delays grow from attempt to attempt.
#[derive(Clone, Copy, Debug, PartialEq, Eq)]
pub enum Backoff {
    Constant,
    Fibonacci,
    Exponential,
}

/// Which errors are asked again, how often and after which delays. `interval` and `cap` are ticks.
#[derive(Drop)]
pub struct Retry {
    pub patterns: Patterns,
    pub attempts: u32,
    pub backoff: Backoff,
    pub interval: u64,
    pub cap: u64,
}

impl TryCopy for Retry {
    fn copy(&self, alloc: Global) -> Result<Retry, Memory> {
        Ok(Retry {
            patterns: self.patterns.copy(alloc)?,
            attempts: self.attempts,
            backoff: self.backoff,
            interval: self.interval,
            cap: self.cap,
        })
    }
}

/// The rules of a call: which errors end it as an end does, and which are asked again.
#[derive(Drop)]
pub struct Rule {
    pub ignore: Option<Patterns>,
    pub retry: Option<Retry>,
}

impl TryCopy for Rule {
    fn copy(&self, alloc: Global) -> Result<Rule, Memory> {
        let rule = copied_rule(alloc, &self.ignore, &self.retry)?;
        Ok(rule)
    }
}

/// A column: the field of the row's item, or of its function's result.
#[derive(Drop)]
pub struct ColumnDecl {
    pub name: Text,
    pub kind: Kind,
    pub function: Option<Text>,
    pub field: Text,
}

impl TryCopy for ColumnDecl {
    fn copy(&self, alloc: Global) -> Result<ColumnDecl, Memory> {
        Ok(ColumnDecl {
            name: self.name.copy(alloc)?,
            kind: self.kind,
            function: self.function.copy(alloc)?,
            field: self.field.copy(alloc)?,
        })
    }
}

/// Whether a key needs a condition.
#[derive(Clone, Copy, Debug, PartialEq, Eq)]
pub enum Need {
    Required,
    Optional,
    AnyOf,
}

/// Whether a condition on a key only filters, or may change what is answered.
#[derive(Clone, Copy, Debug, PartialEq, Eq)]
pub enum Matching {
    Subset,
    Exact,
}

/// A key column of a list or get: the conditions that are sent to the plugin.
#[derive(Drop)]
pub struct KeyDecl {
    pub column: Text,
    pub operators: Items<Op>,
    pub need: Need,
    pub matching: Matching,
}

impl TryCopy for KeyDecl {
    fn copy(&self, alloc: Global) -> Result<KeyDecl, Memory> {
        Ok(KeyDecl {
            column: self.column.copy(alloc)?,
            operators: self.operators.copy(alloc)?,
            need: self.need,
            matching: self.matching,
        })
    }
}

/// The function that gives the parent items of a list, with its rules.
#[derive(Drop)]
pub struct AccessDecl {
    pub function: Text,
    pub tags: Items<Pair>,
    pub ignore: Option<Patterns>,
    pub retry: Option<Retry>,
}

impl TryCopy for AccessDecl {
    fn copy(&self, alloc: Global) -> Result<AccessDecl, Memory> {
        Ok(AccessDecl {
            function: self.function.copy(alloc)?,
            tags: self.tags.copy(alloc)?,
            ignore: self.ignore.copy(alloc)?,
            retry: self.retry.copy(alloc)?,
        })
    }
}

/// How the rows of a table are listed.
#[derive(Drop)]
pub struct ListDecl {
    pub function: Text,
    pub keys: Items<KeyDecl>,
    pub parent: Option<AccessDecl>,
    pub tags: Items<Pair>,
    pub ignore: Option<Patterns>,
    pub retry: Option<Retry>,
}

impl TryCopy for ListDecl {
    fn copy(&self, alloc: Global) -> Result<ListDecl, Memory> {
        Ok(ListDecl {
            function: self.function.copy(alloc)?,
            keys: self.keys.copy(alloc)?,
            parent: self.parent.copy(alloc)?,
            tags: self.tags.copy(alloc)?,
            ignore: self.ignore.copy(alloc)?,
            retry: self.retry.copy(alloc)?,
        })
    }
}

/// How one row of a table is got by its keys.
#[derive(Drop)]
pub struct GetDecl {
    pub function: Text,
    pub keys: Items<KeyDecl>,
    pub tags: Items<Pair>,
    pub ignore: Option<Patterns>,
    pub retry: Option<Retry>,
}

impl TryCopy for GetDecl {
    fn copy(&self, alloc: Global) -> Result<GetDecl, Memory> {
        Ok(GetDecl {
            function: self.function.copy(alloc)?,
            keys: self.keys.copy(alloc)?,
            tags: self.tags.copy(alloc)?,
            ignore: self.ignore.copy(alloc)?,
            retry: self.retry.copy(alloc)?,
        })
    }
}

/// A function of a row, with the functions whose results it needs.
#[derive(Drop)]
pub struct FunctionDecl {
    pub name: Text,
    pub depends: Texts,
    pub tags: Items<Pair>,
    pub ignore: Option<Patterns>,
    pub retry: Option<Retry>,
}

impl TryCopy for FunctionDecl {
    fn copy(&self, alloc: Global) -> Result<FunctionDecl, Memory> {
        Ok(FunctionDecl {
            name: self.name.copy(alloc)?,
            depends: self.depends.copy(alloc)?,
            tags: self.tags.copy(alloc)?,
            ignore: self.ignore.copy(alloc)?,
            retry: self.retry.copy(alloc)?,
        })
    }
}

/// A table, with its own rules, and as `plugin` those of its declaration.
#[derive(Drop)]
pub struct TableDecl {
    pub name: Text,
    pub columns: Items<ColumnDecl>,
    pub list: Option<ListDecl>,
    pub get: Option<GetDecl>,
    pub functions: Items<FunctionDecl>,
    pub ignore: Option<Patterns>,
    pub retry: Option<Retry>,
    pub plugin: Rule,
}

impl TryCopy for TableDecl {
    fn copy(&self, alloc: Global) -> Result<TableDecl, Memory> {
        let name = self.name.copy(alloc)?;
        let columns = self.columns.copy(alloc)?;
        let functions = self.functions.copy(alloc)?;
        let plugin = self.plugin.copy(alloc)?;
        let Rule { ignore, retry } = copied_rule(alloc, &self.ignore, &self.retry)?;
        let Accesses { list, get } = copied_accesses(alloc, &self.list, &self.get)?;
        Ok(TableDecl {
            name,
            columns,
            list,
            get,
            functions,
            ignore,
            retry,
            plugin,
        })
    }
}

/// The rules of a call or a table, copied.
fn copied_rule(
    alloc: Global,
    ignore: &Option<Patterns>,
    retry: &Option<Retry>,
) -> Result<Rule, Memory>
    ensures { IfOk result (λ r. r ≡ record { ignore = ignore.now; retry = retry.now }) }
{
    Ok(Rule {
        ignore: ignore.copy(alloc)?,
        retry: retry.copy(alloc)?,
    })
}

/// A table's list and get.
#[derive(Drop)]
struct Accesses {
    list: Option<ListDecl>,
    get: Option<GetDecl>,
}

/// They are copied apart from the rest of a table: each early return drops what was copied before it, and the proof has every such drop.
fn copied_accesses(
    alloc: Global,
    list: &Option<ListDecl>,
    get: &Option<GetDecl>,
) -> Result<Accesses, Memory>
    ensures { IfOk result (λ a. a ≡ record { list = list.now; get = get.now }) }
{
    Ok(Accesses {
        list: list.copy(alloc)?,
        get: get.copy(alloc)?,
    })
}

/// What a plugin declares: its tables, and the rules of calls that have none of their own.
#[derive(Drop)]
pub struct Declaration {
    pub tables: Items<TableDecl>,
    pub ignore: Option<Patterns>,
    pub retry: Option<Retry>,
}

impl TryCopy for Declaration {
    fn copy(&self, alloc: Global) -> Result<Declaration, Memory> {
        Ok(Declaration {
            tables: self.tables.copy(alloc)?,
            ignore: self.ignore.copy(alloc)?,
            retry: self.retry.copy(alloc)?,
        })
    }
}
