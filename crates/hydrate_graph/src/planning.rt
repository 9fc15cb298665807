ghost use Rattle.std.specs.Prelude.{◌≡◌, ◌<◌, ◌≤◌, ◌^◌, ℕ, List, true, false, Some, length, get_or, IfOk};
ghost use Rattle.std.specs.List.{list_all, list_any};
ghost use Rattle.sp_model.specs.Calls.{is_wanted};
ghost use Rattle.sp_model.specs.Hydration.{find_function};
ghost use Rattle.sp_model.specs.Rests.{column_rests};
ghost use Rattle.sp_model.specs.RowOf.{columns_named};
ghost use Rattle.sp_model.specs.declared.declaration.FunctionDecl.{FunctionDecl};
ghost use Rattle.hydrate_graph.specs.Graphs.{wants, rules_in};
ghost use Rattle.hydrate_graph.specs.Numbers.{number_of, numbers_of, needs_of, source_number, sources_of};
ghost use Rattle.hydrate_graph.specs.Planning.{some_flag, reach_step, reach_in, source_flag, wanted_flags, slots_from, room_from};

use crate::depends::all_depends;
use crate::plan::RowPlan;
use retry_ignore::rule_of;
use sp_model::{ColumnDecl, FunctionDecl, Rule, TableDecl, columns_named};
use sp_value::{Memory, Text, Texts, TryCopy};
use sqlite_items::Items;
use std::alloc::Global;

/// The number of the first function of a name, and the number of functions where there is none.
fn number_of(functions: &[FunctionDecl], name: &Text) -> u32
    requires { length functions.now ≤ 64 }
    ensures { result ≡ number_of functions.now name.now }
{
    for (index, function) in functions.iter().enumerate() {
        if function.name == *name {
            return index as u32;
        }
    }
    functions.len() as u32
}

pub(crate) fn numbers_of(
    alloc: Global,
    functions: &[FunctionDecl],
    names: &[Text],
) -> Result<Items<u32>, Memory>
    requires { length functions.now ≤ 64 }
    ensures { IfOk result (λ numbers. numbers ≡ numbers_of functions.now names.now) }
{
    let mut numbers = Items::new(alloc);
    for name in names {
        numbers.push(number_of(functions, name))?;
    }
    Ok(numbers)
}

fn needs_of(alloc: Global, functions: &[FunctionDecl]) -> Result<Items<Items<u32>>, Memory>
    requires { length functions.now ≤ 64 }
    ensures { IfOk result (λ needs. needs ≡ needs_of functions.now) }
{
    let mut needs = Items::new(alloc);
    for function in functions {
        let numbers = numbers_of(alloc, functions, function.depends.as_slice())?;
        needs.push(numbers)?;
    }
    Ok(needs)
}

fn source_number(functions: &[FunctionDecl], name: &Option<Text>) -> Option<u32>
    requires { length functions.now ≤ 64 }
    ensures { result ≡ source_number functions.now name.now }
{
    match name {
        None => None,
        Some(name) => Some(number_of(functions, name)),
    }
}

fn sources_of(
    alloc: Global,
    functions: &[FunctionDecl],
    columns: &[ColumnDecl],
) -> Result<Items<Option<u32>>, Memory>
    requires { length functions.now ≤ 64 }
    ensures { IfOk result (λ sources. sources ≡ sources_of functions.now columns.now) }
{
    let mut sources = Items::new(alloc);
    for column in columns {
        sources.push(source_number(functions, &column.function))?;
    }
    Ok(sources)
}

fn flag(flags: &[bool], number: u32) -> bool
    ensures { result ≡ get_or flags.now number false }
{
    let number = number as usize;
    number < flags.len() && flags[number]
}

fn some_flag(flags: &[bool], numbers: &[u32]) -> bool
    ensures { result ≡ some_flag flags.now numbers.now }
{
    for number in numbers {
        if flag(flags, *number) {
            return true;
        }
    }
    false
}

/// Of each function, whether it has this name or needs a function that is flagged.
fn reach_step(
    alloc: Global,
    functions: &[FunctionDecl],
    needs: &[Items<u32>],
    name: &Text,
    flags: &[bool],
) -> Result<Items<bool>, Memory>
    requires { needs.now ≡ needs_of functions.now }
    ensures { IfOk result (λ next. next ≡ reach_step functions.now name.now flags.now) }
{
    let mut next = Items::new(alloc);
    for index in 0..functions.len() {
        let reaches = functions[index].name == *name || some_flag(flags, needs[index].as_slice());
        next.push(reaches)?;
    }
    Ok(next)
}

/// Of each function, whether it has this name or comes to need the function that has it.
fn reaching(
    alloc: Global,
    functions: &[FunctionDecl],
    needs: &[Items<u32>],
    name: &Text,
) -> Result<Items<bool>, Memory>
    requires { needs.now ≡ needs_of functions.now }
    ensures { IfOk result (λ flags. flags ≡ reach_in (length functions.now) functions.now name.now) }
{
    let mut flags = Items::new(alloc);
    for _depth in 0..functions.len() {
        let next = reach_step(alloc, functions, needs, name, flags.as_slice())?;
        if next.as_slice() == flags.as_slice() {
            return Ok(next);
        }
        flags = next;
    }
    Ok(flags)
}

fn some_source(flags: &[bool], sources: &[Option<u32>]) -> bool
    ensures { result ≡ list_any (source_flag flags.now) sources.now }
{
    for source in sources {
        if let Some(number) = source {
            if flag(flags, *number) {
                return true;
            }
        }
    }
    false
}

/// Of each function, whether one of these sources needs it.
fn wanted_flags(
    alloc: Global,
    functions: &[FunctionDecl],
    needs: &[Items<u32>],
    sources: &[Option<u32>],
) -> Result<Items<bool>, Memory>
    requires { needs.now ≡ needs_of functions.now }
    ensures { IfOk result (λ flags. flags ≡ wanted_flags functions.now sources.now) }
{
    let mut flags = Items::new(alloc);
    for function in functions {
        let reaching = reaching(alloc, functions, needs, &function.name)?;
        flags.push(some_source(reaching.as_slice(), sources))?;
    }
    Ok(flags)
}

/// A slot for each flag that is set, from 0 on.
fn slots_of(alloc: Global, flags: &[bool]) -> Result<Items<Option<u32>>, Memory>
    requires { length flags.now ≤ 64 }
    ensures { IfOk result (λ slots. slots ≡ slots_from 0 flags.now) }
{
    let mut slots = Items::new(alloc);
    let mut next = 0;
    for flag in flags {
        let slot = if *flag { Some(next) } else { None };
        slots.push(slot)?;
        if *flag {
            next += 1;
        }
    }
    Ok(slots)
}

/// How many slots there are.
fn room_of(flags: &[bool]) -> u32
    requires { length flags.now ≤ 64 }
    ensures { result ≡ room_from 0 flags.now }
{
    let mut next = 0;
    for flag in flags {
        if *flag {
            next += 1;
        }
    }
    next
}

/// The rules of the calls of these functions.
fn rules_in(
    alloc: Global,
    table: &TableDecl,
    functions: &[FunctionDecl],
) -> Result<Items<Rule>, Memory>
    ensures { IfOk result (λ rules. rules ≡ rules_in table.now functions.now) }
{
    let mut rules = Items::new(alloc);
    for function in functions {
        let rule = rule_of(alloc, table, &function.ignore, &function.retry)?;
        rules.push(rule)?;
    }
    Ok(rules)
}

impl RowPlan {
    /// The plan of a table's rows with these of its columns. The functions wanted are those of the columns and all that they depend on.
    pub fn of(alloc: Global, table: &TableDecl, columns: &Texts) -> Result<RowPlan, Memory>
        requires few { length table.now.functions ≤ 64 }
        requires few_columns { length table.now.columns < 2 ^ 32 }
        requires rest { list_all (column_rests table.now.functions) (columns_named columns.now table.now.columns) ≡ true }
        ensures functions { IfOk result (λ p. p.functions ≡ table.now.functions) }
        ensures columns { IfOk result (λ p. p.columns ≡ columns_named columns.now table.now.columns) }
        ensures rules { IfOk result (λ p. p.rules ≡ rules_in table.now table.now.functions) }
        ensures wanted { IfOk result (λ p. (name : List ℕ) (f : FunctionDecl) → find_function name p.functions ≡ Some f → wants p (number_of p.functions name) ≡ is_wanted p.functions p.columns name) }
    {
        let functions = table.functions.copy(alloc)?;
        let columns = columns_named(alloc, columns.as_slice(), table.columns.as_slice())?;
        let needs = needs_of(alloc, functions.as_slice())?;
        let sources = sources_of(alloc, functions.as_slice(), columns.as_slice())?;
        let flags = wanted_flags(
            alloc,
            functions.as_slice(),
            needs.as_slice(),
            sources.as_slice(),
        )?;
        let slots = slots_of(alloc, flags.as_slice())?;
        let room = room_of(flags.as_slice());
        let rules = rules_in(alloc, table, functions.as_slice())?;
        let depends = all_depends(alloc, functions.as_slice())?;
        Ok(RowPlan {
            functions,
            rules,
            columns,
            needs,
            depends,
            sources,
            slots,
            room,
        })
    }
}
