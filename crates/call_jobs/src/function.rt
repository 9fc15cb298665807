ghost use Rattle.std.specs.Prelude.{◌≡◌, IfOk, option_map};
ghost use Rattle.std.specs.Option.{option_copied};
ghost use Rattle.sp_model.specs.Calls.{function_of};
ghost use Rattle.sp_model.specs.Walk.{parent_of};
ghost use Rattle.call_jobs.specs.Jobs.{function_by};

use crate::job::Job;
use sp_model::{AccessDecl, Asked, Call, ListDecl, TableDecl};
use sp_value::{Memory, Text, TryCopy};
use std::alloc::Global;

fn of_access(access: &Option<AccessDecl>) -> Option<&Text>
    ensures { option_copied result ≡ option_map (λ d. d.function) access.now }
{
    match access {
        Some(access) => Some(&access.function),
        None => None,
    }
}

fn of_parents(list: &Option<ListDecl>) -> Option<&Text>
    ensures { option_copied result ≡ option_map (λ d. d.function) (parent_of list.now) }
{
    match list {
        Some(list) => of_access(&list.parent),
        None => None,
    }
}

/// The function that a table declares for a call.
fn function_of<'a>(table: &'a TableDecl, call: &'a Call) -> Option<&'a Text>
    ensures { option_copied result ≡ function_of table.now call.now }
{
    match call {
        Call::List { .. } => match &table.list {
            Some(list) => Some(&list.function),
            None => None,
        },
        Call::Parents { .. } => of_parents(&table.list),
        Call::Get { .. } => match &table.get {
            Some(get) => Some(&get.function),
            None => None,
        },
        Call::Hydrate { function, .. } => Some(function),
    }
}

/// The function that a call of a table is asked by.
fn named(alloc: Global, table: &TableDecl, call: &Call) -> Result<Option<Text>, Memory>
    ensures { IfOk result (λ f. f ≡ function_of table.now call.now) }
{
    match function_of(table, call) {
        Some(name) => {
            let name = name.copy(alloc)?;
            Ok(Some(name))
        }
        None => Ok(None),
    }
}

impl Job {
    /// The function that the job's line names: of a call of a table the one that the table declares for it, else none.
    pub fn function(&self, alloc: Global) -> Result<Option<Text>, Memory>
        ensures { IfOk result (λ f. f ≡ function_by self.now) }
    {
        match (&*self.asked, &self.table) {
            (Asked::Call(key), Some(table)) => named(alloc, table, &key.call),
            _ => Ok(None),
        }
    }

    /// The connection that is asked.
    pub fn connection(&self) -> &Text
        ensures { result.now ≡ self.now.tags.connection }
    {
        self.tags.connection()
    }
}
