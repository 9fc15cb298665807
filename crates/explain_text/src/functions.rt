// The functions that are called for the rows of a source.

ghost use Rattle.std.specs.Prelude.{◌≡◌, ◌≤◌, ◌++◌, length, IfOk, OnOk, IsSome};
ghost use Rattle.hydrate_graph.specs.Numbers.{number_of};
ghost use Rattle.sp_model.specs.Calls.{is_wanted};
ghost use Rattle.sp_model.specs.Hydration.{find_function};
ghost use Rattle.explain_text.specs.Functions.{wanted_name, functions_of, CanHydrate};

use hydrate_graph::RowPlan;
use sp_model::{FunctionDecl, TableDecl};
use sp_value::{Memory, Text, Texts, TryCopy};
use sqlite_items::Items;
use std::alloc::Global;

/// The number of the first function of a name.
fn number_of(functions: &[FunctionDecl], name: &Text) -> u32
    requires { length functions.now ≤ 64 }
    ensures { result ≡ number_of functions.now name.now }
{
    let mut number: u32 = 0;
    for function in functions {
        if function.name == *name {
            return number;
        }
        number += 1;
    }
    number
}

/// Whether a column needs the function of this name, which there is.
fn is_wanted(plan: &RowPlan, name: &Text) -> bool
    requires few { length plan.now.functions ≤ 64 }
    requires there { IsSome (find_function name.now plan.now.functions) }
    ensures { result ≡ is_wanted plan.now.functions plan.now.columns name.now }
{
    plan.wants(number_of(plan.functions(), name))
}

/// Adds the name of a function, which is one of the table's, where a column needs it.
fn add_wanted(
    alloc: Global,
    names: &mut Texts,
    plan: &RowPlan,
    function: &FunctionDecl,
) -> Result<(), Memory>
    requires few { length plan.now.functions ≤ 64 }
    requires there { IsSome (find_function function.now.name plan.now.functions) }
    ensures { OnOk result (names.new ≡ names.old ++ wanted_name plan.now.functions plan.now.columns function.now) }
{
    if is_wanted(plan, &function.name) {
        let name = function.name.copy(alloc)?;
        let Ok(()) = names.push(name) else {
            return Err(Memory);
        };
    }
    Ok(())
}

/// The names of the functions that these of a table's columns need, with all that they depend on, in declared order.
pub(crate) fn functions_of(
    alloc: Global,
    table: &TableDecl,
    columns: &Texts,
) -> Result<Texts, Memory>
    requires { CanHydrate table.now }
    ensures { IfOk result (λ names. names ≡ functions_of table.now columns.now) }
{
    let plan = RowPlan::of(alloc, table, columns)?;
    let mut names = Items::new(alloc);
    for function in table.functions.as_slice() {
        add_wanted(alloc, &mut names, &plan, function)?;
    }
    Ok(names)
}
