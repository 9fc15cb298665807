ghost use Rattle.std.specs.Prelude.{◌≡◌, ◌≤◌, length, IfOk};
ghost use Rattle.sp_value.specs.Names.{names_of};
ghost use Rattle.hydrate_graph.specs.Ordered.{ordered, depends_in, all_depends};

use crate::planning::numbers_of;
use sp_model::FunctionDecl;
use sp_value::{Cell, Members, Memory, Text, Texts, copy_texts};
use sqlite_items::Items;
use std::alloc::Global;

/// A function's dependencies in the order of their names' bytes, each once: the names, and the numbers of the functions.
#[derive(Drop)]
pub(crate) struct Depends {
    pub(crate) names: Texts,
    pub(crate) numbers: Items<u32>,
}

/// A null under each of these names, and so the names in order, each once.
#[tactic(auto, using(crate::proofs::Ordered::ordered_more))]
fn nulls_under(alloc: Global, names: &[Text]) -> Result<Members, Memory>
    ensures { IfOk result (λ members. names_of members ≡ ordered names.now) }
{
    let mut members = Members::new(alloc);
    for index in 0..names.len() {
        let place = names.len() - 1 - index;
        members = members.put_under(alloc, &names[place], &Cell::Null)?;
    }
    Ok(members)
}

fn depends_in(alloc: Global, functions: &[FunctionDecl], names: &[Text]) -> Result<Depends, Memory>
    requires { length functions.now ≤ 64 }
    ensures { IfOk result (λ depends. depends ≡ depends_in functions.now names.now) }
{
    let nulls = nulls_under(alloc, names)?;
    let numbers = numbers_of(alloc, functions, nulls.names())?;
    let names = copy_texts(alloc, nulls.names())?;
    Ok(Depends { names, numbers })
}

/// The dependencies of each function.
pub(crate) fn all_depends(
    alloc: Global,
    functions: &[FunctionDecl],
) -> Result<Items<Depends>, Memory>
    requires { length functions.now ≤ 64 }
    ensures { IfOk result (λ all. all ≡ all_depends functions.now) }
{
    let mut all = Items::new(alloc);
    for function in functions {
        let depends = depends_in(alloc, functions, function.depends.as_slice())?;
        all.push(depends)?;
    }
    Ok(all)
}
