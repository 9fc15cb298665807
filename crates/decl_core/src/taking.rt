ghost use Rattle.std.specs.Prelude.{◌≡◌, [], false, filter, slice_get, IfOk, OnOk};
ghost use Rattle.std.specs.List.{list_all, list_any};
ghost use Rattle.std.specs.Option.{option_map_or};
ghost use Rattle.sp_model.specs.Hydration.{names_of_functions};
ghost use Rattle.decl_words.specs.Leftover.{leftover};
ghost use Rattle.sp_model.specs.Names.{has_name};
ghost use Rattle.decl_words.specs.Refusals.{repeats, depends_on_unknown};
ghost use Rattle.decl_core.specs.Taking.{is_left, can_be_taken, with_taken, after_turns, takes_one, at_places};

use crate::table_rule::function_names;
use name_set::NameSet;
use sp_model::FunctionDecl;
use sp_value::{Memory, Texts, TryCopy};
use sqlite_items::Items;
use std::alloc::Global;

fn is_ready(taken: &NameSet, function: &FunctionDecl) -> bool
    ensures { result ≡ list_all (has_name taken.now) function.now.depends }
{
    for dependency in function.depends.as_slice() {
        if !taken.contains(dependency.as_str()) {
            return false;
        }
    }
    true
}

/// Takes a function out where all its dependencies are taken out, and answers whether it was.
fn take<'a>(taken: &mut NameSet<'a>, function: &'a FunctionDecl) -> Result<bool, Memory>
    ensures one { IfOk result (λ b. b ≡ can_be_taken taken.old function.now) }
    ensures names { OnOk result (taken.new ≡ with_taken taken.old function.now) }
{
    if taken.contains(function.name.as_str()) || !is_ready(taken, function) {
        return Ok(false);
    }
    let added = taken.insert(function.name.as_str())?;
    Ok(added)
}

/// Takes out each of the functions that can be at its turn, and answers whether there was one.
fn take_turns<'a>(taken: &mut NameSet<'a>, functions: &'a [FunctionDecl]) -> Result<bool, Memory>
    ensures one { IfOk result (λ b. b ≡ takes_one taken.old functions.now) }
    ensures names { OnOk result (taken.new ≡ after_turns taken.old functions.now) }
{
    let mut some = false;
    for function in functions {
        if take(taken, function)? {
            some = true;
        }
    }
    Ok(some)
}

fn take_place<'a>(
    taken: &mut NameSet<'a>,
    functions: &'a [FunctionDecl],
    place: usize,
) -> Result<(), Memory>
    ensures { OnOk result (taken.new ≡ option_map_or (with_taken taken.old) (slice_get functions.now place) taken.old) }
{
    let Some(function) = functions.get(place) else {
        return Ok(());
    };
    take(taken, function)?;
    Ok(())
}

/// The same for the functions at these places, in this order.
fn take_at<'a>(
    taken: &mut NameSet<'a>,
    functions: &'a [FunctionDecl],
    places: &[usize],
) -> Result<(), Memory>
    ensures { OnOk result (taken.new ≡ after_turns taken.old (at_places functions.now places.now)) }
{
    for place in places {
        take_place(taken, functions, *place)?;
    }
    Ok(())
}

/// A function that is entered, and the next of its dependencies to look at.
#[derive(Clone, Copy, Drop)]
struct Entered {
    place: usize,
    next: usize,
}

/// The place of the next dependency that isn't seen, with where to go on after it.
fn next_unseen(
    functions: &[FunctionDecl],
    places: &NameSet,
    seen: &NameSet,
    entered: Entered,
) -> Option<Entered> {
    let function = functions.get(entered.place)?;
    for next in entered.next..function.depends.len() {
        let name = function.depends.get(next)?.as_str();
        if !seen.contains(name) {
            let place = places.place(name)?;
            return Some(Entered {
                place,
                next: next + 1,
            });
        }
    }
    None
}

/// Enters the function at a place, unless it is seen.
fn enter<'a>(
    functions: &'a [FunctionDecl],
    seen: &mut NameSet<'a>,
    open: &mut Vec<Entered>,
    place: usize,
) -> Result<(), Memory> {
    let Some(function) = functions.get(place) else {
        return Ok(());
    };
    if seen.insert(function.name.as_str())? {
        open.push(Entered { place, next: 0 })?;
    }
    Ok(())
}

/// Enters a function, and what it depends on, and puts the place of each at the end of the order as it is left.
fn visit<'a>(
    alloc: Global,
    functions: &'a [FunctionDecl],
    places: &NameSet,
    seen: &mut NameSet<'a>,
    order: &mut Vec<usize>,
    start: usize,
) -> Result<(), Memory> {
    let mut open = Vec::new(alloc);
    enter(functions, seen, &mut open, start)?;
    // Each function is entered and left at most once.
    for _ in 0..functions.len().saturating_mul(2) {
        let Some(last) = open.pop() else {
            break;
        };
        match next_unseen(functions, places, seen, last) {
            Some(found) => {
                open.push(Entered {
                    place: last.place,
                    next: found.next,
                })?;
                enter(functions, seen, &mut open, found.place)?;
            }
            None => {
                order.push(last.place)?;
            }
        }
    }
    Ok(())
}

/// The places of the functions, each after those that it depends on, as far as that can be.
fn visiting_order(alloc: Global, functions: &[FunctionDecl]) -> Result<Vec<usize>, Memory> {
    let places = function_names(alloc, functions)?;
    let mut seen = NameSet::new(alloc);
    let mut order = Vec::new(alloc);
    for start in 0..functions.len() {
        visit(alloc, functions, &places, &mut seen, &mut order, start)?;
    }
    Ok(order)
}

/// The names of the functions that can be taken out, again and again, once their dependencies are. In
/// the visiting order one turn each takes out all of them, and the next turns find no more.
fn taken_out<'a>(alloc: Global, functions: &'a [FunctionDecl]) -> Result<NameSet<'a>, Memory>
    requires distinct { repeats [] (names_of_functions functions.now) ≡ false }
    requires known { list_any (depends_on_unknown (names_of_functions functions.now)) functions.now ≡ false }
    ensures { IfOk result (λ taken. leftover functions.now ≡ filter (is_left taken) functions.now) }
{
    let order = visiting_order(alloc, functions)?;
    let mut taken = NameSet::new(alloc);
    take_at(&mut taken, functions, order.as_slice())?;
    loop {
        if !take_turns(&mut taken, functions)? {
            return Ok(taken);
        }
    }
}

fn names_that_stay(
    alloc: Global,
    mut functions: &[FunctionDecl],
    taken: &NameSet,
) -> Result<Texts, Memory>
    ensures { IfOk result (λ names. names ≡ names_of_functions (filter (is_left taken.now) functions.entry.now)) }
{
    let mut names = Items::new(alloc);
    while let [first, rest @ ..] = functions {
        if !taken.contains(first.name.as_str()) {
            let name = first.name.copy(alloc)?;
            names.push(name)?;
        }
        functions = rest;
    }
    Ok(names)
}

/// The names of the functions that remain, in declared order, where those are taken out, again and
/// again, whose dependencies are all taken out. The time is linear in the number of dependencies.
pub fn leftover(alloc: Global, functions: &[FunctionDecl]) -> Result<Texts, Memory>
    requires distinct { repeats [] (names_of_functions functions.now) ≡ false }
    requires known { list_any (depends_on_unknown (names_of_functions functions.now)) functions.now ≡ false }
    ensures { IfOk result (λ names. names ≡ names_of_functions (leftover functions.now)) }
{
    let taken = taken_out(alloc, functions)?;
    let names = names_that_stay(alloc, functions, &taken)?;
    Ok(names)
}
