ghost use Rattle.std.specs.Prelude.{◌≡◌, [], ◌∷◌, ◌++◌, IsSome, IfOk, OnOk, option_map};
ghost use Rattle.std.specs.Option.{option_copied};
ghost use Rattle.sp_model.specs.Hydration.{find_function};
ghost use Rattle.sp_model.specs.Walk.{parent_of};
ghost use Rattle.rate_gate.specs.Tags.{own, own_of, pairs_with, pair, table_named, tags_of};

use crate::call_tags::CallTags;
use crate::tag_list::TagList;
use sp_model::{AccessDecl, Call, Connection, FunctionDecl, ListDecl, Pair, TableDecl};
use sp_value::{Memory, Text, TryCopy};
use sqlite_items::Items;
use std::alloc::Global;

impl CallTags {
    /// The tags of a call of a connection's table: its plugin, connection, table and function, and the function's tags.
    pub fn of(
        alloc: Global,
        connection: &Connection,
        table: &TableDecl,
        call: &Call,
    ) -> Result<CallTags, Memory>
        requires table { table_named call.now ≡ table.now.name }
        requires has { IsSome (own_of table.now call.now) }
        ensures { IfOk result (λ t. t ≡ tags_of connection.now table.now call.now) }
    {
        let Some((function, tags)) = own_of(table, call) else {
            unreachable!()
        };
        let pairs = pairs_with(alloc, connection, table, function, tags)?;
        let connection = connection.name.copy(alloc)?;
        let tags = CallTags::with(alloc, TagList { connection, pairs })?;
        Ok(tags)
    }
}

fn own_of<'a>(table: &'a TableDecl, call: &'a Call) -> Option<(&'a Text, &'a Items<Pair>)>
    ensures { option_map (λ found. own found.0.now found.1.now) result ≡ own_of table.now call.now }
{
    match call {
        Call::List { .. } => of_list(&table.list),
        Call::Parents { .. } => of_parents(&table.list),
        Call::Get { .. } => match &table.get {
            Some(get) => Some((&get.function, &get.tags)),
            None => None,
        },
        Call::Hydrate { function, .. } => match find_function(
            table.functions.as_slice(),
            function,
        ) {
            Some(found) => Some((&found.name, &found.tags)),
            None => None,
        },
    }
}

fn of_list(list: &Option<ListDecl>) -> Option<(&Text, &Items<Pair>)>
    ensures { option_map (λ found. own found.0.now found.1.now) result ≡ option_map (λ d. own d.function d.tags) list.now }
{
    match list {
        Some(list) => Some((&list.function, &list.tags)),
        None => None,
    }
}

fn of_access(access: &Option<AccessDecl>) -> Option<(&Text, &Items<Pair>)>
    ensures { option_map (λ found. own found.0.now found.1.now) result ≡ option_map (λ d. own d.function d.tags) access.now }
{
    match access {
        Some(access) => Some((&access.function, &access.tags)),
        None => None,
    }
}

fn of_parents(list: &Option<ListDecl>) -> Option<(&Text, &Items<Pair>)>
    ensures { option_map (λ found. own found.0.now found.1.now) result ≡ option_map (λ d. own d.function d.tags) (parent_of list.now) }
{
    match list {
        Some(list) => of_access(&list.parent),
        None => None,
    }
}

fn find_function<'a>(functions: &'a [FunctionDecl], name: &Text) -> Option<&'a FunctionDecl>
    ensures { option_copied result ≡ find_function name.now functions.now }
{
    for function in functions {
        if function.name == *name {
            return Some(function);
        }
    }
    None
}

fn push_pair(alloc: Global, pairs: &mut Items<Pair>, name: &str, value: &Text) -> Result<(), Memory>
    ensures { OnOk result (pairs.new ≡ pairs.old ++ pair name.now value.now ∷ []) }
{
    let name = Text::from_str(alloc, name)?;
    let value = value.copy(alloc)?;
    pairs.push(Pair { name, value })?;
    Ok(())
}

fn pairs_with(
    alloc: Global,
    connection: &Connection,
    table: &TableDecl,
    function: &Text,
    tags: &Items<Pair>,
) -> Result<Items<Pair>, Memory>
    ensures { IfOk result (λ pairs. pairs ≡ pairs_with connection.now table.now function.now tags.now) }
{
    let mut pairs = Items::new(alloc);
    push_pair(alloc, &mut pairs, "plugin", &connection.plugin)?;
    push_pair(alloc, &mut pairs, "connection", &connection.name)?;
    push_pair(alloc, &mut pairs, "table", &table.name)?;
    push_pair(alloc, &mut pairs, "function_name", function)?;
    let own = tags.copy(alloc)?;
    pairs.append(own)?;
    Ok(pairs)
}
