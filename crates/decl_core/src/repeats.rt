ghost use Rattle.std.specs.Prelude.{◌≡◌, [], map, IfOk};
ghost use Rattle.decl_words.specs.Refusals.{repeats, list_repeats, get_repeats, has_repeat, duplicate_table};

use name_set::NameSet;
use sp_model::{ColumnDecl, FunctionDecl, GetDecl, KeyDecl, ListDecl, TableDecl};
use sp_value::{Memory, Text};
use std::alloc::Global;

/// What has a name, or is for a column of that name.
trait Named {
    ghost use Rattle.std.specs.Prelude.{ℕ, List};

    ghost name_of: { Self → List ℕ };

    fn name(&self) -> &Text
        ensures { result.now ≡ name_of self.now };
}

impl Named for ColumnDecl {
    ghost name_of = { λ c. c.name };

    fn name(&self) -> &Text {
        &self.name
    }
}

impl Named for FunctionDecl {
    ghost name_of = { λ f. f.name };

    fn name(&self) -> &Text {
        &self.name
    }
}

impl Named for KeyDecl {
    ghost name_of = { λ k. k.column };

    fn name(&self) -> &Text {
        &self.column
    }
}

fn repeats<T: Named>(alloc: Global, things: &[T]) -> Result<bool, Memory>
    ensures { IfOk result (λ b. b ≡ repeats [] (map T.name_of things.now)) }
{
    let mut seen = NameSet::new(alloc);
    for thing in things {
        if !seen.insert(thing.name().as_str())? {
            return Ok(true);
        }
    }
    Ok(false)
}

fn list_repeats(alloc: Global, list: &Option<ListDecl>) -> Result<bool, Memory>
    ensures { IfOk result (λ b. b ≡ list_repeats list.now) }
{
    match list {
        Some(list) => {
            let repeated = repeats(alloc, list.keys.as_slice())?;
            Ok(repeated)
        }
        None => Ok(false),
    }
}

fn get_repeats(alloc: Global, get: &Option<GetDecl>) -> Result<bool, Memory>
    ensures { IfOk result (λ b. b ≡ get_repeats get.now) }
{
    match get {
        Some(get) => {
            let repeated = repeats(alloc, get.keys.as_slice())?;
            Ok(repeated)
        }
        None => Ok(false),
    }
}

/// Whether two columns have one name, or two functions, or two keys of one access are on one column.
fn has_repeat(alloc: Global, table: &TableDecl) -> Result<bool, Memory>
    ensures { IfOk result (λ b. b ≡ has_repeat table.now) }
{
    let columns = repeats(alloc, table.columns.as_slice())?;
    let functions = repeats(alloc, table.functions.as_slice())?;
    let list = list_repeats(alloc, &table.list)?;
    let get = get_repeats(alloc, &table.get)?;
    Ok(columns || functions || list || get)
}

/// The number of the first table that has the name of one before it, or in which a name stands twice.
pub fn duplicate_table(alloc: Global, tables: &[TableDecl]) -> Result<Option<u64>, Memory>
    ensures { IfOk result (λ n. n ≡ duplicate_table [] 1 tables.now) }
{
    let mut seen = NameSet::new(alloc);
    let mut number = 0;
    for table in tables {
        number += 1;
        let added = seen.insert(table.name.as_str())?;
        if !added || has_repeat(alloc, table)? {
            return Ok(Some(number));
        }
    }
    Ok(None)
}
