ghost use Rattle.std.specs.Prelude.{◌≡◌, ◌∷◌, [], IfOk};
ghost use Rattle.sp_value.specs.declared.cell.Cell as c;
ghost use Rattle.serde_json.specs.Data.{object, no_members};
ghost use Rattle.serde_json.specs.View.{view};
ghost use Rattle.outside_tests.specs.Scripted.{scripted_reply};

use plugin_kit::Routes;
use serde_json::{Value, json};
use sp_model::{CallKey, Ending, Reply, Version};
use sp_value::{Cell, Members, Memory, Text};
use sp_world::World;
use sqlite_items::Items;
use std::alloc::Global;

/// A world, and routes, that give two items at the first attempt of a call, and an error at later ones.
pub(crate) struct Scripted;

fn two_items(alloc: Global) -> Result<Items<Cell>, Memory>
    ensures { IfOk result (λ items. items ≡ c.Object [] ∷ c.Object [] ∷ []) }
{
    let mut items = Items::new(alloc);
    let Ok(()) = items.push(Cell::Object(Members::new(alloc))) else {
        return Err(Memory);
    };
    let Ok(()) = items.push(Cell::Object(Members::new(alloc))) else {
        return Err(Memory);
    };
    Ok(items)
}

fn reply(alloc: Global, attempt: u32) -> Result<Reply, Memory>
    ensures { IfOk result (λ reply. reply ≡ scripted_reply attempt) }
{
    if attempt == 1 {
        let items = two_items(alloc)?;
        return Ok(Reply {
            items,
            ending: Ending::End,
        });
    }
    let text = Text::from_str(alloc, "no")?;
    Ok(Reply {
        items: Items::new(alloc),
        ending: Ending::Error(text),
    })
}

fn no_members(alloc: Global) -> Result<Value, Memory>
    ensures { IfOk result (λ v. view v ≡ object no_members) }
{
    match json!(in alloc; {}) {
        Ok(value) => Ok(value),
        Err(_) => Err(Memory),
    }
}

impl World for Scripted {
    ghost use Rattle.std.specs.Prelude.{true};
    ghost use Rattle.outside_tests.specs.Scripted.{scripted};

    ghost tells = { true };

    ghost book = { scripted };

    fn answer(alloc: Global, key: &CallKey) -> Result<Reply, Memory> {
        reply(alloc, key.attempt)
    }

    fn answer_version(_alloc: Global, _connection: &Text, _tick: u64) -> Result<Version, Memory> {
        Ok(Version::Is(7))
    }

    fn answer_declaration(alloc: Global, _connection: &Text) -> Result<Value, Memory> {
        no_members(alloc)
    }
}

#[tactic(auto, using(crate::proofs::Scripted::scripted_forms))]
impl Routes for Scripted {
    ghost use Rattle.std.specs.Prelude.{Some};
    ghost use Rattle.outside_tests.specs.Scripted.{scripted};

    ghost book = { λ _. Some scripted };

    fn declaration(&self, alloc: Global, _connection: &Text) -> Result<Value, Memory> {
        no_members(alloc)
    }

    fn version(&self, _alloc: Global, _connection: &Text, _tick: u64) -> Result<Version, Memory> {
        Ok(Version::Is(7))
    }

    fn reply(&self, alloc: Global, key: &CallKey) -> Result<Reply, Memory> {
        reply(alloc, key.attempt)
    }
}
