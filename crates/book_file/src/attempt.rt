ghost use Rattle.std.specs.Prelude.{◌≡◌, ◌≤◌, ◌+◌, length, IfOk, OnOk};
ghost use Rattle.sp_model.specs.Sayable.{IsItem, IsSayableReply};
ghost use Rattle.book_file.specs.Sayable.{AreItems};

use crate::matching::meets_all;
use sp_model::{Call, Condition, Reply};
use sp_value::{Cell, Cells, Memory, TryCopy};
use sqlite_items::Items;
use std::alloc::Global;
use std::marker::Model;

/// What is answered to an attempt of a call: fewer than 1,000,000 items, objects that nest at most 100 deep, and an ending.
#[derive(Drop)]
pub(crate) struct Attempt {
    reply: Reply,
}

impl Model for Attempt {
    ghost use Rattle.sp_model.specs.declared.call.Reply.{Reply};
    ghost use Rattle.sp_model.specs.Sayable.{IsSayableReply};
    ghost use Rattle.std.specs.Coded.{codes};
    ghost use Rattle.sp_value.specs.contracts.cell.Cell as cells;

    ghost Value = { Reply };

    ghost coded = { Prim.hlevel (codes, cells.the_row.coded) };

    ghost view = { λ a. a.reply };

    ghost invariant = { λ a. IsSayableReply a.reply };
}

impl Attempt {
    pub(crate) fn of(reply: Reply) -> Attempt
        requires { IsSayableReply reply }
        ensures { result ≡ reply }
    {
        Attempt { reply }
    }

    /// The reply to a call. Of a list or get the items are left out that don't meet each of its conditions.
    pub(crate) fn reply_to(&self, alloc: Global, call: &Call) -> Result<Reply, Memory>
        ensures { IfOk result IsSayableReply }
    {
        let items = match call {
            Call::List { conditions, .. } | Call::Get { conditions, .. } => {
                items_meeting(alloc, self.reply.items.as_slice(), conditions.as_slice())?
            }
            _ => self.reply.items.copy(alloc)?,
        };
        let ending = self.reply.ending.copy(alloc)?;
        Ok(Reply { items, ending })
    }
}

/// Adds an item.
pub(crate) fn add_item(items: &mut Cells, item: Cell) -> Result<(), Memory>
    requires items { AreItems items.old }
    requires item { IsItem item }
    ensures items { OnOk result (AreItems items.new) }
    ensures one { OnOk result (length items.new ≤ length items.old + 1) }
{
    match items.push(item) {
        Ok(()) => Ok(()),
        Err(_) => Err(Memory),
    }
}

/// Adds an item, if it meets each condition.
fn keep(
    alloc: Global,
    kept: &mut Cells,
    item: &Cell,
    conditions: &[Condition],
) -> Result<(), Memory>
    requires items { AreItems kept.old }
    requires item { IsItem item.now }
    ensures items { OnOk result (AreItems kept.new) }
    ensures one { OnOk result (length kept.new ≤ length kept.old + 1) }
{
    if !meets_all(item, conditions) {
        return Ok(());
    }
    let copied = item.copy(alloc)?;
    add_item(kept, copied)
}

/// The items that meet each condition, in their order.
#[tactic(auto, using(crate::proofs::Items::item_at, crate::proofs::Items::items_none))]
fn items_meeting(alloc: Global, items: &[Cell], conditions: &[Condition]) -> Result<Cells, Memory>
    requires { AreItems items.now }
    ensures items { IfOk result AreItems }
    ensures fewer { IfOk result (λ kept. length kept ≤ length items.now) }
{
    let mut kept = Items::new(alloc);
    for item in items {
        keep(alloc, &mut kept, item, conditions)?;
    }
    Ok(kept)
}
