// A run over children.

ghost use Rattle.std.specs.Prelude.{◌≡◌, ◌^◌, ℕ, List, length, map, IsTrue, IfOk, OnOk};
ghost use Rattle.scan_run.specs.Asked.{SubsetKeysFilter};
ghost use Rattle.statement_words.specs.Turns.{AreInTurn};
ghost use Rattle.statement_run.specs.Settings.{CanRun};
ghost use Rattle.run_lines.specs.Blocks.{AreAnswers, AreByText, AreTrulyNoted, AllSpent, HasLostChild, CameBack, AreOver, with_child, block_ticks};
ghost use Rattle.run_lines.specs.Calls.{AreCounted};

use crate::block::{Block, Ran};
use crate::children::{give_back, make_all};
use crate::counting::calls_of;
use crate::lines::answer_lines;
use input_lines::Line;
use plain_desk::{PlainDesk, Slot};
use sp_model::Settings;
use sp_outside::{Child, Clock, Nursery};
use sp_value::{Memory, TryCopy};
use sp_world::World;
use sql_bind::Catalog;
use sqlite_items::Items;
use std::alloc::Global;
use std::sync::Wait;

/// The session of a desk whose lines come one after another.
const SESSION: u32 = 1;

/// The blocks of lines, and the slots over which they were answered.
struct Over<W: World, C: Child<W>> {
    blocks: Result<Items<Block>, Memory>,
    slots: Vec<Slot<W, C>>,
}

/// Answers lines over slots, which stand beside the plain connections.
fn run_over<R: Wait, W: World, C: Child<W>, K: Clock>(
    rt: &R,
    alloc: Global,
    settings: &Settings,
    lines: &[Line],
    slots: Vec<Slot<W, C>>,
    clock: &K,
) -> Over<W, C>
    requires own { map (λ s. C.connection s.link.child) slots.items ≡ map (λ c. c.name) (with_child settings.now.connections) }
    requires can_run { CanRun settings.now }
    ensures told { IsTrue W.tells → SubsetKeysFilter W.book → IfOk result.blocks (AreAnswers W.book settings.now lines.now) }
    ensures text { IfOk result.blocks (AreByText settings.now lines.now) }
    ensures notes { IsTrue W.tells → IfOk result.blocks (AreTrulyNoted W.book settings.now.options) }
    ensures turns { IfOk result.blocks (λ blocks. AreInTurn 0 (2 ^ 62) (block_ticks lines.now blocks)) }
    ensures own { map (λ s. C.connection s.link.child) result.slots.items ≡ map (λ c. c.name) (with_child settings.now.connections) }
    ensures lost { IfOk result.blocks (AllSpent (HasLostChild C.Child W.World 0 (with_child settings.now.connections) (map (λ s. s.link.child) result.slots.items))) }
{
    let Ok(own) = settings.copy(alloc) else {
        return Over {
            blocks: Err(Memory),
            slots,
        };
    };
    let Ok(mut catalog) = Catalog::of(alloc, settings) else {
        return Over {
            blocks: Err(Memory),
            slots,
        };
    };
    let mut desk = PlainDesk::<W, C, K>::over(alloc, own, SESSION, slots, clock);
    let blocks = answer_lines::<R, W, PlainDesk<W, C, K>>(
        rt,
        alloc,
        &mut desk,
        &mut catalog,
        lines,
    );
    Over {
        blocks,
        slots: desk.into_slots(),
    }
}

/// The blocks of lines, and how many calls were sent for them.
struct Counted {
    blocks: Result<Items<Block>, Memory>,
    calls: u64,
}

/// Answers lines over children that it makes and gives back, and counts the calls.
fn run_counted<R: Wait, W: World, M: Nursery<W>, K: Clock>(
    rt: &R,
    alloc: Global,
    settings: &Settings,
    lines: &[Line],
    nursery: &mut M,
    clock: &K,
) -> Counted
    requires all_back { length (M.back nursery.old) ≡ M.made nursery.old }
    requires can_run { CanRun settings.now }
    ensures told { IsTrue W.tells → SubsetKeysFilter W.book → IfOk result.blocks (AreAnswers W.book settings.now lines.now) }
    ensures text { IfOk result.blocks (AreByText settings.now lines.now) }
    ensures notes { IsTrue W.tells → IfOk result.blocks (AreTrulyNoted W.book settings.now.options) }
    ensures turns { IfOk result.blocks (λ blocks. AreInTurn 0 (2 ^ 62) (block_ticks lines.now blocks)) }
    ensures over { IfOk result.blocks (AreOver M.Kid.Child W.World 0 (with_child settings.now.connections) (M.back nursery.old) (M.back nursery.new)) }
    ensures calls { OnOk result.blocks (AreCounted M.Kid.Child (M.back nursery.old) (M.back nursery.new) result.calls) }
    ensures children { (children : List M.Kid) × CameBack M.Kid.Child W.World (with_child settings.now.connections) (M.back nursery.old) (M.back nursery.new) children }
    ensures back { length (M.back nursery.new) ≡ M.made nursery.new }
{
    let mut slots = Vec::new(alloc);
    let connections = settings.connections.as_slice();
    let Ok(()) = make_all::<W, M>(alloc, connections, nursery, &mut slots) else {
        give_back::<W, M>(alloc, nursery, slots);
        return Counted {
            blocks: Err(Memory),
            calls: 0,
        };
    };
    let Over { blocks, slots } = run_over::<R, W, M::Kid, K>(
        rt, alloc, settings, lines, slots, clock,
    );
    let calls = calls_of::<W, M::Kid>(slots.as_slice());
    give_back::<W, M>(alloc, nursery, slots);
    Counted { blocks, calls }
}

/// Answers the lines of an input, in their order, over children of the settings' plain connections, which all go back to the nursery before
/// the call returns, in the order of the settings. It says how many calls these were sent.
pub fn run_lines<R: Wait, W: World, M: Nursery<W>, K: Clock>(
    rt: &R,
    alloc: Global,
    settings: &Settings,
    lines: &[Line],
    nursery: &mut M,
    clock: &K,
) -> Result<Ran, Memory>
    requires all_back { length (M.back nursery.old) ≡ M.made nursery.old }
    requires can_run { CanRun settings.now }
    ensures told { IsTrue W.tells → SubsetKeysFilter W.book → IfOk result (λ ran. AreAnswers W.book settings.now lines.now ran.blocks) }
    ensures text { IfOk result (λ ran. AreByText settings.now lines.now ran.blocks) }
    ensures notes { IsTrue W.tells → IfOk result (λ ran. AreTrulyNoted W.book settings.now.options ran.blocks) }
    ensures turns { IfOk result (λ ran. AreInTurn 0 (2 ^ 62) (block_ticks lines.now ran.blocks)) }
    ensures over { IfOk result (λ ran. AreOver M.Kid.Child W.World 0 (with_child settings.now.connections) (M.back nursery.old) (M.back nursery.new) ran.blocks) }
    ensures calls { IfOk result (λ ran. AreCounted M.Kid.Child (M.back nursery.old) (M.back nursery.new) ran.calls) }
    ensures children { (children : List M.Kid) × CameBack M.Kid.Child W.World (with_child settings.now.connections) (M.back nursery.old) (M.back nursery.new) children }
    ensures back { length (M.back nursery.new) ≡ M.made nursery.new }
{
    let Counted { blocks, calls } = run_counted::<R, W, M, K>(
        rt, alloc, settings, lines, nursery, clock,
    );
    match blocks {
        Ok(blocks) => Ok(Ran { blocks, calls }),
        Err(Memory) => Err(Memory),
    }
}
