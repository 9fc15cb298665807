// The children of connections.

ghost use Rattle.std.specs.Prelude.{◌≡◌, ◌+◌, ◌≤◌, ◌++◌, [], ◌∷◌, length, map, take, false, vec_len, vec_capacity, OnOk, OnErr};
ghost use Rattle.run_lines.specs.Blocks.{with_child, AllHeardLawfully};

use plain_desk::Slot;
use rate_gate::Gate;
use sp_model::Connection;
use sp_outside::Nursery;
use sp_value::Memory;
use sp_world::World;
use std::alloc::Global;

/// Makes a child, once there is room for it.
fn make_one<W: World, M: Nursery<W>>(
    alloc: Global,
    connection: &Connection,
    nursery: &mut M,
    slots: &mut Vec<Slot<W, M::Kid>>,
) -> Result<(), Memory>
    ensures back { M.back nursery.new ≡ M.back nursery.old }
    ensures made { M.made nursery.new + length slots.old.items ≡ M.made nursery.old + length slots.new.items }
    ensures ok { OnOk result (map (λ s. M.Kid.connection s.link.child) slots.new.items ≡ map (λ s. M.Kid.connection s.link.child) slots.old.items ++ connection.now.name ∷ []) }
    ensures err { OnErr result (slots.new.items ≡ slots.old.items) }
{
    let Ok(()) = slots.reserve(1) else {
        return Err(Memory);
    };
    let gate = Gate::of(alloc, &[])?;
    let child = nursery.make(alloc, connection)?;
    slots.push_reserved(Slot::over(alloc, child, gate));
    Ok(())
}

/// Makes a child for each connection that is no aggregator, in their order.
#[tactic(auto, using(crate::proofs::ChildLaws::one_child, crate::proofs::ChildLaws::no_child, crate::proofs::ChildLaws::first_names, crate::proofs::ChildLaws::all_names))]
pub(crate) fn make_all<W: World, M: Nursery<W>>(
    alloc: Global,
    connections: &[Connection],
    nursery: &mut M,
    slots: &mut Vec<Slot<W, M::Kid>>,
) -> Result<(), Memory>
    requires { slots.old.items ≡ [] }
    ensures back { M.back nursery.new ≡ M.back nursery.old }
    ensures made { M.made nursery.new ≡ M.made nursery.old + length slots.new.items }
    ensures ok { OnOk result (map (λ s. M.Kid.connection s.link.child) slots.new.items ≡ map (λ c. c.name) (with_child connections.now)) }
    ensures names { map (λ s. M.Kid.connection s.link.child) slots.new.items ≡ map (λ c. c.name) (take (length slots.new.items) (with_child connections.now)) }
{
    for connection in connections {
        if !connection.aggregator {
            make_one::<W, M>(alloc, connection, nursery, slots)?;
        }
    }
    Ok(())
}

/// Gives all children back, in their order.
pub(crate) fn give_back<W: World, M: Nursery<W>>(
    alloc: Global,
    nursery: &mut M,
    slots: Vec<Slot<W, M::Kid>>,
)
    requires { length (M.back nursery.old) + length slots.items ≤ M.made nursery.old }
    ensures back { M.back nursery.new ≡ M.back nursery.old ++ map (λ s. s.link.child) slots.items }
    ensures heard { AllHeardLawfully M.Kid.Child W.World (map (λ s. s.link.child) slots.items) }
    ensures made { M.made nursery.new ≡ M.made nursery.old }
{
    let mut slots = slots;
    slots.reverse();
    for _ in 0..slots.len() {
        let slot = slots.take_last();
        nursery.take_back(slot.into_child(alloc));
    }
    slots.destroy_empty();
}
