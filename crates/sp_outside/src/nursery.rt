ghost use Rattle.std.specs.Prelude.{◌≡◌, ◌++◌, ◌∷◌, [], ◌+◌, ◌<◌, length, IsTrue, IfOk, OnOk, OnErr, false};

use crate::child::Child;
use sp_model::Connection;
use sp_value::Memory;
use sp_world::World;
use std::alloc::Global;

/// Where children are made, and where they come back to.
pub trait Nursery<W: World> {
    ghost use Rattle.std.specs.Prelude.{ℕ, List};

    /// The children that it makes.
    type Kid: Child<W> + Drop;

    /// How many children were made.
    ghost made: { Self → ℕ };

    /// The children that came back, in order.
    ghost back: { Self → List Self.Kid };

    /// Makes a child for a connection, not started, with counts of 0.
    fn make(&mut self, alloc: Global, connection: &Connection) -> Result<Self::Kid, Memory>
        ensures own { IfOk result (λ child. Self.Kid.connection child ≡ connection.now.name) }
        ensures log { IsTrue W.tells → IfOk result (λ child. Self.Kid.log child ≡ []) }
        ensures stands { IfOk result (λ child. Self.Kid.runs child ≡ false) }
        ensures counts { IfOk result (λ child. (Self.Kid.faulted child ≡ 0) × (Self.Kid.sends child ≡ 0) × (Self.Kid.gives child ≡ 0)) }
        ensures ok { OnOk result (made self.new ≡ made self.old + 1) }
        ensures err { OnErr result (made self.new ≡ made self.old) }
        ensures back { back self.new ≡ back self.old };

    /// Takes back a child that it made.
    fn take_back(&mut self, child: Self::Kid)
        requires { length (back self.old) < made self.old }
        ensures back { back self.new ≡ back self.old ++ child ∷ [] }
        ensures made { made self.new ≡ made self.old };
}
