ghost use Rattle.std.specs.Prelude.{◌≡◌, ◌≢◌, ◌++◌, ◌∷◌, [], ◌≤◌, length, IsTrue, IsErr, IfOk, Err, OnErr, is_ok, false, if◌then◌else◌};
ghost use Rattle.sp_outside.specs.Causes.{HasCause, Rose, up};
ghost use Rattle.sp_outside.specs.Log.{pending, IsNextLine};

use crate::failing::Failed;
use sp_world::World;
use std::alloc::Global;

/// Why a child gave no line.
#[derive(Clone, Copy, Debug, PartialEq, Eq)]
pub enum ChildEnd {
    Failed,
    Memory,
}

/// A child that answers calls line by line. Lines stand without their line end.
pub trait Child<W: World> {
    ghost use Rattle.std.specs.Prelude.{ℕ, List, Bool};
    ghost use Rattle.sp_outside.specs.declared.log.Event.{Event};

    /// The name of the connection that it was made for.
    ghost connection: { Self → List ℕ };

    /// What happened at it, where W tells.
    ghost log: { Self → List Event };

    /// The last line that it gave.
    ghost last: { Self → List ℕ };

    /// How many faults there were.
    ghost faulted: { Self → ℕ };

    /// How often a line was sent, failed sends too.
    ghost sends: { Self → ℕ };

    /// How many lines it gave.
    ghost gives: { Self → ℕ };

    /// Whether its last start was made.
    ghost runs: { Self → Bool };

    /// Ends all open calls and starts the child anew. Where this fails, it sends and gives nothing until a start is made.
    fn start(&mut self) -> Result<(), Failed>
        ensures log { IsTrue W.tells → log self.new ≡ (if is_ok result then log self.old ++ Event.Started ∷ [] else log self.old) }
        ensures runs { runs self.new ≡ is_ok result }
        ensures kept { (sends self.new ≡ sends self.old) × (gives self.new ≡ gives self.old) × (last self.new ≡ last self.old) }
        ensures own { connection self.new ≡ connection self.old }
        ensures cause { HasCause (faulted self.old) (faulted self.new) result };

    /// Sends one line.
    fn send(&mut self, line: &[u8]) -> Result<(), Failed>
        ensures log { IsTrue W.tells → log self.new ≡ (if is_ok result then log self.old ++ Event.Heard line.now ∷ [] else log self.old) }
        ensures sent { sends self.new ≡ up (sends self.old) }
        ensures stopped { runs self.old ≡ false → IsErr result }
        ensures kept { (runs self.new ≡ runs self.old) × (gives self.new ≡ gives self.old) × (last self.new ≡ last self.old) }
        ensures own { connection self.new ≡ connection self.old }
        ensures cause { HasCause (faulted self.old) (faulted self.new) result };

    /// Gives the next line, of at most 1,048,576 bytes. After `Memory` it is still to come.
    fn receive(&mut self, alloc: Global) -> Result<Vec<u8>, ChildEnd>
        requires { IsTrue W.tells → pending (log self.old) ≢ [] }
        ensures told { IsTrue W.tells → IfOk result (λ line. IsNextLine W.book (pending (log self.old)) line.items) }
        ensures log { IsTrue W.tells → IfOk result (λ line. log self.new ≡ log self.old ++ Event.Given line.items ∷ []) }
        ensures log_kept { IsTrue W.tells → OnErr result (log self.new ≡ log self.old) }
        ensures given { gives self.new ≡ (if is_ok result then up (gives self.old) else gives self.old) }
        ensures last { IfOk result (λ line. last self.new ≡ line.items) }
        ensures last_kept { OnErr result (last self.new ≡ last self.old) }
        ensures short { IfOk result (λ line. length line.items ≤ 1048576) }
        ensures stopped { runs self.old ≡ false → result ≡ Err ChildEnd.Failed }
        ensures kept { (runs self.new ≡ runs self.old) × (sends self.new ≡ sends self.old) }
        ensures own { connection self.new ≡ connection self.old }
        ensures later { faulted self.old ≤ faulted self.new }
        ensures failed { result ≡ Err ChildEnd.Failed → Rose (faulted self.old) (faulted self.new) };

    /// The count of faults, which stays at `u64::MAX`.
    fn faults(&self) -> u64
        ensures { result ≡ faulted self.now };

    /// The count of the calls of `send`, which stays at `u64::MAX`.
    fn sent(&self) -> u64
        ensures { result ≡ sends self.now };

    /// The count of the lines given, which stays at `u64::MAX`.
    fn given(&self) -> u64
        ensures { result ≡ gives self.now };
}
