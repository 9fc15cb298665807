ghost use Rattle.std.specs.Prelude.{◌≡◌, IfOk};

use sp_model::Asked;
use sp_value::{Memory, TryCopy};
use sqlite_items::Items;
use std::alloc::Global;

/// What happened at a child: it heard a line, it gave one, or it was started.
#[derive(Drop)]
pub enum Event {
    Heard(Items<u8>),
    Given(Items<u8>),
    Started,
}

/// A call that is open: its number, what was asked, and how many items it has given.
#[derive(Drop)]
pub struct OpenCall {
    pub id: u64,
    pub asked: Asked,
    pub taken: u64,
}

impl TryCopy for OpenCall {
    fn copy(&self, alloc: Global) -> Result<OpenCall, Memory> {
        Ok(OpenCall {
            id: self.id,
            asked: self.asked.copy(alloc)?,
            taken: self.taken,
        })
    }
}

/// The open calls, in the order in which they were sent.
pub type PendingCalls = Items<OpenCall>;

/// How a child was lost: by a fault, or by a line that is none or fits no open call.
#[derive(Drop)]
pub enum Loss {
    Fault,
    Bad {
        line: Items<u8>,
        pending: PendingCalls,
    },
}

impl TryCopy for Loss {
    fn copy(&self, alloc: Global) -> Result<Loss, Memory> {
        match self {
            Loss::Fault => Ok(Loss::Fault),
            Loss::Bad { line, pending } => Ok(Loss::Bad {
                line: copy_line(alloc, line)?,
                pending: pending.copy(alloc)?,
            }),
        }
    }
}

fn copy_line(alloc: Global, line: &Items<u8>) -> Result<Items<u8>, Memory>
    ensures { IfOk result (λ copy. copy ≡ line.now) }
{
    match Items::from_slice(alloc, line.as_slice()) {
        Ok(copy) => Ok(copy),
        Err(_) => Err(Memory),
    }
}
