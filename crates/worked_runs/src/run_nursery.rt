ghost use Rattle.std.specs.Prelude.{◌≡◌, ◌≤◌, [], vec_len, vec_capacity};

use crate::child_case::ChildCase;
use crate::run_child::RunChild;
use sp_model::Connection;
use sp_outside::{MemoryClock, Nursery};
use sp_value::{Memory, TryCopy};
use sp_world::Untold;
use std::alloc::Global;

/// Makes the children of a case, and keeps those that came back.
#[derive(Drop)]
pub(crate) struct RunNursery<'a> {
    clock: &'a MemoryClock,
    cases: &'a [ChildCase],
    made: usize,
    pub(crate) back: Vec<RunChild<'a>>,
    ghost counted: { vec_len back ≤ made },
    ghost room: { made ≤ vec_capacity back },
}

/// The child of a connection.
fn case_of<'a>(cases: &'a [ChildCase], connection: &str) -> Option<&'a ChildCase> {
    for case in cases {
        if case.script.connection.as_str() == connection {
            return Some(case);
        }
    }
    None
}

impl<'a> RunNursery<'a> {
    /// A nursery that made no child yet.
    pub(crate) fn new(
        alloc: Global,
        clock: &'a MemoryClock,
        cases: &'a [ChildCase],
    ) -> RunNursery<'a>
        ensures made { result.made ≡ 0 }
        ensures back { result.back.items ≡ [] }
    {
        RunNursery {
            clock,
            cases,
            made: 0,
            back: Vec::new(alloc),
        }
    }
}

impl<'a> Nursery<Untold> for RunNursery<'a> {
    type Kid = RunChild<'a>;

    ghost made = { λ n. n.made };

    ghost back = { λ n. n.back.items };

    fn make(&mut self, alloc: Global, connection: &Connection) -> Result<RunChild<'a>, Memory> {
        if self.made == usize::MAX {
            return Err(Memory);
        }
        let name = connection.name.copy(alloc)?;
        let missing = self.made + 1 - self.back.len();
        let Ok(()) = self.back.reserve(missing) else {
            return Err(Memory);
        };
        self.made += 1;
        let case = case_of(self.cases, connection.name.as_str());
        Ok(RunChild::new(alloc, self.clock, case, name))
    }

    fn take_back(&mut self, child: RunChild<'a>) {
        let _ = self.back.push(child);
    }
}
