use row_algebra::OrderKey;
use source_scans::PlanSource;
use sp_value::{Kinds, Memory, Texts};
use sqlite_items::Items;

/// What is made of the joined rows of all sources: their order, the limit, and the places of the cells that are shown.
#[derive(Drop)]
pub struct Finishing {
    pub order: Items<OrderKey>,
    pub limit: Option<u64>,
    pub shown: Items<u32>,
}

/// A name and a kind for each column of an answer.
#[derive(Drop)]
pub struct Heading {
    pub names: Texts,
    pub kinds: Kinds,
}

/// The sources of a statement in the order of their scans, and what is made of their rows.
#[derive(Drop)]
pub struct Plan {
    pub sources: Items<PlanSource>,
    pub finishing: Finishing,
    pub heading: Heading,
}

/// Why a statement has no plan.
#[derive(Drop)]
pub enum PlanFault {
    /// The first source, counted from 1, that lacks conditions on keys, and their columns.
    MissingKeys { source: u32, columns: Texts },
    /// Want of memory.
    Memory,
}

impl From<Memory> for PlanFault {
    ghost use Rattle.std.specs.Prelude.{◌≡◌};
    ghost use Rattle.statement_plan.specs.declared.plan.PlanFault.TheVariants as faults;

    ghost from_gives = { λ _ fault. fault ≡ faults.Memory };

    fn from(_memory: Memory) -> PlanFault {
        PlanFault::Memory
    }
}
