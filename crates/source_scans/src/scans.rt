// The scans of a source.

ghost use Rattle.std.specs.Prelude.{◌≡◌, All, [], map, IfOk};
ghost use Rattle.std.specs.Arc.{arc_value};
ghost use Rattle.source_scans.specs.Asking.{request_of, requests_of, picks_of};
ghost use Rattle.source_scans.specs.Planned.{IsPlanned, IsMadeBy};

use crate::collecting::picks_of;
use crate::source::PlanSource;
use crate::unit_scan::UnitScan;
use indexmap::IndexSet;
use sp_model::ScanRequest;
use sp_value::{Memory, Rows, TryCopy};
use sqlite_items::Items;
use std::alloc::Global;

/// The scans that a source asks for, and for each left row the places of its own among them.
#[derive(Drop)]
pub struct Scans {
    pub requests: Items<ScanRequest>,
    pub picks: Items<Items<u32>>,
}

fn request_of(alloc: Global, source: &PlanSource, unit: &UnitScan) -> Result<ScanRequest, Memory>
    ensures { IfOk result (λ r. r ≡ request_of source.now unit.now) }
{
    Ok(ScanRequest {
        connection: unit.connection.copy(alloc)?,
        table: source.table.name.copy(alloc)?,
        access: source.access,
        conditions: unit.conditions.copy(alloc)?,
        columns: source.columns.copy(alloc)?,
        subset: source.subset.copy(alloc)?,
        limit: source.limit,
    })
}

fn requests_of(
    alloc: Global,
    source: &PlanSource,
    units: &[UnitScan],
) -> Result<Items<ScanRequest>, Memory>
    ensures { IfOk result (λ rs. rs ≡ map (request_of source.now) units.now) }
{
    let mut requests = Items::new(alloc);
    for unit in units {
        let request = request_of(alloc, source, unit)?;
        let Ok(()) = requests.push(request) else {
            return Err(Memory);
        };
    }
    Ok(requests)
}

impl PlanSource {
    /// The scans that left rows ask for, each once, and for each left row the places of its own. The first source has one left row, without
    /// cells. A left row's list or object counts as null in a condition. Each request has the limit of the source. Time grows with the number
    /// of left rows and of their scans alone.
    #[tactic(auto, unfolding(crate::specs::Asking::requests_of))]
    pub fn next_scans(&self, alloc: Global, left: &Rows) -> Result<Scans, Memory>
        requires planned { IsPlanned self.now }
        ensures requests { IfOk result (λ s. s.requests ≡ requests_of self.now left.now) }
        ensures picks { IfOk result (λ s. s.picks ≡ picks_of self.now left.now) }
        ensures made { IfOk result (λ s. All (IsMadeBy self.now) s.requests) }
    {
        let mut found = IndexSet::new(alloc);
        let picks = picks_of(alloc, &mut found, self, left.as_slice())?;
        let requests = requests_of(alloc, self, found.as_slice())?;
        Ok(Scans { requests, picks })
    }
}
