// The distinct scans of all left rows, and the places of each row's own.

ghost use Rattle.std.specs.Prelude.{◌≡◌, [], map, IfOk, OnOk};
ghost use Rattle.std.specs.List.{flat_map};
ghost use Rattle.source_scans.specs.Asking.{with_unit, each_once, place_of, units_at, units_of, picks_of};
ghost use Rattle.source_scans.specs.Planned.{IsPlanned};

use crate::asking::units_at;
use crate::source::PlanSource;
use crate::unit_scan::UnitScan;
use indexmap::IndexSet;
use sp_value::{Cells, Memory, TryCopy};
use sqlite_items::Items;
use std::alloc::Global;

fn copy_of(alloc: Global, unit: &UnitScan) -> Result<UnitScan, Memory>
    ensures { IfOk result (λ u. u ≡ unit.now) }
{
    let connection = unit.connection.copy(alloc)?;
    let conditions = unit.conditions.copy(alloc)?;
    Ok(UnitScan {
        connection,
        conditions,
    })
}

/// Puts a scan at the end, unless an equal one is there, and answers its place.
fn place_of(alloc: Global, found: &mut IndexSet<UnitScan>, unit: &UnitScan) -> Result<u32, Memory>
    ensures found { OnOk result (found.new.keys ≡ with_unit found.old.keys unit.now) }
    ensures place { IfOk result (λ place. place ≡ place_of found.old.keys unit.now) }
{
    let unit = copy_of(alloc, unit)?;
    let (place, _) = found.insert_full(unit)?;
    match u32::try_from(place) {
        Ok(place) => Ok(place),
        Err(_) => Err(Memory),
    }
}

/// Puts the scans of a left row at the end, each once, and answers their places.
fn places_of(
    alloc: Global,
    found: &mut IndexSet<UnitScan>,
    units: &[UnitScan],
) -> Result<Items<u32>, Memory>
    ensures found { OnOk result (found.new.keys ≡ each_once found.old.keys units.now) }
    ensures places { IfOk result (λ places. places ≡ map (place_of found.new.keys) units.now) }
{
    let mut places = Items::new(alloc);
    for unit in units {
        let place = place_of(alloc, found, unit)?;
        let Ok(()) = places.push(place) else {
            return Err(Memory);
        };
    }
    Ok(places)
}

/// The places of each left row's scans among the distinct ones, which are found.
pub(crate) fn picks_of(
    alloc: Global,
    found: &mut IndexSet<UnitScan>,
    source: &PlanSource,
    left: &[Cells],
) -> Result<Items<Items<u32>>, Memory>
    requires planned { IsPlanned source.now }
    requires empty { found.old.keys ≡ [] }
    ensures found { OnOk result (found.new.keys ≡ units_of source.now left.now) }
    ensures picks { IfOk result (λ picks. picks ≡ picks_of source.now left.now) }
{
    let mut picks = Items::new(alloc);
    for row in left {
        let units = units_at(alloc, source, row.as_slice())?;
        let places = places_of(alloc, found, units.as_slice())?;
        let Ok(()) = picks.push(places) else {
            return Err(Memory);
        };
    }
    Ok(picks)
}
