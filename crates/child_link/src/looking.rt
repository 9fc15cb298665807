ghost use Rattle.std.specs.Prelude.{◌≡◌, IfOk};
ghost use Rattle.child_link.specs.Open.{calls_of};
ghost use Rattle.child_link.specs.Looked.{IsLooked};
ghost use Rattle.child_link.specs.declared.looked.Looked.TheVariants as looked;

use crate::fitting::{fits, number_of};
use crate::flight::{Flight, find, pending_calls};
use crate::looked::Looked;
use sp_value::Memory;
use sp_world::{LineFault, read_line};
use std::alloc::Global;
use std::sync::Arc;

/// What a line is to the open calls.
pub(crate) fn look(alloc: Global, flights: &[Flight], bytes: &[u8]) -> Result<Looked, Memory>
    ensures { IfOk result (IsLooked (calls_of flights.now) bytes.now) }
{
    let line = match read_line(alloc, bytes) {
        Ok(line) => line,
        Err(LineFault::Memory) => return Err(Memory),
        Err(_) => return misfit(alloc, flights),
    };
    let Some(at) = find(flights, number_of(&line)) else {
        return misfit(alloc, flights);
    };
    let flight = &flights[at];
    if !fits(&flight.job.asked, flight.taken, &line) {
        return misfit(alloc, flights);
    }
    let asked = Arc::try_clone(&flight.job.asked)?;
    Ok(Looked::Fit { at, asked, line })
}

fn misfit(alloc: Global, flights: &[Flight]) -> Result<Looked, Memory>
    ensures { IfOk result (λ l. l ≡ looked.Bad (calls_of flights.now)) }
{
    let pending = pending_calls(alloc, flights)?;
    Ok(Looked::Bad(pending))
}
