ghost use Rattle.std.specs.Prelude.{◌≡◌, ◌<◌, ◌+◌, ◌==◌, length, Some, IfOk, slice_get, slice_set, remove, position, vec_len, vec_capacity};
ghost use Rattle.child_link.specs.Open.{calls_of};

use call_jobs::Job;
use rate_gate::Used;
use sp_outside::{OpenCall, PendingCalls};
use sp_value::{Memory, TryCopy};
use sqlite_items::Items;
use std::alloc::Global;

/// An open call: its number, its job, how many items it has given, its grant, and how many bytes its line has without the number. It has
/// no `Drop`, since a grant hasn't.
pub struct Flight {
    pub id: u64,
    pub job: Job,
    pub taken: u64,
    pub used: Used,
    pub length: usize,
}

/// The place of the first open call of a number.
pub(crate) fn find(flights: &[Flight], id: u64) -> Option<usize>
    ensures { result ≡ position (λ f. f.id == id) flights.now }
{
    flights.iter().position(|flight| flight.id == id)
}

/// The open calls, without their jobs.
pub(crate) fn pending_calls(alloc: Global, flights: &[Flight]) -> Result<PendingCalls, Memory>
    ensures { IfOk result (λ calls. calls ≡ calls_of flights.now) }
{
    let mut calls = Items::new(alloc);
    for flight in flights {
        let call = OpenCall {
            id: flight.id,
            asked: flight.job.asked.copy(alloc)?,
            taken: flight.taken,
        };
        let Ok(()) = calls.push(call) else {
            return Err(Memory);
        };
    }
    Ok(calls)
}

/// The open call at a place.
pub(crate) fn flight_at(flights: &[Flight], at: usize) -> &Flight
    requires { at < length flights.now }
    ensures { slice_get flights.now at ≡ Some result.now }
{
    &flights[at]
}

/// The call at a place has given one item more.
pub(crate) fn count_item(flights: &mut Vec<Flight>, at: usize)
    requires within { at < length flights.old.items }
    requires small { (f : _) → slice_get flights.old.items at ≡ Some f → f.taken < 999999 }
    ensures items { (f : _) → slice_get flights.old.items at ≡ Some f → flights.new.items ≡ slice_set flights.old.items at (record f { taken = f.taken + 1 }) }
    ensures len { vec_len flights.new ≡ vec_len flights.old }
    ensures room { vec_capacity flights.new ≡ vec_capacity flights.old }
{
    let flight = &mut flights[at];
    flight.taken += 1;
}

/// The call at a place is no longer open. This is its grant.
pub(crate) fn close(flights: &mut Vec<Flight>, at: usize) -> Used
    requires { at < length flights.old.items }
    ensures items { flights.new.items ≡ remove flights.old.items at }
    ensures used { (f : _) → slice_get flights.old.items at ≡ Some f → result ≡ f.used }
    ensures len { vec_len flights.new + 1 ≡ vec_len flights.old }
    ensures room { vec_capacity flights.new ≡ vec_capacity flights.old }
{
    let Flight {
        id: _,
        job,
        taken: _,
        used,
        length: _,
    } = flights.remove(at);
    drop(job);
    used
}
