// Jobs in two rows: those in line, and those that wait for a later tick, by that tick.

ghost use Rattle.std.specs.Prelude.{◌≡◌, ◌+◌, ◌≤◌, ◌<◌, ◌++◌, not, filter, Some, IsTrue};
ghost use Rattle.std.specs.List.{prefix_len, slice_get, remove};
ghost use Rattle.std.specs.VecDeque.{deque_len, deque_capacity};
ghost use Rattle.call_queue.specs.Lines.{is_due, put_by_due};
ghost use Rattle.call_queue.specs.Order.{IsByDue, HasMoved, is_first_due, first_tick};

use call_jobs::Job;
use std::collections::VecDeque;

/// How many jobs, which stand by their ticks, are due at a tick.
fn count_due(jobs: &VecDeque<Job>, tick: u64) -> usize
    requires { IsByDue jobs.now.items }
    ensures count { result ≡ prefix_len (is_due tick) jobs.now.items }
    ensures within { result ≤ deque_len jobs.now }
{
    jobs.partition_point(|job| job.due <= tick)
}

/// Puts a job by its tick, for which there is room.
pub(crate) fn put_by_due(jobs: &mut VecDeque<Job>, job: Job)
    requires order { IsByDue jobs.old.items }
    requires room { deque_len jobs.old < deque_capacity jobs.old }
    ensures items { jobs.new.items ≡ put_by_due job jobs.old.items }
    ensures order { IsByDue jobs.new.items }
    ensures len { deque_len jobs.new ≡ deque_len jobs.old + 1 }
    ensures capacity { deque_capacity jobs.old ≤ deque_capacity jobs.new }
{
    let place = count_due(jobs, job.due);
    match jobs.insert(place, job) {
        Ok(()) => {}
        Err(_) => unreachable!(),
    }
}

fn is_first_due(jobs: &VecDeque<Job>, tick: u64) -> bool
    ensures due { result ≡ is_first_due tick jobs.now.items }
    ensures there { IsTrue result → 0 < deque_len jobs.now }
{
    match jobs.front() {
        Some(job) => job.due <= tick,
        None => false,
    }
}

/// The tick of the first.
pub(crate) fn first_tick(jobs: &VecDeque<Job>) -> Option<u64>
    ensures { result ≡ first_tick jobs.now.items }
{
    match jobs.front() {
        Some(job) => Some(job.due),
        None => None,
    }
}

/// Moves the first of those that wait to the end of those in line.
fn move_first(ready: &mut VecDeque<Job>, waiting: &mut VecDeque<Job>)
    requires there { 0 < deque_len waiting.old }
    requires room { deque_len ready.old < deque_capacity ready.old }
    ensures moved { HasMoved ready.old.items waiting.old.items ready.new.items waiting.new.items }
    ensures ready_len { deque_len ready.new ≡ deque_len ready.old + 1 }
    ensures waiting_len { deque_len waiting.new + 1 ≡ deque_len waiting.old }
    ensures ready_capacity { deque_capacity ready.new ≡ deque_capacity ready.old }
    ensures waiting_capacity { deque_capacity waiting.new ≡ deque_capacity waiting.old }
{
    match waiting.pop_front() {
        Some(job) => ready.push_back_reserved(job),
        None => unreachable!(),
    }
}

/// Moves those that are due at a tick into the line, for which there is room.
pub(crate) fn join_due(ready: &mut VecDeque<Job>, waiting: &mut VecDeque<Job>, tick: u64)
    requires order { IsByDue waiting.old.items }
    requires room { deque_len ready.old + deque_len waiting.old ≤ deque_capacity ready.old }
    ensures ready { ready.new.items ≡ ready.old.items ++ filter (is_due tick) waiting.old.items }
    ensures waiting { waiting.new.items ≡ filter (λ job. not (is_due tick job)) waiting.old.items }
    ensures order { IsByDue waiting.new.items }
    ensures len { deque_len ready.new + deque_len waiting.new ≡ deque_len ready.old + deque_len waiting.old }
    ensures ready_capacity { deque_capacity ready.new ≡ deque_capacity ready.old }
    ensures waiting_capacity { deque_capacity waiting.new ≡ deque_capacity waiting.old }
{
    while is_first_due(waiting, tick) {
        move_first(ready, waiting);
    }
}

/// Takes the job at a place out.
pub(crate) fn take_out(jobs: &mut VecDeque<Job>, place: usize) -> Job
    requires { place < deque_len jobs.old }
    ensures job { slice_get jobs.old.items place ≡ Some result }
    ensures items { jobs.new.items ≡ remove jobs.old.items place }
    ensures len { deque_len jobs.new + 1 ≡ deque_len jobs.old }
    ensures capacity { deque_capacity jobs.new ≡ deque_capacity jobs.old }
{
    match jobs.remove(place) {
        Some(job) => job,
        None => unreachable!(),
    }
}
