//! What comes of the calls of `call_queue`.

ghost use Rattle.worked_limits.specs.Held.{AreHeld};

use crate::gate_cases::{calls_of, gate_at, given_back};
use crate::given::{tags_of, text_of};
use crate::holding::{close, give, may_be, pick};
use call_jobs::Job;
use call_queue::Queue;
use case_tables::{push_word, str_at, word};
use rate_gate::{CallTags, Gate, Used};
use sp_model::{Asked, Seat};
use std::alloc::Global;
use std::sync::Arc;

pub fn outcome(alloc: Global, call: &str, given: &[Vec<u8>]) -> Option<String> {
    match call {
        "steps" => steps(alloc, given),
        "turns" => turns(alloc, given),
        _ => None,
    }
}

/// Limiters, and steps: `push DUE: CONNECTION FUNCTION SESSION` puts a job in, `pick TICK: CONNECTION` says of which function the picked one is,
/// or the least tick at which there may be one; `give TICK: NUMBER` gives the grant of a number back, from 0; `reserve MORE: CONNECTION`,
/// `forget SESSION: -` and `drop 0: CONNECTION` are as they say.
fn steps(alloc: Global, given: &[Vec<u8>]) -> Option<String> {
    let text = str_at(given, 1)?;
    let mut gate = gate_at(alloc, given)?;
    let mut queue = Queue::none(alloc);
    let mut held = Vec::new(alloc);
    let words = taken(alloc, &mut queue, &mut gate, &mut held, text);
    close(gate, held);
    words
}

fn taken(
    alloc: Global,
    queue: &mut Queue,
    gate: &mut Gate,
    held: &mut Vec<Option<Used>>,
    text: &str,
) -> Option<String>
    requires { AreHeld gate.old.journal held.old.items }
    ensures { AreHeld gate.new.journal held.new.items }
{
    let mut words = String::new(alloc);
    for text in text.split("; ") {
        let came = step(alloc, queue, gate, held, text)?;
        push_word(&mut words, ", ", came.as_str())?;
    }
    Some(words)
}

fn step(
    alloc: Global,
    queue: &mut Queue,
    gate: &mut Gate,
    held: &mut Vec<Option<Used>>,
    text: &str,
) -> Option<String>
    requires { AreHeld gate.old.journal held.old.items }
    ensures { AreHeld gate.new.journal held.new.items }
{
    let (head, what) = text.split_once(": ")?;
    let (name, number) = head.split_once(" ")?;
    let number = number.parse::<u64>().ok()?;
    match name {
        "give" => give_at(alloc, gate, held, what, number),
        "pick" => picked(alloc, queue, gate, held, what, number),
        _ => step_in_queue(alloc, queue, name, what, number),
    }
}

fn give_at(
    alloc: Global,
    gate: &mut Gate,
    held: &mut Vec<Option<Used>>,
    number: &str,
    tick: u64,
) -> Option<String>
    requires { AreHeld gate.old.journal held.old.items }
    ensures { AreHeld gate.new.journal held.new.items }
{
    if !may_be(gate, tick) {
        return None;
    }
    given_back(alloc, gate, held, number, tick)
}

fn step_in_queue(
    alloc: Global,
    queue: &mut Queue,
    name: &str,
    what: &str,
    number: u64,
) -> Option<String> {
    match name {
        "drop" => drop_named(alloc, queue, what)?,
        "forget" => queue.forget(u32::try_from(number).ok()?),
        "push" => push_job(alloc, queue, what, number)?,
        "reserve" => reserve_named(alloc, queue, what, number)?,
        _ => return None,
    }
    word(alloc, name)
}

fn drop_named(alloc: Global, queue: &mut Queue, connection: &str) -> Option<()> {
    let connection = text_of(alloc, connection)?;
    queue.drop_connection(&connection);
    Some(())
}

fn push_job(alloc: Global, queue: &mut Queue, text: &str, due: u64) -> Option<()> {
    let job = job_of(alloc, text, due)?;
    queue.push(alloc, job).ok()
}

fn reserve_named(alloc: Global, queue: &mut Queue, connection: &str, more: u64) -> Option<()> {
    let connection = text_of(alloc, connection)?;
    let more = u32::try_from(more).ok()?;
    queue.reserve(alloc, &connection, more).ok()
}

fn job_of(alloc: Global, text: &str, due: u64) -> Option<Job> {
    let (connection, more) = text.split_once(" ")?;
    let (function, session) = more.split_once(" ")?;
    let session = session.parse::<u32>().ok()?;
    let tags = tags_of(alloc, connection, function)?;
    let asked = asked_of(alloc, connection)?;
    Some(job_with(asked, tags, session, due))
}

fn asked_of(alloc: Global, connection: &str) -> Option<Arc<Asked, Global>> {
    let connection = text_of(alloc, connection)?;
    Arc::new(alloc, Asked::Declare { connection }).ok()
}

fn job_with(asked: Arc<Asked, Global>, tags: CallTags, session: u32, due: u64) -> Job {
    Job {
        session,
        asked,
        seat: Seat {
            scan: 1,
            slot: 0,
            generation: 0,
            function: 0,
        },
        due,
        tags,
        table: None,
    }
}

fn picked(
    alloc: Global,
    queue: &mut Queue,
    gate: &mut Gate,
    held: &mut Vec<Option<Used>>,
    connection: &str,
    tick: u64,
) -> Option<String>
    requires { AreHeld gate.old.journal held.old.items }
    ensures { AreHeld gate.new.journal held.new.items }
{
    if !may_be(gate, tick) {
        return None;
    }
    let connection = text_of(alloc, connection)?;
    picked_words(alloc, pick(alloc, queue, gate, held, &connection, tick)?)
}

fn picked_words(alloc: Global, came: Result<Job, Option<u64>>) -> Option<String> {
    match came {
        Ok(job) => function_word(alloc, &job),
        Err(Some(tick)) => format!(in alloc; "from {tick}").ok(),
        Err(None) => word(alloc, "none"),
    }
}

/// The function that limiters see of a job.
fn function_word(alloc: Global, job: &Job) -> Option<String> {
    for pair in job.tags.pairs() {
        if pair.name.as_str() == "function_name" {
            return word(alloc, pair.value.as_str());
        }
    }
    None
}

/// Limiters, how many connections, how many jobs, and how many ticks after another each is due: puts them in, connection by connection in turns, and
/// picks as often, at the tick at which the job is due, giving each grant back. Says how many were picked.
fn turns(alloc: Global, given: &[Vec<u8>]) -> Option<String> {
    let count = str_at(given, 1)?.parse::<u32>().ok()?;
    let most = str_at(given, 2)?.parse::<u32>().ok()?;
    let apart = str_at(given, 3)?.parse::<u32>().ok()?;
    let calls = calls_of(alloc, count)?;
    let mut queue = Queue::none(alloc);
    push_all(alloc, &mut queue, calls.as_slice(), most, apart)?;
    let mut gate = gate_at(alloc, given)?;
    let mut held = Vec::new(alloc);
    let count = pick_all(
        alloc,
        &mut queue,
        &mut gate,
        &mut held,
        calls.as_slice(),
        most,
        apart,
    );
    close(gate, held);
    format!(in alloc; "{count}").ok()
}

fn push_all(
    alloc: Global,
    queue: &mut Queue,
    calls: &[CallTags],
    most: u32,
    apart: u32,
) -> Option<()> {
    if calls.is_empty() {
        return None;
    }
    for number in 0..most {
        let call = &calls[number as usize % calls.len()];
        let due = due_of(number, apart);
        push_one(alloc, queue, call, due)?;
    }
    Some(())
}

/// The tick at which the job of a number is due.
fn due_of(number: u32, apart: u32) -> u64 {
    u64::from(number).saturating_mul(u64::from(apart))
}

fn push_one(alloc: Global, queue: &mut Queue, call: &CallTags, due: u64) -> Option<()> {
    let tags = call.share().ok()?;
    let asked = asked_of(alloc, call.connection().as_str())?;
    queue.push(alloc, job_with(asked, tags, 1, due)).ok()
}

fn pick_all(
    alloc: Global,
    queue: &mut Queue,
    gate: &mut Gate,
    held: &mut Vec<Option<Used>>,
    calls: &[CallTags],
    most: u32,
    apart: u32,
) -> usize
    requires { AreHeld gate.old.journal held.old.items }
    ensures { AreHeld gate.new.journal held.new.items }
{
    if calls.is_empty() {
        return 0;
    }
    for number in 0..most {
        let call = &calls[number as usize % calls.len()];
        let due = due_of(number, apart);
        pick_one(alloc, queue, gate, held, call, due);
    }
    held.len()
}

fn is_job(came: Option<Result<Job, Option<u64>>>) -> bool {
    matches!(came, Some(Ok(_)))
}

/// Picks at a tick, and gives back.
fn pick_one(
    alloc: Global,
    queue: &mut Queue,
    gate: &mut Gate,
    held: &mut Vec<Option<Used>>,
    call: &CallTags,
    tick: u64,
)
    requires { AreHeld gate.old.journal held.old.items }
    ensures { AreHeld gate.new.journal held.new.items }
{
    if !may_be(gate, tick) {
        return;
    }
    let place = held.len();
    if is_job(pick(alloc, queue, gate, held, call.connection(), tick)) && may_be(gate, tick) {
        let _ = give(gate, held, place, tick);
    }
}
