//! What comes of the calls of `rate_gate`.

ghost use Rattle.std.specs.Prelude.{◌≤◌, ◌^◌, [], IfSome};
ghost use Rattle.rate_gate.specs.Journal.{last_tick};
ghost use Rattle.worked_limits.specs.Held.{AreHeld};

use crate::given::{are_limiters, limiters_of, tags_of};
use crate::holding::{ask, close, give, may_be};
use case_tables::{push_word, str_at, word};
use rate_gate::{CallTags, Gate, Used, Wait};
use std::alloc::Global;

pub fn outcome(alloc: Global, call: &str, given: &[Vec<u8>]) -> Option<String> {
    match call {
        "steps" => steps(alloc, given),
        "turns" => turns(alloc, given),
        _ => None,
    }
}

pub fn gate_at(alloc: Global, given: &[Vec<u8>]) -> Option<Gate>
    ensures { IfSome result (λ g. AreHeld g.journal []) }
{
    let limiters = limiters_of(alloc, str_at(given, 0)?)?;
    if !are_limiters(limiters.as_slice()) {
        return None;
    }
    Gate::of(alloc, limiters.as_slice()).ok()
}

/// Limiters, and steps: `ask TICK: CONNECTION FUNCTION` asks for a call, and `give TICK: NUMBER` gives the grant of a number back, from 0.
fn steps(alloc: Global, given: &[Vec<u8>]) -> Option<String> {
    let text = str_at(given, 1)?;
    let mut gate = gate_at(alloc, given)?;
    let mut held = Vec::new(alloc);
    let words = taken(alloc, &mut gate, &mut held, text);
    close(gate, held);
    words
}

fn taken(alloc: Global, gate: &mut Gate, held: &mut Vec<Option<Used>>, text: &str) -> Option<String>
    requires { AreHeld gate.old.journal held.old.items }
    ensures { AreHeld gate.new.journal held.new.items }
{
    let mut words = String::new(alloc);
    for text in text.split("; ") {
        let came = step(alloc, gate, held, text)?;
        push_word(&mut words, ", ", came.as_str())?;
    }
    Some(words)
}

fn step(alloc: Global, gate: &mut Gate, held: &mut Vec<Option<Used>>, text: &str) -> Option<String>
    requires { AreHeld gate.old.journal held.old.items }
    ensures { AreHeld gate.new.journal held.new.items }
{
    let (head, what) = text.split_once(": ")?;
    let (name, tick) = head.split_once(" ")?;
    let tick = tick.parse::<u64>().ok()?;
    if !may_be(gate, tick) {
        return None;
    }
    match name {
        "ask" => asked(alloc, gate, held, what, tick),
        "give" => given_back(alloc, gate, held, what, tick),
        _ => None,
    }
}

fn asked(
    alloc: Global,
    gate: &mut Gate,
    held: &mut Vec<Option<Used>>,
    call: &str,
    tick: u64,
) -> Option<String>
    requires held { AreHeld gate.old.journal held.old.items }
    requires since { last_tick gate.old.journal ≤ tick }
    requires range { tick ≤ 2 ^ 62 }
    ensures { AreHeld gate.new.journal held.new.items }
{
    let (connection, function) = call.split_once(" ")?;
    let tags = tags_of(alloc, connection, function)?;
    answer(alloc, ask(alloc, gate, held, &tags, tick))
}

fn answer(alloc: Global, came: Result<(), Wait>) -> Option<String> {
    match came {
        Ok(()) => word(alloc, "granted"),
        Err(Wait::Places) => word(alloc, "places"),
        Err(Wait::Until(tick)) => format!(in alloc; "until {tick}").ok(),
        Err(Wait::Memory) => None,
    }
}

pub fn given_back(
    alloc: Global,
    gate: &mut Gate,
    held: &mut Vec<Option<Used>>,
    number: &str,
    tick: u64,
) -> Option<String>
    requires held { AreHeld gate.old.journal held.old.items }
    requires since { last_tick gate.old.journal ≤ tick }
    requires range { tick ≤ 2 ^ 62 }
    ensures { AreHeld gate.new.journal held.new.items }
{
    give(gate, held, number.parse::<usize>().ok()?, tick)?;
    word(alloc, "back")
}

/// Limiters, how many connections, and how many turns: in each, the next connection asks for a call, at the next tick, and gives it back.
/// Says how many were granted.
fn turns(alloc: Global, given: &[Vec<u8>]) -> Option<String> {
    let count = str_at(given, 1)?.parse::<u32>().ok()?;
    let most = str_at(given, 2)?.parse::<u32>().ok()?;
    let calls = calls_of(alloc, count)?;
    let mut gate = gate_at(alloc, given)?;
    let mut held = Vec::new(alloc);
    let granted = all_turns(alloc, &mut gate, &mut held, calls.as_slice(), most);
    close(gate, held);
    format!(in alloc; "{granted}").ok()
}

pub fn calls_of(alloc: Global, count: u32) -> Option<Vec<CallTags>> {
    let mut calls = Vec::new(alloc);
    for number in 0..count {
        let name = format!(in alloc; "c{number}").ok()?;
        calls.push(tags_of(alloc, name.as_str(), "list")?).ok()?;
    }
    Some(calls)
}

fn all_turns(
    alloc: Global,
    gate: &mut Gate,
    held: &mut Vec<Option<Used>>,
    calls: &[CallTags],
    most: u32,
) -> usize
    requires { AreHeld gate.old.journal held.old.items }
    ensures { AreHeld gate.new.journal held.new.items }
{
    if calls.is_empty() {
        return 0;
    }
    for number in 0..most {
        let call = &calls[number as usize % calls.len()];
        turn(alloc, gate, held, call, u64::from(number));
    }
    held.len()
}

/// Asks at a tick, and gives back.
fn turn(alloc: Global, gate: &mut Gate, held: &mut Vec<Option<Used>>, call: &CallTags, tick: u64)
    requires { AreHeld gate.old.journal held.old.items }
    ensures { AreHeld gate.new.journal held.new.items }
{
    if !may_be(gate, tick) {
        return;
    }
    let place = held.len();
    if ask(alloc, gate, held, call, tick).is_ok() && may_be(gate, tick) {
        let _ = give(gate, held, place, tick);
    }
}
