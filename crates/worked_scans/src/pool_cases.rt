//! What comes of the calls of `row_pool`.

ghost use Rattle.std.specs.Prelude.{◌≤◌, ◌+◌};

use crate::tables::number_at;
use case_tables::{push_word, str_at, word};
use row_pool::{Key, Pool};
use sp_value::Text;
use std::alloc::Global;

pub fn outcome(alloc: Global, call: &str, given: &[Vec<u8>]) -> Option<String> {
    match call {
        "steps" => steps(alloc, given),
        _ => None,
    }
}

/// A number of slots, and steps over them: `take x`, and `get N`, `set N x` and `give N` by the key of the N-th value that was taken, from 0.
fn steps(alloc: Global, given: &[Vec<u8>]) -> Option<String> {
    let mut pool = Pool::with_slots(alloc, number_at(given, 0)?).ok()?;
    let mut keys = Vec::new(alloc);
    let mut words = String::new(alloc);
    let mut count = 0u32;
    for text in str_at(given, 1)?.split(", ") {
        let came = step(alloc, &mut pool, &mut keys, count, text)?;
        push_word(&mut words, ", ", came.as_str())?;
        count = count.checked_add(1)?;
    }
    Some(words)
}

/// A step, before which at most so many values were taken.
fn step(
    alloc: Global,
    pool: &mut Pool<Text>,
    keys: &mut Vec<Key>,
    count: u32,
    text: &str,
) -> Option<String>
    requires { pool.old.drawn ≤ count }
    ensures { pool.new.drawn ≤ count + 1 }
{
    let (name, more) = text.split_once(" ")?;
    match name {
        "take" => take(alloc, pool, keys, count, more),
        "get" => get(alloc, pool, key_at(keys.as_slice(), more)?),
        "give" => give(alloc, pool, key_at(keys.as_slice(), more)?),
        "set" => set(alloc, pool, keys.as_slice(), more),
        _ => None,
    }
}

fn key_at(keys: &[Key], number: &str) -> Option<Key> {
    keys.get(number.parse::<usize>().ok()?).copied()
}

fn take(
    alloc: Global,
    pool: &mut Pool<Text>,
    keys: &mut Vec<Key>,
    count: u32,
    value: &str,
) -> Option<String>
    requires { pool.old.drawn ≤ count }
    ensures { pool.new.drawn ≤ count + 1 }
{
    let value = Text::from_str(alloc, value).ok()?;
    match pool.take(value) {
        Ok(key) => {
            keys.push(key).ok()?;
            format!(in alloc; "{}", key.generation).ok()
        }
        Err(value) => format!(in alloc; "{} back", value.as_str()).ok(),
    }
}

fn get(alloc: Global, pool: &Pool<Text>, key: Key) -> Option<String> {
    match pool.get(&key) {
        Some(value) => word(alloc, value.as_str()),
        None => word(alloc, "none"),
    }
}

fn give(alloc: Global, pool: &mut Pool<Text>, key: Key) -> Option<String>
    ensures { pool.new.drawn ≤ pool.old.drawn }
{
    match pool.give_back(key) {
        Some(value) => word(alloc, value.as_str()),
        None => word(alloc, "none"),
    }
}

fn set(alloc: Global, pool: &mut Pool<Text>, keys: &[Key], more: &str) -> Option<String>
    ensures { pool.new.drawn ≤ pool.old.drawn }
{
    let (number, value) = more.split_once(" ")?;
    let key = key_at(keys, number)?;
    let value = Text::from_str(alloc, value).ok()?;
    match pool.get_mut(&key) {
        Some(slot) => {
            *slot = value;
            word(alloc, "set")
        }
        None => word(alloc, "none"),
    }
}
