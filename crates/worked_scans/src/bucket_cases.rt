//! What comes of the calls of `rate_bucket`.

use crate::tables::number_at;
use case_tables::{push_word, str_at, word};
use rate_bucket::Bucket;
use std::alloc::Global;

/// The last tick.
const LAST: u64 = 4_611_686_018_427_387_904;

pub fn outcome(alloc: Global, call: &str, given: &[Vec<u8>]) -> Option<String> {
    match call {
        "takes" => takes(alloc, given),
        _ => None,
    }
}

fn bucket_at(given: &[Vec<u8>]) -> Option<Bucket> {
    let size = number_at(given, 0)?;
    let fill = number_at(given, 1)?;
    let per = number_at(given, 2)?;
    if size == 0 || fill == 0 || per == 0 {
        return None;
    }
    Some(Bucket::full(size, fill, per))
}

/// The size, fill and time of a bucket, and ticks that don't fall: whether a token is taken at each, or the first tick that has one.
fn takes(alloc: Global, given: &[Vec<u8>]) -> Option<String> {
    let mut bucket = bucket_at(given)?;
    let mut words = String::new(alloc);
    for text in str_at(given, 3)?.split(", ") {
        let came = take(alloc, &mut bucket, text.parse::<u64>().ok()?)?;
        push_word(&mut words, ", ", came.as_str())?;
    }
    Some(words)
}

fn take(alloc: Global, bucket: &mut Bucket, tick: u64) -> Option<String> {
    if tick < bucket.last() || tick > LAST {
        return None;
    }
    match bucket.try_take(tick) {
        Ok(()) => word(alloc, "taken"),
        Err(later) => format!(in alloc; "from {}", later.tick).ok(),
    }
}
