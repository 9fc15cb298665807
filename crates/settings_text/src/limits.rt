ghost use Rattle.std.specs.Prelude.{◌≡◌, ◌≤◌, IfOk, IfSome};
ghost use Rattle.settings_text.specs.Entries.{with_entry};
ghost use Rattle.settings_text.specs.Faults.{IsUnlessMemory};
ghost use Rattle.settings_text.specs.Limits.{within, none_or_within, options_within, is_short, limiter_within};
ghost use Rattle.settings_text.specs.Reading.{limiters_within};

use crate::fault::{Entry, SettingsFault};
use crate::written::{WrittenLimiter, WrittenOptions};
use sp_model::{Limiter, Options};
use sp_value::{Memory, TryCopy};
use sqlite_items::Items;
use std::alloc::Global;

/// Of connections, limiters, texts of a command and patterns of an aggregator there are at most so many each.
pub const MOST_ENTRIES: usize = 64;

/// Of names in a limiter's scope, and of its conditions.
const MOST_LISTED: usize = 16;

/// Ticks.
const LONGEST_TTL: u64 = 1_000_000_000_000;

const LARGEST_CACHE: u32 = 1024;

const WIDEST_WINDOW: u32 = 4096;

const MOST_RESTARTS: u32 = 100;

/// Tokens of a bucket, tokens that fill it, and open calls.
const HIGHEST_RATE: u32 = 1_000_000;

/// Ticks.
const LONGEST_PER: u32 = 1_000_000_000;

/// The ticks in which a bucket is filled where nothing is said.
const DEFAULT_PER: i64 = 1000;

/// The number, where it is in its range.
fn within(least: u64, most: u64, number: i64) -> Option<u64>
    ensures value { result ≡ within least most number }
    ensures most { IfSome result (λ n. n ≤ most) }
{
    match u64::try_from(number) {
        Ok(number) => if least <= number && number <= most {
            Some(number)
        } else {
            None
        },
        Err(_) => None,
    }
}

fn small_within(least: u32, most: u32, number: i64) -> Option<u32>
    ensures { result ≡ within least most number }
{
    match within(u64::from(least), u64::from(most), number) {
        Some(number) => Some(number as u32),
        None => None,
    }
}

fn none_or_within(least: u32, most: u32, number: Option<i64>) -> Option<Option<u32>>
    ensures { result ≡ none_or_within least most number }
{
    match number {
        Some(number) => match small_within(least, most, number) {
            Some(number) => Some(Some(number)),
            None => None,
        },
        None => Some(None),
    }
}

/// The options, where each number is in its range.
pub fn options_within(written: WrittenOptions) -> Option<Options>
    ensures { result ≡ options_within written }
{
    let cache_ttl = within(0, LONGEST_TTL, written.cache_ttl)?;
    let cache_max = small_within(1, LARGEST_CACHE, written.cache_max)?;
    let window = small_within(1, WIDEST_WINDOW, written.window)?;
    let restarts = small_within(0, MOST_RESTARTS, written.restarts)?;
    Some(Options {
        cache: written.cache,
        cache_ttl,
        cache_max,
        window,
        restarts,
    })
}

fn is_short(limiter: &WrittenLimiter) -> bool
    ensures { result ≡ is_short limiter.now }
{
    limiter.scope.len() <= MOST_LISTED && limiter.conds.len() <= MOST_LISTED
}

/// The limiter, where each number is in its range and its lists are short.
fn limiter_within(alloc: Global, limiter: &WrittenLimiter) -> Result<Option<Limiter>, Memory>
    ensures { IfOk result (λ o. o ≡ limiter_within limiter.now) }
{
    if !is_short(limiter) {
        return Ok(None);
    }
    let rates = limiter.rates;
    let Some(bucket_size) = none_or_within(1, HIGHEST_RATE, rates.bucket_size) else {
        return Ok(None);
    };
    let Some(fill) = none_or_within(1, HIGHEST_RATE, rates.fill) else {
        return Ok(None);
    };
    let Some(per) = small_within(1, LONGEST_PER, rates.per.unwrap_or(DEFAULT_PER)) else {
        return Ok(None);
    };
    let Some(max_concurrency) = none_or_within(1, HIGHEST_RATE, rates.max_concurrency) else {
        return Ok(None);
    };
    Ok(Some(Limiter {
        name: limiter.name.copy(alloc)?,
        bucket_size,
        fill,
        per,
        max_concurrency,
        scope: limiter.scope.copy(alloc)?,
        conds: limiter.conds.copy(alloc)?,
    }))
}

/// The limiters, or the first with a number or a list beyond its limits.
pub fn limiters_within(
    alloc: Global,
    limiters: &[WrittenLimiter],
) -> Result<Items<Limiter>, SettingsFault>
    ensures { IsUnlessMemory result (limiters_within 1 limiters.now) }
{
    let mut done = Items::new(alloc);
    let mut number = 0;
    for limiter in limiters {
        number += 1;
        let Some(within) = limiter_within(alloc, limiter)? else {
            return Err(SettingsFault::Limit {
                at: Entry::Limiter(number),
            });
        };
        let Ok(()) = done.push(within) else {
            return Err(SettingsFault::Memory);
        };
    }
    Ok(done)
}
