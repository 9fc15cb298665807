//! What comes of the calls of `query_cache`.

ghost use Rattle.std.specs.Prelude.{◌≡◌, ◌≤◌, ◌^◌, length};
ghost use Rattle.std.specs.List.{AllByRecursion};

use crate::kept_rows::rows;
use crate::tables::{cell_of, number_at, texts_of};
use case_tables::{push_word, str_at, word};
use query_cache::Cache;
use sp_model::{Access, Condition, Conditions, Mark, ScanNote, ScanRequest, Version};
use sp_value::{Op, Rows, Text};
use sp_world::{Kept, KeptScan, Untold};
use sqlite_items::Items;
use std::alloc::Global;
use std::sync::Arc;

/// The last tick.
const LAST: u64 = 4_611_686_018_427_387_904;

pub fn outcome(alloc: Global, call: &str, given: &[Vec<u8>]) -> Option<String> {
    match call {
        "rows" => rows(alloc, given),
        "steps" => steps(alloc, given),
        _ => None,
    }
}

/// The limit and the time to live of a cache, and steps over it: `keep TICK: REQUEST` keeps the whole scan of a request that was asked at that tick,
/// `part TICK: REQUEST` one that stopped at its limit, `find TICK: REQUEST` says at which tick the scan was asked that serves it, and `clear` forgets all.
fn steps(alloc: Global, given: &[Vec<u8>]) -> Option<String> {
    let (limit, ttl) = (number_at(given, 0)?, number_at(given, 1)?);
    if limit == 0 {
        return None;
    }
    let mut cache: Cache<Untold> = Cache::with(alloc, limit, ttl as u64).ok()?;
    let mut words = String::new(alloc);
    for text in str_at(given, 2)?.split("; ") {
        let came = step(alloc, &mut cache, text)?;
        push_word(&mut words, ", ", came.as_str())?;
    }
    Some(words)
}

fn step(alloc: Global, cache: &mut Cache<Untold>, text: &str) -> Option<String> {
    let Some((name, more)) = text.split_once(" ") else {
        cache.clear();
        return word(alloc, "cleared");
    };
    let (tick, request) = more.split_once(": ")?;
    let tick = tick.parse::<u64>().ok()?;
    let request = request_of(alloc, request)?;
    match name {
        "find" => find(alloc, cache, &request, tick),
        "keep" => keep(alloc, cache, request, tick, true),
        "part" => keep(alloc, cache, request, tick, false),
        _ => None,
    }
}

fn find(
    alloc: Global,
    cache: &mut Cache<Untold>,
    request: &ScanRequest,
    tick: u64,
) -> Option<String> {
    match cache.find(request, tick).ok()? {
        Some(kept) => format!(in alloc; "{}", kept.note().asked).ok(),
        None => word(alloc, "none"),
    }
}

fn keep(
    alloc: Global,
    cache: &mut Cache<Untold>,
    request: ScanRequest,
    asked: u64,
    complete: bool,
) -> Option<String> {
    if asked > LAST {
        return None;
    }
    let kept = kept_of(request, Rows::new(alloc), asked, complete);
    cache.keep(Arc::new(alloc, kept).ok()?);
    word(alloc, "kept")
}

/// A scan with its rows.
#[tactic(auto, using(crate::proofs::Kept::has_form))]
pub fn kept_of(request: ScanRequest, rows: Rows, asked: u64, complete: bool) -> Kept<Untold>
    requires tick { asked ≤ 2 ^ 62 }
    requires rows { AllByRecursion (λ row. length row ≡ length request.columns) rows }
{
    let note = ScanNote {
        request,
        asked,
        at: asked,
        version: Version::Is(7),
        mark: Mark::Fresh,
    };
    Kept::of(KeptScan {
        note,
        rows,
        complete,
    })
}

/// A table, columns, conditions, the columns that only filter, and the limit, with ` | ` between them; `-` where there is no condition or no limit.
pub fn request_of(alloc: Global, text: &str) -> Option<ScanRequest> {
    let (table, more) = text.split_once(" | ")?;
    let (columns, more) = more.split_once(" | ")?;
    let (conditions, more) = more.split_once(" | ")?;
    let (subset, limit) = more.split_once(" | ")?;
    Some(ScanRequest {
        connection: Text::from_str(alloc, "c").ok()?,
        table: Text::from_str(alloc, table).ok()?,
        access: Access::List,
        conditions: conditions_of(alloc, conditions)?,
        columns: texts_of(alloc, columns)?,
        subset: texts_of(alloc, subset)?,
        limit: limit.parse::<u64>().ok(),
    })
}

fn conditions_of(alloc: Global, text: &str) -> Option<Conditions> {
    let mut conditions = Items::new(alloc);
    if text == "-" {
        return Some(conditions);
    }
    for part in text.split(", ") {
        conditions.push(condition_of(alloc, part)?).ok()?;
    }
    Some(conditions)
}

fn condition_of(alloc: Global, text: &str) -> Option<Condition> {
    let (column, more) = text.split_once(" ")?;
    let (operator, value) = more.split_once(" ")?;
    Some(Condition {
        column: Text::from_str(alloc, column).ok()?,
        operator: operator_of(operator)?,
        value: cell_of(alloc, value)?,
    })
}

fn operator_of(word: &str) -> Option<Op> {
    match word {
        "=" => Some(Op::Eq),
        "<>" => Some(Op::Ne),
        "<" => Some(Op::Lt),
        "<=" => Some(Op::Le),
        ">" => Some(Op::Gt),
        ">=" => Some(Op::Ge),
        _ => None,
    }
}
