//! What a case is given, as limiters and calls.

ghost use Rattle.std.specs.Prelude.{◌≡◌, [], None, codes, true, IsSome, IfSome};
ghost use Rattle.std.specs.List.{AllByRecursion};
ghost use Rattle.rate_gate.specs.Limits.{IsLimiter};
ghost use Rattle.sp_model.specs.declared.call.Call.TheVariants as call;

use rate_gate::CallTags;
use sp_model::{Call, Connection, Limiter, ListDecl, Pair, Rule, TableDecl};
use sp_value::{Text, Texts};
use sqlite_items::Items;
use std::alloc::Global;

/// A text as values have it.
pub fn text_of(alloc: Global, text: &str) -> Option<Text> {
    Text::from_str(alloc, text).ok()
}

/// The texts between commas; `-` has none.
fn texts_of(alloc: Global, text: &str) -> Option<Texts> {
    let mut texts = Texts::new(alloc);
    if text == "-" {
        return Some(texts);
    }
    for part in text.split(", ") {
        texts.push(text_of(alloc, part)?).ok()?;
    }
    Some(texts)
}

fn pair_of(alloc: Global, text: &str) -> Option<Pair> {
    let (name, value) = text.split_once("=")?;
    let name = text_of(alloc, name)?;
    let value = text_of(alloc, value)?;
    Some(Pair { name, value })
}

/// The pairs between commas; `-` has none.
fn pairs_of(alloc: Global, text: &str) -> Option<Items<Pair>> {
    let mut pairs = Items::new(alloc);
    if text == "-" {
        return Some(pairs);
    }
    for part in text.split(", ") {
        pairs.push(pair_of(alloc, part)?).ok()?;
    }
    Some(pairs)
}

/// The size, fill and time of a bucket, none for `-`.
fn numbers_of(text: &str) -> Option<(Option<u32>, Option<u32>, u32)> {
    if text == "-" {
        return Some((None, None, 1000));
    }
    let (size, more) = text.split_once(" ")?;
    let (fill, per) = more.split_once(" ")?;
    Some((
        Some(size.parse::<u32>().ok()?),
        Some(fill.parse::<u32>().ok()?),
        per.parse::<u32>().ok()?,
    ))
}

/// A bucket, places, a scope and conditions, with ` | ` between them; `-` where there is none.
fn limiter_of(alloc: Global, text: &str) -> Option<Limiter> {
    let (bucket, more) = text.split_once(" | ")?;
    let (places, more) = more.split_once(" | ")?;
    let (scope, conds) = more.split_once(" | ")?;
    let (bucket_size, fill, per) = numbers_of(bucket)?;
    let name = text_of(alloc, "limiter")?;
    let scope = texts_of(alloc, scope)?;
    let conds = pairs_of(alloc, conds)?;
    Some(Limiter {
        name,
        bucket_size,
        fill,
        per,
        max_concurrency: places.parse::<u32>().ok(),
        scope,
        conds,
    })
}

/// Limiters with semicolons between.
pub fn limiters_of(alloc: Global, text: &str) -> Option<Items<Limiter>> {
    let mut limiters = Items::new(alloc);
    for part in text.split("; ") {
        limiters.push(limiter_of(alloc, part)?).ok()?;
    }
    Some(limiters)
}

fn is_limiter(limiter: &Limiter) -> bool
    ensures { result ≡ true → IsLimiter limiter.now }
{
    match (limiter.bucket_size, limiter.fill) {
        (Some(size), Some(fill)) => size > 0 && fill > 0 && limiter.per > 0,
        _ => true,
    }
}

/// Whether the numbers of each bucket are at least 1.
pub fn are_limiters(limiters: &[Limiter]) -> bool
    ensures { result ≡ true → AllByRecursion IsLimiter limiters.now }
{
    let mut rest = limiters;
    'more: while let [limiter, others @ ..] = rest {
        if !is_limiter(limiter) {
            return false;
        }
        rest = others;
    }
    true
}

/// A table with a list by a function.
fn table_with(alloc: Global, name: Text, function: Text) -> TableDecl
    ensures name { result.name ≡ name }
    ensures list { IsSome result.list }
{
    TableDecl {
        name,
        columns: Items::new(alloc),
        list: Some(ListDecl {
            function,
            keys: Items::new(alloc),
            parent: None,
            tags: Items::new(alloc),
            ignore: None,
            retry: None,
        }),
        get: None,
        functions: Items::new(alloc),
        ignore: None,
        retry: None,
        plugin: Rule {
            ignore: None,
            retry: None,
        },
    }
}

fn table_by(alloc: Global, function: &str) -> Option<TableDecl>
    ensures name { IfSome result (λ t. t.name ≡ codes "bucket") }
    ensures list { IfSome result (λ t. IsSome t.list) }
{
    let name = text_of_table(alloc)?;
    let function = text_of(alloc, function)?;
    Some(table_with(alloc, name, function))
}

fn text_of_table(alloc: Global) -> Option<Text>
    ensures { IfSome result (λ t. t ≡ codes "bucket") }
{
    Text::from_str(alloc, "bucket").ok()
}

fn list_call(alloc: Global) -> Option<Call>
    ensures { IfSome result (λ c. c ≡ call.List (codes "bucket") [] None) }
{
    let table = text_of_table(alloc)?;
    Some(Call::List {
        table,
        conditions: Items::new(alloc),
        parent: None,
    })
}

fn connection_of(alloc: Global, name: &str) -> Option<Connection> {
    let name = text_of(alloc, name)?;
    let plugin = text_of(alloc, "plugin")?;
    Some(Connection {
        name,
        plugin,
        command: Texts::new(alloc),
        aggregator: false,
        connections: Texts::new(alloc),
        members: Texts::new(alloc),
    })
}

/// The tags of a list call of a connection by a function.
#[tactic(auto, using(crate::proofs::Tags::has_own))]
pub fn tags_of(alloc: Global, connection: &str, function: &str) -> Option<CallTags> {
    let connection = connection_of(alloc, connection)?;
    let table = table_by(alloc, function)?;
    let call = list_call(alloc)?;
    CallTags::of(alloc, &connection, &table, &call).ok()
}
