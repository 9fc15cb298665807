use sp_model::{Connection, Pair};
use sp_value::{Text, Texts};
use sqlite_items::Items;

/// What a settings document says, with defaults put in, before names are compared and numbers and lists are measured.
#[derive(Drop)]
pub struct Written {
    pub options: WrittenOptions,
    pub connections: Items<Connection>,
    pub limiters: Items<WrittenLimiter>,
}

/// Options with numbers of any size.
#[derive(Clone, Copy)]
pub struct WrittenOptions {
    pub cache: bool,
    pub cache_ttl: i64,
    pub cache_max: i64,
    pub window: i64,
    pub restarts: i64,
}

/// What stands in a settings file without options.
pub const DEFAULT_OPTIONS: WrittenOptions = WrittenOptions {
    cache: true,
    cache_ttl: 300_000,
    cache_max: 64,
    window: 256,
    restarts: 3,
};

/// The numbers of a limiter, of any size.
#[derive(Clone, Copy)]
pub struct WrittenRates {
    pub bucket_size: Option<i64>,
    pub fill: Option<i64>,
    pub per: Option<i64>,
    pub max_concurrency: Option<i64>,
}

/// A limiter with numbers of any size and lists of any length.
#[derive(Drop)]
pub struct WrittenLimiter {
    pub name: Text,
    pub rates: WrittenRates,
    pub scope: Texts,
    pub conds: Items<Pair>,
}
