use sp_value::{Memory, Text, Texts, TryCopy};
use sqlite_items::Items;
use std::alloc::Global;

/// The options of a run. `cache_ttl` is ticks.
#[derive(Clone, Copy, Debug, PartialEq, Eq)]
pub struct Options {
    pub cache: bool,
    pub cache_ttl: u64,
    pub cache_max: u32,
    pub window: u32,
    pub restarts: u32,
}

/// A plain connection, with the command of its child, or an aggregator, with its patterns and the names of its members in the order of the settings.
#[derive(Drop)]
pub struct Connection {
    pub name: Text,
    pub plugin: Text,
    pub command: Texts,
    pub aggregator: bool,
    pub connections: Texts,
    pub members: Texts,
}

impl TryCopy for Connection {
    fn copy(&self, alloc: Global) -> Result<Connection, Memory> {
        Ok(Connection {
            name: self.name.copy(alloc)?,
            plugin: self.plugin.copy(alloc)?,
            command: self.command.copy(alloc)?,
            aggregator: self.aggregator,
            connections: self.connections.copy(alloc)?,
            members: self.members.copy(alloc)?,
        })
    }
}

/// A name and a value: a tag that limiters see of a call, or the value that a limiter wants for a name.
#[derive(Drop)]
pub struct Pair {
    pub name: Text,
    pub value: Text,
}

impl TryCopy for Pair {
    fn copy(&self, alloc: Global) -> Result<Pair, Memory> {
        Ok(Pair {
            name: self.name.copy(alloc)?,
            value: self.value.copy(alloc)?,
        })
    }
}

/// A limiter: a bucket of tokens, of which `fill` come every `per` ticks, a greatest number of open calls, or both.
#[derive(Drop)]
pub struct Limiter {
    pub name: Text,
    pub bucket_size: Option<u32>,
    pub fill: Option<u32>,
    pub per: u32,
    pub max_concurrency: Option<u32>,
    pub scope: Texts,
    pub conds: Items<Pair>,
}

impl TryCopy for Limiter {
    fn copy(&self, alloc: Global) -> Result<Limiter, Memory> {
        Ok(Limiter {
            name: self.name.copy(alloc)?,
            bucket_size: self.bucket_size,
            fill: self.fill,
            per: self.per,
            max_concurrency: self.max_concurrency,
            scope: self.scope.copy(alloc)?,
            conds: self.conds.copy(alloc)?,
        })
    }
}

/// The settings of a run, with defaults put in.
#[derive(Drop)]
pub struct Settings {
    pub options: Options,
    pub connections: Items<Connection>,
    pub limiters: Items<Limiter>,
}

impl TryCopy for Settings {
    fn copy(&self, alloc: Global) -> Result<Settings, Memory> {
        Ok(Settings {
            options: self.options,
            connections: self.connections.copy(alloc)?,
            limiters: self.limiters.copy(alloc)?,
        })
    }
}
