use sp_value::{Cell, Cells, Members, Memory, Op, Text, TryCopy};
use sqlite_items::Items;
use std::alloc::Global;

/// A condition on a column: its value stands in this relation to a value.
#[derive(Drop)]
pub struct Condition {
    pub column: Text,
    pub operator: Op,
    pub value: Cell,
}

/// A list of conditions.
pub type Conditions = Items<Condition>;

impl TryCopy for Condition {
    fn copy(&self, alloc: Global) -> Result<Condition, Memory> {
        Ok(Condition {
            column: self.column.copy(alloc)?,
            operator: self.operator,
            value: self.value.copy(alloc)?,
        })
    }
}

/// What is called: the rows of a table, the parent items of its rows, one row by its keys, or a function of a row.
#[derive(Drop)]
pub enum Call {
    List {
        table: Text,
        conditions: Conditions,
        parent: Option<Cell>,
    },
    Parents {
        table: Text,
    },
    Get {
        table: Text,
        conditions: Conditions,
    },
    Hydrate {
        table: Text,
        function: Text,
        item: Cell,
        results: Members,
    },
}

impl TryCopy for Call {
    fn copy(&self, alloc: Global) -> Result<Call, Memory> {
        match self {
            Call::List {
                table,
                conditions,
                parent,
            } => Ok(Call::List {
                table: table.copy(alloc)?,
                conditions: conditions.copy(alloc)?,
                parent: parent.copy(alloc)?,
            }),
            Call::Parents { table } => Ok(Call::Parents {
                table: table.copy(alloc)?,
            }),
            Call::Get { table, conditions } => Ok(Call::Get {
                table: table.copy(alloc)?,
                conditions: conditions.copy(alloc)?,
            }),
            Call::Hydrate {
                table,
                function,
                item,
                results,
            } => Ok(Call::Hydrate {
                table: table.copy(alloc)?,
                function: function.copy(alloc)?,
                item: item.copy(alloc)?,
                results: results.copy(alloc)?,
            }),
        }
    }
}

/// A call of a connection at a data version. Attempts count from 1.
#[derive(Drop)]
pub struct CallKey {
    pub connection: Text,
    pub version: u64,
    pub call: Call,
    pub attempt: u32,
}

impl TryCopy for CallKey {
    fn copy(&self, alloc: Global) -> Result<CallKey, Memory> {
        Ok(CallKey {
            connection: self.connection.copy(alloc)?,
            version: self.version,
            call: self.call.copy(alloc)?,
            attempt: self.attempt,
        })
    }
}

/// How a reply ends.
#[derive(Drop)]
pub enum Ending {
    End,
    Error(Text),
}

impl TryCopy for Ending {
    fn copy(&self, alloc: Global) -> Result<Ending, Memory> {
        match self {
            Ending::End => Ok(Ending::End),
            Ending::Error(text) => Ok(Ending::Error(text.copy(alloc)?)),
        }
    }
}

/// A whole reply to a call.
#[derive(Drop)]
pub struct Reply {
    pub items: Cells,
    pub ending: Ending,
}

impl TryCopy for Reply {
    fn copy(&self, alloc: Global) -> Result<Reply, Memory> {
        Ok(Reply {
            items: self.items.copy(alloc)?,
            ending: self.ending.copy(alloc)?,
        })
    }
}

/// A part of a reply: the item at a place, from 0, or its ending after a count of items.
#[derive(Drop)]
pub enum Piece {
    Item { place: u64, item: Cell },
    Ending { count: u64, ending: Ending },
}

impl TryCopy for Piece {
    fn copy(&self, alloc: Global) -> Result<Piece, Memory> {
        match self {
            Piece::Item { place, item } => Ok(Piece::Item {
                place: *place,
                item: item.copy(alloc)?,
            }),
            Piece::Ending { count, ending } => Ok(Piece::Ending {
                count: *count,
                ending: ending.copy(alloc)?,
            }),
        }
    }
}

/// A data version, or why there is none.
#[derive(Drop)]
pub enum Version {
    Is(u64),
    Bad(Text),
}

impl TryCopy for Version {
    fn copy(&self, alloc: Global) -> Result<Version, Memory> {
        match self {
            Version::Is(number) => Ok(Version::Is(*number)),
            Version::Bad(text) => Ok(Version::Bad(text.copy(alloc)?)),
        }
    }
}

/// What a child is asked: a call, the version of a connection at a tick, or its declaration.
#[derive(Drop)]
pub enum Asked {
    Call(CallKey),
    Version { connection: Text, tick: u64 },
    Declare { connection: Text },
}

impl TryCopy for Asked {
    fn copy(&self, alloc: Global) -> Result<Asked, Memory> {
        match self {
            Asked::Call(key) => Ok(Asked::Call(key.copy(alloc)?)),
            Asked::Version { connection, tick } => Ok(Asked::Version {
                connection: connection.copy(alloc)?,
                tick: *tick,
            }),
            Asked::Declare { connection } => Ok(Asked::Declare {
                connection: connection.copy(alloc)?,
            }),
        }
    }
}
