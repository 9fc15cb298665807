ghost use Rattle.std.specs.Prelude.{◌≡◌, ◌∷◌, List, Option, Some, None, IfOk, OnOk, OnErr};
ghost use Rattle.sp_value.specs.declared.cell.Cell.{Cell};
ghost use Rattle.sp_model.specs.declared.call.Call.TheVariants as calls;
ghost use Rattle.sp_model.specs.declared.call.CallKey.{CallKey as Key};
ghost use Rattle.scan_core.specs.Advances.{ChildBegins};
ghost use Rattle.scan_core.specs.Courses.{state_of, table_of, IsScope, IsCourse};
ghost use Rattle.scan_core.specs.Next.{HasParent};

use crate::calls::{ItemsCall, OpenCall};
use crate::course::Course;
use crate::scope::ScanScope;
use sp_model::{Call, CallKey, Conditions};
use sp_value::{Cell, Memory, Text, TryCopy};
use sp_world::World;
use std::alloc::Global;

/// What the calls of a list share: its connection, version, table and conditions.
#[derive(Drop)]
pub(crate) struct ListParts {
    connection: Text,
    version: u64,
    table: Text,
    conditions: Conditions,
}

impl ListParts {
    /// Those of a scan.
    pub(crate) fn of(alloc: Global, scope: &ScanScope) -> Result<ListParts, Memory>
        ensures { IfOk result (λ p. (p.connection ≡ scope.now.request.connection) × (p.version ≡ scope.now.version) × (p.table ≡ (table_of scope.now).name) × (p.conditions ≡ scope.now.request.conditions)) }
    {
        Ok(ListParts {
            connection: scope.request.connection.copy(alloc)?,
            version: scope.version,
            table: scope.table.name.copy(alloc)?,
            conditions: scope.request.conditions.copy(alloc)?,
        })
    }

    /// The first attempt of the list, under a parent item where there is one.
    pub(crate) fn key(self, parent: Option<Cell>) -> CallKey
        ensures { result ≡ record { connection = self.connection; version = self.version; call = calls.List self.table self.conditions parent; attempt = 1 } }
    {
        let ListParts {
            connection,
            version,
            table,
            conditions,
        } = self;
        CallKey {
            connection,
            version,
            call: Call::List {
                table,
                conditions,
                parent,
            },
            attempt: 1,
        }
    }
}

impl ListParts {
    /// The first attempt of the get by these conditions.
    pub(crate) fn get_key(self) -> CallKey
        ensures { result ≡ record { connection = self.connection; version = self.version; call = calls.Get self.table self.conditions; attempt = 1 } }
    {
        let ListParts {
            connection,
            version,
            table,
            conditions,
        } = self;
        CallKey {
            connection,
            version,
            call: Call::Get { table, conditions },
            attempt: 1,
        }
    }
}

impl<W: World> Course<W> {
    /// The list of the next parent begins.
    pub(crate) fn begin_list(&mut self, alloc: Global, scope: &ScanScope) -> Result<(), Memory>
        requires form { IsCourse scope.now self.old }
        requires sources { IsScope scope.now }
        requires parent { HasParent (state_of scope.now self.old) }
        requires closed { self.old.items ≡ None }
        ensures state { OnOk result (ChildBegins (table_of scope.now) scope.now.request (state_of scope.now self.old) (state_of scope.now self.new)) }
        ensures form { IsCourse scope.now self.new }
        ensures kept { (self.new.flight ≡ self.old.flight) × (self.new.waiting ≡ self.old.waiting) }
        ensures err { OnErr result (self.new ≡ self.old) }
    {
        let parts = ListParts::of(alloc, scope)?;
        let Some(parents) = &mut self.parents else {
            unreachable!()
        };
        let Some(parent) = parents.next() else {
            unreachable!()
        };
        let generation = self.drawn.saturating_add(1);
        self.items = Some(ItemsCall {
            call: OpenCall::begin(alloc, parts.key(Some(parent)), generation),
            entered: None,
        });
        self.drawn = generation;
        Ok(())
    }
}
