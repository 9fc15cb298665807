ghost use Rattle.std.specs.Prelude.{◌≡◌, ◌≤◌, [], None, IfOk};
ghost use Rattle.std.specs.Arc.{arc_value};
ghost use Rattle.sp_model.specs.Walk.{start};
ghost use Rattle.sp_model.specs.RowOf.{columns_named};
ghost use Rattle.hydrate_graph.specs.Graphs.{rules_in};
ghost use Rattle.sp_model.specs.declared.call.Call.TheVariants as calls;
ghost use Rattle.scan_laws.specs.Steps.{begin_of};
ghost use Rattle.scan_core.specs.Courses.{state_of, table_of, IsScope, IsCourse};

use crate::calls::{ItemsCall, OpenCall, ParentsCall};
use crate::course::Course;
use crate::lists::ListParts;
use crate::scope::ScanScope;
use hydrate_graph::RowPlan;
use row_flight::{CallFrame, Flight};
use sp_model::{Access, Call, CallKey, WalkState};
use sp_value::{Memory, Rows, TryCopy};
use sp_world::World;
use std::alloc::Global;
use std::collections::VecDeque;
use std::sync::Arc;

/// The parents call of a scan, in its first attempt.
fn parents_key(alloc: Global, scope: &ScanScope) -> Result<CallKey, Memory>
    ensures { IfOk result (λ k. k ≡ record { connection = scope.now.request.connection; version = scope.now.version; call = calls.Parents (table_of scope.now).name; attempt = 1 }) }
{
    let connection = scope.request.connection.copy(alloc)?;
    let table = scope.table.name.copy(alloc)?;
    Ok(CallKey {
        connection,
        version: scope.version,
        call: Call::Parents { table },
        attempt: 1,
    })
}

impl<W: World> Course<W> {
    /// A scan with these calls, of which nothing came.
    fn with(
        alloc: Global,
        flight: Flight,
        parents: Option<ParentsCall<W>>,
        items: Option<ItemsCall<W>>,
    ) -> Course<W>
        ensures parents { result.parents ≡ parents }
        ensures items { result.items ≡ items }
        ensures flight { result.flight ≡ flight }
        ensures rest { (result.before ≡ 0) × (result.waiting.items ≡ []) × (result.walk ≡ start) × (result.end ≡ None) }
    {
        Course {
            parents,
            items,
            before: 0,
            flight,
            waiting: VecDeque::new(alloc),
            walk: WalkState {
                rows: Rows::new(alloc),
                items: 0,
                steady: true,
            },
            end: None,
            drawn: 1,
        }
    }

    /// A scan of which nothing is listed and nothing came. All slots of its rows are taken here.
    pub fn begin(alloc: Global, scope: &ScanScope, plan: Arc<RowPlan>) -> Result<Course<W>, Memory>
        requires sources { IsScope scope.now }
        requires window { scope.now.window ≤ 4096 }
        requires functions { (arc_value plan).functions ≡ (table_of scope.now).functions }
        requires rules { (arc_value plan).rules ≡ rules_in (table_of scope.now) (table_of scope.now).functions }
        requires columns { (arc_value plan).columns ≡ columns_named scope.now.request.columns (table_of scope.now).columns }
        ensures state { IfOk result (λ c. state_of scope.now c ≡ begin_of (table_of scope.now) scope.now.request) }
        ensures form { IfOk result (IsCourse scope.now) }
        ensures flight { IfOk result (λ c. c.flight ≡ record { plan = arc_value plan; frame = record { connection = scope.now.request.connection; version = scope.now.version; table = (table_of scope.now).name }; window = scope.now.window; rows = [] }) }
        ensures end { IfOk result (λ c. c.end ≡ None) }
    {
        let frame = CallFrame {
            connection: scope.request.connection.copy(alloc)?,
            version: scope.version,
            table: scope.table.name.copy(alloc)?,
        };
        let flight = Flight::begin(alloc, plan, frame, scope.window)?;
        match scope.request.access {
            Access::Get => {
                let key = ListParts::of(alloc, scope)?.get_key();
                let call = OpenCall::begin(alloc, key, 1);
                Ok(Course::with(
                    alloc,
                    flight,
                    None,
                    Some(ItemsCall {
                        call,
                        entered: None,
                    }),
                ))
            }
            Access::List => {
                let key = ListParts::of(alloc, scope)?.key(None);
                let call = OpenCall::begin(alloc, key, 1);
                Ok(Course::with(
                    alloc,
                    flight,
                    None,
                    Some(ItemsCall {
                        call,
                        entered: None,
                    }),
                ))
            }
            Access::Parents => {
                let key = parents_key(alloc, scope)?;
                let call = OpenCall::begin(alloc, key, 1);
                let waiting = VecDeque::new(alloc);
                Ok(Course::with(alloc, flight, Some(ParentsCall { call, waiting }), None))
            }
        }
    }
}
