ghost use Rattle.std.specs.Prelude.{◌≡◌, ◌<◌, ◌&&◌, ◌∷◌, [], Bool, true, ℕ, List, suc, nat_lt, Option, Some, None, IfOk, OnOk, OnErr};
ghost use Rattle.sp_model.specs.Settling.{Accept, Refuse, judged};
ghost use Rattle.sp_model.specs.declared.call.Ending.{Ending as End};
ghost use Rattle.sp_model.specs.declared.scan.Cause.TheVariants as causes;
ghost use Rattle.scan_core.specs.Advances.{InnerEnds, OuterEnds, AllDecided};
ghost use Rattle.scan_core.specs.Courses.{state_of, table_of, IsScope, IsCourse};
ghost use Rattle.scan_core.specs.Next.{InnerSays, OuterSays, outer_source};

use crate::calls::OpenCall;
use crate::course::Course;
use crate::scope::{CallSource, ScanScope};
use sp_model::{Cause, Ending};
use sp_value::{Memory, TryCopy};
use sp_world::World;
use std::alloc::Global;

/// Why a call fails whose ending is an error.
fn refusal<W: World>(
    alloc: Global,
    source: &CallSource,
    call: &OpenCall<W>,
) -> Result<Cause, Memory>
    requires { (e : End) × (text : List ℕ) × (call.now.stream.ending ≡ Some e) × (judged source.now.rule call.now.stream.call.attempt (Some e) ≡ Refuse text) }
    ensures { IfOk result (λ cause. (e : End) (text : List ℕ) → call.now.stream.ending ≡ Some e → judged source.now.rule call.now.stream.call.attempt (Some e) ≡ Refuse text → cause ≡ causes.Error source.now.function call.now.stream.call.attempt text) }
{
    match call.stream.ended() {
        Some(Ending::Error(text)) => {
            let function = source.function.copy(alloc)?;
            let text = text.copy(alloc)?;
            Ok(Cause::Error {
                function,
                attempt: call.stream.call().attempt,
                text,
            })
        }
        _ => unreachable!(),
    }
}

impl<W: World> Course<W> {
    /// The get, list or child list fails, once all items are decided.
    pub(crate) fn refuse_items(&mut self, alloc: Global, scope: &ScanScope) -> Result<(), Memory>
        requires form { IsCourse scope.now self.old }
        requires refused { (many : Bool) × (text : List ℕ) × InnerSays (state_of scope.now self.old) (Refuse text) many × AllDecided (state_of scope.now self.old) }
        ensures state { OnOk result (InnerEnds (state_of scope.now self.old) (state_of scope.now self.new)) }
        ensures form { IsCourse scope.now self.new }
        ensures kept { (self.new.flight ≡ self.old.flight) × (self.new.waiting ≡ self.old.waiting) }
        ensures err { OnErr result (self.new ≡ self.old) }
    {
        let Some(items) = &self.items else {
            unreachable!()
        };
        let Ok(cause) = refusal(alloc, &scope.items, &items.call) else {
            return Err(Memory);
        };
        let Ok(()) = self.fail(scope, cause) else {
            return Err(Memory);
        };
        Ok(())
    }

    /// The get gave more than one item.
    pub(crate) fn refuse_many(&mut self, alloc: Global, scope: &ScanScope) -> Result<(), Memory>
        requires form { IsCourse scope.now self.old }
        requires refused { InnerSays (state_of scope.now self.old) Accept true × AllDecided (state_of scope.now self.old) }
        ensures state { OnOk result (InnerEnds (state_of scope.now self.old) (state_of scope.now self.new)) }
        ensures form { IsCourse scope.now self.new }
        ensures kept { (self.new.flight ≡ self.old.flight) × (self.new.waiting ≡ self.old.waiting) }
        ensures err { OnErr result (self.new ≡ self.old) }
    {
        let Some(items) = &self.items else {
            unreachable!()
        };
        let count = items.call.taken;
        let Ok(function) = scope.items.function.copy(alloc) else {
            return Err(Memory);
        };
        let Ok(()) = self.fail(scope, Cause::TooMany { function, count }) else {
            return Err(Memory);
        };
        Ok(())
    }

    /// The parents call fails, once all items are decided.
    pub(crate) fn refuse_parents(&mut self, alloc: Global, scope: &ScanScope) -> Result<(), Memory>
        requires form { IsCourse scope.now self.old }
        requires sources { IsScope scope.now }
        requires refused { (text : List ℕ) × OuterSays (outer_source (table_of scope.now)) (state_of scope.now self.old) (Refuse text) × ((state_of scope.now self.old).first ≡ []) }
        ensures state { OnOk result (OuterEnds (table_of scope.now) (state_of scope.now self.old) (state_of scope.now self.new)) }
        ensures form { IsCourse scope.now self.new }
        ensures kept { (self.new.flight ≡ self.old.flight) × (self.new.waiting ≡ self.old.waiting) }
        ensures err { OnErr result (self.new ≡ self.old) }
    {
        let Some(parents) = &self.parents else {
            unreachable!()
        };
        let Ok(cause) = refusal(alloc, &scope.parents, &parents.call) else {
            return Err(Memory);
        };
        let Ok(()) = self.fail(scope, cause) else {
            return Err(Memory);
        };
        Ok(())
    }
}
