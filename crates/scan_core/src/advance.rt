ghost use Rattle.std.specs.Prelude.{◌≡◌, Option, None, OnOk, OnErr};
ghost use Rattle.scan_core.specs.Advances.{Step, Advances};
ghost use Rattle.scan_core.specs.Courses.{state_of, table_of, IsScope, IsCourse};
ghost use Rattle.scan_core.specs.Going.{GoesOn};
ghost use Rattle.scan_core.specs.Next.{IsNext, IsStill};
ghost use Rattle.scan_core.specs.declared.step.NextStep.TheVariants as steps;

use crate::course::Course;
use crate::scope::ScanScope;
use crate::step::NextStep;
use sp_value::Memory;
use sp_world::World;
use std::alloc::Global;

impl<W: World> Course<W> {
    /// Takes the next step.
    #[tactic(auto, using(crate::proofs::Going::goes_kept))]
    fn go(&mut self, alloc: Global, scope: &ScanScope, step: NextStep) -> Result<(), Memory>
        requires form { IsCourse scope.now self.old }
        requires sources { IsScope scope.now }
        requires going { self.old.end ≡ None }
        requires next { IsNext (table_of scope.now) scope.now.request scope.now.window (state_of scope.now self.old) step }
        requires on { step ≡ steps.Wait → ⊥ }
        ensures state { OnOk result (Step (table_of scope.now) scope.now.request scope.now.window (state_of scope.now self.old) (state_of scope.now self.new)) }
        ensures form { IsCourse scope.now self.new }
        ensures goes { GoesOn self.old self.new }
        ensures err { OnErr result (state_of scope.now self.new ≡ state_of scope.now self.old) }
    {
        match step {
            NextStep::Decide => self.decide(alloc, scope),
            NextStep::Fill => self.fill(alloc, scope),
            NextStep::AcceptItems => {
                self.accept_items(scope);
                Ok(())
            }
            NextStep::AskItems { delay } => self.ask_items(alloc, scope, delay),
            NextStep::RefuseItems => self.refuse_items(alloc, scope),
            NextStep::TooManyItems => self.refuse_many(alloc, scope),
            NextStep::BeginList => self.begin_list(alloc, scope),
            NextStep::AcceptParents => {
                self.accept_parents(scope);
                Ok(())
            }
            NextStep::AskParents { delay } => self.ask_parents(alloc, scope, delay),
            NextStep::RefuseParents => self.refuse_parents(alloc, scope),
            NextStep::Finish => {
                self.finish(scope);
                Ok(())
            }
            NextStep::Wait => Ok(()),
        }
    }

    /// Goes on until the scan is decided or waits for a piece. After want of memory some steps may have been taken.
    pub(crate) fn advance(&mut self, alloc: Global, scope: &ScanScope) -> Result<(), Memory>
        requires form { IsCourse scope.now self.old }
        requires sources { IsScope scope.now }
        ensures form { IsCourse scope.now self.new }
        ensures advances { Advances (table_of scope.now) scope.now.request scope.now.window (state_of scope.now self.old) (state_of scope.now self.new) }
        // Its rows stay as they are, but for those that left and those of items that waited.
        ensures goes { GoesOn self.old self.new }
        ensures still { OnOk result (self.new.end ≡ None → IsStill (table_of scope.now) scope.now.request scope.now.window (state_of scope.now self.new)) }
    {
        'steps: while self.end.is_none() {
            let step = self.next_step(scope);
            if let NextStep::Wait = step {
                return Ok(());
            }
            let Ok(()) = self.go(alloc, scope, step) else {
                return Err(Memory);
            };
        }
        Ok(())
    }
}
