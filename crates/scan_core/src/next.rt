ghost use Rattle.std.specs.Prelude.{◌≡◌, ◌+◌, true, false, [], length, Option, Some, None};
ghost use Rattle.sp_model.specs.Settling.{judged};
ghost use Rattle.retry_ignore.specs.Verdicts.{verdict_of};
ghost use Rattle.sp_model.specs.declared.call.Ending.{Ending};
ghost use Rattle.scan_core.specs.Calls.{source_of, inner_of};
ghost use Rattle.scan_core.specs.Courses.{undecided, state_of, table_of, IsScope, IsCourse};
ghost use Rattle.scan_core.specs.Next.{FirstIsDecided, HasItem, IsItemsNext, IsParentsNext, IsNext};

use crate::calls::{ItemsCall, ParentsCall};
use crate::course::Course;
use crate::scope::ScanScope;
use crate::step::NextStep;
use crate::verdicts::verdict_on;
use retry_ignore::Verdict;
use sp_world::World;

impl<W: World> Course<W> {
    /// How many items came that aren't decided.
    pub(crate) fn undecided_len(&self, scope: &ScanScope) -> usize
        requires { IsCourse scope.now self.now }
        ensures { result ≡ length (undecided self.now) }
    {
        self.flight.len() + self.waiting.len()
    }

    fn first_is_decided(&self, scope: &ScanScope) -> bool
        requires { IsCourse scope.now self.now }
        ensures yes { result ≡ true → FirstIsDecided (table_of scope.now) scope.now.request (state_of scope.now self.now) }
        ensures no { result ≡ false → FirstIsDecided (table_of scope.now) scope.now.request (state_of scope.now self.now) → ⊥ }
    {
        match self.flight.first() {
            Some(row) => row.finished().is_some(),
            None => false,
        }
    }

    fn has_item(&self, scope: &ScanScope) -> bool
        requires { IsCourse scope.now self.now }
        ensures yes { result ≡ true → HasItem scope.now.window (state_of scope.now self.now) }
        ensures no { result ≡ false → HasItem scope.now.window (state_of scope.now self.now) → ⊥ }
    {
        !self.waiting.is_empty() && self.flight.len() < scope.window as usize
    }

    /// How the scan goes on by the ending of the get, list or child list, if that came.
    fn items_step(&self, scope: &ScanScope, call: &ItemsCall<W>) -> NextStep
        requires form { IsCourse scope.now self.now }
        requires is { self.now.items ≡ Some call.now }
        ensures { IsItemsNext (state_of scope.now self.now) result }
    {
        let Some(ending) = call.call.stream.ended() else {
            return NextStep::Wait;
        };
        let verdict = verdict_on(&scope.items.rule, call.call.stream.call().attempt, ending);
        self.items_end(scope, call, verdict)
    }

    fn items_end(&self, scope: &ScanScope, call: &ItemsCall<W>, verdict: Verdict) -> NextStep
        requires form { IsCourse scope.now self.now }
        requires is { self.now.items ≡ Some call.now }
        requires verdict { (e : Ending) × (call.now.call.stream.ending ≡ Some e) × (verdict ≡ verdict_of scope.now.items.rule call.now.call.stream.call.attempt (judged scope.now.items.rule call.now.call.stream.call.attempt (Some e))) }
        ensures { IsItemsNext (state_of scope.now self.now) result }
    {
        let undecided = self.undecided_len(scope);
        let count = call
            .call
            .taken
            .saturating_add((undecided - self.before) as u64);
        let many = scope.items.single && 1 < count;
        match verdict {
            Verdict::Ignore if !many => NextStep::AcceptItems,
            _ if undecided > 0 => NextStep::Wait,
            Verdict::Ignore => NextStep::TooManyItems,
            Verdict::Again { delay } => NextStep::AskItems { delay },
            Verdict::Fail => NextStep::RefuseItems,
        }
    }

    /// How the scan goes on where no list is open.
    fn parents_step(&self, scope: &ScanScope) -> NextStep
        requires form { IsCourse scope.now self.now }
        requires sources { IsScope scope.now }
        requires closed { self.now.items ≡ None }
        ensures { IsParentsNext (table_of scope.now) scope.now.request (state_of scope.now self.now) result }
    {
        let Some(parents) = &self.parents else {
            if self.undecided_len(scope) > 0 {
                return NextStep::Wait;
            }
            return NextStep::Finish;
        };
        if !parents.waiting.is_empty() {
            return NextStep::BeginList;
        }
        let Some(ending) = parents.call.stream.ended() else {
            return NextStep::Wait;
        };
        let verdict = verdict_on(
            &scope.parents.rule,
            parents.call.stream.call().attempt,
            ending,
        );
        self.parents_end(scope, parents, verdict)
    }

    fn parents_end(&self, scope: &ScanScope, parents: &ParentsCall<W>, verdict: Verdict) -> NextStep
        requires form { IsCourse scope.now self.now }
        requires sources { IsScope scope.now }
        requires closed { self.now.items ≡ None }
        requires is { self.now.parents ≡ Some parents.now }
        requires walked { parents.now.waiting.items ≡ [] }
        requires verdict { (e : Ending) × (parents.now.call.stream.ending ≡ Some e) × (verdict ≡ verdict_of scope.now.parents.rule parents.now.call.stream.call.attempt (judged scope.now.parents.rule parents.now.call.stream.call.attempt (Some e))) }
        ensures { IsParentsNext (table_of scope.now) scope.now.request (state_of scope.now self.now) result }
    {
        let undecided = self.undecided_len(scope);
        match verdict {
            Verdict::Ignore => NextStep::AcceptParents,
            Verdict::Again { delay } if undecided == 0 => NextStep::AskParents { delay },
            Verdict::Fail if undecided == 0 => NextStep::RefuseParents,
            _ => NextStep::Wait,
        }
    }

    /// How the scan goes on next.
    pub(crate) fn next_step(&self, scope: &ScanScope) -> NextStep
        requires form { IsCourse scope.now self.now }
        requires sources { IsScope scope.now }
        ensures { IsNext (table_of scope.now) scope.now.request scope.now.window (state_of scope.now self.now) result }
    {
        if self.first_is_decided(scope) {
            return NextStep::Decide;
        }
        if self.has_item(scope) {
            return NextStep::Fill;
        }
        match &self.items {
            Some(call) => self.items_step(scope, call),
            None => self.parents_step(scope),
        }
    }
}
