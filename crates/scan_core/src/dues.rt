ghost use Rattle.std.specs.Prelude.{◌≡◌, ◌↔◌, ◌<◌, ◌^◌, ◌==◌, true, Option, Some, None};
ghost use Rattle.scan_core.specs.Courses.{IsCourse};
ghost use Rattle.scan_core.specs.Dues.{call_due, asked_due, course_due};

use crate::calls::OpenCall;
use crate::course::Course;
use crate::scope::ScanScope;
use row_flight::sooner;
use sp_world::World;

impl<W: World> OpenCall<W> {
    /// The tick for which the call waits, where so many items of the present attempt came.
    fn due_after(&self, came: u64) -> Option<u64>
        requires { came ≡ self.now.stream.have }
        ensures { result ≡ call_due self.now }
    {
        if self.stream.call().attempt > 1 && came == 0 && self.stream.ended().is_none() {
            return Some(self.due);
        }
        None
    }
}

impl<W: World> Course<W> {
    /// The tick for which the call waits whose items are asked for.
    fn asked_due(&self, scope: &ScanScope) -> Option<u64>
        requires { IsCourse scope.now self.now }
        ensures { result ≡ asked_due self.now.items self.now.parents }
    {
        if let Some(items) = &self.items {
            let undecided = self.undecided_len(scope);
            return items
                .call
                .due_after(items.call.taken + (undecided - self.before) as u64);
        }
        match &self.parents {
            Some(parents) => {
                let waiting = parents.waiting.len() as u64;
                parents.call.due_after(parents.call.taken + waiting)
            }
            None => None,
        }
    }

    /// The least tick for which a call waits: one that was asked again, and of which no piece came since. There is none once the scan
    /// is decided.
    pub fn due(&self, scope: &ScanScope) -> Option<u64>
        requires { IsCourse scope.now self.now }
        ensures { result ≡ course_due self.now }
    {
        if self.end.is_some() {
            return None;
        }
        sooner(self.asked_due(scope), self.flight.due())
    }
}
