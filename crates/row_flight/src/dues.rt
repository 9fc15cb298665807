ghost use Rattle.std.specs.Prelude.{◌≡◌, true};
ghost use Rattle.hydrate_graph.specs.Graphs.{is_ready};
ghost use Rattle.row_flight.specs.Dues.{sooner, tick_of, row_due};
ghost use Rattle.row_flight.specs.Rows.{IsRow};

use crate::row::RowCalls;
use hydrate_graph::ReadyList;

/// The smaller of two ticks, where there are two.
pub fn sooner(left: Option<u64>, right: Option<u64>) -> Option<u64>
    ensures { result ≡ sooner left right }
{
    match (left, right) {
        (Some(left), Some(right)) => Some(left.min(right)),
        (None, right) => right,
        (left, None) => left,
    }
}

impl RowCalls {
    /// The tick for which the call of a function that is ready waits.
    fn waits_until(&self, function: u32) -> Option<u64>
        requires row { IsRow self.now }
        requires ready { is_ready self.now.graph function ≡ true }
        ensures { result ≡ tick_of self.now function }
    {
        let attempt = self.attempt(function);
        if attempt.tries > 0 && attempt.next == 0 {
            Some(attempt.due)
        } else {
            None
        }
    }

    /// The least tick for which a call of the row waits.
    pub(crate) fn due(&self) -> Option<u64>
        requires { IsRow self.now }
        ensures { result ≡ row_due self.now }
    {
        let mut ready = ReadyList::new();
        self.graph.ready(&mut ready);
        let mut least = None;
        for function in ready.as_slice() {
            least = sooner(least, self.waits_until(*function));
        }
        least
    }
}
