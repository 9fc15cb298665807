use crate::same::Same;
use sp_model::{Pair, Retry, Rule};

impl Same for Pair {
    fn same(&self, other: &Pair) -> bool {
        self.name == other.name && self.value == other.value
    }
}

impl Same for Retry {
    fn same(&self, other: &Retry) -> bool {
        self.patterns.same(&other.patterns)
            && self.attempts == other.attempts
            && self.backoff == other.backoff
            && self.interval == other.interval
            && self.cap == other.cap
    }
}

impl Same for Rule {
    fn same(&self, other: &Rule) -> bool {
        self.ignore.same(&other.ignore) && self.retry.same(&other.retry)
    }
}
