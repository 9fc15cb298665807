//! Laws of the definitions, each named by the contract of a function that does nothing.
ghost use Rattle.sp_model.specs.Laws.{CallHasAtMostItsAttempts, WholeCallIsSettled, IgnoredErrorKeepsItems, HydrationNeedsItsDependencies};
ghost use Rattle.sp_model.specs.PlainList.{PlainListIsItsItems};

/// The scan of a plain table, without conditions, is its items in order, up to the limit.
pub fn plain_list_is_its_items()
    ensures { PlainListIsItsItems }
{}

/// A settled call has at most as many attempts as its rule says.
pub fn call_has_at_most_its_attempts()
    ensures { CallHasAtMostItsAttempts }
{}

/// A call whose replies are whole is settled: nothing waits.
pub fn whole_call_is_settled()
    ensures { WholeCallIsSettled }
{}

/// A walk whose call ends with an ignored error goes on with the items so far.
pub fn ignored_error_keeps_items()
    ensures { IgnoredErrorKeepsItems }
{}

/// What a function gives depends on its own call and on those of the functions that it needs, and on no other.
pub fn hydration_needs_its_dependencies()
    ensures { HydrationNeedsItsDependencies }
{}
