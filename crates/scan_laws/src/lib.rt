//! Laws of a scan in progress, for a get, a list and parents, and for any number of rows in flight: what rests of its walk and of
//! its calls after each step. They are mathematics for the crate that runs scans; each is the contract of a function that does
//! nothing.
//!
//! Begin with `specs/States.antt` (where a scan stands) and `specs/Scans.antt` (`Agrees`: how that agrees with what is answered;
//! `HasListed`: which calls were listed); `specs/Steps.antt` has the steps, `specs/Laws.antt` what is proved of each. The
//! definitions of what rests are `specs/Rests.antt` (of the walk), `Reaching.antt` (of the calls that a scan may come to make) and
//! `Using.antt` (of those that its value rests on); `Flights.antt` has the rows in flight.
#![tactic(auto)]

ghost use Rattle.scan_laws.specs.Laws.{ResultIsTheValue, ListedIsWithinReach, UsedIsListed, ScanBegins, InnerIsListed, OuterIsListed, ItemComes, EndingComes, ParentComes, ParentsEnd, ItemGoesIntoFlight, RowGoesOn, RowIsTaken, LimitIsReached, RowFails, InnerIsAccepted, InnerIsAskedAgain, InnerIsRefused, TooManyItems, ChildBegins, OuterIsAccepted, OuterIsAskedAgain, OuterIsRefused, ScanFinishes, ListedIsDetermined, FirstRowWaits, InnerWaits, OuterWaits, FunctionIsListed, FunctionIsAskedAgain, FunctionIsSettled};

/// The result of a scan that agrees with the answers is the scan's value.
pub fn result_is_the_value()
    ensures { ResultIsTheValue }
{}

/// What a scan has listed is within what it may reach, each call counted with its repeats.
pub fn listed_is_within_reach()
    ensures { ListedIsWithinReach }
{}

/// Once a scan is decided, it has listed each call that its value rests on, counted with its repeats.
pub fn used_is_listed()
    ensures { UsedIsListed }
{}

/// A scan that begins agrees with any answers, and has listed nothing.
pub fn scan_begins()
    ensures { ScanBegins }
{}

/// The present attempt of a get, list or child list is listed.
pub fn inner_is_listed()
    ensures { InnerIsListed }
{}

/// The present attempt of the parents call is listed.
pub fn outer_is_listed()
    ensures { OuterIsListed }
{}

/// An item comes.
pub fn item_comes()
    ensures { ItemComes }
{}

/// The ending of a get, list or child list comes.
pub fn ending_comes()
    ensures { EndingComes }
{}

/// A parent item comes.
pub fn parent_comes()
    ensures { ParentComes }
{}

/// The ending of the parents call comes.
pub fn parents_end()
    ensures { ParentsEnd }
{}

/// An item that waits goes into flight.
pub fn item_goes_into_flight()
    ensures { ItemGoesIntoFlight }
{}

/// A row in flight goes on, as a call of it is answered or listed.
pub fn row_goes_on()
    ensures { RowGoesOn }
{}

/// The first row in flight is whole, and is kept or left out.
pub fn row_is_taken()
    ensures { RowIsTaken }
{}

/// The first row in flight is kept and reaches the limit.
pub fn limit_is_reached()
    ensures { LimitIsReached }
{}

/// The first row in flight fails.
pub fn row_fails()
    ensures { RowFails }
{}

/// A get, list or child list is accepted, whatever items are undecided.
pub fn inner_is_accepted()
    ensures { InnerIsAccepted }
{}

/// A get, list or child list is asked again: the rows of the failed attempt are dropped.
pub fn inner_is_asked_again()
    ensures { InnerIsAskedAgain }
{}

/// A get, list or child list fails.
pub fn inner_is_refused()
    ensures { InnerIsRefused }
{}

/// A get gives more than one item.
pub fn too_many_items()
    ensures { TooManyItems }
{}

/// The list of the next parent begins, whatever items are undecided.
pub fn child_begins()
    ensures { ChildBegins }
{}

/// The parents call is accepted, whatever items are undecided.
pub fn outer_is_accepted()
    ensures { OuterIsAccepted }
{}

/// The parents call is asked again: the rows of all its child lists are dropped.
pub fn outer_is_asked_again()
    ensures { OuterIsAskedAgain }
{}

/// The parents call fails.
pub fn outer_is_refused()
    ensures { OuterIsRefused }
{}

/// All items are decided and all calls are accepted.
pub fn scan_finishes()
    ensures { ScanFinishes }
{}

/// What a scan has listed follows from the answers and its state.
pub fn listed_is_determined()
    ensures { ListedIsDetermined }
{}

/// Without a result, where a row is in flight: the first one isn't answered.
pub fn first_row_waits()
    ensures { FirstRowWaits }
{}

/// Without a result, where no item is undecided: the next item or the ending of the inner call isn't answered.
pub fn inner_waits()
    ensures { InnerWaits }
{}

/// Without a result, where no list is open: the next parent or the ending of the parents call isn't answered.
pub fn outer_waits()
    ensures { OuterWaits }
{}

/// The present attempt of a ready function is listed.
pub fn function_is_listed()
    ensures { FunctionIsListed }
{}

/// A function is asked again.
pub fn function_is_asked_again()
    ensures { FunctionIsAskedAgain }
{}

/// A function's call ends with an outcome.
pub fn function_is_settled()
    ensures { FunctionIsSettled }
{}
