// A law of the definitions, named by the contract of a function that does nothing.

ghost use Rattle.scan_run.specs.Laws.{ScansOfListsAreAsked};

/// A scan that may be made of a list's table keeps what the law of kept scans asks of a list.
pub fn scans_of_lists_are_asked()
    ensures { ScansOfListsAreAsked }
{}
