// A law of the definitions, named by the contract of a function that does nothing.
ghost use Rattle.source_scans.specs.Asked.{MadeRequestsAreAsked};

/// A request that is made keeps what the law of kept scans asks of it.
pub fn made_requests_are_asked()
    ensures { MadeRequestsAreAsked }
{}
