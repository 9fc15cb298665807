// Laws of the definitions, each named by the contract of a function that does nothing.

ghost use Rattle.source_run.specs.Laws.{ChosenSourcesAreReady, RequestsOfListsAreAsked};

/// A planned source of a sound table may be scanned: its scans are lawful, and its subset columns only filter.
pub fn chosen_sources_are_ready()
    ensures { ChosenSourcesAreReady }
{}

/// A request that is made of a planned source by its table's list keeps what the law of kept scans asks of a list.
pub fn requests_of_lists_are_asked()
    ensures { RequestsOfListsAreAsked }
{}
