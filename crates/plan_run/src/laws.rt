// A law of the definitions, named by the contract of a function that does nothing.
ghost use Rattle.plan_run.specs.Laws.{PlannedSourcesAreReady};

/// The planned sources of a statement over sound tables may be scanned.
pub fn planned_sources_are_ready()
    ensures { PlannedSourcesAreReady }
{}
