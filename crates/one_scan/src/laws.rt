ghost use Rattle.one_scan.specs.Runs.{RunListsWhatIsUsed};

/// What a scan has listed since its beginning stands within what it may reach, each call counted with its repeats; and once the scan is
/// decided, it has listed each call that its value rests on.
pub fn run_lists_what_is_used()
    ensures { RunListsWhatIsUsed }
{}
