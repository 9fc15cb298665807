ghost use Rattle.worked_values.specs.Serving.{CompleteScanServes, FullScanServesUpToItsLimit, SubsetConditionIsServed, NarrowerScanServesNoWider, ExactConditionIsNotServed, GetServesItsOwnConditions, OtherScansServeNot};

/// Kept scans, and what they serve.
pub fn kept_scans()
    ensures complete_scan_serves { CompleteScanServes }
    ensures full_scan_serves_up_to_its_limit { FullScanServesUpToItsLimit }
    ensures subset_condition_is_served { SubsetConditionIsServed }
    ensures narrower_scan_serves_no_wider { NarrowerScanServesNoWider }
    ensures exact_condition_is_not_served { ExactConditionIsNotServed }
    ensures get_serves_its_own_conditions { GetServesItsOwnConditions }
    ensures other_scans_serve_not { OtherScansServeNot }
{}
