ghost use Rattle.worked_values.specs.Pieces.{IgnoredIsTaken, ThirdIsTaken, FourthIsTooLate, WithoutEndingItWaits, OwnRuleCounts, DelaysGrow, DelayIsAtMostTheCap, PolicyNeedsAcl, PolicyFailsAsAcl, FunctionsInACircleNeverEnd, MissingFieldIsNull, OtherKindIsBad, FailedAttemptIsDropped, GetGivesOne};

/// Calls with their rules, attempts and delays.
pub fn calls()
    ensures ignored_is_taken { IgnoredIsTaken }
    ensures third_is_taken { ThirdIsTaken }
    ensures fourth_is_too_late { FourthIsTooLate }
    ensures without_ending_it_waits { WithoutEndingItWaits }
    ensures own_rule_counts { OwnRuleCounts }
    ensures delays_grow { DelaysGrow }
    ensures delay_is_at_most_the_cap { DelayIsAtMostTheCap }
{}

/// Functions that need others, rows and walks.
pub fn rows()
    ensures policy_needs_acl { PolicyNeedsAcl }
    ensures policy_fails_as_acl { PolicyFailsAsAcl }
    ensures functions_in_a_circle_never_end { FunctionsInACircleNeverEnd }
    ensures missing_field_is_null { MissingFieldIsNull }
    ensures other_kind_is_bad { OtherKindIsBad }
    ensures failed_attempt_is_dropped { FailedAttemptIsDropped }
    ensures get_gives_one { GetGivesOne }
{}
