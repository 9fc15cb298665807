ghost use Rattle.worked_values.specs.Buckets.{ListGivesItsItems, LimitFillsTheWalk, UnknownAnswerWaits, IgnoredListIsTaken, ThrottledListIsAskedAgain, DroppedRowsAreUsed, LimitComesBeforeTheEnding, OtherErrorFailsAfterTheItems, AclOfNoItemIsNull, PolicyIsCalledWithTheAcl, FirstFailingRowCounts, PolicyFailsWithItsAcl, FirstFailingColumnCounts, ThirdAttemptIsTaken, ThirdAttemptIsTheLast, TwoAclsAreTooMany, NameOfOtherKindIsBad};

/// Lists that end, are ignored, are asked again or fail.
pub fn lists_of_buckets()
    ensures list_gives_its_items { ListGivesItsItems }
    ensures limit_fills_the_walk { LimitFillsTheWalk }
    ensures unknown_answer_waits { UnknownAnswerWaits }
    ensures ignored_list_is_taken { IgnoredListIsTaken }
    ensures throttled_list_is_asked_again { ThrottledListIsAskedAgain }
    ensures dropped_rows_are_used { DroppedRowsAreUsed }
    ensures limit_comes_before_the_ending { LimitComesBeforeTheEnding }
    ensures other_error_fails_after_the_items { OtherErrorFailsAfterTheItems }
{}

/// Functions that need others, are asked again or fail.
pub fn functions_of_buckets()
    ensures acl_of_no_item_is_null { AclOfNoItemIsNull }
    ensures policy_is_called_with_the_acl { PolicyIsCalledWithTheAcl }
    ensures first_failing_row_counts { FirstFailingRowCounts }
    ensures policy_fails_with_its_acl { PolicyFailsWithItsAcl }
    ensures first_failing_column_counts { FirstFailingColumnCounts }
    ensures third_attempt_is_taken { ThirdAttemptIsTaken }
    ensures third_attempt_is_the_last { ThirdAttemptIsTheLast }
    ensures two_acls_are_too_many { TwoAclsAreTooMany }
    ensures name_of_other_kind_is_bad { NameOfOtherKindIsBad }
{}
