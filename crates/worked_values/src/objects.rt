ghost use Rattle.worked_values.specs.Objects.{EachOwnerIsListed, LimitEndsWithTheFirstOwner, GetGivesItsItem, TwoItemsOfAGetAreTooMany, OtherItemIsNoRow, BookHasAScanValue, BadVersionFailsAtRow0};

/// Lists by parents.
pub fn lists_by_parents()
    ensures each_owner_is_listed { EachOwnerIsListed }
    ensures limit_ends_with_the_first_owner { LimitEndsWithTheFirstOwner }
{}

/// Gets.
pub fn gets()
    ensures get_gives_its_item { GetGivesItsItem }
    ensures two_items_of_a_get_are_too_many { TwoItemsOfAGetAreTooMany }
    ensures other_item_is_no_row { OtherItemIsNoRow }
{}

/// Scans of a book, at a version and at a bad one.
pub fn scans_of_a_book()
    ensures book_has_a_scan_value { BookHasAScanValue }
    ensures bad_version_fails_at_row_0 { BadVersionFailsAtRow0 }
{}
