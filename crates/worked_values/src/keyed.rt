ghost use Rattle.worked_values.specs.Keyed.{OnlyKeysAreSent, SentInOrder, EventNeedsRegionOrZone, TagNeedsBucket, TagIsListedByBucket, EventIsListedByEither, ItemIsGotById, ObjectIsListedByParents, WithoutAListTheGetsKeysAreMissing, FanIsOfTheChosenAccess, FanHasEachValueOnce, TwoValuesOfOneKeyMakeNoScan, OnlySentConditionsCount, EachMemberHasItsUnits, TenOfFiftyAreMissing};

/// Conditions that are sent, and keys that are missing.
pub fn keys()
    ensures only_keys_are_sent { OnlyKeysAreSent }
    ensures sent_in_order { SentInOrder }
    ensures event_needs_region_or_zone { EventNeedsRegionOrZone }
    ensures tag_needs_bucket { TagNeedsBucket }
{}

/// How items are asked for.
pub fn access()
    ensures tag_is_listed_by_bucket { TagIsListedByBucket }
    ensures event_is_listed_by_either { EventIsListedByEither }
    ensures item_is_got_by_id { ItemIsGotById }
    ensures object_is_listed_by_parents { ObjectIsListedByParents }
    ensures without_a_list_the_gets_keys_are_missing { WithoutAListTheGetsKeysAreMissing }
    ensures fan_is_of_the_chosen_access { FanIsOfTheChosenAccess }
{}

/// The units of a source.
pub fn units()
    ensures fan_has_each_value_once { FanHasEachValueOnce }
    ensures two_values_of_one_key_make_no_scan { TwoValuesOfOneKeyMakeNoScan }
    ensures only_sent_conditions_count { OnlySentConditionsCount }
    ensures each_member_has_its_units { EachMemberHasItsUnits }
    ensures ten_of_fifty_are_missing { TenOfFiftyAreMissing }
{}
