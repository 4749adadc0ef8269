ghost use Rattle.greedy_rules.specs.Demands.{Key};
ghost use Rattle.greedy_rules.specs.Fronts.{SchedulesGoOnBy, FrontsAreFrontsBy, EveryBatchHasItsSlotsBy, SlotsOfABatchBy};
ghost use Rattle.greedy_rules.specs.Balance.{EveryBatchBalancesBy, EveryRestIsListedBy, EveryScheduleBalancesBy};
ghost use Rattle.greedy_rules.specs.Matching.{EverySlotIsAMaximalMatchingBy, EverySlotKeepsItsLimitsBy, EverySlotIsInRangeBy, EverySlotsFlowsAreOfEntriesBy, EveryFlowLeftIsOfEntriesBy};
ghost use Rattle.greedy_rules.specs.Recorded.{RecordedBatchesMayBeAppliedBy, LaterBatchesMayBeAppliedBy, EveryRecordedSlotBy};

/// A law over schedules by any key: later batches change nothing of the slots before them, and each batch has its slots, of
/// the list that those before it left.
pub fn schedules_by_key_go_on()
    ensures more { (key : Key) → SchedulesGoOnBy key }
    ensures front { (key : Key) → FrontsAreFrontsBy key }
    ensures count { (key : Key) → EveryBatchHasItsSlotsBy key }
    ensures each { (key : Key) → SlotsOfABatchBy key }
{}

/// A law over schedules by any key: what a flow still needs, and the slots that it got, are what its entries added; the demand
/// that is left has each flow of the batches once.
pub fn schedules_by_key_balance()
    ensures batch { (key : Key) → EveryBatchBalancesBy key }
    ensures listed { (key : Key) → EveryRestIsListedBy key }
    ensures balance { (key : Key) → EveryScheduleBalancesBy key }
{}

/// A law over schedules by any key: each slot is a matching that no waiting demand could join, keeps the limits of its batch,
/// and has flows of the entries alone.
pub fn slots_by_key_are_maximal_matchings()
    ensures maximal { (key : Key) → EverySlotIsAMaximalMatchingBy key }
    ensures limited { (key : Key) → EverySlotKeepsItsLimitsBy key }
    ensures in_range { (key : Key) → EverySlotIsInRangeBy key }
    ensures flows { (key : Key) → EverySlotsFlowsAreOfEntriesBy key }
    ensures left { (key : Key) → EveryFlowLeftIsOfEntriesBy key }
{}

/// A law over recorded batches, by any key: each may be applied to the list that the earlier ones leave; what a slot of
/// theirs is.
pub fn recorded_batches_by_key()
    ensures all { (key : Key) → RecordedBatchesMayBeAppliedBy key }
    ensures later { (key : Key) → LaterBatchesMayBeAppliedBy key }
    ensures slots { (key : Key) → EveryRecordedSlotBy key }
{}
