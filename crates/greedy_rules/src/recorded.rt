ghost use Rattle.greedy_rules.specs.Recorded.{RecordedBatchesMayBeApplied, EveryFrontIsRecorded, LaterBatchesMayBeApplied, EveryRecordedSlot};

/// A law over recorded batches: each may be applied to the list that the earlier ones leave.
pub fn recorded_batches_may_be_applied()
    ensures all { RecordedBatchesMayBeApplied }
    ensures later { LaterBatchesMayBeApplied }
    ensures front { EveryFrontIsRecorded }
{}

/// A law over recorded batches (the SIGCOMM 2014 Fastpass paper): each slot is a matching that no waiting demand could join,
/// and no rack sends or receives more packets between racks in it than there are cores.
pub fn every_recorded_slot()
    ensures { EveryRecordedSlot }
{}
