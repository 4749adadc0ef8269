ghost use Rattle.window_allocation.specs.Ready.{EveryWindowIsReady};
ghost use Rattle.window_allocation.specs.Scheduled.{EveryRecordHasCores};

use edge_colouring::{every_matching_has_clean_cores, limits_are_degrees};
use greedy_rules::{
    every_batch_balances, every_recorded_slot, flows_fit_pairs, recorded_batches_may_be_applied,
    schedules_go_on,
};

/// A law over recorded batches (the SIGCOMM 2014 Fastpass paper, König's theorem): each slot of their schedule is a matching
/// that no waiting demand could join, no rack sends or receives more packets between racks in it than there are cores, and
/// there are cores by which no two packets of a slot use one link.
pub fn every_record_has_cores()
    ensures { EveryRecordHasCores }
{
    every_recorded_slot();
    limits_are_degrees();
    every_matching_has_clean_cores();
}

/// A law over every half that has allocated: the batches that are recorded next may be allocated, and their slots coloured.
pub(crate) fn every_window_is_ready()
    ensures { EveryWindowIsReady }
{
    recorded_batches_may_be_applied();
    every_recorded_slot();
    schedules_go_on();
    flows_fit_pairs();
    every_batch_balances();
}
