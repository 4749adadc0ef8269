//! What holds of the run of every trace, whatever is lost, held back, repeated or forged, and however often endpoints boot.
//! Crates above cite these functions' contracts.
ghost use Rattle.trace_run.specs.Agents.{EpochsCountBoots, AskedIsWithinAll};
ghost use Rattle.trace_run.specs.Allocations.{OneFlowMore, AFlowWithoutSlots, ABatchMore, NeedsAreOwed, AllocationIsPending};
ghost use Rattle.trace_run.specs.Applicable.{EveryRunIsApplicable, EverySlotIsOfTheRun};
ghost use Rattle.trace_run.specs.Cores.{CoresDecideNothing, CoresDecideNoSend, CoresStandInDownPackets, CoresDecideNoUpPacket, CoresDecideNoCount};
ghost use Rattle.trace_run.specs.Counts.{ToldIsAllocated, TellingHasRoom, ToldFitsSlots, EveryFlowIsCounted, AddsAreDemandedAndLost};
ghost use Rattle.trace_run.specs.Examples.{WorkedRuns};
ghost use Rattle.trace_run.specs.Fronts.{EveryRoundHasABatch, ARunBeginsWithEach, RoundsAreOfTheWholeRun};
ghost use Rattle.trace_run.specs.Premises.{Schedules, EndsLaws};
ghost use Rattle.trace_run.specs.Recorded.{EveryRunIsRecorded};
ghost use Rattle.trace_run.specs.Rest.{OwedIsAllocatedOrLeft, PublishedIsPending};
ghost use Rattle.trace_run.specs.Sends.{EverySendIsScheduled, NoSlotIsSentTwice, SentIsWhatEachRoundSends, NoPacketIsForged, ToldIsOwedInEachRound};
ghost use Rattle.trace_run.specs.Shown.{EveryReplayShows};
ghost use Rattle.trace_run.specs.Told.{WhatIsToldIsOfABatch};
ghost use Rattle.trace_run.specs.Unharmed.{NoLossOrBootHarmsARun};
ghost use Rattle.trace_run.specs.Windows.{EveryBatchIsNext, EveryWindowIsAllocated, StepsGoOn, EveryStepIsInWindows, WhatIsToldIsPublished};

use endpoint_history::{
    agents_count_slots, allocations_are_in_order, counts_are_bounded, lanes_count_slots,
    ledger_and_demand_list_agree, no_loss_or_boot_harms, requests_name_unconfirmed_totals,
    rounds_are_calls, the_ledger_holds,
};
use greedy_rules::{
    every_batch_balances, every_schedule_balances, every_slot_is_a_maximal_matching,
    every_slot_is_in_range, every_slot_keeps_its_limits, every_slots_flows_are_of_entries,
    recorded_batches_may_be_applied, schedules_go_on,
};

/// Small runs, which the definitions compute: a slot asked for and sent, its allocation lost or late, a boot with slots on the
/// way, a forged request, batches and windows of two, and two racks with one core.
pub fn small_runs()
    ensures { WorkedRuns }
{}

/// A run has a batch for each round and begins with every shorter run; what is told in any round is told of the whole run's
/// schedule.
pub fn runs_go_on()
    ensures batches { EveryRoundHasABatch }
    ensures begins { ARunBeginsWithEach }
    ensures rounds { RoundsAreOfTheWholeRun }
{
    schedules_hold();
}

/// An agent's epoch counts its boots, and no more is asked of it than the trace asks for.
pub fn agents_boot_and_are_asked()
    ensures epochs { EpochsCountBoots }
    ensures asked { AskedIsWithinAll }
{}

/// The batches of a run open, clear and add as their lanes record it, and leave a list that has each of their flows once.
pub fn every_run_is_applicable()
    ensures batches { EveryRunIsApplicable }
    ensures slots { EverySlotIsOfTheRun }
{
    schedules_hold();
    every_slot_is_in_range();
}

/// The ledger and the demand list agree at the end of every round, whichever of the batches are allocated: what is owed to a
/// flow, demanded or lost, is allocated since the last reset or still left.
pub fn ledger_and_rest_agree()
    ensures owed { OwedIsAllocatedOrLeft }
    ensures published { PublishedIsPending }
    ensures adds { AddsAreDemandedAndLost }
{
    schedules_hold();
    ends_hold();
    every_run_is_applicable();
}

/// Each flow's recorded demand is acknowledged, in flight or pending.
pub fn every_flow_is_counted()
    ensures { EveryFlowIsCounted }
{
    schedules_hold();
    ends_hold();
    ledger_and_rest_agree();
}

/// What a lane has told, and is told next, stands in the schedule of the batches that are allocated by then.
pub fn what_is_told_is_allocated()
    ensures told { ToldIsAllocated }
    ensures room { TellingHasRoom }
    ensures fits { ToldFitsSlots }
{
    schedules_hold();
    ends_hold();
}

/// Endpoints send in scheduled slots alone, in each at most once, whatever is forged.
pub fn every_send_is_scheduled()
    ensures rounds { SentIsWhatEachRoundSends }
    ensures scheduled { EverySendIsScheduled }
    ensures once { NoSlotIsSentTwice }
{
    schedules_hold();
    ends_hold();
}

/// Allocated batch by batch, or window by window, a run has the schedule and the rest of all its batches.
pub fn windows_make_the_schedule()
    ensures next { EveryBatchIsNext }
    ensures window { EveryWindowIsAllocated }
{
    schedules_hold();
}

/// How many rounds are collected, allocated and published after each step, which collects a window and allocates the one before.
pub fn steps_go_on()
    ensures step { StepsGoOn }
    ensures each { EveryStepIsInWindows }
    ensures published { WhatIsToldIsPublished }
{}

/// The batches of the run of an accepted trace are recorded batches: each may be applied to the list that the earlier ones leave,
/// and every need and count is a number of 32 bits.
pub fn every_run_is_recorded()
    ensures { EveryRunIsRecorded }
{
    schedules_hold();
    ends_hold();
    recorded_batches_may_be_applied();
    every_run_is_applicable();
    ledger_and_rest_agree();
    what_is_told_is_allocated();
}

/// What a lane is handed in a round of an accepted trace keeps the rules of the packet that tells it.
pub fn what_is_told_keeps_the_rules()
    ensures { WhatIsToldIsOfABatch }
{
    schedules_hold();
    ends_hold();
    every_run_is_applicable();
    what_is_told_is_allocated();
}

/// What the lanes are told of the slots that are published, flow by flow and batch by batch: no more than is owed.
pub fn lanes_are_told_of_slots()
    ensures flow { OneFlowMore }
    ensures none { AFlowWithoutSlots }
    ensures batch { ABatchMore }
    ensures needs { NeedsAreOwed }
    ensures pending { AllocationIsPending }
{
    schedules_hold();
    ledger_and_rest_agree();
}

/// What no loss, delay, repeat or boot does to an endpoint that no raw row names: what is lost is never sent, what is acknowledged
/// was taken in once, and every slot in time is sent in. No packet of it is forged, and no more is told than is owed.
pub fn no_loss_or_boot_harms_a_run()
    ensures unforged { NoPacketIsForged }
    ensures owed { ToldIsOwedInEachRound }
    ensures harmless { NoLossOrBootHarmsARun }
{
    schedules_hold();
    ends_hold();
    every_run_is_applicable();
    ledger_and_rest_agree();
    what_is_told_is_allocated();
}

/// Two runs of one trace that differ in the cores alone record the same batches.
pub fn cores_decide_nothing()
    ensures { CoresDecideNothing }
{}

/// Two such runs differ in the cores that downward packets name and in nothing else: endpoints send in the same slots, upward
/// packets are the same, and both ends of every connection count the same.
pub fn cores_are_only_told()
    ensures sends { CoresDecideNoSend }
    ensures down { CoresStandInDownPackets }
    ensures up { CoresDecideNoUpPacket }
    ensures counts { CoresDecideNoCount }
{}

/// What the run of every trace shows: every slot is a matching within the limits of the racks that no waiting demand could join,
/// endpoints send in scheduled slots alone, each flow's recorded demand is acknowledged, in flight or pending, lost slots pending
/// again, and no loss, delay, repeat or boot harms an endpoint that no raw row names.
pub fn every_replay_shows()
    ensures { EveryReplayShows }
{
    schedules_hold();
    every_slot_is_a_maximal_matching();
    every_slot_keeps_its_limits();
    every_run_is_applicable();
    every_send_is_scheduled();
    every_flow_is_counted();
    ledger_and_rest_agree();
    no_loss_or_boot_harms_a_run();
}

/// The laws of schedules that the lemmas here rest on.
fn schedules_hold()
    ensures { Schedules }
{
    schedules_go_on();
    every_batch_balances();
    every_schedule_balances();
    every_slots_flows_are_of_entries();
}

/// The laws of both ends of a connection that the lemmas here rest on.
fn ends_hold()
    ensures { EndsLaws }
{
    agents_count_slots();
    allocations_are_in_order();
    counts_are_bounded();
    lanes_count_slots();
    ledger_and_demand_list_agree();
    no_loss_or_boot_harms();
    requests_name_unconfirmed_totals();
    rounds_are_calls();
    the_ledger_holds();
}
