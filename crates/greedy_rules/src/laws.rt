ghost use Rattle.greedy_rules.specs.Matching.{EverySlotIsAMaximalMatching, EverySlotOfABatchIsAMaximalMatching, EverySlotKeepsItsLimits, EverySlotKeepsTheLimits, EverySlotsFlowsAreOfEntries, EveryFlowLeftIsOfEntries, EverySlotIsInRange};
ghost use Rattle.greedy_rules.specs.Fronts.{SchedulesGoOn, FrontsAreFronts, EveryBatchHasItsSlots, SlotsOfABatch};
ghost use Rattle.greedy_rules.specs.Room.{FlowsFitPairs};
ghost use Rattle.greedy_rules.specs.Cells.{EveryTableMakesABatch};
ghost use Rattle.greedy_rules.specs.LeftOut.{EverySlotIsFilledInOrder, EveryBatchKeepsItsOrder};
ghost use Rattle.greedy_rules.specs.Balance.{EveryBatchBalances, EveryRestIsListed, EveryScheduleBalances};
ghost use Rattle.greedy_rules.specs.Examples.{ThreeFlowsFillTwoSlots, TwoFlowsOfOneSourceTakeTurns, ALaterAskGoesFirst, WhatABatchLeavesGoesIntoTheNext, TheLeastNeedGoesFirst, OfTwoNeedsTheFirstGoesFirst, TwoCoresCarryTwoPackets, WithinARackNoCoreIsNeeded, ARackSendsOneForEachCore, ARackReceivesOneForEachCore};

/// A law over every schedule (the SIGCOMM 2014 Fastpass paper): no two packets of a slot share a source or a
/// destination, and no waiting demand could join it.
pub fn every_slot_is_a_maximal_matching()
    ensures { EverySlotIsAMaximalMatching }
{}

/// The law over one batch, whatever list it finds and whatever the number of its first slot.
pub fn every_slot_of_a_batch_is_a_maximal_matching()
    ensures { EverySlotOfABatchIsAMaximalMatching }
{}

/// A law over one slot of any list: a waiting flow that is not in it is kept out by flows of items that stand before its own;
/// and the list before each slot of a batch has the order of the batch's start list.
pub fn every_slot_is_filled_in_order()
    ensures slot { EverySlotIsFilledInOrder }
    ensures batch { EveryBatchKeepsItsOrder }
{}

/// A law over every schedule: no rack sends or receives more packets between racks in a slot than its batch has cores.
pub fn every_slot_keeps_its_limits()
    ensures each { EverySlotKeepsItsLimits }
    ensures all { EverySlotKeepsTheLimits }
{}

/// A law over every schedule: whatever holds of every entry's flow holds of every slot's flow, and of every flow that is left.
pub fn every_slots_flows_are_of_entries()
    ensures slots { EverySlotsFlowsAreOfEntries }
    ensures left { EveryFlowLeftIsOfEntries }
{}

/// A law over every schedule: where all batches are of flows between so many endpoints, so are all slots.
pub fn every_slot_is_in_range()
    ensures { EverySlotIsInRange }
{}

/// A law over every schedule: later batches change nothing of the slots before them, and each batch has its slots, of the
/// list that those before it left.
pub fn schedules_go_on()
    ensures more { SchedulesGoOn }
    ensures front { FrontsAreFronts }
    ensures count { EveryBatchHasItsSlots }
    ensures each { SlotsOfABatch }
{}

/// A law over tables: the entries of a table with a cell for each source and destination, walked rising, are a batch, in
/// which each flow has the entry of its cell.
pub fn every_table_makes_a_batch()
    ensures { EveryTableMakesABatch }
{}

/// A law on memory: a list with room for as many items as there are pairs of two different endpoints has room
/// for each batch.
pub fn flows_fit_pairs()
    ensures { FlowsFitPairs }
{}

/// A law on what a batch leaves: what a flow still needs, and the slots that it got, are what it needed once the batch
/// had added to it; the list that is left has each flow once, of the list before or the batch.
pub fn every_batch_balances()
    ensures { EveryBatchBalances }
{}

/// The law over whole schedules: the demand that is left has each flow of the batches once; and from the batch on that last
/// cleared a flow, or from any later one, the flow's slots are what its entries added, less what is left.
pub fn every_schedule_balances()
    ensures listed { EveryRestIsListed }
    ensures balance { EveryScheduleBalances }
{}

/// Small schedules, which the definitions compute.
pub fn small_schedules()
    ensures three_flows { ThreeFlowsFillTwoSlots }
    ensures turns { TwoFlowsOfOneSourceTakeTurns }
    ensures later_ask { ALaterAskGoesFirst }
    ensures left_over { WhatABatchLeavesGoesIntoTheNext }
    ensures least_need { TheLeastNeedGoesFirst }
    ensures same_need { OfTwoNeedsTheFirstGoesFirst }
{}

/// Small schedules of racks with more hosts than cores.
pub fn small_schedules_between_racks()
    ensures two_cores { TwoCoresCarryTwoPackets }
    ensures within_a_rack { WithinARackNoCoreIsNeeded }
    ensures sending { ARackSendsOneForEachCore }
    ensures receiving { ARackReceivesOneForEachCore }
{}
