ghost use Rattle.slot_batches.specs.FreePlaces.{EachItemTakesItsLowestFreePlaces};
ghost use Rattle.slot_batches.specs.Laws.{FlowByFlowIsSlotBySlot};
ghost use Rattle.slot_batches.specs.Room.{ServedFitPlaces};
ghost use Rattle.slot_batches.specs.Examples.{TheFirstFlowTakesBothSlots, ThreeFlowsShareTwoSlots, TheLowestFreePlaceIsTaken};
ghost use Rattle.slot_batches.specs.FeedingExamples.{AnOpenedFlowWaitsForAServedOne, AnOpenedFlowGoesBeforeAServedOne, TheItemWithoutASlotStandsFirst};
ghost use Rattle.slot_batches.specs.Feeding.{FeedingAppliesTheBatch, ServedItemsFollow, AnItemIsServedOrAsItWas};
ghost use Rattle.slot_batches.specs.NextList.{EveryBatchLeavesAList, EveryBatchKeepsItsFlows, AnIdleListStays};
ghost use Rattle.slot_batches.specs.Woven.{ItemsMayBeSetAside, ListedFlowsAreOpen};
ghost use Rattle.slot_batches.specs.Beyond.{ItemsBeyondReachMayBeSetAside, ItemsBarredByTheFrontMayBeSetAside, ItemsBarredByThoseAheadMayBeSetAside, ItemsBarredInSlotsMayBeSetAside};
ghost use Rattle.slot_batches.specs.ArrayStands.{ListsMayBeFed};
ghost use Rattle.slot_batches.specs.Pieces.{EndedListsGiveTheirPieces};
ghost use Rattle.slot_batches.specs.Settled.{SettledItemsCountAsFed, SettledItemsStay, EarlyPiecesAreOfTheList};

/// A law over every list in which each flow stands once: a batch flow by flow gives the slots of the greedy allocation
/// slot by slot, and leaves the same items.
pub fn flow_by_flow_is_slot_by_slot()
    ensures { FlowByFlowIsSlotBySlot }
{}

/// A law over every item and any slots: its turns, slot by slot, let it into the lowest slots in which its source and its
/// destination are free, as many as it needs.
pub fn each_item_takes_its_lowest_free_places()
    ensures { EachItemTakesItsLowestFreePlaces }
{}

/// A law on memory: a batch serves at most as many items as its slots have places for sources.
pub fn served_fit_places()
    ensures { ServedFitPlaces }
{}

/// Small batches, which the definitions compute.
pub fn small_batches()
    ensures first_flow { TheFirstFlowTakesBothSlots }
    ensures three_flows { ThreeFlowsShareTwoSlots }
    ensures lowest { TheLowestFreePlaceIsTaken }
{}

/// A law over every list in order: fed to its end, item by item, it is the list with the batch applied.
pub fn feeding_applies_the_batch()
    ensures { FeedingAppliesTheBatch }
{}

/// A law over every list in order, and all slots: after a batch the items that it did not serve come first, as they
/// were, and those that it served follow.
pub fn served_items_follow()
    ensures order { ServedItemsFollow }
    ensures items { AnItemIsServedOrAsItWas }
{}

/// A law over every list in order: a batch leaves a list that the next can be fed.
pub fn every_batch_leaves_a_list()
    ensures next { EveryBatchLeavesAList }
    ensures flows { EveryBatchKeepsItsFlows }
{}

/// A law over every list in order whose items need no slot: a batch without entries leaves it as it is, and has no packet.
pub fn idle_lists_stay()
    ensures { AnIdleListStays }
{}

/// A law over every window of batches: the items of the list that need no slot and have no entry in it may be set aside, and
/// come between the others again once the batches have run over those; and a flow of the list is not opened again.
pub fn items_may_be_set_aside()
    ensures woven { ItemsMayBeSetAside }
    ensures listed { ListedFlowsAreOpen }
{}

/// A law over every window of batches: the items of the list that have no entry in it, and that are kept out of each batch
/// that runs over the others, may be set aside too.
pub fn items_beyond_reach_may_be_set_aside()
    ensures beyond { ItemsBeyondReachMayBeSetAside }
    ensures barred { ItemsBarredByTheFrontMayBeSetAside }
    ensures ahead { ItemsBarredByThoseAheadMayBeSetAside }
    ensures in_slots { ItemsBarredInSlotsMayBeSetAside }
{}

/// A law over every list before a batch whose entries open the flows that are new to it: it may be fed, item by item.
pub fn lists_may_be_fed()
    ensures { ListsMayBeFed }
{}

/// A law over every list before a batch: what is settled of it while it is fed is settled for good, so that each piece, early
/// or not, is one of the list that the batch leaves.
pub fn early_pieces_are_of_the_list()
    ensures settled { SettledItemsStay }
    ensures pieces { EarlyPiecesAreOfTheList }
    ensures ended { EndedListsGiveTheirPieces }
{}

/// A law over every list before a batch: what is settled of it are the items of the list that the batch leaves that count as fed
/// and have no slot, whatever is fed later; flow by flow, those taken up so far that have none.
pub fn settled_items_count_as_fed()
    ensures { SettledItemsCountAsFed }
{}

/// Small lists, which the definitions compute.
pub fn feeding_examples()
    ensures waits { AnOpenedFlowWaitsForAServedOne }
    ensures goes_before { AnOpenedFlowGoesBeforeAServedOne }
    ensures stands_first { TheItemWithoutASlotStandsFirst }
{}
