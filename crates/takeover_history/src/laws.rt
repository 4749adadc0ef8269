//! What holds of every list of events that come to two arbiters.
ghost use Rattle.takeover_history.specs.Laws.{NoBatchIsPublishedTwice, EachBatchIsItsNodes, AsksAreCounted, EverySendIsAsked, SlotsAreMatchings, EachSendIsPublished, NoEndpointSendsTwiceInASlot, NoSlotIsPassedOver, ALaterGenerationHasNoSlots, EachGenerationIsScheduled, NumbersRise, EachGenerationIsOneNodes, NumbersInARowAreASchedule, AGenerationBeginsAnew};
ghost use Rattle.takeover_history.specs.Fits.{EveryNextBatchMayBeApplied, NodesHaveOwnGenerations, EveryLogHasFew};

use greedy_rules::every_batch_balances;

/// No batch is published twice, by either node.
pub fn no_batch_is_published_twice()
    ensures { NoBatchIsPublishedTwice }
{}

/// A node publishes under its own lease.
pub fn each_batch_is_its_nodes()
    ensures { EachBatchIsItsNodes }
{}

/// What an event asks for comes to what was asked for before.
pub fn asks_are_counted()
    ensures { AsksAreCounted }
{}

/// All sends in a slot, by whichever endpoints and from whichever node's batches, are a matching; each stands in the published batch of
/// its slot, and an endpoint sends in a slot at most once.
pub fn slots_are_matchings()
    ensures matching { SlotsAreMatchings }
    ensures published { EachSendIsPublished }
    ensures once { NoEndpointSendsTwiceInASlot }
{}

/// An endpoint never sends more than it was asked for, and no slot that it hears is passed over: it sends in each slot of a batch of its own
/// generation, and has none in a batch of a later one.
pub fn sends_are_asked()
    ensures asked { EverySendIsAsked }
    ensures none_passed { NoSlotIsPassedOver }
    ensures later { ALaterGenerationHasNoSlots }
{
    every_batch_balances();
}

/// What is published in one generation is published by one node in one boot, and its slots are the schedule of its batches, in rising
/// numbers.
pub fn each_generation_is_scheduled()
    ensures scheduled { EachGenerationIsScheduled }
    ensures rise { NumbersRise }
    ensures one_node { EachGenerationIsOneNodes }
    ensures in_a_row { NumbersInARowAreASchedule }
{}

/// Where a node takes a lease of another generation than its last one, nothing was told or published in that generation.
pub fn a_generation_begins_anew()
    ensures { AGenerationBeginsAnew }
{}

/// What a program that keeps running counts relies on: each next batch may be applied, a generation is one node's, and every number is
/// small.
pub fn running_counts_serve()
    ensures next { EveryNextBatchMayBeApplied }
    ensures own { NodesHaveOwnGenerations }
    ensures few { EveryLogHasFew }
{
    every_batch_balances();
}
