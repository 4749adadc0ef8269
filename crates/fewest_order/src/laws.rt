ghost use Rattle.fewest_order.specs.Orders.{IsThePlainOrder};
ghost use Rattle.fewest_order.specs.KeptOut.{BatchesHaveMaximalMatchings, FlowsBeforeItBar, NoneThatNeedsMoreBars};

use crate::orders::{ByLast, ByNeed, Order};
use greedy_rules::{every_slot_is_filled_in_order, every_slot_of_a_batch_is_a_maximal_matching};

/// A law over batches by the slot in which a flow was last served: their slots, and the lists that they leave, are the plain
/// allocator's.
pub fn the_plain_order()
    ensures { IsThePlainOrder ⟦<ByLast as Order>⟧.number }
{}

/// A law over batches by any order: each slot is a matching that no waiting demand could join, within the limits of the racks.
pub fn every_ordered_slot_is_a_maximal_matching<O: Order>()
    ensures { BatchesHaveMaximalMatchings O.number }
{
    every_slot_of_a_batch_is_a_maximal_matching();
}

/// A law over batches by any order: a flow that waits before a slot and is not in it is kept out by flows of the slot that
/// stand before it in the batch's start list; and no item before it there has a greater number.
pub fn flows_before_it_bar<O: Order>()
    ensures { FlowsBeforeItBar O.number }
{
    every_slot_is_filled_in_order();
}

/// The law by need: none of the flows that keep it out needed more as the batch began.
pub fn none_that_needs_more_bars()
    ensures { NoneThatNeedsMoreBars }
{
    flows_before_it_bar::<ByNeed>();
}
