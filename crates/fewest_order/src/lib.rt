//! Greedy allocation by an order of the caller's, such as the flow that needs least first.
//!
//! `fewest_order` gives one batch its slots by an order of the caller's: `orders.rt` has the orders, `allocation.rt` the batch.
//! Its slots are filled by the plain allocator, which is shown the list in the order and as never served. `by_turns.rt` gives a
//! batch its slots by the standing order, flow by flow (`Turns` of `slot_batches`). `fewest.rt` has `FewestFirst`, which keeps one
//! list by need from batch to batch: its items take their slots flow by flow, and only those that a batch changes are sorted;
//! `places.rt` puts these among the others, each at its place (`proofs/PlaceLemmas.antt` and `PartLemmas.antt` say why that is the
//! same list).
#![tactic(auto)]

mod allocation;
mod by_turns;
mod fewest;
mod laws;
mod orders;
mod places;
#[cfg(test)]
mod tests;

pub use allocation::order_batch;
pub use by_turns::batch_by_turns;
pub use fewest::FewestFirst;
pub use laws::{
    every_ordered_slot_is_a_maximal_matching, flows_before_it_bar, none_that_needs_more_bars,
    the_plain_order,
};
pub use no_memory::NoMemory;
pub use orders::{ByLast, ByNeed, Order};
