//! One batch of slots, flow by flow.
//!
//! `slot_batches` goes through a batch flow by flow where `greedy_rules` goes slot by slot. `filling.rt` lets one item after the
//! other take its lowest free slots, and keeps the items that wait and those that were served; `turns.rt` does that for the items
//! of any list, whatever its order; `opening.rt` applies the batch's entries and takes up the flows that open; `marks.rt` tells
//! which flows may have an entry, so that no other is looked up, `entry_places.rt` where it may stand, so that it is mostly found
//! at once, and `flow_marks.rt` which flows may have an entry in one of the batches of a window;
//! `resting.rt` finds how many items wait as they are, and these are kept at once, and `doubts.rt` which items of a piece may not;
//! `array_stage.rt` orders these
//! steps, settles items and gives them piece by piece as soon as more than 64 wait; `stage.rt` is that with the loose nodes
//! beside it, `chains.rt` writes items into nodes; `piece.rt` is a part of 64 items in nodes (`item_chain`). `served.rt` puts the
//! items that got slots behind those that wait, slot by slot of their last ones, which is the stable sort of the definition
//! without a sort. `laws.rt` says why this is the same allocation; `proofs/SlotExchange.antt` shows that the order of turns does
//! not matter, `proofs/FreePlaces.antt` that an item's turns are its lowest free places, `proofs/RackShare.antt` that a rack with a
//! core for each endpoint is never full, `proofs/OpenedFlows.antt` and `SortedRuns.antt` that no sort of the whole list is needed.
//! To change which slots a flow takes, begin at `specs/FlowByFlow.antt`.
#![tactic(auto)]

mod array_stage;
mod chains;
mod doubts;
mod entry_places;
mod filling;
mod flow_marks;
mod laws;
mod marks;
mod opening;
mod piece;
mod resting;
mod served;
mod stage;
mod turns;

pub use array_stage::give_items;
pub use flow_marks::FlowMarks;
pub use laws::{
    each_item_takes_its_lowest_free_places, early_pieces_are_of_the_list,
    every_batch_leaves_a_list, feeding_applies_the_batch, feeding_examples,
    flow_by_flow_is_slot_by_slot, idle_lists_stay, items_beyond_reach_may_be_set_aside,
    items_may_be_set_aside, lists_may_be_fed, served_fit_places, served_items_follow,
    settled_items_count_as_fed, small_batches,
};
pub use marks::{clear_words, mark_entries};
pub use no_memory::NoMemory;
pub use opening::with_entry;
pub use piece::Piece;
pub use stage::Stage;
pub use turns::Turns;
