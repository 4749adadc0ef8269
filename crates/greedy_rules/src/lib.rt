//! The rules of greedy allocation: flows, demand batches, the demand list, timeslots, and the plain allocator.
//!
//! `greedy_rules` allocates. `flows.rt` has flows, items and entries, `batches.rt` a batch that rises by flow and carries the
//! limits of the racks (`limits.rt`), `demands.rt` the demand list, `slots.rt` the table of slots. Its rows, a place for each
//! endpoint, stand in `rows.rt`: one for each slot that was written, in the order in which they were given. `senders.rt` has a bit
//! for each endpoint and slot, so that who sends is found without a look at the others. `plain.rt` is greedy allocation of one
//! batch on one thread. `marks.rt` is what a slot's flows keep taken beside their sources: destinations, and a count for each rack
//! and side; it is opened once a batch and cleared for each slot. That body stays beside the faster one: it is the definition's
//! program. `laws.rt` has the laws on schedules and on what batches leave, `recorded.rt` those on batches as they are recorded,
//! round after round. `proofs/Facts.antt` is the one page that proofs of crates above cite; all other proof files are private.
#![tactic(auto)]

mod batches;
mod demands;
mod flows;
mod keys;
mod laws;
mod limits;
mod marks;
mod plain;
mod recorded;
mod rows;
mod senders;
mod slots;

pub use batches::Batch;
pub use demands::DemandList;
pub use flows::{Entry, Flow, Item};
pub use keys::{
    recorded_batches_by_key, schedules_by_key_balance, schedules_by_key_go_on,
    slots_by_key_are_maximal_matchings,
};
pub use laws::{
    every_batch_balances, every_schedule_balances, every_slot_is_a_maximal_matching,
    every_slot_is_filled_in_order, every_slot_is_in_range, every_slot_keeps_its_limits,
    every_slot_of_a_batch_is_a_maximal_matching, every_slots_flows_are_of_entries,
    every_table_makes_a_batch, flows_fit_pairs, schedules_go_on, small_schedules,
    small_schedules_between_racks,
};
pub use limits::Limits;
pub use no_memory::NoMemory;
pub use plain::plain_batch;
pub use recorded::{every_recorded_slot, recorded_batches_may_be_applied};
pub use slots::SlotTable;
