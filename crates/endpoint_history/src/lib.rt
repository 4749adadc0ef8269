//! Both ends of an endpoint's connection, its agent and the arbiter's lane, over whole histories of calls.
//!
//! `endpoint_history` has no code that runs: it is the model of both ends of a connection and what holds of it.
//! `specs/Agent.antt`, `Sending.antt`, `Lane.antt`, `Counts.antt` and `Entries.antt` say what an agent and a lane are after any
//! calls; `Rounds.antt` puts them together with the lossy world between them. Crates above cite these words in their contracts,
//! and the laws as calls of the functions of `laws.rt`. The main argument is one invariant over the calls of both ends (`Joined`,
//! proved in `proofs/BothEnds.antt`); it rests on the laws of `ack_window` about one direction. `contents.rt` has two types
//! without values of their own, at which those laws are called for what a request and an allocation hold. To change what an
//! endpoint or the arbiter does, begin with the definition here: the row of `Examples.antt` that shows it, then the laws that no
//! longer prove, then the code of `endpoint_agent` or `arbiter_lane`.
#![tactic(auto)]

mod contents;
mod laws;

pub use laws::{
    agents_count_slots, allocations_are_in_order, both_ends_agree, counts_are_bounded,
    lanes_count_slots, lanes_tell_what_they_are_handed, ledger_and_demand_list_agree,
    no_loss_or_boot_harms, packets_are_framed_alike, requests_name_unconfirmed_totals,
    rounds_are_calls, rounds_are_read_in_order, slots_agree, slots_in_time_are_sent, small_rounds,
    the_ledger_holds,
};
