//! Two arbiters that publish batches under leases, and the endpoints that hear them: the events, what each did, and what holds of every
//! list of events.
#![tactic(auto)]

mod event;
mod laws;
mod lease;

pub use event::{Event, Refusal};
pub use laws::{
    a_generation_begins_anew, asks_are_counted, each_batch_is_its_nodes,
    each_generation_is_scheduled, no_batch_is_published_twice, running_counts_serve,
    sends_are_asked, slots_are_matchings,
};
pub use lease::{Holder, Lease};
