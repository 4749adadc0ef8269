//! Two arbiters that publish batches under leases, and the endpoints that hear them, run event by event.
#![tactic(auto)]

mod endpoints;
mod entries;
mod flow_table;
mod keeper;
mod laws;
mod node;
mod outcome;
mod pair;
mod published;

pub use laws::what_is_promised;
pub use no_memory::NoMemory;
pub use outcome::Outcome;
pub use pair::Pair;
pub use takeover_history::{Event, Refusal};
