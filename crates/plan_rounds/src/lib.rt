//! The batches of a plan, and what collects them from a trace, round after round.
#![tactic(auto)]

mod collection;
mod laws;

pub use collection::Collection;
pub use laws::{every_plan_adds_what_is_asked, every_plan_is_recorded};
pub use no_memory::NoMemory;
