//! The entry of a flow in a batch.
#![tactic(auto)]

mod lookup;

pub use lookup::BatchLookup;
