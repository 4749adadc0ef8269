//! Which endpoints are free in which slots of a batch, as maps of 64 bits.
//!
//! `endpoint_bitmaps` keeps for each endpoint a word of the slots in which it may still send and one of those in which it may
//! still receive. Where racks have fewer links than endpoints, it keeps for each rack and side a word of the slots in which it has
//! a link left, with a byte for each slot that is touched only where a flow between racks takes it; where they have as many, a
//! rack has one left for each endpoint that is free, and none is counted. `take_lowest` takes the lowest bits that all of them
//! have; `none_may_send` knows by a count that no sender has one left. `reset` makes every endpoint free again; where few flows
//! took slots since the last time, it writes to the words of their ends alone. Proofs of crates above cite `proofs/Facts.antt`
//! for facts about words as sets of slots.
#![tactic(auto)]

mod free_maps;
mod noted_flows;
mod rack_links;

pub use free_maps::FreeMaps;
pub use no_memory::NoMemory;
