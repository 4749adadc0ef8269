//! The lossy world between an endpoint and the arbiter: what is lost, held back or repeated of the packets that go one way.
//!
//! `loss_world` is one direction between an endpoint and the arbiter. `send` takes a packet with its round and its fate (lost,
//! held for some rounds, or sent twice); `arrive` hands out, one by one, what arrives in a round. It keeps each packet under way
//! with the first and the last round in which it is still to arrive, in the order of sending, in a buffer of 2,048 bytes
//! (`buffer.rt`); behind those under way, in the same list, stand those that are gone, whose buffers are used again, so a run
//! without fates keeps using one buffer. `passes_at_once` says whether a packet would be the one arrival of its round and then be
//! gone: whoever has it may then read it where it lies and never send it, and `packets_pass_at_once` is the law by which the
//! world stands for that send and that ask all the same. To add a fate, change `arrives_in` (what it means), `rounds_of` (when it
//! is due) and `arrival_rounds`.
#![tactic(auto)]

mod buffer;
mod fate;
mod flight;
mod laws;
mod world;

pub use fate::Fate;
pub use laws::{
    arrivals_are_given_in_order, no_packet_arrives_early, packets_pass_at_once, small_worlds,
};
pub use no_memory::NoMemory;
pub use world::World;
