//! Core switches for the packets of a slot: an edge colouring of its graph of racks, by alternating paths.
//!
//! `edge_colouring` gives that graph's edges their cores. `ports.rt` keeps for each side a mask of the free cores of each rack
//! and who holds the others. `painting.rt` takes the edges in order and exchanges two cores along one alternating path where no
//! core is common. `degrees.rt` finds the first rack with too many edges, where some edge found no core. `table.rt` holds the
//! result by source. A new edge enters with one core at its left rack and another at its right; each turn lets an edge take a
//! core at its far rack, and whoever held it there is next. `laws.rt` has the laws: a slot's limits are its graph's degrees, a
//! colouring makes a matching clean, every graph within its degrees has a colouring (König's theorem), and so every matching has
//! clean cores. The second is proved over the edges' cores alone, with the same alternating paths as the code.
#![tactic(auto)]

mod degrees;
mod laws;
mod painting;
mod ports;
mod table;

pub use degrees::Degree;
pub use laws::{
    every_colouring_makes_a_matching_clean, every_graph_has_a_colouring,
    every_matching_has_clean_cores, limits_are_degrees,
};
pub use no_memory::NoMemory;
pub use table::{Table, colour};
