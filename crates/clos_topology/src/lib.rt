//! The two-tier Clos network: racks of endpoints, core switches between them, and the packets of a slot that cross racks.
//!
//! `clos_topology` has the network's three numbers, the links of a packet, and the bipartite graph of a slot. `Net` is plain
//! data; `RackGraph` is opened once and loaded slot after slot, where a packet's racks are found by a factor (`rack_factor`,
//! `rack_by` of `net.rt`) and not by division, and the table's bits tell who sends.
#![tactic(auto)]

mod graph;
mod laws;
mod net;

pub use graph::RackGraph;
pub use laws::small_networks;
pub use net::{Net, NetRefused};
pub use no_memory::NoMemory;
