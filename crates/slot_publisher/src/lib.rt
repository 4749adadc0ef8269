//! The slots of a window, told endpoint by endpoint.
//!
//! `slot_publisher` turns a window's slots round: allocation and colouring go slot by slot, an endpoint wants its own.
//! `publisher.rt` keeps what is told as it is told: for each batch and endpoint a list of told slots in places of its own, all in
//! one flat list, and beside it how many each list has. `put` fills the lists slot by slot, from the rows of the slot table and
//! the core table, `told` lends one, and `told_to` appends it. To change what is told of a slot, begin at `told_as` in
//! `specs/Told.antt`; the layout is `specs/Places.antt`.
#![tactic(auto)]

mod laws;
mod publisher;

pub use laws::small_window;
pub use no_memory::NoMemory;
pub use path_workers::CoreTable;
pub use publisher::Publisher;
