//! Core switches for the packets of many slots.
//!
//! `path_workers` colours the slots of a window by workers that take jobs from one queue. `jobs.rt` is the queue, a
//! `RuledArrayQueue` of `crossbeam_queue` with room for 1,024 slots and 16 ends, and its rule: of 17 parts of the right to know
//! the whole each pass has some or is spent, and what all passes have put is what they have taken and what the queue holds.
//! `painter.rt` is one worker's colouring: a rack graph, a table of cores, and rows of cores of its own; a slot without packets
//! between racks needs none, one into which nothing was written is known at once; a slot with a single packet between racks
//! takes the first core, with no colouring and no row; a slot equal to the one that the worker coloured last takes that one's
//! row, where enough packets were coloured for that to be looked at. It lists each slot whose packets have cores. `seats.rt` has
//! the threads: each worker but the first gets a thread, the caller puts the jobs and plays the first worker, and any whose
//! thread could not be started; at the end the caller, with every part again, takes what nobody took. `paths.rt` opens the
//! workers and lets each, once all have ended, give the core table the rows of the slots that it has listed. `core_table.rt` keeps
//! the rows one behind the other, and for each slot where its row stands; a slot that needs no cores has an empty one, and one
//! whose only core is the first has a part of a band of cells that stands in front. Nothing is allocated after `open`, but for the
//! threads themselves.
#![tactic(auto)]

mod core_table;
mod jobs;
mod laws;
mod painter;
mod paths;
mod seats;

pub use core_table::CoreTable;
pub use edge_colouring::{every_matching_has_clean_cores, limits_are_degrees};
pub use laws::every_named_core_is_below;
pub use no_memory::NoMemory;
pub use paths::Paths;
