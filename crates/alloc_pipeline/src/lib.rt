//! The batches of a window, allocated one after the other by a ring of workers, each in a thread of its own: they hand the demand
//! list on to one another piece by piece, through queues under a rule.
//!
//! `alloc_pipeline` allocates the batches of a window from the list that it is handed, the whole of it, by a ring of workers in
//! threads. `ring.rt` has `Ring`; `specs/Ring.antt` says what a call asks and does: the table holds the schedule of the batches
//! on that list, the list is what they leave, and each edge has brought its worker its whole stream. An edge is a ruled queue of
//! `crossbeam_queue`: `rule.rt` has its rule and the nine kinds of step, `parcel.rt` what lies in it, `edge.rt` each step as a
//! call. `link.rt` is what a worker sees of its two edges; `player.rt` lets it take turns until its stages have ended; `play.rt`
//! starts the threads, plays the other workers and those whose threads were refused on the caller's, and waits for all; `start.rt`
//! and `ends.rt` bring a window's list in and out, `rejoin.rt` joins the passes of each edge again, `resting.rt` is what a window
//! takes and gives back, `crew.rt` keeps all of it from window to window. `proofs/Crossing.antt`: a ring may go to a thread.
#![tactic(auto)]

mod crew;
mod edge;
mod ends;
mod link;
mod parcel;
mod play;
mod player;
mod rejoin;
mod resting;
mod ring;
mod rule;
mod start;

pub use no_memory::NoMemory;
pub use ring::Ring;
