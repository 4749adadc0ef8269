//! A ring of workers: each plays its own stages of a window, a stage for a batch, and hands the lists on piece by piece.
//!
//! `ring_core` plays the stages of a window by a ring of workers. Worker i of W has the stages i, i + W and so on; the edge
//! between two workers carries lists in pieces of 64 items. `link.rt` is what a worker sees of its two edges, `edge.rt` an edge
//! that has room for so many pieces, `worker.rt` a worker and its turn, which makes at most one call of its link, `whole.rt` a
//! list that lies whole and counts as its pieces until a turn by itself asks for them, `ring.rt` all workers of a window over
//! list edges: any of them takes the next turn by `step`, `movable` names one whose turn moves a piece, `run_out` plays the
//! window to its end, stage after stage, each worker being fed its whole list at once, and `take` takes the list that is left out
//! and copies the slots; `take_behind` does so behind the slots of batches that came before. `laws.rt` says how much room every
//! window can do with. To change what a turn does, begin at `specs/Turns.antt` and `Worker::turn`; `proofs/MoveLemmas.antt` shows
//! why the worker of the earliest stage can always move, `ServeLemmas.antt` where a worker stands that served its whole list at
//! once, `RunLemmas.antt` and `LyingLemmas.antt` that a window so played is one played turn by turn, `TakeLemmas.antt` what is
//! left in the end.
#![tactic(auto)]

mod edge;
mod laws;
mod link;
mod ring;
mod turn;
mod whole;
mod worker;

pub use laws::{every_window_is_small, small_windows};
pub use link::Link;
pub use no_memory::NoMemory;
pub use ring::{RingCore, open_crew};
pub use turn::Turn;
pub use worker::{Worker, count_pieces};
