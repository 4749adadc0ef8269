//! The batches of a net, window after window: each gets its slots by a ring of workers, and these their cores by path workers.
//! Items that need nothing in a window, or that its batches can't choose, are set aside for it.
//!
//! `window_allocation` gives the batches of a net their slots and cores, window after window, and knows neither rounds nor
//! traces. `allocation.rt` has `Allocation`, with the ring, the demand that is left and the path workers: `specs/Standing.antt`
//! says what it stands for, the batches that it has done, wherever they come from, and `specs/Giving.antt` what a window asks and
//! gives (`window.rt`). `specs/Handed.antt` says what the ring was handed of it. `runs.rt` hands the ring what may change:
//! `batches.rt` counts the batches that change nothing, which are passed over, and those of a run, which are played together.
//! `window_list.rt` keeps the demand that is left: in a list, or, while windows pick little of it, in logs, of which a window costs
//! what it picks (`item_log.rt`, `demand_log.rt`, `specs/Logged.antt`, `specs/WindowLists.antt`). Picked are the items that need a
//! slot or have an entry in the window; the batches run over them alone, and what they leave of them takes their places.
//! Else `guess.rt` guesses which items the batches can choose, these run over those, and `reach.rt` tests by the slots that came
//! out that none of the others would be chosen: `end_words.rt` has the slots of each endpoint as words, `flow_slots.rt` those of
//! each flow (`proofs/ReachLemmas.antt`, `proofs/Choice.antt`, `proofs/PartLemmas.antt`); where one would, they run over the whole
//! list. `weave.rt` puts the list together again from place to place, the items that were set aside between two of them at once
//! (`proofs/Places.antt` says why that is the list). The slots of a run stand behind those of the batches before it. `needs.rt`
//! writes down the demand that is left. `proofs/Crossing.antt`: all of it may go to a thread.
#![tactic(auto)]

mod allocation;
mod batches;
mod demand_log;
mod end_words;
mod flow_slots;
mod guess;
mod in_place;
mod item_log;
mod laws;
mod marked;
mod needs;
mod picked;
mod reach;
mod runs;
mod weave;
mod window;
mod window_list;

pub use allocation::Allocation;
pub use laws::every_record_has_cores;
pub use needs::place;
pub use no_memory::NoMemory;
pub use window::{Span, Window};
