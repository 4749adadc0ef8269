//! The lines of what a run gives.
//!
//! `run_lines` gives the lines of each part of a run to an output: `lines.rt` those of batches and slots, `flows.rt` those of a
//! plan's flows, `rounds.rt` and `counts.rt` what a replay has besides.
#![tactic(auto)]

mod counts;
mod flows;
mod laws;
mod lines;
mod rounds;

pub use counts::{flight, put_counts};
pub use flows::put_flows;
pub use laws::every_count_has_a_flight;
pub use lines::{put_batch, put_slots};
pub use rounds::put_round;
pub use text_output::{Output, Stop, put_entries, texts_follow, write_all};
