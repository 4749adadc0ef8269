//! Laws of the texts of plans and replays: no audit refuses one, and each shows its own cores.
#![tactic(auto)]

mod laws;

pub use laws::{equal_texts_have_the_same_cores, no_plan_has_a_bad_line, no_replay_has_a_bad_line};
