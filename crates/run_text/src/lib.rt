//! The texts of a plan, of a replay and of a made trace, each written whole to a sink.
//!
//! `run_text` writes the whole text of a command to a sink. `plan.rt` takes the engine from window to window and gives out each,
//! `replay.rt` the replay from step to step, `make.rt` that of a made trace, which gives out nothing but the sums of its counts
//! (`sums.rt`). `specs/Progress.antt` says what is given out for a window, and `specs/ReplayProgress.antt` for a step.
#![tactic(auto)]

mod make;
mod plan;
mod replay;
mod sizes;
mod sums;

pub use make::write_made;
pub use plan::write_plan;
pub use replay::write_replay;
pub use sizes::Sizes;
