//! The rounds of a trace, window after window: what they record is collected into batches, and these get their slots and cores.
//!
//! `engine.rt` is the one engine: it plays a trace for its plan or for its replay, a window of rounds at each step. `step.rt` is what a
//! step gives: two ranges of rounds, what the rounds of the one give, and the tables of the other. `plan.rt` is the engine's plan, by
//! two halves that share nothing: `plan_rounds` makes the batch of each round, with the limits of the trace's net, and tallies what was
//! asked for; `window_allocation` gives batches their slots and cores. A window is shared by the step that gives it and by the plan:
//! once the step is dropped, the window's tables serve the next one. `replay.rt` is its replay: in each step `window_allocation`
//! gives the batches of the window before their slots in a thread of its own, beside it the caller's own work is done and
//! `replay_rounds` plays a window, and then the slots are published. What was played is shared by the step that gives it and by the
//! replay, whose next step allocates its batches.
//! What an engine stands for are `StandsForPlan` and `StandsForReplay` (`specs/Standing.antt`), over what its plan (`PlanStands`) or its
//! replay (`ReplayStands`) stands for: one record a half. `laws.rt` and `replay_laws.rt` have the laws that the program cites: how
//! many steps there are, that a plan's demand is allocated or pending, and that cores can be found for slots that were not reached.
#![tactic(auto)]

mod counts;
mod engine;
mod laws;
mod plan;
mod replay;
mod replay_laws;
mod setting;
mod step;

pub use counts::Counts;
pub use engine::Engine;
pub use laws::{every_plan_balances, every_plan_has_its_slots, every_plan_takes_its_steps};
pub use no_memory::NoMemory;
pub use plan_rounds::{every_plan_adds_what_is_asked, every_plan_is_recorded};
pub use replay_laws::{every_replay_has_cores, every_replay_takes_its_steps};
pub use setting::Setting;
pub use step::Step;
pub use window_allocation::{Span, every_record_has_cores};
