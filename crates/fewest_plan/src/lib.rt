//! The text of a plan in which the flow that needs the fewest slots goes first, written whole to a sink.
//!
//! `fewest_plan` writes the text of `plan --policy fewest`. `planner.rt` has the planner: `Collection` makes the batches of up to
//! `g` rounds, `FewestFirst` serves one batch after the other and its slots are copied into the window's table, and the path
//! workers colour the table, so threads are started at most once a window. `plan.rt` gives out window after window, batch by
//! batch; `flows.rt` writes the needs that are left into a table and gives a line for each flow. `laws.rt` has the laws by any
//! key over the batches of a plan.
#![tactic(auto)]

mod flows;
mod laws;
mod plan;
mod planner;

pub use laws::the_plain_text;
pub use plan::write_fewest;
pub use run_text::Sizes;
