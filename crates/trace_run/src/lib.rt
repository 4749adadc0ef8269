//! The run of a whole trace: every endpoint's rounds, tied by the schedule of the batches that they record.
//!
//! `trace_run` has no code that runs: it is the model of a whole replay and what holds of it. An engine is proved against
//! `replayed`: it stands for a run of which some rounds are collected and the batches of some are allocated, and the laws give
//! what each part of a step asks of it. `every_run_is_recorded`: the batches may be allocated. `windows_make_the_schedule`,
//! `steps_go_on`: window by window it is the one schedule, and what is to be told is published. `what_is_told_is_allocated`,
//! `what_is_told_keeps_the_rules`: the conditions of the lanes when they are handed slots. `agents_boot_and_are_asked`: those of
//! the agents when they boot and are asked. `lanes_are_told_of_slots`: their conditions when slots are published.
//! `ledger_and_rest_agree`, `every_flow_is_counted`: the counts at the end.
#![tactic(auto)]

mod laws;

pub use laws::{
    agents_boot_and_are_asked, cores_are_only_told, cores_decide_nothing, every_flow_is_counted,
    every_replay_shows, every_run_is_applicable, every_run_is_recorded, every_send_is_scheduled,
    lanes_are_told_of_slots, ledger_and_rest_agree, no_loss_or_boot_harms_a_run, runs_go_on,
    small_runs, steps_go_on, what_is_told_is_allocated, what_is_told_keeps_the_rules,
    windows_make_the_schedule,
};
