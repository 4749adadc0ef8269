ghost use Rattle.own_texts.specs.Plans.{NoPlanHasABadLine};
ghost use Rattle.own_texts.specs.Premises.{SlotsPremises, EndsPremises, RunsPremises};
ghost use Rattle.own_texts.specs.Replays.{NoReplayHasABadLine};
ghost use Rattle.own_texts.specs.SameCores.{EqualPlansHaveTheSameCores, EqualReplaysHaveTheSameCores};

use endpoint_history::{
    agents_count_slots, counts_are_bounded, ledger_and_demand_list_agree, rounds_are_calls,
};
use greedy_rules::{
    every_batch_balances, every_schedule_balances, every_slot_is_in_range,
    every_slots_flows_are_of_entries, schedules_go_on,
};
use replay_rounds::{every_refusal_has_a_number, every_setting_is_of_a_trace};
use schedule_audit::{
    a_text_of_batches_has_no_bad_line, counts_begin_at_the_last_clear, each_text_has_one_reading,
    each_text_is_read,
};
use trace_run::{
    agents_boot_and_are_asked, every_flow_is_counted, every_run_is_applicable,
    every_run_is_recorded, every_send_is_scheduled, ledger_and_rest_agree, runs_go_on,
};
use window_engine::{
    every_plan_adds_what_is_asked, every_plan_balances, every_plan_is_recorded,
    every_replay_takes_its_steps,
};

/// A law over every plan: with cores by which each slot is scheduled on paths that share no link, its text has no bad line, so
/// no audit refuses it.
pub fn no_plan_has_a_bad_line()
    ensures { NoPlanHasABadLine }
{
    schedules_go_on();
    every_slot_is_in_range();
    every_plan_is_recorded();
    every_plan_adds_what_is_asked();
    every_plan_balances();
    each_text_is_read();
    each_text_has_one_reading();
    a_text_of_batches_has_no_bad_line();
}

/// The same law over every replay, whatever is lost, held back, repeated or forged, and however often endpoints boot.
pub fn no_replay_has_a_bad_line()
    ensures { NoReplayHasABadLine }
{
    slots_hold();
    ends_hold();
    runs_hold();
    each_text_is_read();
    each_text_has_one_reading();
    a_text_of_batches_has_no_bad_line();
}

/// A law over every two texts of plans, and every two of replays: where they are equal byte for byte, whatever traces they were
/// made from, their slots have the same cores. So a text shows its own cores.
pub fn equal_texts_have_the_same_cores()
    ensures plans { EqualPlansHaveTheSameCores }
    ensures replays { EqualReplaysHaveTheSameCores }
{
    no_plan_has_a_bad_line();
    no_replay_has_a_bad_line();
    every_plan_is_recorded();
    every_plan_adds_what_is_asked();
    every_plan_balances();
    slots_hold();
    ends_hold();
    runs_hold();
}

/// The laws of schedules.
fn slots_hold()
    ensures { SlotsPremises }
{
    schedules_go_on();
    every_batch_balances();
    every_schedule_balances();
    every_slots_flows_are_of_entries();
    every_slot_is_in_range();
    counts_begin_at_the_last_clear();
}

/// The laws of both ends of a connection.
fn ends_hold()
    ensures { EndsPremises }
{
    agents_count_slots();
    counts_are_bounded();
    ledger_and_demand_list_agree();
    rounds_are_calls();
}

/// The laws of runs and of replays.
fn runs_hold()
    ensures { RunsPremises }
{
    runs_go_on();
    agents_boot_and_are_asked();
    every_run_is_applicable();
    every_run_is_recorded();
    ledger_and_rest_agree();
    every_flow_is_counted();
    every_send_is_scheduled();
    every_refusal_has_a_number();
    every_setting_is_of_a_trace();
    every_replay_takes_its_steps();
}
