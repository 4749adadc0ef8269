ghost use Rattle.greedy_rules.specs.Demands.{Key, last_served};
ghost use Rattle.fewest_plan.specs.Barred.{NoneThatNeedsMoreBarsInPlans};
ghost use Rattle.fewest_plan.specs.Counts.{EveryPlanBalancesBy};
ghost use Rattle.fewest_plan.specs.Scheduled.{EveryRecordHasCoresBy, EveryPlanHasItsSlotsBy};
ghost use Rattle.fewest_plan.specs.Ready.{EveryFewestWindowIsReady};
ghost use Rattle.fewest_plan.specs.Standing.{EveryPlanMayBeServed};
ghost use Rattle.fewest_plan.specs.Text.{IsThePlainText};

use fewest_order::none_that_needs_more_bars as none_of_a_batch_that_needs_more_bars;
use greedy_rules::{recorded_batches_by_key, schedules_by_key_balance, schedules_by_key_go_on};
use path_workers::{every_matching_has_clean_cores, limits_are_degrees};
use plan_rounds::{every_plan_adds_what_is_asked, every_plan_is_recorded};

/// By the slot in which a flow was last served, the text by a key is that of a plan as it always was.
pub fn the_plain_text()
    ensures { IsThePlainText last_served }
{}

/// A law over every trace, batch size and key: what is asked for of a flow is allocated or pending.
pub(crate) fn every_plan_balances()
    ensures { (key : Key) → EveryPlanBalancesBy key }
{
    every_plan_is_recorded();
    every_plan_adds_what_is_asked();
    recorded_batches_by_key();
    schedules_by_key_balance();
}

/// A law over every trace, batch size and key: a batch for each round, and so many slots for each batch.
pub(crate) fn every_plan_has_its_slots()
    ensures { (key : Key) → EveryPlanHasItsSlotsBy key }
{
    every_plan_is_recorded();
    schedules_by_key_go_on();
}

/// A law over recorded batches and every key (the SIGCOMM 2014 Fastpass paper, König's theorem): each slot of their schedule is a
/// matching that no waiting demand could join, no rack sends or receives more packets between racks in it than there are cores,
/// and there are cores by which no two packets of a slot use one link.
pub(crate) fn every_record_has_cores()
    ensures { (key : Key) → EveryRecordHasCoresBy key }
{
    recorded_batches_by_key();
    limits_are_degrees();
    every_matching_has_clean_cores();
}

/// A law over every trace and batch size: by need, each batch of its plan may be served on the list that the earlier ones leave.
fn every_plan_may_be_served()
    ensures { EveryPlanMayBeServed }
{
    every_plan_is_recorded();
    recorded_batches_by_key();
}

/// A law over every planner: the batches of its next window may be served, and their slots coloured.
pub(crate) fn every_window_is_ready()
    ensures { EveryFewestWindowIsReady }
{
    every_plan_is_recorded();
    every_plan_may_be_served();
    recorded_batches_by_key();
    schedules_by_key_go_on();
}

/// A law over every plan by need: a flow that waits and is not in a slot is kept out by flows of the slot that stand before it
/// in the batch's start list, none of which needed more as the batch began.
pub(crate) fn none_that_needs_more_bars()
    ensures { NoneThatNeedsMoreBarsInPlans }
{
    every_plan_is_recorded();
    recorded_batches_by_key();
    schedules_by_key_go_on();
    none_of_a_batch_that_needs_more_bars();
}
