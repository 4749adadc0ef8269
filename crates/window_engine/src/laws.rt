ghost use Rattle.window_engine.specs.Counts.{EveryPlanBalances};
ghost use Rattle.window_engine.specs.Plan.{EveryPlanTakesItsSteps};
ghost use Rattle.window_engine.specs.Step.{EveryPlanHasItsSlots};

use greedy_rules::{every_schedule_balances, recorded_batches_may_be_applied, schedules_go_on};
use plan_rounds::{every_plan_adds_what_is_asked, every_plan_is_recorded};

/// A law over every trace and batch size: what is asked for of a flow is allocated or pending.
pub fn every_plan_balances()
    ensures { EveryPlanBalances }
{
    every_plan_is_recorded();
    every_plan_adds_what_is_asked();
    recorded_batches_may_be_applied();
    every_schedule_balances();
}

/// A law over every trace and batch size: a batch for each round, and so many slots for each batch.
pub fn every_plan_has_its_slots()
    ensures { EveryPlanHasItsSlots }
{
    every_plan_is_recorded();
    schedules_go_on();
}

/// A law over every number of rounds: an engine is done exactly after as many steps as there are windows.
pub fn every_plan_takes_its_steps()
    ensures { EveryPlanTakesItsSteps }
{}
