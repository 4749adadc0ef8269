ghost use Rattle.window_engine.specs.Premises.{Replays};
ghost use Rattle.window_engine.specs.Replay.{EveryReplayHasCores, CoresGoOn, EveryReplayTakesItsSteps};

use greedy_rules::schedules_go_on;
use replay_rounds::every_setting_is_of_a_trace;
use trace_run::{
    cores_decide_nothing, every_run_is_recorded, runs_go_on, steps_go_on, windows_make_the_schedule,
};
use window_allocation::every_record_has_cores;

/// The laws that the steps of a replay rest on.
pub(crate) fn replays_hold()
    ensures { Replays }
{
    every_setting_is_of_a_trace();
    every_run_is_recorded();
    runs_go_on();
    windows_make_the_schedule();
    steps_go_on();
    schedules_go_on();
}

/// A law over every replay: there are cores by which no two packets of a slot use one link, and those that were found for the first
/// slots can be kept.
pub fn every_replay_has_cores()
    ensures has { EveryReplayHasCores }
    ensures goes_on { CoresGoOn }
{
    replays_hold();
    every_record_has_cores();
    cores_decide_nothing();
}

/// A law over every number of rounds: a replay is done exactly after as many steps as there are windows, and one more.
pub fn every_replay_takes_its_steps()
    ensures { EveryReplayTakesItsSteps }
{}
