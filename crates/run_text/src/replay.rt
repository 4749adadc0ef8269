ghost use Rattle.std.specs.Prelude.{◌≡◌, ◌≢◌, ◌<◌, ◌≤◌, ◌+◌, Some, Err, IfOk, IfErr, OnOk, ⊤, length};
ghost use Rattle.clos_topology.specs.NetSlots.{SlotCores, AreSlotCores};
ghost use Rattle.trace_text.specs.Valid.{IsTrace};
ghost use Rattle.trace_run.specs.Shown.{IsShown};
ghost use Rattle.replay_rounds.specs.Setting.{setting_of};
ghost use Rattle.window_engine.specs.Standing.{StandsForReplay, engine_window};
ghost use Rattle.run_lines.specs.Content.{sink_content};
ghost use Rattle.run_lines.specs.Output.{Passes, Passed, EndsText, Writes};
ghost use Rattle.run_lines.specs.Steps.{StepIsPlayed};
ghost use Rattle.run_lines.specs.Text.{text_of};
ghost use Rattle.run_text.specs.ReplayProgress.{HasSlots, played_lines, step_text_lines, held_lines, MayGiveHeld, HoldsStep, GivesSteps};
ghost use Rattle.run_text.specs.ReplayScheduled.{WithReplayCores};
ghost use Rattle.run_text.specs.ReplayText.{replay_lines, replay_text};
ghost use Rattle.run_text.specs.Ledger.{LedgerIsKept};
ghost use Rattle.run_text.specs.Sends.{SendsAreScheduled};
ghost use Rattle.run_text.specs.Sizes.{AreSizes};

use crate::sizes::Sizes;
use fp_edge::{Gate, Sink};
use greedy_rules::schedules_go_on;
use replay_rounds::every_refusal_has_a_number;
use report_text::{Line, LineBuffer};
use run_lines::{Output, Stop, put_counts, put_round, put_slots, texts_follow};
use std::alloc::Global;
use std::sync::Wait;
use std::thread::Threads;
use trace_run::{
    cores_decide_nothing, every_replay_shows, every_run_is_applicable, every_send_is_scheduled,
    runs_go_on,
};
use trace_text::Trace;
use window_engine::{Engine, NoMemory, Step, every_replay_has_cores, every_replay_takes_its_steps};

/// The replay of a trace, before its first round. An engine has many parts, which are dropped in one place where it stands in a box.
pub(crate) fn open_replay(
    alloc: Global,
    trace: &Trace,
    sizes: Sizes,
) -> Result<Box<Engine>, NoMemory>
    requires { AreSizes sizes }
    ensures stands { IfOk result (λ replay. (cores : SlotCores) → AreSlotCores cores → StandsForReplay trace.now cores replay.value) }
    ensures b { IfOk result (λ replay. replay.value.b ≡ sizes.b) }
    ensures g { IfOk result (λ replay. replay.value.g ≡ sizes.g) }
    ensures collected { IfOk result (λ replay. replay.value.collected ≡ 0) }
    ensures allocated { IfOk result (λ replay. replay.value.allocated ≡ 0) }
    ensures paths { IfOk result (λ replay. replay.value.allocation.paths.paths ≡ sizes.paths) }
{
    let engine = Engine::open(alloc, trace, sizes.setting(true))?;
    Ok(Box::new(alloc, engine)?)
}

/// The rounds that a step played.
fn put_played<K: Sink>(output: &mut Output<'_, K>, step: &Step) -> Result<(), Stop>
    requires { StepIsPlayed step.now }
    ensures { Passes output.old output.new (text_of (played_lines step.now.collected.first step.now.played (length step.now.played.batches))) result }
{
    texts_follow();
    let count = step.batches().len() as u32;
    for at in 0..count {
        put_round(output, step, at)?;
    }
    Ok(())
}

/// The rounds that a step played, and then the slots of the batches that it allocated.
fn put_lines_of_step<K: Sink>(output: &mut Output<'_, K>, step: &Step, b: u8) -> Result<(), Stop>
    requires b { (0 < b) × (b ≤ 64) }
    requires played { StepIsPlayed step.now }
    requires slots { HasSlots b step.now }
    ensures { Passes output.old output.new (text_of (step_text_lines b step.now)) result }
{
    texts_follow();
    put_played(output, step)?;
    let span = step.allocated();
    let count = span.count as u16 * u16::from(b);
    let base = span.first * u32::from(b) + 1;
    put_slots(output, step.slots(), step.cores(), 0, count, base)
}

/// The lines of the step that is held, if one is.
fn put_held<K: Sink>(output: &mut Output<'_, K>, held: &Option<Step>, b: u8) -> Result<(), Stop>
    requires b { (0 < b) × (b ≤ 64) }
    requires held { MayGiveHeld b held.now }
    ensures { Passes output.old output.new (text_of (held_lines b held.now)) result }
{
    texts_follow();
    match held {
        Some(step) => put_lines_of_step(output, step, b),
        None => Ok(()),
    }
}

/// Plays the next window of rounds and allocates the one before, and beside that gives out the step that is held.
fn play_step<R: Threads + Wait + Sync, G: Gate + Sync, K: Sink>(
    rt: &R,
    gate: &G,
    trace: &Trace,
    replay: &mut Engine,
    b: u8,
    held: &Option<Step>,
    output: &mut Output<'_, K>,
) -> Result<Step, Stop>
    requires accepted { IsTrace trace.now }
    requires stands { (cores : SlotCores) × StandsForReplay trace.now cores replay.old }
    requires more { replay.old.allocated ≢ replay.old.rounds }
    requires b { replay.old.b ≡ b }
    requires held { MayGiveHeld b held.now }
    ensures rounds { OnOk result (replay.new.rounds ≡ replay.old.rounds) }
    ensures b { OnOk result (replay.new.b ≡ b) }
    ensures g { OnOk result (replay.new.g ≡ replay.old.g) }
    ensures collected { OnOk result (replay.new.collected ≡ replay.old.collected + engine_window replay.old) }
    ensures allocated { OnOk result (replay.new.allocated ≡ replay.old.collected) }
    ensures held { IfOk result (λ step. MayGiveHeld b (Some step)) }
    ensures step { IfOk result (HoldsStep b trace.now replay.old replay.new) }
    ensures passed { OnOk result (Passed output.old output.new (text_of (held_lines b held.now))) }
    ensures stopped { IfErr result (λ stop. Passes output.old output.new (text_of (held_lines b held.now)) (Err stop)) }
{
    texts_follow();
    every_refusal_has_a_number();
    let mut written = Ok(());
    let mut writes = || -> ()
        requires b { (0 < b) × (b ≤ 64) }
        requires held { MayGiveHeld b held.now }
        ensures { Passes output.entry.now output.exit.now (text_of (held_lines b held.entry.now)) written.exit }
    {
        written = put_held(output, held, b);
    };
    let played = replay.step_beside(rt, gate, trace, &mut writes);
    written?;
    Ok(played?)
}

/// Replays all rounds.
fn put_steps<R: Threads + Wait + Sync, G: Gate + Sync, K: Sink>(
    rt: &R,
    gate: &G,
    trace: &Trace,
    replay: &mut Engine,
    b: u8,
    output: &mut Output<'_, K>,
) -> Result<(), Stop>
    requires accepted { IsTrace trace.now }
    requires stands { (cores : SlotCores) → AreSlotCores cores → StandsForReplay trace.now cores replay.old }
    requires collected { replay.old.collected ≡ 0 }
    requires allocated { replay.old.allocated ≡ 0 }
    requires b { replay.old.b ≡ b }
    requires cores { WithReplayCores b replay.old.g trace.now (λ cores. ⊤) }
    ensures rounds { OnOk result (replay.new.rounds ≡ replay.old.rounds) }
    ensures b { OnOk result (replay.new.b ≡ b) }
    ensures g { OnOk result (replay.new.g ≡ replay.old.g) }
    ensures done { OnOk result (replay.new.allocated ≡ replay.new.rounds) }
    ensures passes { WithReplayCores b replay.old.g trace.now
        (GivesSteps b replay.old.g trace.now replay.new output.old output.new result) }
{
    texts_follow();
    cores_decide_nothing();
    runs_go_on();
    schedules_go_on();
    every_replay_takes_its_steps();
    let mut held = None;
    while !replay.done() {
        let step = play_step(rt, gate, trace, replay, b, &held, output)?;
        held = Some(step);
    }
    put_held(output, &held, b)
}

/// The text of a replay: its steps, what became of each flow's demand, and the end.
fn put_lines<R: Threads + Wait + Sync, G: Gate + Sync, K: Sink>(
    rt: &R,
    gate: &G,
    alloc: Global,
    trace: &Trace,
    sizes: Sizes,
    output: &mut Output<'_, K>,
) -> Result<(), Stop>
    requires accepted { IsTrace trace.now }
    requires sizes { AreSizes sizes }
    requires cores { WithReplayCores sizes.b sizes.g trace.now (λ cores. ⊤) }
    ensures { WithReplayCores sizes.b sizes.g trace.now (λ cores.
        EndsText output.old output.new (replay_text cores sizes.b sizes.g trace.now) result) }
{
    texts_follow();
    let mut replay = open_replay(alloc, trace, sizes)?;
    let engine = &mut *replay;
    put_steps(rt, gate, trace, engine, sizes.b, output)?;
    put_counts(output, trace, engine)?;
    output.put_last_line(&Line::End {
        rounds: trace.rounds(),
    })
}

/// Replays a trace and writes the text.
pub fn write_replay<R: Threads + Wait + Sync, G: Gate + Sync, K: Sink>(
    rt: &R,
    gate: &G,
    alloc: Global,
    trace: &Trace,
    sizes: Sizes,
    sink: &mut K,
) -> Result<(), Stop>
    requires accepted { IsTrace trace.now }
    requires sizes { AreSizes sizes }
    ensures writes { WithReplayCores sizes.b sizes.g trace.now (λ cores.
        Writes (sink_content K.Sink sink.old) (sink_content K.Sink sink.new) (replay_text cores sizes.b sizes.g trace.now) result) }
    ensures shown { (cores : SlotCores) → IsShown (setting_of trace.now sizes.b sizes.g cores) trace.now.rounds }
    ensures sends { (cores : SlotCores) → let setting = setting_of trace.now sizes.b sizes.g cores in
        SendsAreScheduled setting trace.now.rounds (replay_lines cores setting trace.now) }
    ensures ledger { (cores : SlotCores) → let setting = setting_of trace.now sizes.b sizes.g cores in
        LedgerIsKept setting trace.now.rounds (replay_lines cores setting trace.now) }
{
    texts_follow();
    cores_decide_nothing();
    every_replay_has_cores();
    every_replay_shows();
    every_send_is_scheduled();
    every_run_is_applicable();
    every_replay_takes_its_steps();
    let gathered = LineBuffer::open(alloc)?;
    let mut output = Output::new(sink, gathered);
    let written = put_lines(rt, gate, alloc, trace, sizes, &mut output);
    let _sink = output.into_sink();
    written
}
