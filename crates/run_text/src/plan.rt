ghost use Rattle.std.specs.Prelude.{◌≡◌, ◌≢◌, ◌<◌, ◌≤◌, ◌+◌, All, IfOk, OnOk};
ghost use Rattle.clos_topology.specs.NetSlots.{SlotCores};
ghost use Rattle.trace_text.specs.Valid.{IsTrace};
ghost use Rattle.window_engine.specs.Batches.{plan_batches};
ghost use Rattle.window_engine.specs.Counts.{AllIsAllocatedOrPending};
ghost use Rattle.window_engine.specs.Scheduled.{HasCores};
ghost use Rattle.window_engine.specs.Standing.{StandsForPlan, engine_window};
ghost use Rattle.run_lines.specs.Content.{sink_content};
ghost use Rattle.run_lines.specs.Output.{Passes, EndsText, Writes};
ghost use Rattle.run_lines.specs.Steps.{IsStepWindow};
ghost use Rattle.run_lines.specs.Text.{text_of};
ghost use Rattle.run_text.specs.Ledger.{IsBalanced};
ghost use Rattle.run_text.specs.PlanText.{plan_lines, plan_text};
ghost use Rattle.run_text.specs.Progress.{lines_of_step, next_lines, rounds_lines};
ghost use Rattle.run_text.specs.Scheduled.{WithCores, WithCoresOfNext};
ghost use Rattle.run_text.specs.Sizes.{AreSizes};

use crate::sizes::Sizes;
use fp_edge::{Gate, Sink};
use report_text::{Line, LineBuffer};
use run_lines::{Output, Stop, put_batch, put_flows, texts_follow};
use std::alloc::Global;
use std::sync::Wait;
use std::thread::Threads;
use trace_text::Trace;
use window_engine::{
    Engine, NoMemory, Step, every_plan_balances, every_plan_has_its_slots, every_plan_is_recorded,
    every_record_has_cores,
};

/// The engine of a plan, before its first round. It has many parts, which are dropped in one place where it stands in a box.
fn open_engine(alloc: Global, trace: &Trace, sizes: Sizes) -> Result<Box<Engine>, NoMemory>
    requires { AreSizes sizes }
    ensures stands { IfOk result (λ engine. StandsForPlan trace.now engine.value) }
    ensures start { IfOk result (λ engine. engine.value.collected ≡ 0) }
    ensures b { IfOk result (λ engine. engine.value.b ≡ sizes.b) }
    ensures paths { IfOk result (λ engine. engine.value.allocation.paths.paths ≡ sizes.paths) }
{
    let engine = Engine::open(alloc, trace, sizes.setting(false))?;
    Ok(Box::new(alloc, engine)?)
}

/// The batches of a step, each with its slots.
fn put_window<K: Sink>(output: &mut Output<'_, K>, step: &Step, b: u8) -> Result<(), Stop>
    requires b { (0 < b) × (b ≤ 64) }
    requires window { IsStepWindow b step.now }
    ensures { Passes output.old output.new (text_of (lines_of_step b step.now)) result }
{
    texts_follow();
    let span = step.allocated();
    for at in 0..span.count {
        put_batch(output, step, b, at)?;
    }
    Ok(())
}

/// Plans the next window of rounds, and gives out its batches and slots.
fn put_step<R: Threads + Wait + Sync, G: Gate + Sync, K: Sink>(
    rt: &R,
    gate: &G,
    trace: &Trace,
    engine: &mut Engine,
    b: u8,
    output: &mut Output<'_, K>,
) -> Result<(), Stop>
    requires accepted { IsTrace trace.now }
    requires stands { StandsForPlan trace.now engine.old }
    requires more { engine.old.allocated ≢ engine.old.rounds }
    requires b { engine.old.b ≡ b }
    requires cores { HasCores b trace.now.net (plan_batches trace.now) }
    ensures stands { OnOk result (StandsForPlan trace.now engine.new) }
    ensures round { OnOk result (engine.new.collected ≡ engine.old.collected + engine_window engine.old) }
    ensures rounds { OnOk result (engine.new.rounds ≡ engine.old.rounds) }
    ensures b { OnOk result (engine.new.b ≡ b) }
    ensures passes { WithCoresOfNext b trace.now engine.old (λ cores.
        Passes output.old output.new (text_of (next_lines cores b trace.now engine.old)) result) }
{
    texts_follow();
    every_plan_has_its_slots();
    let step = engine.step(rt, gate, trace)?;
    put_window(output, &step, b)
}

/// Plans all rounds.
fn put_rounds<R: Threads + Wait + Sync, G: Gate + Sync, K: Sink>(
    rt: &R,
    gate: &G,
    trace: &Trace,
    engine: &mut Engine,
    b: u8,
    output: &mut Output<'_, K>,
) -> Result<(), Stop>
    requires accepted { IsTrace trace.now }
    requires stands { StandsForPlan trace.now engine.old }
    requires start { engine.old.collected ≡ 0 }
    requires b { engine.old.b ≡ b }
    requires cores { HasCores b trace.now.net (plan_batches trace.now) }
    ensures stands { OnOk result (StandsForPlan trace.now engine.new) }
    ensures done { OnOk result (engine.new.allocated ≡ engine.new.rounds) }
    ensures b { OnOk result (engine.new.b ≡ b) }
    ensures passes { WithCores b trace.now (λ cores.
        Passes output.old output.new (text_of (rounds_lines cores b trace.now.rounds trace.now)) result) }
{
    texts_follow();
    every_plan_has_its_slots();
    while !engine.done() {
        put_step(rt, gate, trace, engine, b, output)?;
    }
    Ok(())
}

/// The text of a plan: the batches with their slots, what became of each flow's demand, and the end.
fn put_lines<R: Threads + Wait + Sync, G: Gate + Sync, K: Sink>(
    rt: &R,
    gate: &G,
    alloc: Global,
    trace: &Trace,
    sizes: Sizes,
    output: &mut Output<'_, K>,
) -> Result<(), Stop>
    requires accepted { IsTrace trace.now }
    requires sizes { AreSizes sizes }
    requires cores { HasCores sizes.b trace.now.net (plan_batches trace.now) }
    ensures { WithCores sizes.b trace.now (λ cores. EndsText output.old output.new (plan_text cores sizes.b trace.now) result) }
{
    texts_follow();
    every_plan_has_its_slots();
    let mut plan = open_engine(alloc, trace, sizes)?;
    let engine = &mut *plan;
    put_rounds(rt, gate, trace, engine, sizes.b, output)?;
    put_flows(output, trace, engine)?;
    output.put_last_line(&Line::End {
        rounds: trace.rounds(),
    })
}

/// Plans a trace and writes the text.
pub fn write_plan<R: Threads + Wait + Sync, G: Gate + Sync, K: Sink>(
    rt: &R,
    gate: &G,
    alloc: Global,
    trace: &Trace,
    sizes: Sizes,
    sink: &mut K,
) -> Result<(), Stop>
    requires accepted { IsTrace trace.now }
    requires sizes { AreSizes sizes }
    ensures writes { WithCores sizes.b trace.now (λ cores.
        Writes (sink_content K.Sink sink.old) (sink_content K.Sink sink.new) (plan_text cores sizes.b trace.now) result) }
    ensures ledger { AllIsAllocatedOrPending sizes.b (plan_batches trace.now) }
    ensures balanced { (cores : SlotCores) → All IsBalanced (plan_lines cores sizes.b trace.now) }
{
    texts_follow();
    every_plan_is_recorded();
    every_record_has_cores();
    every_plan_balances();
    let gathered = LineBuffer::open(alloc)?;
    let mut output = Output::new(sink, gathered);
    let written = put_lines(rt, gate, alloc, trace, sizes, &mut output);
    let _sink = output.into_sink();
    written
}
