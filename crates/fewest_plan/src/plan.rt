ghost use Rattle.std.specs.Prelude.{◌≡◌, ◌≢◌, ◌<◌, ◌≤◌, ◌+◌, length, All, OnOk};
ghost use Rattle.greedy_rules.specs.Examples.{remaining};
ghost use Rattle.clos_topology.specs.NetSlots.{SlotCores};
ghost use Rattle.trace_text.specs.Valid.{IsTrace};
ghost use Rattle.plan_rounds.specs.Batches.{plan_batches};
ghost use Rattle.run_lines.specs.Content.{sink_content};
ghost use Rattle.run_lines.specs.Output.{Passes, EndsText, Writes};
ghost use Rattle.run_lines.specs.Text.{text_of};
ghost use Rattle.run_text.specs.Ledger.{IsBalanced};
ghost use Rattle.run_text.specs.Sizes.{AreSizes};
ghost use Rattle.fewest_plan.specs.Barred.{NoneThatNeedsMoreBarsIn};
ghost use Rattle.fewest_plan.specs.Counts.{AllIsAllocatedOrPendingBy};
ghost use Rattle.fewest_plan.specs.Progress.{IsPlanWindow, lines_of_window, batch_of_window, fewest_window_lines, fewest_rounds_lines};
ghost use Rattle.fewest_plan.specs.Scheduled.{HasCoresBy, WithCoresBy, WithCoresOfWindowBy};
ghost use Rattle.fewest_plan.specs.Standing.{HasPlanned, planner_window};
ghost use Rattle.fewest_plan.specs.Text.{fewest_lines, fewest_text};

use crate::flows::put_flows;
use crate::laws::{
    every_plan_balances, every_plan_has_its_slots, every_record_has_cores,
    none_that_needs_more_bars,
};
use crate::planner::{Planner, Window};
use fp_edge::{Gate, Sink};
use plan_rounds::every_plan_is_recorded;
use report_text::{Line, LineBuffer};
use run_lines::{Output, Stop, put_entries, put_slots, texts_follow};
use run_text::Sizes;
use std::alloc::Global;
use std::sync::Wait;
use std::thread::Threads;
use trace_text::Trace;

/// One batch of a window, counted from 0, with its slots.
fn put_batch<K: Sink>(
    output: &mut Output<'_, K>,
    window: &Window,
    b: u8,
    at: usize,
) -> Result<(), Stop>
    requires b { (0 < b) × (b ≤ 64) }
    requires window { IsPlanWindow b window.now }
    requires at { at < length window.now.batches.items }
    ensures { Passes output.old output.new (text_of (batch_of_window b window.now at)) result }
{
    let number = window.first + at as u32;
    put_entries(output, number, &window.batches[at])?;
    let count = u16::from(b);
    let base = window.first * u32::from(b) + 1;
    let from = at as u16 * count;
    put_slots(output, &window.slots, &window.cores, from, count, base)
}

/// The batches of a window, each with its slots.
fn put_window<K: Sink>(output: &mut Output<'_, K>, window: &Window, b: u8) -> Result<(), Stop>
    requires b { (0 < b) × (b ≤ 64) }
    requires window { IsPlanWindow b window.now }
    ensures { Passes output.old output.new (text_of (lines_of_window b window.now)) result }
{
    texts_follow();
    for at in 0..window.batches.len() {
        put_batch(output, window, b, at)?;
    }
    Ok(())
}

/// Plans the next window of rounds, and gives out its batches and slots.
fn put_step<R: Threads + Wait + Sync, G: Gate + Sync, K: Sink>(
    rt: &R,
    gate: &G,
    trace: &Trace,
    planner: &mut Planner,
    b: u8,
    output: &mut Output<'_, K>,
) -> Result<(), Stop>
    requires accepted { IsTrace trace.now }
    requires stands { HasPlanned trace.now planner.old }
    requires more { planner.old.collection.rounds ≢ trace.now.rounds }
    requires b { planner.old.b ≡ b }
    requires cores { HasCoresBy remaining b trace.now.net (plan_batches trace.now) }
    ensures stands { OnOk result (HasPlanned trace.now planner.new) }
    ensures round { OnOk result (planner.new.collection.rounds ≡ planner.old.collection.rounds + planner_window trace.now planner.old) }
    ensures b { OnOk result (planner.new.b ≡ b) }
    ensures passes { WithCoresOfWindowBy remaining b planner.old.collection.rounds (planner_window trace.now planner.old) trace.now (λ cores.
        Passes output.old output.new (text_of (fewest_window_lines cores b planner.old.collection.rounds (planner_window trace.now planner.old) trace.now)) result) }
{
    texts_follow();
    every_plan_has_its_slots();
    let window = planner.window(rt, gate, trace)?;
    put_window(output, &window, b)
}

/// Plans all rounds.
fn put_rounds<R: Threads + Wait + Sync, G: Gate + Sync, K: Sink>(
    rt: &R,
    gate: &G,
    trace: &Trace,
    planner: &mut Planner,
    b: u8,
    output: &mut Output<'_, K>,
) -> Result<(), Stop>
    requires accepted { IsTrace trace.now }
    requires stands { HasPlanned trace.now planner.old }
    requires start { planner.old.collection.rounds ≡ 0 }
    requires b { planner.old.b ≡ b }
    requires cores { HasCoresBy remaining b trace.now.net (plan_batches trace.now) }
    ensures stands { OnOk result (HasPlanned trace.now planner.new) }
    ensures done { OnOk result (planner.new.collection.rounds ≡ trace.now.rounds) }
    ensures b { OnOk result (planner.new.b ≡ b) }
    ensures passes { WithCoresBy remaining b trace.now (λ cores.
        Passes output.old output.new (text_of (fewest_rounds_lines cores b trace.now.rounds trace.now)) result) }
{
    texts_follow();
    every_plan_has_its_slots();
    while planner.collection.rounds() != trace.rounds() {
        put_step(rt, gate, trace, planner, b, output)?;
    }
    Ok(())
}

/// The text of a plan by need: the batches with their slots, what became of each flow's demand, and the end.
fn put_lines<R: Threads + Wait + Sync, G: Gate + Sync, K: Sink>(
    rt: &R,
    gate: &G,
    alloc: Global,
    trace: &Trace,
    sizes: Sizes,
    output: &mut Output<'_, K>,
) -> Result<(), Stop>
    requires accepted { IsTrace trace.now }
    requires sizes { AreSizes sizes }
    requires cores { HasCoresBy remaining sizes.b trace.now.net (plan_batches trace.now) }
    ensures { WithCoresBy remaining sizes.b trace.now (λ cores. EndsText output.old output.new (fewest_text cores sizes.b trace.now) result) }
{
    texts_follow();
    every_plan_has_its_slots();
    let mut planner = Planner::open(alloc, trace, sizes)?;
    put_rounds(rt, gate, trace, &mut planner, sizes.b, output)?;
    put_flows(output, alloc, trace, &planner)?;
    output.put_last_line(&Line::End {
        rounds: trace.rounds(),
    })
}

/// Plans a trace, the flow that needs the fewest slots first, and writes the text. The whole list goes from batch to batch on one
/// thread, so the number of workers changes nothing; path workers give the slots of a window their cores.
pub fn write_fewest<R: Threads + Wait + Sync, G: Gate + Sync, K: Sink>(
    rt: &R,
    gate: &G,
    alloc: Global,
    trace: &Trace,
    sizes: Sizes,
    sink: &mut K,
) -> Result<(), Stop>
    requires accepted { IsTrace trace.now }
    requires sizes { AreSizes sizes }
    ensures writes { WithCoresBy remaining sizes.b trace.now (λ cores.
        Writes (sink_content K.Sink sink.old) (sink_content K.Sink sink.new) (fewest_text cores sizes.b trace.now) result) }
    ensures barred { NoneThatNeedsMoreBarsIn sizes.b (plan_batches trace.now) }
    ensures ledger { AllIsAllocatedOrPendingBy remaining sizes.b (plan_batches trace.now) }
    ensures balanced { (cores : SlotCores) → All IsBalanced (fewest_lines cores sizes.b trace.now) }
{
    texts_follow();
    every_plan_is_recorded();
    every_record_has_cores();
    every_plan_balances();
    none_that_needs_more_bars();
    let gathered = LineBuffer::open(alloc)?;
    let mut output = Output::new(sink, gathered);
    let written = put_lines(rt, gate, alloc, trace, sizes, &mut output);
    let _sink = output.into_sink();
    written
}
