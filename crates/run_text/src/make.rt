// What `make` does: it makes a trace, replays it and writes one line.
ghost use Rattle.std.specs.Prelude.{◌≡◌, ◌≤◌, IfOk, OnOk};
ghost use Rattle.clos_topology.specs.Network.{endpoints_of};
ghost use Rattle.clos_topology.specs.NetSlots.{SlotCores, AreSlotCores};
ghost use Rattle.trace_text.specs.Valid.{IsTrace};
ghost use Rattle.trace_run.specs.Shown.{IsShown};
ghost use Rattle.replay_rounds.specs.Setting.{setting_of};
ghost use Rattle.window_engine.specs.Standing.{StandsForReplay};
ghost use Rattle.run_text.specs.Made.{made_net, trace_of_number, made_run, made_sums, made_text, counts_of_run, sums_of, SumsBalance};
ghost use Rattle.run_lines.specs.Content.{sink_content};
ghost use Rattle.run_lines.specs.Output.{Writes};
ghost use Rattle.run_text.specs.Sizes.{AreSizes};

use crate::replay::open_replay;
use crate::sizes::Sizes;
use crate::sums::{Sums, sum_counts};
use clos_topology::Net;
use fp_edge::{Gate, Sink};
use report_text::LineBuffer;
use run_lines::{Output, Stop, texts_follow};
use std::alloc::Global;
use std::sync::Wait;
use std::thread::Threads;
use trace_run::{
    cores_are_only_told, cores_decide_nothing, every_flow_is_counted, every_replay_shows,
};
use trace_text::{Trace, make_trace};
use window_engine::{Engine, NoMemory};

/// The racks of a made trace's net.
const RACKS: u16 = 8;

/// The hosts of each rack.
const HOSTS: u16 = 16;

/// The core switches.
const CORES: u16 = 16;

/// The rounds of a made trace.
const ROUNDS: u32 = 400;

/// The net of a made trace.
fn net() -> Net
    ensures net { result ≡ made_net }
    ensures some { 2 ≤ endpoints_of result }
{
    let Ok(net) = Net::new(RACKS, HOSTS, CORES) else {
        unreachable!()
    };
    net
}

/// The trace that a number makes.
fn trace_of_number(alloc: Global, number: u32) -> Result<Trace, NoMemory>
    ensures trace { IfOk result (λ trace. trace ≡ trace_of_number number) }
    ensures sound { IfOk result IsTrace }
{
    let trace = make_trace(alloc, number, net(), ROUNDS)?;
    let _rounds = trace.rounds();
    Ok(trace)
}

/// Replays all rounds, and gives nothing out.
fn play<R: Threads + Wait + Sync, G: Gate + Sync>(
    rt: &R,
    gate: &G,
    trace: &Trace,
    replay: &mut Engine,
) -> Result<(), NoMemory>
    requires accepted { IsTrace trace.now }
    requires stands { (cores : SlotCores) → AreSlotCores cores → StandsForReplay trace.now cores replay.old }
    requires allocated { replay.old.allocated ≡ 0 }
    ensures stands { OnOk result ((cores : SlotCores) × StandsForReplay trace.now cores replay.new) }
    ensures done { OnOk result (replay.new.allocated ≡ replay.new.rounds) }
    ensures b { OnOk result (replay.new.b ≡ replay.old.b) }
    ensures g { OnOk result (replay.new.g ≡ replay.old.g) }
{
    while !replay.done() {
        let _step = replay.step(rt, gate, trace)?;
    }
    Ok(())
}

/// The sums of the counts of a trace's replay, which are the same for all cores.
fn replay_sums<R: Threads + Wait + Sync, G: Gate + Sync>(
    rt: &R,
    gate: &G,
    alloc: Global,
    trace: &Trace,
    sizes: Sizes,
) -> Result<Sums, NoMemory>
    requires accepted { IsTrace trace.now }
    requires sizes { AreSizes sizes }
    ensures { IfOk result (λ sums. (cores : SlotCores) →
        sums ≡ sums_of (counts_of_run (setting_of trace.now sizes.b sizes.g cores) trace.now.rounds)) }
{
    cores_decide_nothing();
    cores_are_only_told();
    let mut replay = open_replay(alloc, trace, sizes)?;
    let engine = &mut *replay;
    play(rt, gate, trace, engine)?;
    Ok(sum_counts(trace, engine))
}

/// Replays the trace that a number makes, and writes the line of its sums.
fn put_sums<R: Threads + Wait + Sync, G: Gate + Sync, K: Sink>(
    rt: &R,
    gate: &G,
    alloc: Global,
    number: u32,
    sizes: Sizes,
    sink: &mut K,
) -> Result<(), Stop>
    requires { AreSizes sizes }
    ensures { (cores : SlotCores) →
        Writes (sink_content K.Sink sink.old) (sink_content K.Sink sink.new) (made_text number sizes.b sizes.g cores) result }
{
    texts_follow();
    let trace = trace_of_number(alloc, number)?;
    let sums = replay_sums(rt, gate, alloc, &trace, sizes)?;
    let gathered = LineBuffer::open(alloc)?;
    let mut output = Output::new(sink, gathered);
    let written = output.put_last_line(&sums.line(number));
    let _sink = output.into_sink();
    written
}

/// Replays the trace that a number makes, and writes the sums of its counts.
pub fn write_made<R: Threads + Wait + Sync, G: Gate + Sync, K: Sink>(
    rt: &R,
    gate: &G,
    alloc: Global,
    number: u32,
    sizes: Sizes,
    sink: &mut K,
) -> Result<(), Stop>
    requires sizes { AreSizes sizes }
    ensures writes { (cores : SlotCores) →
        Writes (sink_content K.Sink sink.old) (sink_content K.Sink sink.new) (made_text number sizes.b sizes.g cores) result }
    ensures balanced { (cores : SlotCores) → SumsBalance (made_sums number sizes.b sizes.g cores) }
    ensures shown { (cores : SlotCores) → IsShown (made_run number sizes.b sizes.g cores) (trace_of_number number).rounds }
{
    every_flow_is_counted();
    every_replay_shows();
    put_sums(rt, gate, alloc, number, sizes, sink)
}
