// The lines of what became of each flow's demand, at the end of a replay.
ghost use Rattle.std.specs.Prelude.{◌≡◌, ◌<◌, ◌≤◌, ◌+◌, IfSome};
ghost use Rattle.clos_topology.specs.Network.{endpoints_of};
ghost use Rattle.clos_topology.specs.NetSlots.{SlotCores};
ghost use Rattle.trace_text.specs.Valid.{IsTrace};
ghost use Rattle.window_engine.specs.Standing.{StandsForReplay, run_of};
ghost use Rattle.text_output.specs.Output.{Passes};
ghost use Rattle.run_lines.specs.Text.{text_of, in_flight_of, count_lines_of, counts_of_source, counts_lines};

use crate::laws::every_count_has_a_flight;
use fp_edge::Sink;
use greedy_rules::Flow;
use report_text::Line;
use text_output::{Output, Stop};
use trace_text::Trace;
use window_engine::{Counts, Engine};

/// The slots of a flow that are allocated and neither acknowledged nor lost.
pub fn flight(counts: Counts) -> u32
    requires { counts.acknowledged + counts.lost ≤ counts.allocated }
    ensures { result ≡ in_flight_of counts }
{
    counts.allocated - counts.acknowledged - counts.lost
}

/// What became of one flow's demand, if there was any.
fn put_count<K: Sink>(
    output: &mut Output<'_, K>,
    flow: Flow,
    counts: Option<Counts>,
) -> Result<(), Stop>
    requires { IfSome counts (λ c. c.acknowledged + c.lost ≤ c.allocated) }
    ensures { Passes output.old output.new (text_of (count_lines_of flow counts)) result }
{
    let Some(counts) = counts else {
        return Ok(());
    };
    output.put_line(&Line::Count {
        src: flow.src,
        dst: flow.dst,
        demanded: counts.demanded,
        acknowledged: counts.acknowledged,
        flight: flight(counts),
        pending: counts.pending,
        lost: counts.lost,
        sent: counts.sent,
        missed: counts.missed,
    })
}

/// What became of the demand of one source's flows.
fn put_source<K: Sink>(
    output: &mut Output<'_, K>,
    trace: &Trace,
    engine: &Engine,
    src: u16,
) -> Result<(), Stop>
    requires accepted { IsTrace trace.now }
    requires stands { (cores : SlotCores) × StandsForReplay trace.now cores engine.now }
    requires done { engine.now.allocated ≡ engine.now.rounds }
    requires src { src < endpoints_of trace.now.net }
    ensures { (cores : SlotCores) → StandsForReplay trace.now cores engine.now →
        Passes output.old output.new (text_of (counts_of_source (run_of trace.now cores engine.now) trace.now src)) result }
{
    every_count_has_a_flight();
    for dst in 0..trace.endpoints() {
        let flow = Flow { src, dst };
        put_count(output, flow, engine.counts(flow))?;
    }
    Ok(())
}

/// What became of each flow's demand, by source and then destination.
pub fn put_counts<K: Sink>(
    output: &mut Output<'_, K>,
    trace: &Trace,
    engine: &Engine,
) -> Result<(), Stop>
    requires accepted { IsTrace trace.now }
    requires stands { (cores : SlotCores) × StandsForReplay trace.now cores engine.now }
    requires done { engine.now.allocated ≡ engine.now.rounds }
    ensures { (cores : SlotCores) → StandsForReplay trace.now cores engine.now →
        Passes output.old output.new (text_of (counts_lines (run_of trace.now cores engine.now) trace.now)) result }
{
    for src in 0..trace.endpoints() {
        put_source(output, trace, engine, src)?;
    }
    Ok(())
}
