// The lines of what became of each flow's demand in a plan.
ghost use Rattle.std.specs.Prelude.{◌≡◌, ◌<◌};
ghost use Rattle.clos_topology.specs.Network.{endpoints_of};
ghost use Rattle.trace_text.specs.Valid.{IsTrace};
ghost use Rattle.window_engine.specs.Standing.{StandsForPlan};
ghost use Rattle.text_output.specs.Output.{Passes};
ghost use Rattle.run_lines.specs.Text.{text_of, flow_lines_of, flows_of_source, flows_lines};

use fp_edge::Sink;
use greedy_rules::Flow;
use report_text::Line;
use text_output::{Output, Stop};
use trace_text::Trace;
use window_engine::{Counts, Engine};

/// What became of one flow's demand, if there was any.
fn put_flow<K: Sink>(
    output: &mut Output<'_, K>,
    flow: Flow,
    counts: Option<Counts>,
) -> Result<(), Stop>
    ensures { Passes output.old output.new (text_of (flow_lines_of flow counts)) result }
{
    let Some(counts) = counts else {
        return Ok(());
    };
    output.put_line(&Line::Flow {
        src: flow.src,
        dst: flow.dst,
        demanded: counts.demanded,
        allocated: counts.allocated,
        pending: counts.pending,
    })
}

/// What became of the demand of one source's flows.
fn put_source<K: Sink>(
    output: &mut Output<'_, K>,
    trace: &Trace,
    engine: &Engine,
    src: u16,
) -> Result<(), Stop>
    requires accepted { IsTrace trace.now }
    requires stands { StandsForPlan trace.now engine.now }
    requires done { engine.now.allocated ≡ engine.now.rounds }
    requires src { src < endpoints_of trace.now.net }
    ensures { Passes output.old output.new (text_of (flows_of_source engine.now.b trace.now src)) result }
{
    for dst in 0..trace.endpoints() {
        let flow = Flow { src, dst };
        put_flow(output, flow, engine.counts(flow))?;
    }
    Ok(())
}

/// What became of each flow's demand, by source and then destination.
pub fn put_flows<K: Sink>(
    output: &mut Output<'_, K>,
    trace: &Trace,
    engine: &Engine,
) -> Result<(), Stop>
    requires accepted { IsTrace trace.now }
    requires stands { StandsForPlan trace.now engine.now }
    requires done { engine.now.allocated ≡ engine.now.rounds }
    ensures { Passes output.old output.new (text_of (flows_lines engine.now.b trace.now)) result }
{
    for src in 0..trace.endpoints() {
        put_source(output, trace, engine, src)?;
    }
    Ok(())
}
