// The lines of what became of each flow's demand.
ghost use Rattle.std.specs.Prelude.{◌≡◌, ◌<◌, ◌≤◌, ◌*◌, length};
ghost use Rattle.greedy_rules.specs.Demands.{HasEachFlowOnce, AreBelow};
ghost use Rattle.greedy_rules.specs.Examples.{remaining};
ghost use Rattle.clos_topology.specs.Network.{endpoints_of};
ghost use Rattle.window_allocation.specs.Needs.{Needs};
ghost use Rattle.run_lines.specs.Output.{Passes};
ghost use Rattle.trace_text.specs.Valid.{IsTrace};
ghost use Rattle.run_lines.specs.Text.{text_of, flow_lines_of, each_destination};
ghost use Rattle.fewest_plan.specs.Counts.{counts_told};
ghost use Rattle.fewest_plan.specs.Standing.{HasPlanned};
ghost use Rattle.fewest_plan.specs.Text.{flow_lines_by, flows_lines_by};

use crate::laws::every_plan_balances;
use crate::planner::Planner;
use fp_edge::Sink;
use greedy_rules::{Flow, Item, recorded_batches_by_key};
use plan_rounds::{every_plan_adds_what_is_asked, every_plan_is_recorded};
use report_text::Line;
use run_lines::{Output, Stop};
use std::alloc::Global;
use trace_text::Trace;
use window_allocation::place;

/// Writes the need of each flow in the list into the table, by source and then destination.
fn write_needs(items: &[Item], endpoints: u16, needs: &mut [u32])
    requires once { HasEachFlowOnce items.now }
    requires below { AreBelow endpoints items.now }
    requires long { length needs.old ≡ endpoints * endpoints }
    ensures { Needs endpoints items.now needs.new }
{
    needs.fill(0);
    for item in items {
        needs[place(endpoints, item.flow)] = item.need;
    }
}

/// What became of one flow's demand, if there was any.
fn put_flow<K: Sink>(
    output: &mut Output<'_, K>,
    flow: Flow,
    demanded: u32,
    pending: u32,
) -> Result<(), Stop>
    requires { pending ≤ demanded }
    ensures { Passes output.old output.new (text_of (flow_lines_of flow (counts_told demanded pending))) result }
{
    if demanded == 0 {
        return Ok(());
    }
    output.put_line(&Line::Flow {
        src: flow.src,
        dst: flow.dst,
        demanded,
        allocated: demanded - pending,
        pending,
    })
}

/// What became of the demand of one source's flows, of which the table has what is left.
fn put_source<K: Sink>(
    output: &mut Output<'_, K>,
    trace: &Trace,
    planner: &Planner,
    pending: &[u32],
    src: u16,
) -> Result<(), Stop>
    requires accepted { IsTrace trace.now }
    requires stands { HasPlanned trace.now planner.now }
    requires done { planner.now.collection.rounds ≡ trace.now.rounds }
    requires pending { Needs (endpoints_of trace.now.net) planner.now.order.items pending.now }
    requires src { src < endpoints_of trace.now.net }
    ensures { Passes output.old output.new (text_of (each_destination (flow_lines_by remaining planner.now.b trace.now) src 0 (endpoints_of trace.now.net))) result }
{
    every_plan_is_recorded();
    every_plan_adds_what_is_asked();
    every_plan_balances();
    let endpoints = trace.endpoints();
    for dst in 0..endpoints {
        let flow = Flow { src, dst };
        let left = pending[place(endpoints, flow)];
        put_flow(output, flow, planner.collection.asked(flow), left)?;
    }
    Ok(())
}

/// What became of each flow's demand, by source and then destination.
pub(crate) fn put_flows<K: Sink>(
    output: &mut Output<'_, K>,
    alloc: Global,
    trace: &Trace,
    planner: &Planner,
) -> Result<(), Stop>
    requires accepted { IsTrace trace.now }
    requires stands { HasPlanned trace.now planner.now }
    requires done { planner.now.collection.rounds ≡ trace.now.rounds }
    ensures { Passes output.old output.new (text_of (flows_lines_by remaining planner.now.b trace.now)) result }
{
    every_plan_is_recorded();
    recorded_batches_by_key();
    let endpoints = trace.endpoints();
    let mut pending = vec![in alloc; 0; endpoints as usize * endpoints as usize]?;
    write_needs(planner.order.items(), endpoints, &mut pending);
    for src in 0..endpoints {
        put_source(output, trace, planner, &pending, src)?;
    }
    Ok(())
}
