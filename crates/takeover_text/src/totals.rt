// The lines of what was asked for of each flow, and sent.
ghost use Rattle.std.specs.Prelude.{◌≡◌, ◌<◌, length};
ghost use Rattle.text_output.specs.Output.{Passes};
ghost use Rattle.text_output.specs.Text.{text_of};
ghost use Rattle.takeover_text.specs.Lines.{total_line, totals_of, total_lines};
ghost use Rattle.takeover_text.specs.Progress.{log_after, PairHasTaken};

use fp_edge::Sink;
use greedy_rules::Flow;
use report_text::Line;
use script_text::Script;
use takeover_core::Pair;
use text_output::{Output, Stop};

/// What was asked for of one flow, and sent, where something was asked for.
fn put_total<K: Sink>(
    output: &mut Output<'_, K>,
    script: &Script,
    pair: &Pair,
    flow: Flow,
) -> Result<(), Stop>
    requires stands { PairHasTaken script.now (length script.now.events) pair.now }
    requires src { flow.src < script.now.pair.endpoints }
    requires dst { flow.dst < script.now.pair.endpoints }
    ensures { Passes output.old output.new
        (text_of (total_line script.now.pair (log_after script.now (length script.now.events)) flow.src flow.dst)) result }
{
    let (asked, sent) = pair.totals(flow);
    if asked == 0 {
        return Ok(());
    }
    output.put_line(&Line::Total {
        src: flow.src,
        dst: flow.dst,
        asked,
        sent,
    })
}

/// The totals of one source's flows.
fn put_source<K: Sink>(
    output: &mut Output<'_, K>,
    script: &Script,
    pair: &Pair,
    src: u16,
) -> Result<(), Stop>
    requires stands { PairHasTaken script.now (length script.now.events) pair.now }
    requires src { src < script.now.pair.endpoints }
    ensures { Passes output.old output.new
        (text_of (totals_of script.now.pair (log_after script.now (length script.now.events)) src)) result }
{
    let (endpoints, _, _) = script.pair();
    for dst in 0..endpoints {
        put_total(output, script, pair, Flow { src, dst })?;
    }
    Ok(())
}

/// The totals of the flows that were asked for, by source and then destination, where the pair has taken the whole script.
pub(crate) fn put_totals<K: Sink>(
    output: &mut Output<'_, K>,
    script: &Script,
    pair: &Pair,
) -> Result<(), Stop>
    requires { PairHasTaken script.now (length script.now.events) pair.now }
    ensures { Passes output.old output.new
        (text_of (total_lines script.now.pair (log_after script.now (length script.now.events)))) result }
{
    let (endpoints, _, _) = script.pair();
    for src in 0..endpoints {
        put_source(output, script, pair, src)?;
    }
    Ok(())
}
