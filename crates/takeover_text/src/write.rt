ghost use Rattle.std.specs.Prelude.{IfOk};
ghost use Rattle.script_text.specs.Script.{IsScript};
ghost use Rattle.text_output.specs.Content.{sink_content};
ghost use Rattle.text_output.specs.Output.{EndsText, Writes};
ghost use Rattle.takeover_text.specs.Lines.{shown, takeover_text};
ghost use Rattle.takeover_text.specs.Kept.{KeepPromises};
ghost use Rattle.takeover_text.specs.Progress.{PairHasTaken, IsPromisedThroughout};

use crate::events::put_events;
use crate::totals::put_totals;
use fp_edge::Sink;
use no_memory::NoMemory;
use report_text::{Line, LineBuffer};
use script_text::Script;
use std::alloc::Global;
use takeover_core::{Pair, what_is_promised};
use takeover_history::running_counts_serve;
use text_output::{Output, Stop, texts_follow};

/// The pair of a script, before its first event.
fn open_pair(alloc: Global, script: &Script) -> Result<Pair, NoMemory>
    requires { IsScript script.now }
    ensures { IfOk result (PairHasTaken script.now 0) }
{
    let (endpoints, b, lease) = script.pair();
    Pair::open(alloc, endpoints, b, lease, script.events().len() as u32)
}

/// The text of a takeover: what each event shows, the totals, and the end.
fn put_lines<K: Sink>(
    alloc: Global,
    script: &Script,
    output: &mut Output<'_, K>,
) -> Result<(), Stop>
    requires { IsScript script.now }
    ensures { EndsText output.old output.new (takeover_text script.now) result }
{
    texts_follow();
    running_counts_serve();
    let mut pair = open_pair(alloc, script)?;
    put_events(output, script, &mut pair)?;
    put_totals(output, script, &pair)?;
    output.put_last_line(&Line::End {
        rounds: script.events().len() as u32 + 2,
    })
}

/// Lets the events of a script come to a pair of arbiters, and writes the text of it: what each event shows, the totals of the flows
/// that were asked for, and the end.
pub fn write_takeover<K: Sink>(alloc: Global, script: &Script, sink: &mut K) -> Result<(), Stop>
    requires { IsScript script.now }
    ensures writes { Writes (sink_content K.Sink sink.old) (sink_content K.Sink sink.new) (takeover_text script.now) result }
    ensures promised { IsPromisedThroughout script.now }
    ensures kept { KeepPromises (shown script.now.pair script.now.events) }
{
    texts_follow();
    what_is_promised();
    let gathered = LineBuffer::open(alloc)?;
    let mut output = Output::new(sink, gathered);
    let written = put_lines(alloc, script, &mut output);
    let _sink = output.into_sink();
    written
}
