//! The text of the packets that were received.
ghost use Rattle.std.specs.Prelude.{◌≡◌, ◌<◌};
ghost use Rattle.clos_topology.specs.Network.{endpoints_of};
ghost use Rattle.trace_text.specs.Valid.{IsTrace};
ghost use Rattle.text_output.specs.Content.{sink_content};
ghost use Rattle.text_output.specs.Output.{Passes, EndsText, Writes};
ghost use Rattle.text_output.specs.Text.{text_of};
ghost use Rattle.std.specs.List.{flat_map};
ghost use Rattle.receive_text.specs.ReceiveText.{answer_lines, endpoints_in, recorded_in, receive_text};
ghost use Rattle.receive_text.specs.Received.{HasReceived};

use crate::receive::receive;
use fp_edge::Sink;
use front_desk::Desk;
use greedy_rules::Batch;
use report_text::{Line, LineBuffer};
use std::alloc::Global;
use std::thread::Threads;
use text_output::{Output, Stop, put_entries, texts_follow};
use trace_text::Trace;

/// What the lane of an endpoint answers to each of its packets.
fn put_answers<K: Sink>(
    output: &mut Output<'_, K>,
    trace: &Trace,
    desk: &Desk,
    endpoint: u16,
) -> Result<(), Stop>
    requires endpoint { endpoint < endpoints_of trace.now.net }
    requires received { HasReceived trace.now desk.now }
    ensures { Passes output.old output.new (text_of (answer_lines trace.now endpoint)) result }
{
    texts_follow();
    for at in 0..trace.put_count(endpoint) {
        output.put_line(&Line::Answer {
            endpoint,
            place: at as u32,
            number: desk.answer(endpoint, at),
        })?;
    }
    Ok(())
}

/// What all lanes answer, by rising endpoint.
fn put_all_answers<K: Sink>(
    output: &mut Output<'_, K>,
    trace: &Trace,
    desk: &Desk,
) -> Result<(), Stop>
    requires accepted { IsTrace trace.now }
    requires received { HasReceived trace.now desk.now }
    ensures { Passes output.old output.new (text_of (flat_map (answer_lines trace.now) (endpoints_in trace.now))) result }
{
    texts_follow();
    for endpoint in 0..trace.endpoints() {
        put_answers(output, trace, desk, endpoint)?;
    }
    Ok(())
}

/// The text: what the lanes answer, what they record, and the end.
fn put_lines<K: Sink>(
    output: &mut Output<'_, K>,
    trace: &Trace,
    desk: &Desk,
    batch: &Batch,
) -> Result<(), Stop>
    requires accepted { IsTrace trace.now }
    requires received { HasReceived trace.now desk.now }
    requires recorded { batch.now.entries ≡ recorded_in trace.now }
    ensures { EndsText output.old output.new (receive_text trace.now) result }
{
    texts_follow();
    put_all_answers(output, trace, desk)?;
    put_entries(output, 0, batch)?;
    output.put_last_line(&Line::End { rounds: 1 })
}

/// Puts the packets of a trace into a desk from several threads, and writes the text of what its lanes answer and record. What is
/// written does not rest on the threads; memory that is wanting stops it before anything is written.
pub fn write_receive<R: Threads + Sync, K: Sink>(
    rt: &R,
    alloc: Global,
    trace: &Trace,
    sink: &mut K,
) -> Result<(), Stop>
    requires accepted { IsTrace trace.now }
    ensures { Writes (sink_content K.Sink sink.old) (sink_content K.Sink sink.new) (receive_text trace.now) result }
{
    texts_follow();
    let gathered = LineBuffer::open(alloc)?;
    let (desk, batch) = receive(rt, alloc, trace)?;
    let mut output = Output::new(sink, gathered);
    let written = put_lines(&mut output, trace, &desk, &batch);
    let _sink = output.into_sink();
    written
}
