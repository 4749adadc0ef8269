// The lines that events show.
ghost use Rattle.std.specs.Prelude.{◌≡◌, ◌<◌, ◌≤◌, ◌+◌, ℕ, length, OnOk};
ghost use Rattle.takeover_history.specs.declared.event.Event.TheVariants.{Publish};
ghost use Rattle.script_text.specs.Script.{IsScript};
ghost use Rattle.text_output.specs.Output.{Passes};
ghost use Rattle.text_output.specs.Text.{text_of};
ghost use Rattle.takeover_text.specs.Lines.{refusal_place as the_place, takeover_lines};
ghost use Rattle.takeover_text.specs.Progress.{log_after, PairHasTaken, latest_outcome, latest_lines};

use crate::published::put_published;
use crate::sends::put_sends;
use fp_edge::Sink;
use report_text::Line;
use script_text::Script;
use takeover_core::{Event, Outcome, Pair, Refusal};
use takeover_history::{each_batch_is_its_nodes, running_counts_serve};
use text_output::{Output, Stop, texts_follow};

/// The place of a refusal among all of them.
fn place_of(name: Refusal) -> u8
    ensures place { result ≡ the_place name }
    ensures named { result ≤ 6 }
{
    match name {
        Refusal::NoMessage => 0,
        Refusal::OldBoot => 1,
        Refusal::OldLease => 2,
        Refusal::NoLease => 3,
        Refusal::Stale => 4,
        Refusal::Unpublished => 5,
        Refusal::Repeat => 6,
    }
}

/// The node that is to publish; 0 where none is.
fn publisher(event: Event) -> u16
    ensures { (node : ℕ) → event ≡ Publish node → result ≡ node }
{
    match event {
        Event::Publish { node } => node,
        _ => 0,
    }
}

/// What the event at this place of the script shows, by what it answered.
fn put_outcome<K: Sink>(
    output: &mut Output<'_, K>,
    script: &Script,
    pair: &Pair,
    at: u32,
    outcome: Outcome,
) -> Result<(), Stop>
    requires script { IsScript script.now }
    requires at { at < length script.now.events }
    requires taken { PairHasTaken script.now (at + 1) pair.now }
    requires outcome { outcome ≡ latest_outcome script.now.pair (log_after script.now (at + 1)) }
    ensures { Passes output.old output.new (text_of (latest_lines script.now.pair (log_after script.now (at + 1)))) result }
{
    running_counts_serve();
    each_batch_is_its_nodes();
    match outcome {
        Outcome::Nothing => Ok(()),
        Outcome::Granted {
            message,
            node,
            generation,
            first,
        } => output.put_line(&Line::Granted {
            message,
            node,
            generation,
            first,
        }),
        Outcome::Published { batch } => {
            let node = publisher(script.events()[at as usize]);
            put_published(output, node, batch, pair.batch(), pair.slots())
        }
        Outcome::Sent { from, count } => put_sends(output, pair, from, count),
        Outcome::Refused { name } => output.put_line(&Line::Declined {
            row: at + 2,
            place: place_of(name),
        }),
    }
}

/// Lets the event at this place of the script happen, and gives out what it shows.
fn put_event<K: Sink>(
    output: &mut Output<'_, K>,
    script: &Script,
    pair: &mut Pair,
    at: u32,
) -> Result<(), Stop>
    requires script { IsScript script.now }
    requires at { at < length script.now.events }
    requires taken { PairHasTaken script.now at pair.old }
    ensures taken { OnOk result (PairHasTaken script.now (at + 1) pair.new) }
    ensures passes { Passes output.old output.new (text_of (latest_lines script.now.pair (log_after script.now (at + 1)))) result }
{
    texts_follow();
    let outcome = pair.step(script.events()[at as usize])?;
    put_outcome(output, script, pair, at, outcome)
}

/// Lets all events of the script happen, one after the other.
pub(crate) fn put_events<K: Sink>(
    output: &mut Output<'_, K>,
    script: &Script,
    pair: &mut Pair,
) -> Result<(), Stop>
    requires script { IsScript script.now }
    requires taken { PairHasTaken script.now 0 pair.old }
    ensures taken { OnOk result (PairHasTaken script.now (length script.now.events) pair.new) }
    ensures passes { Passes output.old output.new
        (text_of (takeover_lines script.now.pair (log_after script.now (length script.now.events)))) result }
{
    let count = script.events().len() as u32;
    for at in 0..count {
        put_event(output, script, pair, at)?;
    }
    Ok(())
}
