//! The whole program, over any source, sinks and gate: words; a trace that is read or made, planned or replayed; a text that is
//! audited; packets that a desk receives; a script that two arbiters take over by.
//!
//! The schedule theorem. For every accepted trace and any number of workers, what `replay` writes shows a schedule that is the
//! one-thread greedy allocation of the demand batches that the run of the trace records: every slot a matching that no waiting
//! demand could join, on paths that share no directed link; endpoints send only in scheduled slots, each at most once; each flow's
//! recorded demand is its slots acknowledged, in flight and pending, lost slots pending again; and over every loss, delay, repeat and
//! boot no slot found lost was or will be sent in. `plan` shows the same of the asks of each round, by the flow served least recently
//! or by need; `make` writes the sums of the counts of such a replay; `audit` tells of any text, whatever trace it was made from, its
//! first bad line, or that it shows such a schedule; what `receive` writes is a function of its rows alone; and `takeover` keeps its
//! promises after every event. Where a write fails or memory is wanting, a front of such a text is written. It is the contract of
//! `run` (`RunsWords`, in specs/Run.antt).
//!
//! `fastpass_run` is the whole program over any source, sinks and gate. `lib.rt` has `run` and its contract, `words.rt` the
//! words, `traces.rt` reads a trace, `audits.rt` has the audit of a text, `by_need.rt` the plan by need, `takeovers.rt` a
//! takeover. `transfer.rt` reads a source to its end: a text for an audit or a script into memory, a trace piece by piece into its
//! reader. `outcome.rt` has the statuses and the notes. What `run` says is one record of the words, of what source, sink and notes
//! tell before and after, and of the status (`RunsWords` in `specs/Run.antt`).
#![tactic(auto)]

ghost use Rattle.std.specs.Prelude.{◌≡◌, ℕ, List, [], ◌∷◌, Some};
ghost use Rattle.text_output.specs.Content.{sink_content};
ghost use Rattle.run_text.specs.Sizes.{AreSizes};
ghost use Rattle.fastpass_run.specs.Outside.{outside, IsUnread};
ghost use Rattle.fastpass_run.specs.Statuses.{IsStatusAmong};
ghost use Rattle.fastpass_run.specs.Words.{texts, asked_by_words, asked_by_input};
ghost use Rattle.fastpass_run.specs.Words.Asked.{writes};
ghost use Rattle.fastpass_run.specs.Run.{RunsWords, EndsBy, ReadsNothing, status_of};
ghost use Rattle.fastpass_run.specs.declared.words.Input.TheVariants.{Made};

mod audits;
mod by_need;
mod outcome;
mod takeovers;
mod traces;
mod transfer;
mod words;

use crate::audits::audit_text;
use crate::by_need::plan_by_need;
use crate::outcome::Failure;
use crate::takeovers::take_over;
use crate::traces::read_trace;
use crate::words::{Input, Task};
use fp_edge::{Gate, Sink, Source};
use receive_text::write_receive;
use run_text::{Sizes, write_made, write_plan, write_replay};
use schedule_audit::each_text_has_one_reading;
use std::alloc::Global;
use std::sync::Wait;
use std::thread::Threads;
use trace_text::Command;

/// Does what the words ask for: reads the whole trace or script, or makes a trace, and then writes the text; or reads and audits a
/// text. The status is 0, or 1 where the words are refused, 2 where a row is faulty, 3 and 4 where a read or a write failed, 5 for want of
/// memory, 6 where the input has more than 67,108,864 bytes, and 7 where a line of an audited text is bad; all but 0 write a line
/// to `notes`, whose own faults are passed over. `make` reads nothing.
pub fn run<R: Threads + Wait + Sync, S: Source, O: Sink, N: Sink, G: Gate + Sync>(
    rt: &R,
    alloc: Global,
    words: &[&str],
    src: &mut S,
    out: &mut O,
    notes: &mut N,
    gate: &G,
) -> u8
    ensures { RunsWords (texts words.now) (outside S.Source O.Sink src.old out.old) (outside S.Source O.Sink src.new out.new)
        (sink_content N.Sink notes.old) (sink_content N.Sink notes.new) result }
{
    each_text_has_one_reading();
    let outcome = perform(rt, gate, alloc, words, src, out);
    let _ = outcome::note(notes, outcome);
    outcome::status(outcome)
}

fn perform<R: Threads + Wait + Sync, S: Source, O: Sink, G: Gate + Sync>(
    rt: &R,
    gate: &G,
    alloc: Global,
    words: &[&str],
    src: &mut S,
    out: &mut O,
) -> Result<(), Failure>
    ensures ends { EndsBy (texts words.now)
        (outside S.Source O.Sink src.old out.old) (outside S.Source O.Sink src.new out.new) result }
    ensures reads_nothing { ReadsNothing (texts words.now)
        (outside S.Source O.Sink src.old out.old) (outside S.Source O.Sink src.new out.new) (status_of result) }
{
    let Some(task) = words::read_task(words) else {
        return Err(Failure::Words);
    };
    match task {
        Task::Write { input, sizes } => write_text(rt, gate, alloc, input, sizes, src, out),
        Task::PlanByNeed { sizes } => plan_by_need(rt, gate, alloc, sizes, src, out),
        Task::Audit { net, b } => audit_text(alloc, net, b, src, out),
        Task::TakeOver => take_over(alloc, src, out),
    }
}

/// Writes the text of a trace, which is read or made.
fn write_text<R: Threads + Wait + Sync, S: Source, O: Sink, G: Gate + Sync>(
    rt: &R,
    gate: &G,
    alloc: Global,
    input: Input,
    sizes: Sizes,
    src: &mut S,
    out: &mut O,
) -> Result<(), Failure>
    requires { AreSizes sizes }
    ensures ends { (words : List (List ℕ)) → asked_by_words words ≡ Some (writes (asked_by_input input sizes)) → EndsBy words
        (outside S.Source O.Sink src.old out.old) (outside S.Source O.Sink src.new out.new) result }
    ensures reads_nothing { (number : ℕ) → input ≡ Made number →
        IsUnread (outside S.Source O.Sink src.old out.old) (outside S.Source O.Sink src.new out.new) × IsStatusAmong (status_of result) (0 ∷ 4 ∷ 5 ∷ []) }
{
    let command = match input {
        Input::Made(number) => return Ok(write_made(rt, gate, alloc, number, sizes, out)?),
        Input::Read(command) => command,
    };
    let trace = read_trace(alloc, command, src)?;
    match command {
        Command::Plan => Ok(write_plan(rt, gate, alloc, &trace, sizes, out)?),
        Command::Replay => Ok(write_replay(rt, gate, alloc, &trace, sizes, out)?),
        Command::Receive => Ok(write_receive(rt, alloc, &trace, out)?),
    }
}
