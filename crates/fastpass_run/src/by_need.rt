//! The plan of a trace by need.
ghost use Rattle.std.specs.Prelude.{◌≡◌, ℕ, List, Some};
ghost use Rattle.run_text.specs.Sizes.{AreSizes};
ghost use Rattle.fastpass_run.specs.Outside.{outside};
ghost use Rattle.fastpass_run.specs.Run.{EndsBy};
ghost use Rattle.fastpass_run.specs.Words.{asked_by_words};
ghost use Rattle.fastpass_run.specs.Words.Asked.{plans_by_need};

use crate::outcome::Failure;
use crate::traces::read_trace;
use fewest_plan::write_fewest;
use fp_edge::{Gate, Sink, Source};
use run_text::Sizes;
use std::alloc::Global;
use std::sync::Wait;
use std::thread::Threads;
use trace_text::Command;

/// Reads a trace, and writes its plan in which the flow that needs the fewest slots goes first.
pub(crate) fn plan_by_need<R: Threads + Wait + Sync, S: Source, O: Sink, G: Gate + Sync>(
    rt: &R,
    gate: &G,
    alloc: Global,
    sizes: Sizes,
    src: &mut S,
    out: &mut O,
) -> Result<(), Failure>
    requires { AreSizes sizes }
    ensures { (words : List (List ℕ)) → asked_by_words words ≡ Some (plans_by_need sizes) → EndsBy words
        (outside S.Source O.Sink src.old out.old) (outside S.Source O.Sink src.new out.new) result }
{
    let trace = read_trace(alloc, Command::Plan, src)?;
    Ok(write_fewest(rt, gate, alloc, &trace, sizes, out)?)
}
