//! A trace that a source has.
ghost use Rattle.std.specs.Prelude.{◌≡◌, ℕ, List, Ok, Err, IfOk, IfErr};
ghost use Rattle.text_output.specs.Content.{SinkContent};
ghost use Rattle.trace_text.specs.Trace.{trace_of};
ghost use Rattle.trace_text.specs.Valid.{IsTrace};
ghost use Rattle.fastpass_run.specs.Outside.{beside};
ghost use Rattle.fastpass_run.specs.Rows.{AsksToRead, of_trace};
ghost use Rattle.fastpass_run.specs.Run.{EndsBy};
ghost use Rattle.fastpass_run.specs.Transfer.{TakesAll};

use crate::outcome::Failure;
use crate::transfer;
use fp_edge::Source;
use std::alloc::Global;
use trace_text::{Command, Trace, TraceReader};

/// The trace that all bytes of the source are. They are read piece by piece, and no text is kept.
pub(crate) fn read_trace<S: Source>(
    alloc: Global,
    command: Command,
    src: &mut S,
) -> Result<Trace, Failure>
    ensures read { IfOk result (λ trace. TakesAll (S.left src.old) (S.left src.new) (λ bytes. trace_of command bytes ≡ Ok trace)) }
    ensures valid { IfOk result IsTrace }
    ensures refused { IfErr result (λ failure. (words : List (List ℕ)) (sink : SinkContent) → AsksToRead words (of_trace command)
        → EndsBy words (beside S.Source sink src.old) (beside S.Source sink src.new) (Err failure)) }
{
    let mut reader = TraceReader::open(alloc, command)?;
    transfer::give_all(src, &mut reader)?;
    Ok(reader.finish()?)
}
