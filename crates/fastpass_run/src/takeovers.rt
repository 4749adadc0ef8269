//! The text of a script's takeover.
ghost use Rattle.std.specs.Prelude.{◌≡◌, ℕ, List, Some};
ghost use Rattle.fastpass_run.specs.Outside.{outside};
ghost use Rattle.fastpass_run.specs.Run.{EndsBy};
ghost use Rattle.fastpass_run.specs.Words.{asked_by_words};
ghost use Rattle.fastpass_run.specs.Words.Asked.{takes_over};

use crate::outcome::Failure;
use crate::transfer;
use fp_edge::{Sink, Source};
use script_text::read_script;
use std::alloc::Global;
use takeover_text::write_takeover;

/// Reads a script, and writes the text of its takeover.
pub(crate) fn take_over<S: Source, O: Sink>(
    alloc: Global,
    src: &mut S,
    out: &mut O,
) -> Result<(), Failure>
    ensures { (words : List (List ℕ)) → asked_by_words words ≡ Some takes_over → EndsBy words
        (outside S.Source O.Sink src.old out.old) (outside S.Source O.Sink src.new out.new) result }
{
    let text = transfer::read_all(alloc, src)?;
    let script = read_script(alloc, &text)?;
    drop(text);
    Ok(write_takeover(alloc, &script, out)?)
}
