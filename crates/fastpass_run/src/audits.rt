//! The audit of a text.
ghost use Rattle.std.specs.Prelude.{◌≡◌, ◌≤◌, ℕ, List, Some, IfOk};
ghost use Rattle.fastpass_run.specs.Audits.{count_text};
ghost use Rattle.fastpass_run.specs.Outside.{outside};
ghost use Rattle.fastpass_run.specs.Run.{EndsBy};
ghost use Rattle.fastpass_run.specs.Words.{asked_by_words};
ghost use Rattle.fastpass_run.specs.Words.Asked.{audits};

use crate::outcome::Failure;
use crate::transfer;
use clos_topology::Net;
use fp_edge::{Failed, Sink, Source};
use itoa::Buffer;
use schedule_audit::{audit, each_text_has_one_reading};
use std::alloc::{AllocError, Global};
use text_output::write_all;

/// The line that says how many lines a good text has.
fn count_line(alloc: Global, lines: u32) -> Result<Vec<u8>, AllocError>
    ensures { IfOk result (λ text. text.items ≡ count_text lines) }
{
    let mut text = Vec::new(alloc);
    text.extend_from_slice(b"ok,")?;
    text.extend_from_slice(Buffer::new().format(lines).as_bytes())?;
    text.push(b'\n')?;
    Ok(text)
}

/// Audits the text that the source has, and writes how many lines it has.
pub(crate) fn audit_text<S: Source, O: Sink>(
    alloc: Global,
    net: Net,
    b: u8,
    src: &mut S,
    out: &mut O,
) -> Result<(), Failure>
    requires { b ≤ 64 }
    ensures { (words : List (List ℕ)) → asked_by_words words ≡ Some (audits net b) → EndsBy words
        (outside S.Source O.Sink src.old out.old) (outside S.Source O.Sink src.new out.new) result }
{
    each_text_has_one_reading();
    let text = transfer::read_all(alloc, src)?;
    let lines = audit(alloc, &text, net, b)?;
    drop(text);
    let line = count_line(alloc, lines)?;
    match write_all(out, &line) {
        Ok(()) => Ok(()),
        Err(Failed) => Err(Failure::Write),
    }
}
