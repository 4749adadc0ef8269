//! The lines of a text.
ghost use Rattle.std.specs.Prelude.{◌≡◌, ◌≢◌, ◌<◌, ◌≤◌, ℕ, List, [], length, slice_index, Option};
ghost use Rattle.report_text.specs.declared.line.Line.{Line};
ghost use Rattle.schedule_audit.specs.Reading.{Reads, ReadsLines, ReadsLine};

use crate::front::front_line;
use report_text::{Line, read_line};

/// How many bytes stand before the first line feed.
fn line_len(text: &[u8]) -> usize
    ensures within { result ≤ length text.now }
    ensures before { (i : ℕ) → i < result → slice_index text.now i ≢ 10 }
    ensures feed { result < length text.now → slice_index text.now result ≡ 10 }
{
    text.iter()
        .position(|byte| *byte == b'\n')
        .unwrap_or(text.len())
}

/// The line that some bytes without a line feed spell, if there is one.
fn spelled_line(bytes: &[u8]) -> Option<Line>
    ensures { Reads bytes.now result }
{
    read_line(bytes)
}

/// The first line of a text, and the text after it. `None` where its bytes spell no line or it has no line feed.
#[inline(always)]
pub(crate) fn first_line(text: &[u8]) -> (Option<Line>, &[u8])
    requires { text.now ≢ [] }
    ensures { ReadsLine text.now result.0 result.1.now }
{
    if let Some((line, rest)) = front_line(text) {
        return (Some(line), rest);
    }
    let end = line_len(text);
    if end == text.len() {
        return (None, &text[end..]);
    }
    (spelled_line(&text[..end]), &text[end + 1..])
}

/// How many lines a text has; a rest without a line feed is one.
pub fn count_lines(text: &[u8]) -> u32
    requires { length text.now < 4294967296 }
    ensures { (lines : List (Option Line)) × ReadsLines text.now lines × (result ≡ length lines) }
{
    let mut rest = text;
    let mut count = 0;
    while !rest.is_empty() {
        let (_line, later) = first_line(rest);
        rest = later;
        count += 1;
    }
    count
}
