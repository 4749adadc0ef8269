// A front of a text that holds whole records.
ghost use Rattle.std.specs.Prelude.{◌≡◌, ◌<◌, ◌≤◌, ◌++◌, ℕ, List, true, length, slice_index, IfOk, IfSome};
ghost use Rattle.trace_text.specs.Lines.{records_in, ends_line, EndsLine, IsWholeFront};

use crate::csv_records::CsvRecords;
use crate::fields::is_closed;
use csv::ByteRecord;
use no_memory::NoMemory;
use std::alloc::Global;

/// A front has at most so many bytes.
const MOST_FRONT: usize = 65_536;

/// A front of whole lines with at least a record, whose records are the first of the text, and what stands behind it. None where
/// the lines tried show none: then a record has an end of a line within, or many bytes.
pub fn whole_front<'a>(
    alloc: Global,
    text: &'a [u8],
    fields: &mut ByteRecord,
) -> Result<Option<(&'a [u8], &'a [u8])>, NoMemory>
    ensures { IfOk result (λ front. IfSome front (λ f. IsWholeFront text.now f.0.now f.1.now)) }
{
    let mut most = MOST_FRONT;
    while most > 0 {
        let Some(last) = line_end_near(text, most) else {
            return Ok(None);
        };
        let (front, rest) = text.split_at(last + 1);
        if is_whole(alloc, front, fields)? {
            return Ok(Some((front, rest)));
        }
        most /= 2;
    }
    Ok(None)
}

// Whether the records of a front, with one at least, are the first of each text that begins with it. Where the last field does not
// end with a byte that ends a line, no quote is open behind the front.
fn is_whole(alloc: Global, front: &[u8], fields: &mut ByteRecord) -> Result<bool, NoMemory>
    requires { EndsLine front.now }
    ensures { IfOk result (λ whole. whole ≡ true → (rest : List ℕ) → IsWholeFront (front.now ++ rest) front.now rest) }
{
    let mut records = CsvRecords::open(alloc, front)?;
    let mut is_between = false;
    while records.read(fields)? {
        is_between = is_closed(fields);
    }
    Ok(is_between)
}

// The last of the first bytes of a text that ends a line, or where none does the first behind them.
fn line_end_near(text: &[u8], most: usize) -> Option<usize>
    ensures within { IfSome result (λ last. last < length text.now) }
    ensures ends { IfSome result (λ last. ends_line (slice_index text.now last) ≡ true) }
{
    match last_line_end(text, most.min(text.len())) {
        Some(last) => Some(last),
        None => first_line_end(text),
    }
}

// The last of the first bytes of a text that ends a line.
fn last_line_end(text: &[u8], most: usize) -> Option<usize>
    requires { most ≤ length text.now }
    ensures within { IfSome result (λ last. last < length text.now) }
    ensures ends { IfSome result (λ last. ends_line (slice_index text.now last) ≡ true) }
{
    for behind in 0..most {
        let at = most - behind - 1;
        if ends_line(text[at]) {
            return Some(at);
        }
    }
    None
}

// The first byte that ends a line, where a front may have it.
fn first_line_end(text: &[u8]) -> Option<usize>
    ensures within { IfSome result (λ last. last < length text.now) }
    ensures ends { IfSome result (λ last. ends_line (slice_index text.now last) ≡ true) }
{
    for at in 0..text.len().min(MOST_FRONT) {
        if ends_line(text[at]) {
            return Some(at);
        }
    }
    None
}

fn ends_line(byte: u8) -> bool
    ensures { result ≡ ends_line byte }
{
    matches!(byte, b'\n' | b'\r')
}
