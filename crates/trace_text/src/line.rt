// Lines whose fields are plain or stand between quotes, taken apart at their commas.
ghost use Rattle.std.specs.Prelude.{◌≡◌, ◌≢◌, ◌∷◌, [], ◌+◌, ◌<◌, ◌⊎◌, true, false, length, take, slice_index, IfOk, IfSome};
ghost use Rattle.std.specs.List.{list_all};
ghost use Rattle.csv.specs.Records.{fields_of, partial_of};
ghost use Rattle.trace_text.specs.Lines.{records_in, AreFieldsBefore, BeginsWith, IsFieldBefore, IsLineBefore, IsPlainBefore, IsQuotedBefore, ReadAlike, begins_blank, ends_line, is_plain, is_unquoted};

use crate::fields::keep;
use csv::ByteRecord;
use no_memory::NoMemory;

/// Takes the first line of a text as a record, and answers what stands behind it; None for a blank line, and for one with another
/// quote than those round a field. The last line may lack its end. Of a line with many fields the first are kept.
pub fn read_line<'a>(text: &'a [u8], fields: &mut ByteRecord) -> Result<Option<&'a [u8]>, NoMemory>
    ensures { IfOk result (λ line. IfSome line (λ rest. BeginsWith (records_in text.now) (fields_of fields.new) (records_in rest.now))) }
{
    if is_blank(text) {
        return Ok(None);
    }
    let (rest, has_ended) = read_fields(text, fields)?;
    if has_ended {
        return Ok(Some(rest));
    }
    if is_plain_field(rest) {
        keep(fields, rest)?;
        return Ok(Some(b"".as_slice()));
    }
    Ok(None)
}

/// The same of a line whose end stands in the text, however the text goes on.
pub fn read_whole_line<'a>(
    text: &'a [u8],
    fields: &mut ByteRecord,
) -> Result<Option<&'a [u8]>, NoMemory>
    ensures { IfOk result (λ line. IfSome line (λ rest. IsLineBefore text.now (fields_of fields.new) rest.now)) }
{
    if is_blank(text) {
        return Ok(None);
    }
    let (rest, has_ended) = read_fields(text, fields)?;
    if has_ended {
        return Ok(Some(rest));
    }
    Ok(None)
}

// Takes the fields of the first line of a text that a byte ends; answers what stands behind them, and whether the line has ended.
fn read_fields<'a>(text: &'a [u8], fields: &mut ByteRecord) -> Result<(&'a [u8], bool), NoMemory>
    requires { begins_blank text.now ≡ false }
    ensures fields { IfOk result (λ r. AreFieldsBefore text.now (fields_of fields.new) r.1 r.0.now) }
    ensures partial { IfOk result (λ r. partial_of fields.new ≡ []) }
{
    fields.clear();
    let mut rest = text;
    while let Some((field, is_last, more)) = first_field(rest) {
        keep(fields, field)?;
        if is_last {
            return Ok((behind_blank_line(more), true));
        }
        rest = more;
    }
    Ok((rest, false))
}

// Whether a text is one plain field, which its end ends.
fn is_plain_field(text: &[u8]) -> bool
    ensures { result ≡ true → list_all is_plain text.now ≡ true }
{
    for at in 0..text.len() {
        if matches!(text[at], b',' | b'\n' | b'"' | b'\r') {
            return false;
        }
    }
    true
}

// The field that a text begins with, whether it is the last of its line, and what stands behind the byte that ends it.
fn first_field(text: &[u8]) -> Option<(&[u8], bool, &[u8])>
    ensures { IfSome result (λ r. IsFieldBefore text.now r.0.now r.1 r.2.now) }
{
    match text {
        [b'"', quoted @ ..] => quoted_field(quoted),
        _ => plain_field(text),
    }
}

// The same of a plain field.
fn plain_field(text: &[u8]) -> Option<(&[u8], bool, &[u8])>
    ensures { IfSome result (λ r. IsPlainBefore text.now r.0.now r.1 r.2.now) }
{
    let at = field_end(text)?;
    Some((&text[..at], text[at] != b',', &text[at + 1..]))
}

// Where the comma or the end of a line stands that ends a plain field.
fn field_end(text: &[u8]) -> Option<usize>
    ensures within { IfSome result (λ at. at < length text.now) }
    ensures plain { IfSome result (λ at. list_all is_plain (take at text.now) ≡ true) }
    ensures end { IfSome result (λ at. (slice_index text.now at ≡ 44) ⊎ (ends_line (slice_index text.now at) ≡ true)) }
{
    for at in 0..text.len() {
        match text[at] {
            b',' | b'\n' | b'\r' => return Some(at),
            b'"' => return None,
            _ => {}
        }
    }
    None
}

// The same of a field that is read from behind the quote that opens it.
fn quoted_field(text: &[u8]) -> Option<(&[u8], bool, &[u8])>
    ensures { IfSome result (λ r. IsQuotedBefore text.now r.0.now r.1 r.2.now) }
{
    let at = quote(text)?;
    let (field, rest) = text.split_at(at);
    match rest {
        [_, b',', rest @ ..] => Some((field, false, rest)),
        [_, b'\n' | b'\r', rest @ ..] => Some((field, true, rest)),
        _ => None,
    }
}

// Where the first quote stands, if it does in the first line.
fn quote(text: &[u8]) -> Option<usize>
    ensures within { IfSome result (λ at. at < length text.now) }
    ensures before { IfSome result (λ at. list_all is_unquoted (take at text.now) ≡ true) }
    ensures here { IfSome result (λ at. slice_index text.now at ≡ 34) }
{
    for at in 0..text.len() {
        match text[at] {
            b'"' => return Some(at),
            b'\n' | b'\r' => return None,
            _ => {}
        }
    }
    None
}

/// The text behind the blank line that it may begin with, as it does between a carriage return and a line feed.
pub fn behind_blank_line(text: &[u8]) -> &[u8]
    ensures { ReadAlike text.now result.now }
{
    match behind_line_end(text) {
        Some(rest) => rest,
        None => text,
    }
}

/// The text behind the blank lines that it begins with.
pub fn behind_blank_lines(text: &[u8]) -> &[u8]
    ensures { ReadAlike text.now result.now }
{
    let mut rest = text;
    while let Some(more) = behind_line_end(rest) {
        rest = more;
    }
    rest
}

// The text behind the end of a line with which it begins.
fn behind_line_end(text: &[u8]) -> Option<&[u8]>
    ensures shorter { IfSome result (λ rest. length rest.now < length text.now) }
    ensures same { IfSome result (λ rest. ReadAlike text.now rest.now) }
{
    if !is_blank(text) || text.is_empty() {
        return None;
    }
    let (_, rest) = text.split_at(1);
    Some(rest)
}

// Whether a text has no first byte, or one that ends a line.
fn is_blank(text: &[u8]) -> bool
    ensures { result ≡ begins_blank text.now }
{
    matches!(text, [] | [b'\n' | b'\r', ..])
}
