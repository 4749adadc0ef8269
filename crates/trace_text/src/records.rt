// The records of a text, one at a time: read where they stand as long as their fields are plain or stand between quotes, and by
// the kit where they do not, a front of the text after the other.
ghost use Rattle.std.specs.Prelude.{◌≡◌, ◌<◌, ◌≤◌, ◌++◌, ℕ, List, true, length, IfOk, IfSome};
ghost use Rattle.std.specs.Bool.{MatchBool};
ghost use Rattle.csv.specs.Records.{fields_of};
ghost use Rattle.trace_text.specs.Lines.{Finds, BeginsLong, records_in};
ghost use Rattle.trace_text.specs.declared.records.Found.TheVariants as found;

use crate::csv_records::CsvRecords;
use crate::fields::has_too_many;
use crate::line::{behind_blank_lines, read_line};
use crate::whole_front::whole_front;
use csv::ByteRecord;
use no_memory::NoMemory;
use std::alloc::Global;
use std::marker::Model;

// So many commas has the first part that is read of a long record, and so many more each further part.
const FIRST_COMMAS: usize = 64;

const MORE_COMMAS: usize = 4_194_304;

/// What a record was found to be: fields that were put into a buffer; more fields than a row has, of which the first were put there;
/// or that there is none.
#[derive(Clone, Copy, Debug, PartialEq, Eq)]
pub enum Found {
    Fields,
    TooMany,
    End,
}

impl Found {
    // What a reader that fills the buffer found.
    fn of(is_found: bool) -> Found
        ensures { MatchBool is_found (result ≡ found.Fields) (result ≡ found.End) }
    {
        if is_found { Found::Fields } else { Found::End }
    }
}

/// The records of a text that are left.
#[derive(Drop)]
pub struct Records<'a> {
    alloc: Global,
    // Reads the rest of a front that is no plain line.
    front: Option<Box<CsvRecords<'a>>>,
    // What stands behind it.
    text: &'a [u8],
}

impl<'a> Model for Records<'a> {
    ghost use Rattle.std.specs.Prelude.{List, ℕ, option_map};
    ghost use Rattle.trace_text.specs.Lines.{records_behind};

    ghost Value = { List (List (List ℕ)) };

    ghost view = { λ r. records_behind (option_map (λ front. front.value) r.front) r.text.now };
}

impl<'a> Records<'a> {
    /// The records of a text without a byte order mark.
    pub fn of(alloc: Global, text: &'a [u8]) -> Records<'a>
        ensures { result ≡ records_in text.now }
    {
        Records {
            alloc,
            front: None,
            text,
        }
    }

    // Those that a reader of a front has left, and those of the text behind it.
    fn behind(alloc: Global, front: Box<CsvRecords<'a>>, text: &'a [u8]) -> Records<'a>
        ensures { result ≡ front.entry.value ++ records_in text.now }
    {
        Records {
            alloc,
            front: Some(front),
            text,
        }
    }

    /// The text that is left, where no front of it is read.
    pub fn text(&self) -> Option<&'a [u8]>
        ensures { IfSome result (λ text. self.now ≡ records_in text.now) }
    {
        if self.front.is_some() {
            return None;
        }
        Some(self.text)
    }

    /// Goes on at a text.
    pub fn go_on(&mut self, text: &'a [u8])
        ensures { self.new ≡ records_in text.now }
    {
        self.front = None;
        self.text = text;
    }

    /// Takes the next record, where there is one; its first fields go into the buffer, and those behind them maybe too. Memory for a
    /// record is all that can be wanting.
    #[inline(never)]
    pub fn read(&mut self, fields: &mut ByteRecord) -> Result<Found, NoMemory>
        ensures { IfOk result (λ found. Finds found self.old (fields_of fields.new) self.new) }
    {
        if let Some(front) = &mut self.front {
            if front.read(fields)? {
                return Ok(Found::Fields);
            }
        }
        let (found, left) = read_other(self.alloc, self.text, fields)?;
        *self = left;
        Ok(found)
    }
}

// Takes the first record of a text, and answers what is left.
fn read_other<'a>(
    alloc: Global,
    text: &'a [u8],
    fields: &mut ByteRecord,
) -> Result<(Found, Records<'a>), NoMemory>
    ensures { IfOk result (λ r. Finds r.0 (records_in text.now) (fields_of fields.new) r.1) }
{
    let text = behind_blank_lines(text);
    if text.is_empty() {
        return Ok((Found::End, Records::of(alloc, text)));
    }
    if let Some(rest) = read_line(text, fields)? {
        return Ok((Found::Fields, Records::of(alloc, rest)));
    }
    read_front(alloc, text, fields)
}

// Takes the first record of a front of a text, and answers what is left.
fn read_front<'a>(
    alloc: Global,
    text: &'a [u8],
    fields: &mut ByteRecord,
) -> Result<(Found, Records<'a>), NoMemory>
    ensures { IfOk result (λ r. Finds r.0 (records_in text.now) (fields_of fields.new) r.1) }
{
    let Some((front, rest)) = whole_front(alloc, text, fields)? else {
        return read_long(alloc, text, fields);
    };
    let mut records = CsvRecords::open(alloc, front)?;
    let found = Found::of(records.read(fields)?);
    Ok((found, Records::behind(alloc, records, rest)))
}

// Takes the first record of a text, of which no front shows the end. Where it is seen to have more fields than a row, the rest of
// it is not looked at.
fn read_long<'a>(
    alloc: Global,
    text: &'a [u8],
    fields: &mut ByteRecord,
) -> Result<(Found, Records<'a>), NoMemory>
    ensures { IfOk result (λ r. Finds r.0 (records_in text.now) (fields_of fields.new) r.1) }
{
    *fields = ByteRecord::with_capacity(alloc, text.len(), 0)?;
    if begins_too_long(alloc, text, fields)? {
        return Ok((Found::TooMany, Records::of(alloc, text)));
    }
    let mut records = CsvRecords::open(alloc, text)?;
    let found = Found::of(records.read(fields)?);
    Ok((found, Records::behind(alloc, records, b"".as_slice())))
}

// Whether a part of a text shows that its first record has more fields than a row. Its first fields go into the buffer then.
fn begins_too_long(alloc: Global, text: &[u8], fields: &mut ByteRecord) -> Result<bool, NoMemory>
    ensures { IfOk result (λ long. long ≡ true → BeginsLong (records_in text.now) (fields_of fields.new)) }
{
    let mut size = next_part(text, 0, FIRST_COMMAS);
    while size < text.len() {
        let (part, _) = text.split_at(size);
        if has_long_record(alloc, part, fields)? {
            return Ok(true);
        }
        size = next_part(text, size, MORE_COMMAS);
    }
    Ok(false)
}

// Where a part ends that goes on from a place and has so many commas more.
fn next_part(text: &[u8], from: usize, commas: usize) -> usize
    ensures after { from < length text.now → from < result }
    ensures within { result ≤ length text.now }
{
    let mut seen = 0;
    for at in from..text.len() {
        seen += usize::from(text[at] == b',');
        if seen >= commas {
            return at + 1;
        }
    }
    text.len()
}

// Whether the first record of a part of a text has more fields than a row, however the text goes on.
fn has_long_record(alloc: Global, part: &[u8], fields: &mut ByteRecord) -> Result<bool, NoMemory>
    ensures { IfOk result (λ long. long ≡ true → (rest : List ℕ) → BeginsLong (records_in (part.now ++ rest)) (fields_of fields.new)) }
{
    let mut records = CsvRecords::open(alloc, part)?;
    if records.read(fields)? {
        return Ok(has_too_many(fields));
    }
    Ok(false)
}
