// The fields of a row.
ghost use Rattle.std.specs.Prelude.{◌≡◌, [], ◌∷◌, ◌++◌, true, false, nat_lt, length, MatchOption, OnOk};
ghost use Rattle.csv.specs.Records.{fields_of, partial_of};
ghost use Rattle.hex.specs.Hex.{is_hex_digit};
ghost use Rattle.trace_text.specs.Fields.{Record, cut, field, has_number, field_number_at, is_way, is_up, is_hex};
ghost use Rattle.trace_text.specs.Lines.{IsClosed};

use crate::number::read_number;
use csv::ByteRecord;
use no_memory::NoMemory;

/// No row has so many fields: of a record with more only the first are kept.
const MOST_FIELDS: usize = 6;

/// Appends a field, if it is one of the first.
pub fn keep(fields: &mut ByteRecord, field: &[u8]) -> Result<(), NoMemory>
    requires { partial_of fields.old ≡ [] }
    ensures fields { OnOk result ((whole : Record) → fields_of fields.old ≡ cut whole → fields_of fields.new ≡ cut (whole ++ field.now ∷ [])) }
    ensures partial { OnOk result (partial_of fields.new ≡ []) }
{
    if fields.len() < MOST_FIELDS {
        fields.push_field(field)?;
    }
    Ok(())
}

/// Whether a record has more fields than a row of any kind, also where the last that was read is not all of it.
pub fn has_too_many(fields: &ByteRecord) -> bool
    ensures { result ≡ nat_lt 6 (length (fields_of fields.now)) }
{
    fields.len() > MOST_FIELDS
}

/// Whether there is a last field, and it does not end with a byte that ends a line.
pub fn is_closed(fields: &ByteRecord) -> bool
    ensures { result ≡ true → IsClosed (fields_of fields.now) }
{
    match fields.len() {
        0 => false,
        count => !matches!(field(fields, count - 1), [.., b'\n' | b'\r']),
    }
}

/// The field at a place, empty where the row is shorter.
pub fn field(fields: &ByteRecord, at: usize) -> &[u8]
    ensures { result.now ≡ field (fields_of fields.now) at }
{
    match fields.get(at) {
        Some(text) => text,
        None => &[],
    }
}

/// The number in the field at a place, if it is one.
pub fn number_at(fields: &ByteRecord, at: usize) -> Option<u32>
    ensures { MatchOption result (has_number (fields_of fields.now) at ≡ false) (λ n. (has_number (fields_of fields.now) at ≡ true) × (n ≡ field_number_at (fields_of fields.now) at)) }
{
    read_number(field(fields, at))
}

/// Whether the field at a place names the way up, if it names one.
pub fn way_at(fields: &ByteRecord, at: usize) -> Option<bool>
    ensures { MatchOption result (is_way (field (fields_of fields.now) at) ≡ false) (λ up. (is_way (field (fields_of fields.now) at) ≡ true) × (up ≡ is_up (field (fields_of fields.now) at))) }
{
    let way = field(fields, at);
    if way == b"up".as_slice() {
        Some(true)
    } else if way == b"down".as_slice() {
        Some(false)
    } else {
        None
    }
}

/// Whether a field writes whole bytes in hexadecimal digits, in either case.
pub fn is_hex(text: &[u8]) -> bool
    ensures { result ≡ is_hex text.now }
{
    for byte in text {
        if !is_hex_digit(*byte) {
            return false;
        }
    }
    text.len() % 2 == 0
}

fn is_hex_digit(byte: u8) -> bool
    ensures { result ≡ is_hex_digit byte }
{
    matches!(byte, b'0'..=b'9' | b'a'..=b'f' | b'A'..=b'F')
}
