//! Bytes put into a buffer at a place.
ghost use Rattle.std.specs.Prelude.{◌≡◌, ◌+◌, ◌<◌, ◌≤◌, [], ◌∷◌, ◌++◌, length, take, decimal};
ghost use Rattle.report_text.specs.Lines.{number_fields};

use itoa::Buffer;

/// Copies bytes to this place, and answers where they end.
pub(crate) fn put(buf: &mut [u8], at: usize, bytes: &[u8]) -> usize
    requires { at + length bytes.now ≤ length buf.old }
    ensures end { result ≡ at + length bytes.now }
    ensures written { take result buf.new ≡ take at buf.old ++ bytes.now }
    ensures count { length buf.new ≡ length buf.old }
{
    let end = at + bytes.len();
    let place = &mut buf[at..end];
    place.copy_from_slice(bytes);
    end
}

/// Copies bytes to this place, of which only so many at the front count, and answers where these end.
pub(crate) fn put_front(buf: &mut [u8], at: usize, bytes: &[u8], count: usize) -> usize
    requires room { at + length bytes.now ≤ length buf.old }
    requires count { count ≤ length bytes.now }
    ensures end { result ≡ at + count }
    ensures written { take result buf.new ≡ take at buf.old ++ take count bytes.now }
    ensures count { length buf.new ≡ length buf.old }
{
    put(buf, at, bytes);
    at + count
}

/// Spells a number's field, a comma and its digits, at the front of these bytes, and answers where it ends.
pub(crate) fn spell(number: u32, field: &mut [u8]) -> usize
    requires { length (decimal number) < length field.old }
    ensures end { result ≡ length (decimal number) + 1 }
    ensures spelled { take result field.new ≡ number_fields (number ∷ []) }
    ensures count { length field.new ≡ length field.old }
{
    let mut digits = Buffer::new();
    let at = put(field, 0, b",");
    put(field, at, digits.format(number).as_bytes())
}
