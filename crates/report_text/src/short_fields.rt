//! The fields of small numbers, spelled once for all lines.
ghost use Rattle.std.specs.Prelude.{◌≡◌, ◌+◌, ◌<◌, ◌≤◌, [], ◌∷◌, ◌++◌, length, take};
ghost use Rattle.report_text.specs.Lines.{number_fields};
ghost use Rattle.report_text.specs.ShortFields.{AreShortFields};

use crate::numeral::Numeral;
use crate::put::put_front;
use crate::short_field::{ShortField, short_field};

/// How many numbers have their field in the table.
const SMALL: u16 = 1_000;

/// The field of each number below 1,000, at the number's place.
#[derive(Debug, Drop)]
pub(crate) struct ShortFields {
    fields: [ShortField; 1_000],
    ghost spelled: { AreShortFields fields },
}

impl ShortFields {
    /// Spells them all.
    pub(crate) fn new() -> ShortFields {
        let mut fields = [short_field(0); 1_000];
        for number in 0..SMALL {
            fields[number as usize] = short_field(number);
        }
        ShortFields { fields }
    }

    /// Puts the field of a number at this place, and answers where it ends.
    #[inline(always)]
    pub(crate) fn put(&self, buf: &mut [u8], at: usize, number: u32) -> usize
        requires { at + 16 ≤ length buf.old }
        ensures fits { result ≤ at + 11 }
        ensures written { take result buf.new ≡ take at buf.old ++ number_fields (number ∷ []) }
        ensures count { length buf.new ≡ length buf.old }
    {
        if number < u32::from(SMALL) {
            return self.put_small(buf, at, number);
        }
        put_long(buf, at, number)
    }

    /// Puts the field of a number below 1,000.
    #[inline(always)]
    pub(crate) fn put_small(&self, buf: &mut [u8], at: usize, number: u32) -> usize
        requires small { number < 1000 }
        requires room { at + 16 ≤ length buf.old }
        ensures fits { result ≤ at + 11 }
        ensures written { take result buf.new ≡ take at buf.old ++ number_fields (number ∷ []) }
        ensures count { length buf.new ≡ length buf.old }
    {
        let field = self.fields[number as usize];
        put_front(buf, at, &field.bytes, field.end as usize)
    }
}

/// Spells the field of any number at this place, and answers where it ends.
#[inline(never)]
fn put_long(buf: &mut [u8], at: usize, number: u32) -> usize
    requires { at + 16 ≤ length buf.old }
    ensures fits { result ≤ at + 11 }
    ensures written { take result buf.new ≡ take at buf.old ++ number_fields (number ∷ []) }
    ensures count { length buf.new ≡ length buf.old }
{
    Numeral::new(number).put(buf, at)
}
