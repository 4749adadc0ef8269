//! The field of a small number.
ghost use Rattle.std.specs.Prelude.{◌≡◌, ◌<◌, ◌≤◌, [], ◌∷◌, take};
ghost use Rattle.report_text.specs.Lines.{number_fields};

use crate::put::spell;

/// The field of a number below 1,000, a comma and its digits, at the front of 4 bytes.
#[derive(Clone, Copy, Debug)]
pub(crate) struct ShortField {
    pub(crate) bytes: [u8; 4],
    pub(crate) end: u32,
}

/// Spells a number below 1,000.
#[tactic(auto, using(crate::proofs::Pieces::decimal_of_3_digits))]
pub(crate) fn short_field(number: u16) -> ShortField
    requires { number < 1000 }
    ensures fits { result.end ≤ 4 }
    ensures spelled { take result.end result.bytes ≡ number_fields (number ∷ []) }
{
    let mut bytes = [0; 4];
    let end = spell(number.into(), &mut bytes);
    ShortField {
        bytes,
        end: end as u32,
    }
}
