//! Numbers spelled once for many lines.
ghost use Rattle.std.specs.Prelude.{◌≡◌, ◌+◌, ◌≤◌, [], ◌∷◌, ◌++◌, length, take};
ghost use Rattle.report_text.specs.Lines.{number_fields};

use crate::put::{put_front, spell};
use std::marker::Model;

/// A number of 32 bits with its field, a comma and its digits, at the front of 16 bytes: it is spelled once for all lines
/// that share it.
#[derive(Debug, Drop)]
pub struct Numeral {
    number: u32,
    field: [u8; 16],
    end: usize,
}

impl Model for Numeral {
    ghost use Rattle.std.specs.Prelude.{ℕ, ◌≤◌};
    ghost use Rattle.report_text.specs.Fields.{IsField};

    ghost Value = { ℕ };

    ghost view = { λ n. n.number };

    ghost invariant = { λ n. (n.end ≤ 11) × IsField n.number n.field n.end };
}

impl Numeral {
    /// Spells a number.
    #[tactic(auto, using(crate::proofs::Pieces::decimal_of_32_bits))]
    pub fn new(number: u32) -> Numeral
        ensures { result ≡ number }
    {
        let mut field = [0; 16];
        let end = spell(number, &mut field);
        Numeral { number, field, end }
    }

    /// The number.
    pub fn number(&self) -> u32
        ensures { result ≡ self.now }
    {
        self.number
    }

    /// Spells another number, where it is another.
    pub fn set(&mut self, number: u32)
        ensures { self.new ≡ number }
    {
        if number != self.number {
            self.spell_anew(number);
        }
    }

    /// Spells another number.
    #[inline(never)]
    fn spell_anew(&mut self, number: u32)
        ensures { self.new ≡ number }
    {
        *self = Numeral::new(number);
    }

    /// Puts the field at this place, and answers where it ends.
    pub(crate) fn put(&self, buf: &mut [u8], at: usize) -> usize
        requires { at + 16 ≤ length buf.old }
        ensures fits { result ≤ at + 11 }
        ensures written { take result buf.new ≡ take at buf.old ++ number_fields (self.now ∷ []) }
        ensures count { length buf.new ≡ length buf.old }
    {
        // Copied first: it can't overlap the buffer then, and is stored at once.
        let field = self.field;
        put_front(buf, at, &field, self.end)
    }
}
