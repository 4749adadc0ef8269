//! Marks for the lines of a table: which of them are to be looked at.
//!
//! `line_marks` has a mark for each of 256 lines, as four words, and the call that finds the next marked one. Both ends of a
//! connection keep a line for each endpoint and mark those that have something to tell, so that a round costs what has changed
//! and not what there is. `trace_text` marks the flows that a round asks for.
#![tactic(auto)]

ghost use Rattle.std.specs.Prelude.{◌≡◌, ◌≤◌, ◌<◌, ◌==◌, ◌&&◌, ◌||◌, ℕ, true, false, not};
ghost use Rattle.line_marks.specs.Places.{is_marked};

use std::marker::Model;

/// A mark for each of 256 places. Clauses read them by `is_marked`.
#[derive(Debug, Drop)]
pub struct Marks {
    words: [u64; 4],
}

impl Model for Marks {
    ghost use Rattle.line_marks.specs.Places.{Places};

    ghost Value = { Places };

    ghost view = { λ marks. record { words = marks.words } };
}

impl Marks {
    /// No place is marked.
    pub fn new() -> Marks
        ensures { (place : ℕ) → is_marked result place ≡ false }
    {
        Marks { words: [0; 4] }
    }

    /// Marks this place.
    pub fn set(&mut self, at: usize)
        requires { at < 256 }
        ensures { (place : ℕ) → is_marked self.new place ≡ (is_marked self.old place || place == at) }
    {
        self.words[at / 64] |= 1 << (at % 64);
    }

    /// Takes the mark from this place.
    pub fn clear(&mut self, at: usize)
        requires { at < 256 }
        ensures { (place : ℕ) → is_marked self.new place ≡ (is_marked self.old place && not (place == at)) }
    {
        self.words[at / 64] &= !(1 << (at % 64));
    }

    /// Marks every place.
    pub fn set_all(&mut self)
        ensures { (place : ℕ) → place < 256 → is_marked self.new place ≡ true }
    {
        self.words = [u64::MAX; 4];
    }

    /// Takes the mark from every place.
    pub fn clear_all(&mut self)
        ensures { (place : ℕ) → is_marked self.new place ≡ false }
    {
        self.words = [0; 4];
    }

    /// The first marked place from this one on, 256 where there is none.
    pub fn next_from(&self, at: usize) -> usize
        requires { at ≤ 256 }
        ensures from { at ≤ result }
        ensures most { result ≤ 256 }
        ensures marked { result < 256 → is_marked self.now result ≡ true }
        ensures first { (place : ℕ) → at ≤ place → place < result → is_marked self.now place ≡ false }
    {
        let mut mask = u64::MAX << (at % 64);
        for word in at / 64..4 {
            let marked = self.words[word] & mask;
            if marked != 0 {
                return word * 64 + marked.trailing_zeros() as usize;
            }
            mask = u64::MAX;
        }
        256
    }
}
