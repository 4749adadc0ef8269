//! What an acknowledgement says of a number.
use crate::{reorder, span};

/// The greatest number that was taken, 0 for none, and a mask whose bit i says that the number i + 1 below it was taken.
/// Clauses see a [`TakeWindow`](crate::TakeWindow) as its version and one of these.
#[derive(Clone, Copy, Debug, PartialEq, Eq)]
pub struct Acknowledgement {
    pub high: u32,
    pub mask: u128,
}

/// What becomes of a number that was sent.
#[derive(Clone, Copy, Debug, PartialEq, Eq)]
pub enum Decision {
    Acknowledged,
    Lost,
}

impl Decision {
    ghost use Rattle.std.specs.Prelude.{◌≡◌};
    ghost use Rattle.ack_window.specs.Acknowledgement.{is_lost};

    /// Whether it says that the number is lost.
    pub fn is_lost(self) -> bool
        ensures { result ≡ is_lost self }
    {
        matches!(self, Decision::Lost)
    }
}

impl Acknowledgement {
    ghost use Rattle.std.specs.Prelude.{◌≡◌};
    ghost use Rattle.ack_window.specs.Acknowledgement.{shows, decision_by};
    ghost use Rattle.ack_window.specs.Versions.{reorder_of, span_of};

    /// What it decides of the number, if anything, in a connection of this version.
    pub fn decision(self, version: u8, number: u32) -> Option<Decision>
        ensures { result ≡ decision_by (reorder_of version) (span_of version) self number }
    {
        if self.shows(version, number) {
            Some(Decision::Acknowledged)
        } else if self.high.saturating_sub(number) > reorder(version) {
            Some(Decision::Lost)
        } else {
            None
        }
    }

    fn shows(self, version: u8, number: u32) -> bool
        ensures { result ≡ shows (span_of version) self number }
    {
        if number >= self.high {
            return number == self.high;
        }
        let place = self.high - 1 - number;
        place < span(version) && self.mask >> place & 1 == 1
    }
}
