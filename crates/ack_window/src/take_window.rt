//! The receiver's side.
ghost use Rattle.std.specs.Prelude.{◌≡◌, ◌≢◌, ℕ, ◌+◌, ◌-◌, ◌^◌, ◌<◌, ◌≤◌, ◌==◌, List, [], ◌∷◌, nat_lt, if◌then◌else◌, IsBitSet};
ghost use Rattle.std.specs.Int.{bit_at};
ghost use Rattle.ack_window.specs.Arrivals.{receive_verdict};
ghost use Rattle.ack_window.specs.Versions.{reorder_of, span_of};
ghost use Rattle.ack_window.specs.Windows.{HasHeard};

use crate::{reorder, span};
use std::marker::Model;

/// What a number is that arrives. Only a fresh one is taken.
#[derive(Clone, Copy, Debug, PartialEq, Eq)]
pub enum Taken {
    /// It did not arrive before, and is within the reorder window of the greatest that did.
    Fresh,
    /// It arrived before, and is within the reorder window of the greatest that did.
    Repeat,
    /// It is further below the greatest that arrived, whether it was taken or not.
    Old,
}

/// The numbers taken of the other side, as far back as an acknowledgement tells of them.
#[derive(Clone, Copy, Debug, PartialEq, Eq)]
pub struct TakeWindow {
    version: u8,
    high: u32,
    mask: u128,
}

impl Model for TakeWindow {
    ghost use Rattle.std.specs.Prelude.{ℕ, List};
    ghost use Rattle.ack_window.specs.Windows.{Receiver, HasHeard};

    ghost Value = { Receiver };

    ghost view = { λ window. record { version = window.version; told = record { high = window.high; mask = window.mask } } };

    ghost invariant = { λ window.
        (arrived : List ℕ) × HasHeard (record { version = window.version; told = record { high = window.high; mask = window.mask } }) arrived };

    ghost inverse = { λ window. record { version = window.version; high = window.told.high; mask = window.told.mask } };
}

impl TakeWindow {
    /// A window of a connection of this version that has taken nothing.
    pub fn new(version: u8) -> TakeWindow
        ensures version { result.version ≡ version }
        ensures stands { HasHeard result [] }
    {
        TakeWindow {
            version,
            high: 0,
            mask: 0,
        }
    }

    /// Judges the number that arrives, and takes it where it is fresh.
    pub fn take(&mut self, seq: u32) -> Taken
        requires { 1 ≤ seq }
        ensures verdict { (arrived : List ℕ) →
            HasHeard self.old arrived →
            result ≡ receive_verdict (reorder_of self.old.version) arrived seq }
        ensures stands { (arrived : List ℕ) →
            HasHeard self.old arrived →
            HasHeard self.new (seq ∷ arrived) }
        ensures version { self.new.version ≡ self.old.version }
        ensures unchanged { result ≢ Taken.Fresh → self.new ≡ self.old }
    {
        if seq > self.high {
            self.mask = mask_up_to(self.version, self.high, self.mask, seq);
            self.high = seq;
            return Taken::Fresh;
        }
        if self.high - seq > reorder(self.version) {
            return Taken::Old;
        }
        if seq == self.high {
            return Taken::Repeat;
        }
        let bit = 1u128 << (self.high - 1 - seq);
        if self.mask & bit != 0 {
            return Taken::Repeat;
        }
        self.mask |= bit;
        Taken::Fresh
    }

    /// The acknowledgement of all that arrived: the greatest number taken, 0 for none, and a mask whose bit i says that the
    /// number i + 1 below it was taken.
    pub fn ack(&self) -> (u32, u128)
        ensures high { result.0 ≡ self.now.told.high }
        ensures mask { result.1 ≡ self.now.told.mask }
        ensures fits { result.1 < 2 ^ span_of self.now.version }
        ensures numbers { (i : ℕ) → IsBitSet result.1 i → i + 1 < result.0 }
    {
        (self.high, self.mask)
    }
}

/// The mask of what was taken below `seq`, from the mask of what was taken below `high`.
fn mask_up_to(version: u8, high: u32, mask: u128, seq: u32) -> u128
    requires { high < seq }
    ensures fits { result < 2 ^ span_of version }
    ensures bits { (i : ℕ) → i < span_of version → bit_at result i ≡
        (if high == 0 then 0
        else (if i + 1 == seq - high then 1
        else (if nat_lt i (seq - high) then 0
        else bit_at mask (i - (seq - high))))) }
{
    let ahead = seq - high;
    if high == 0 || ahead > span(version) {
        return 0;
    }
    slid(mask, ahead) & all_bits(version)
}

/// The mask moved up by so many places, with a bit for the number that was the greatest. Mostly it is one place.
fn slid(mask: u128, ahead: u32) -> u128
    requires some { 1 ≤ ahead }
    requires most { ahead ≤ 128 }
    ensures { (i : ℕ) → i < 128 → bit_at result i ≡
        (if i + 1 == ahead then 1
        else (if nat_lt i ahead then 0
        else bit_at mask (i - ahead))) }
{
    if ahead == 1 {
        return (mask << 1) | 1;
    }
    let below = ahead - 1;
    (mask << below << 1) | (1 << below)
}

/// Every bit that a mask may have.
fn all_bits(version: u8) -> u128
    ensures { result ≡ 2 ^ span_of version - 1 }
{
    if version == 2 {
        u128::MAX
    } else {
        0xffff_ffff_ffff_ffff
    }
}
