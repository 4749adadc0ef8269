//! The sender's side.
ghost use Rattle.std.specs.Prelude.{◌≡◌, ℕ, ◌+◌, ◌^◌, ◌<◌, ◌≤◌, ◌↔◌, List, [], ◌∷◌, ◌++◌, Some, IsTrue, IfOk, IfSome, IfNone, OnSome, IsSome, All, map, length, take, drop, slice_index_or, vec_len, vec_capacity};
ghost use Rattle.std.specs.List.{remove};
ghost use Rattle.std.specs.Bool.{OnFalse};
ghost use Rattle.arrayvec.specs.ArrayVec.{array_vec_len};
ghost use Rattle.ack_window.specs.Acknowledgement.{decision_by};
ghost use Rattle.ack_window.specs.Kept.{RisesWithin, last_number};
ghost use Rattle.ack_window.specs.Outstanding.{MaySendNew, decided_in, left_in};
ghost use Rattle.ack_window.specs.Sends.{Event, Sends, Reads, decided_by, newest_content, outstanding_of};
ghost use Rattle.ack_window.specs.Steps.{after_sending, after_reading, decided_for};
ghost use Rattle.ack_window.specs.Versions.{reorder_of, span_of};
ghost use Rattle.ack_window.specs.Windows.{HasDone, MaySend};

use crate::acknowledgement::Acknowledgement;
use crate::{NoMemory, span};
use arrayvec::ArrayVec;
use std::alloc::Global;
use std::marker::Model;

/// A number that an acknowledgement decides, with the content that was sent with it.
#[derive(Debug, Default, PartialEq, Eq, Drop)]
pub struct Decided<T> {
    pub number: u32,
    pub lost: bool,
    pub content: T,
}

/// A number that was sent and that no acknowledgement has decided, with its content. Clauses see these of a [`SendWindow`].
#[derive(Debug, Drop)]
pub struct Unresolved<T> {
    pub number: u32,
    pub content: T,
}

/// The numbers sent to the other side, counted from 1, with the contents of those that are still unresolved. Most are decided
/// soon, so that the same places are written again and again.
#[derive(Drop)]
pub struct SendWindow<T> {
    version: u8,
    newest: u32,
    unresolved: Vec<Unresolved<T>>,
}

/// How many numbers may be unresolved at once, in any version: a span of 128 and the oldest.
const MOST_UNRESOLVED: usize = 129;

impl<T> Model for SendWindow<T> {
    ghost use Rattle.std.specs.Prelude.{◌≡◌, vec_capacity};
    ghost use Rattle.ack_window.specs.Kept.{IsKept};
    ghost use Rattle.ack_window.specs.Versions.{reorder_of, span_of};
    ghost use Rattle.ack_window.specs.Windows.{Sender};

    ghost Value = { Sender T };

    ghost view = { λ window. record {
      version = window.version;
      outstanding = record { newest = window.newest; unresolved = window.unresolved.items };
    } };

    ghost invariant = { λ window.
        IsKept (reorder_of window.version) (span_of window.version) window.newest window.unresolved.items
        × (vec_capacity window.unresolved ≡ 129) };
}

impl<T> SendWindow<T> {
    /// A window of a connection of this version that has sent nothing, with the memory for all that it may ever hold.
    pub fn open(alloc: Global, version: u8) -> Result<SendWindow<T>, NoMemory>
        ensures version { IfOk result (λ window. window.version ≡ version) }
        ensures stands { IfOk result (λ window. HasDone window []) }
    {
        let unresolved = Vec::with_capacity(alloc, MOST_UNRESOLVED)?;
        Ok(SendWindow {
            version,
            newest: 0,
            unresolved,
        })
    }

    /// Whether a new number may be sent: none is unresolved, or it is at most the span above the oldest that is.
    pub fn may_send(&self) -> bool
        ensures answer { IsTrue result ↔ MaySend self.now }
        ensures history { (history : List (Event T)) →
            HasDone self.now history →
            (IsTrue result ↔ MaySendNew (span_of self.now.version)
            (outstanding_of (reorder_of self.now.version) (span_of self.now.version) history)) }
    {
        match self.unresolved.first() {
            Some(oldest) => self.newest - oldest.number < span(self.version),
            None => true,
        }
    }

    /// Whether no number is unresolved.
    pub fn is_settled(&self) -> bool
        ensures { IsTrue result ↔ (self.now.outstanding.unresolved ≡ []) }
    {
        self.unresolved.is_empty()
    }

    /// The newest number and its content, which go again where no new number may be sent.
    pub fn newest(&self) -> (u32, &T)
        requires { ¬ MaySend self.now }
        ensures number { result.0 ≡ self.now.outstanding.newest }
        ensures last { last_number self.now.outstanding.unresolved ≡ self.now.outstanding.newest }
        ensures content { (history : List (Event T)) →
            HasDone self.now history →
            newest_content history ≡ Some result.1.now }
    {
        let last = self.unresolved.last().unwrap();
        (self.newest, &last.content)
    }

    /// Sends a new number with this content, and answers the number.
    pub fn push(&mut self, content: T) -> u32
        requires may_send { MaySend self.old }
        requires numbers_left { self.old.outstanding.newest + 1 < 2 ^ 32 }
        ensures number { result ≡ self.old.outstanding.newest + 1 }
        ensures newest { self.new.outstanding.newest ≡ result }
        ensures version { self.new.version ≡ self.old.version }
        ensures step { self.new ≡ after_sending self.old content }
        ensures near { All (λ s. (s.number < result) × (result ≤ s.number + 128)) self.old.outstanding.unresolved }
        ensures stands { (history : List (Event T)) →
            HasDone self.old history →
            HasDone self.new (Sends content ∷ history) }
    {
        let number = self.newest + 1;
        self.newest = number;
        self.unresolved
            .push_reserved(Unresolved { number, content });
        number
    }
}

impl<T: Drop> SendWindow<T> {
    /// Reads an acknowledgement, and appends to `found` every number that it decides, rising. One whose `high` is above the
    /// newest number is passed over.
    pub fn read_ack(&mut self, high: u32, mask: u128, found: &mut ArrayVec<Decided<T>, 129>)
        requires { found.old.items ≡ [] }
        ensures found { found.new.items ≡ decided_for self.old (record { high = high; mask = mask }) }
        ensures step { self.new ≡ after_reading self.old (record { high = high; mask = mask }) }
        ensures decided { (history : List (Event T)) →
            HasDone self.old history →
            found.new.items ≡ decided_by (reorder_of self.old.version) (span_of self.old.version) history (record { high = high; mask = mask }) }
        ensures newest { self.new.outstanding.newest ≡ self.old.outstanding.newest }
        ensures version { self.new.version ≡ self.old.version }
        ensures stands { (history : List (Event T)) →
            HasDone self.old history →
            HasDone self.new (Reads (record { high = high; mask = mask }) ∷ history) }
    {
        if high <= self.newest {
            let ack = Acknowledgement { high, mask };
            decide(&mut self.unresolved, self.version, ack, found);
        }
    }

    /// Takes the number `high` out where no other is unresolved: every acknowledgement of this `high` decides just that. None where
    /// it isn't so; then nothing is read.
    pub fn take_only(&mut self, high: u32) -> Option<Decided<T>>
        ensures some { IsSome result ↔ (map (λ s. s.number) self.old.outstanding.unresolved ≡ high ∷ []) }
        ensures found { IfSome result (λ decided. (mask : ℕ) → decided ∷ [] ≡ decided_for self.old (record { high = high; mask = mask })) }
        ensures step { OnSome result ((mask : ℕ) → self.new ≡ after_reading self.old (record { high = high; mask = mask })) }
        ensures none { IfNone result (self.new ≡ self.old) }
        ensures newest { self.new.outstanding.newest ≡ self.old.outstanding.newest }
        ensures version { self.new.version ≡ self.old.version }
    {
        if !is_only(&self.unresolved, high) {
            return None;
        }
        let Unresolved { number, content } = self.unresolved.pop().unwrap();
        Some(Decided {
            number,
            lost: false,
            content,
        })
    }

    /// Starts the connection anew, with this version: nothing is sent, and nothing is unresolved.
    pub fn restart(&mut self, version: u8)
        ensures version { self.new.version ≡ version }
        ensures stands { HasDone self.new [] }
    {
        self.version = version;
        self.newest = 0;
        self.unresolved.clear();
    }
}

/// Whether this number alone is unresolved.
fn is_only<T>(unresolved: &[Unresolved<T>], number: u32) -> bool
    ensures { IsTrue result ↔ (map (λ s. s.number) unresolved.now ≡ number ∷ []) }
{
    unresolved.len() == 1 && unresolved[0].number == number
}

/// Moves each number that the acknowledgement decides to `found`. At most the reorder window and one
/// more of those that it looks at stay.
fn decide<T: Drop>(
    unresolved: &mut Vec<Unresolved<T>>,
    version: u8,
    ack: Acknowledgement,
    found: &mut ArrayVec<Decided<T>, 129>,
)
    requires rising { RisesWithin 0 (2 ^ 32) unresolved.old.items }
    requires room { array_vec_len found.old + vec_len unresolved.old ≤ 129 }
    ensures found { found.new.items ≡
        found.old.items ++ decided_in (decision_by (reorder_of version) (span_of version) ack) unresolved.old.items }
    ensures left { unresolved.new.items ≡ left_in (decision_by (reorder_of version) (span_of version) ack) unresolved.old.items }
    ensures capacity { vec_capacity unresolved.new ≡ vec_capacity unresolved.old }
{
    let mut at = 0;
    'numbers: while is_within(unresolved, at, ack.high) {
        at = judge(unresolved, at, version, ack, found);
    }
}

/// Whether there is a number at this place, and it is at most `high`.
fn is_within<T>(unresolved: &[Unresolved<T>], at: usize, high: u32) -> bool
    requires { RisesWithin 0 (2 ^ 32) (drop at unresolved.now) }
    ensures within { IsTrue result → at < length unresolved.now }
    ensures past { OnFalse result (RisesWithin (high + 1) (2 ^ 32) (drop at unresolved.now)) }
{
    match unresolved.get(at) {
        Some(sent) => sent.number <= high,
        None => false,
    }
}

/// Moves the number at this place to `found` where the acknowledgement decides it, and answers the place of the next number.
fn judge<T: Drop>(
    unresolved: &mut Vec<Unresolved<T>>,
    at: usize,
    version: u8,
    ack: Acknowledgement,
    found: &mut ArrayVec<Decided<T>, 129>,
) -> usize
    requires within { at < vec_len unresolved.old }
    requires room { array_vec_len found.old < 129 }
    ensures found { found.new.items ≡
        found.old.items ++ decided_in (decision_by (reorder_of version) (span_of version) ack) (take 1 (drop at unresolved.old.items)) }
    ensures kept { take result unresolved.new.items ≡
        take at unresolved.old.items ++ left_in (decision_by (reorder_of version) (span_of version) ack) (take 1 (drop at unresolved.old.items)) }
    ensures rest { drop result unresolved.new.items ≡ drop (at + 1) unresolved.old.items }
    ensures less { vec_len unresolved.new + at + 1 ≡ vec_len unresolved.old + result }
    ensures room { array_vec_len found.new + vec_len unresolved.new
        ≤ array_vec_len found.old + vec_len unresolved.old }
    ensures place { result ≤ vec_len unresolved.new }
    ensures capacity { vec_capacity unresolved.new ≡ vec_capacity unresolved.old }
{
    match ack.decision(version, unresolved[at].number) {
        Some(decision) => {
            let Unresolved { number, content } = take_out(unresolved, at);
            found.push(Decided {
                number,
                lost: decision.is_lost(),
                content,
            });
            at
        }
        None => at + 1,
    }
}

/// Takes the number at this place out. Mostly it is the last.
fn take_out<T: Drop>(unresolved: &mut Vec<Unresolved<T>>, at: usize) -> Unresolved<T>
    requires { at < vec_len unresolved.old }
    ensures value { result ≡ slice_index_or unresolved.old.items at result }
    ensures items { unresolved.new.items ≡ remove unresolved.old.items at }
    ensures len { vec_len unresolved.new + 1 ≡ vec_len unresolved.old }
    ensures capacity { vec_capacity unresolved.new ≡ vec_capacity unresolved.old }
{
    if at + 1 == unresolved.len() {
        unresolved.pop().unwrap()
    } else {
        unresolved.remove(at)
    }
}
