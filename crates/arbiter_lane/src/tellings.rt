//! What is told under each number, until it is decided.
ghost use Rattle.std.specs.Prelude.{◌≡◌, ◌<◌, ◌≤◌, ◌+◌, ◌^◌, ◌↔◌, ◌∷◌, List, [], length, All, Some, IfOk, IsTrue, slice_set};
ghost use Rattle.fcp_framing.specs.declared.packet.Told.{Told as ToldSlot};
ghost use Rattle.ack_window.specs.declared.send_window.Unresolved.{Unresolved as UnresolvedNumber};
ghost use Rattle.ack_window.specs.Sends.{Event, Sends, Reads, newest_content, decided_by};
ghost use Rattle.ack_window.specs.Versions.{reorder_of, span_of};
ghost use Rattle.ack_window.specs.Windows.{HasDone, MaySend};
ghost use Rattle.endpoint_history.specs.Packets.{Telling as TellingOf};
ghost use Rattle.arbiter_lane.specs.State.{AreInFlight, unresolved_to};
ghost use Rattle.arbiter_lane.specs.Lines.{Become, DecidesSlots, slots_shown, slots_lost};
ghost use Rattle.arbiter_lane.specs.Parts.{RisenAreMarked};

use crate::line::LaneLine;
use crate::places::Places;
use crate::telling::Telling;
use crate::{NoMemory, flows};
use ack_window::{Decided, SendWindow, readings_move_what_they_decide, senders_go_on_by_step};
use arrayvec::ArrayVec;
use fcp_framing::Told;
use line_marks::Marks;
use std::alloc::Global;
use std::marker::Model;

/// The numbers of a connection with what was told under those that are unresolved: it is written into the place of its number over
/// what was there, and read where it lies.
#[derive(Drop)]
pub(crate) struct Tellings {
    sent: SendWindow<()>,
    places: Places,
    /// What an acknowledgement decides. Empty between two calls.
    found: ArrayVec<Decided<()>, 129>,
}

impl Model for Tellings {
    ghost use Rattle.std.specs.Prelude.{◌≡◌, []};
    ghost use Rattle.ack_window.specs.Windows.{Sender};
    ghost use Rattle.endpoint_history.specs.Packets.{Telling as TellingOf};
    ghost use Rattle.arbiter_lane.specs.Places.{with_contents};

    ghost Value = { Sender TellingOf };

    ghost view = { λ tellings. with_contents tellings.places tellings.sent };

    ghost invariant = { λ tellings. tellings.found.items ≡ [] };
}

impl Tellings {
    /// A connection of this version in which nothing was told, with the memory for all that may ever be unresolved.
    pub(crate) fn open(alloc: Global, version: u8) -> Result<Tellings, NoMemory>
        ensures version { IfOk result (λ tellings. tellings.version ≡ version) }
        ensures stands { IfOk result (λ tellings. HasDone tellings []) }
    {
        Ok(Tellings {
            sent: SendWindow::open(alloc, version)?,
            places: Places::open(alloc)?,
            found: ArrayVec::new(),
        })
    }

    /// Whether a new number may be sent: none is unresolved, or it is at most the span above the oldest that is.
    pub(crate) fn may_send(&self) -> bool
        ensures { IsTrue result ↔ MaySend self.now }
    {
        self.sent.may_send()
    }

    /// The newest number and what was told under it, which go again where no new number may be sent.
    pub(crate) fn newest(&self) -> (u32, &Telling)
        requires { ¬ MaySend self.now }
        ensures number { result.0 ≡ self.now.outstanding.newest }
        ensures content { (history : List (Event TellingOf)) →
            HasDone self.now history →
            newest_content history ≡ Some result.1.now }
    {
        senders_go_on_by_step::<Telling>();
        let (number, _) = self.sent.newest();
        (number, self.places.at(number))
    }

    /// Tells the slots of a batch under a new number, and answers the number.
    pub(crate) fn push(&mut self, batch: u32, told: &[Told]) -> u32
        requires few { length told.now ≤ 64 }
        requires may_send { MaySend self.old }
        requires numbers_left { self.old.outstanding.newest + 1 < 2 ^ 32 }
        ensures number { result ≡ self.old.outstanding.newest + 1 }
        ensures newest { self.new.outstanding.newest ≡ result }
        ensures version { self.new.version ≡ self.old.version }
        ensures stands { (history : List (Event TellingOf)) →
            HasDone self.old history →
            HasDone self.new (Sends (record { batch = batch; told = told.now }) ∷ history) }
    {
        senders_go_on_by_step::<Telling>();
        let is_settled = self.sent.is_settled();
        let number = self.sent.push(());
        self.places.choose_place(number, is_settled);
        self.places.put(number, batch, told);
        number
    }

    /// Reads an acknowledgement, and counts the slots in the numbers that it decides, as lost or as acknowledged.
    pub(crate) fn read_ack(
        &mut self,
        high: u32,
        mask: u128,
        lines: &mut [LaneLine],
        risen: &mut Marks,
    )
        requires few { length lines.old ≤ 256 }
        requires stands { (events : List (Event TellingOf)) × HasDone self.old events }
        requires destinations { All (λ (number : UnresolvedNumber TellingOf). All (λ (slot : ToldSlot). slot.dst < length lines.old) number.content.told) self.old.outstanding.unresolved }
        requires in_flight { AreInFlight (λ dst. unresolved_to dst self.old) lines.old }
        ensures lines { (events : List (Event TellingOf)) →
            HasDone self.old events →
            Become (λ dst. DecidesSlots
            (slots_shown (decided_by (reorder_of self.old.version) (span_of self.old.version) events (record { high = high; mask = mask })) dst)
            (slots_lost (decided_by (reorder_of self.old.version) (span_of self.old.version) events (record { high = high; mask = mask })) dst)) lines.old lines.new }
        ensures sent { (events : List (Event TellingOf)) →
            HasDone self.old events →
            HasDone self.new (Reads (record { high = high; mask = mask }) ∷ events) }
        ensures newest { self.new.outstanding.newest ≡ self.old.outstanding.newest }
        ensures version { self.new.version ≡ self.old.version }
        ensures marked { RisenAreMarked risen.old lines.old → RisenAreMarked risen.new lines.new }
    {
        readings_move_what_they_decide::<Telling>();
        senders_go_on_by_step::<Telling>();
        if let Some(number) = self.sent.take_only(high) {
            flows::decide_one(lines, risen, &number, &self.places);
            return;
        }
        self.sent.read_ack(high, mask, &mut self.found);
        flows::decide(lines, risen, self.found.as_slice(), &self.places);
        self.found.clear();
    }

    /// Starts the connection anew, with this version: nothing is told, and nothing is unresolved.
    pub(crate) fn restart(&mut self, version: u8)
        ensures version { self.new.version ≡ version }
        ensures stands { HasDone self.new [] }
    {
        self.sent.restart(version);
    }
}
