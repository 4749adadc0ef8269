//! What is told under a number.
ghost use Rattle.std.specs.Prelude.{◌≡◌, ◌<◌, ◌≤◌, ◌+◌, ◌^◌, ℕ, List, [], length, take, All, Some, false, if◌then◌else◌};
ghost use Rattle.fcp_framing.specs.declared.packet.Told.{Told as ToldSlot};
ghost use Rattle.ack_window.specs.Sends.{Event, newest_content};
ghost use Rattle.ack_window.specs.Windows.{HasDone};
ghost use Rattle.endpoint_history.specs.Packets.{Telling as TellingOf, slots_to};
ghost use Rattle.arbiter_lane.specs.State.{AreInFlight};
ghost use Rattle.arbiter_lane.specs.Lines.{Become, LosesSlots};
ghost use Rattle.arbiter_lane.specs.Parts.{may_tell, events_after, lost_by, RisenAreMarked};

use crate::flows;
use crate::line::LaneLine;
use crate::tellings::Tellings;
use arrayvec::ArrayVec;
use fcp_framing::{Down, Told};
use line_marks::Marks;
use std::marker::Model;

/// An endpoint's slots of a batch, as they were told under a number. Clauses see the batch and the list of slots. Nothing of it is
/// read before it is written anew, and what is mostly used of it lies in a line of memory.
#[derive(Debug, Drop)]
pub struct Telling {
    batch: u32,
    count: u8,
    slots: [Told; 64],
}

impl Model for Telling {
    ghost use Rattle.std.specs.Prelude.{◌≤◌, take};
    ghost use Rattle.endpoint_history.specs.Packets.{Telling as TellingOf};

    ghost Value = { TellingOf };

    ghost view = { λ telling. record { batch = telling.batch; told = take telling.count telling.slots } };

    ghost invariant = { λ telling. telling.count ≤ 64 };
}

impl Telling {
    /// Without slots, to be written.
    pub(crate) fn blank() -> Telling {
        Telling {
            batch: 0,
            count: 0,
            slots: [Told::default(); 64],
        }
    }

    /// The batch.
    pub(crate) fn batch(&self) -> u32
        ensures { result ≡ self.now.batch }
    {
        self.batch
    }

    /// The slots.
    pub(crate) fn told(&self) -> &[Told]
        ensures slots { result.now ≡ self.now.told }
        ensures few { length result.now ≤ 64 }
    {
        &self.slots[..self.count as usize]
    }

    /// Becomes these slots of a batch.
    pub(crate) fn put(&mut self, batch: u32, told: &[Told])
        requires { length told.now ≤ 64 }
        ensures { self.new ≡ record { batch = batch; told = told.now } }
    {
        self.batch = batch;
        self.count = told.len() as u8;
        write_front(&mut self.slots, told);
    }
}

/// Writes these slots over the first of a row.
fn write_front(row: &mut [Told; 64], told: &[Told])
    requires { length told.now ≤ 64 }
    ensures { take (length told.now) row.new ≡ told.now }
{
    row[..told.len()].copy_from_slice(told);
}

/// Tells the slots of a batch under a new number, or takes them for lost where none may be sent. Writes the newest number, with
/// what goes with it, into `down`.
pub(crate) fn tell(
    sent: &mut Tellings,
    lines: &mut [LaneLine],
    risen: &mut Marks,
    batch: u32,
    told: &[Told],
    down: &mut Down,
)
    requires lines { length lines.old ≤ 256 }
    requires few { length told.now ≤ 64 }
    requires numbers_left { sent.old.outstanding.newest + 1 < 2 ^ 32 }
    requires destinations { All (λ (slot : ToldSlot). slot.dst < length lines.old) told.now }
    requires in_flight { AreInFlight (λ dst. slots_to dst told.now) lines.old }
    ensures sent { (events : List (Event TellingOf)) →
        HasDone sent.old events →
        HasDone sent.new (events_after sent.old (record { batch = batch; told = told.now }) events) }
    ensures newest { sent.new.outstanding.newest ≡ sent.old.outstanding.newest + (if may_tell sent.old then 1 else 0) }
    ensures version { sent.new.version ≡ sent.old.version }
    ensures lines { Become (λ dst. LosesSlots (lost_by sent.old told.now dst)) lines.old lines.new }
    ensures marked { RisenAreMarked risen.old lines.old → RisenAreMarked risen.new lines.new }
    ensures content { (events : List (Event TellingOf)) →
        HasDone sent.old events →
        newest_content (events_after sent.old (record { batch = batch; told = told.now }) events) ≡ Some (record { batch = down.new.batch; told = down.new.told.items }) }
    ensures few { length down.new.told.items ≤ 64 }
    ensures down { down.new ≡ record down.old { seq = sent.new.outstanding.newest; batch = down.new.batch; told = down.new.told } }
{
    if sent.may_send() {
        down.seq = sent.push(batch, told);
        down.batch = batch;
        put_slots(&mut down.told, told);
        return;
    }
    flows::lose(lines, risen, told);
    let (number, telling) = sent.newest();
    down.seq = number;
    down.batch = telling.batch();
    put_slots(&mut down.told, telling.told());
}

/// Makes the slots of a list these: what stands is written over, and the rest is appended.
fn put_slots(list: &mut ArrayVec<Told, 64>, told: &[Told])
    requires { length told.now ≤ 64 }
    ensures { list.new.items ≡ told.now }
{
    list.truncate(told.len());
    let (front, rest) = told.split_at(list.len());
    list.as_mut_slice().copy_from_slice(front);
    if !rest.is_empty() {
        let _ = list.try_extend_from_slice(rest);
    }
}
