ghost use Rattle.std.specs.Prelude.{◌≡◌, ◌<◌, ◌≤◌, ◌+◌, List, [], ◌++◌, length, take, drop, replicate, None, IfOk, IsTrue, false, All, slice_set};
ghost use Rattle.greedy_rules.specs.Slot.{slot_with};
ghost use Rattle.greedy_rules.specs.Schedule.{slot_in};
ghost use Rattle.greedy_rules.specs.SlotTable.{destination_of, flows_from, AreCells, IsSlotOf};
ghost use Rattle.greedy_rules.specs.Senders.{AreSendersOf, words_for};

use crate::rows::Rows;
use crate::senders::Senders;
use no_memory::NoMemory;
use std::alloc::Global;
use std::marker::Model;

/// Timeslots of a window, counted from 0: in each, where each endpoint sends. A row of destinations is written for the slots
/// alone in which some endpoint sends; who does is also told by a bit each, 64 in a word.
#[derive(Debug, Drop)]
pub struct SlotTable {
    rows: Rows,
    senders: Senders,
}

impl Model for SlotTable {
    ghost use Rattle.greedy_rules.specs.SlotTable.{Slots, IsTable, slots_of_rows};
    ghost use Rattle.greedy_rules.specs.Senders.{TellSenders};

    ghost Value = { Slots };

    ghost view = { λ t. record { slots = slots_of_rows t.rows; endpoints = t.rows.endpoints } };

    ghost invariant = { λ t. IsTable t.rows × TellSenders t.rows.endpoints (slots_of_rows t.rows) t.senders };
}

impl SlotTable {
    /// A table of so many empty slots for so many endpoints.
    pub fn open(alloc: Global, slots: u16, endpoints: u16) -> Result<SlotTable, NoMemory>
        ensures slots { IfOk result (λ table. table.slots ≡ replicate slots []) }
        ensures endpoints { IfOk result (λ table. table.endpoints ≡ endpoints) }
    {
        Ok(SlotTable {
            rows: Rows::open(alloc, slots, endpoints)?,
            senders: Senders::open(alloc, slots, endpoints)?,
        })
    }

    /// How many slots there are.
    pub fn slots(&self) -> u16
        ensures count { result ≡ length self.now.slots }
        ensures each { All (IsSlotOf self.now.endpoints) self.now.slots }
    {
        self.rows.places.len() as u16
    }

    /// How many endpoints the table serves.
    pub fn endpoints(&self) -> u16
        ensures { result ≡ self.now.endpoints }
    {
        self.rows.endpoints
    }

    /// Where the source sends in the slot; None where it sends nothing.
    pub fn to(&self, slot: u16, src: u16) -> Option<u16>
        requires slot_in_range { slot < length self.now.slots }
        requires src_in_range { src < self.now.endpoints }
        ensures { result ≡ destination_of (slot_in self.now.slots slot) src }
    {
        self.rows.row(slot)[src as usize]
    }

    /// Where each source sends in the slot, at the source's place.
    pub fn row(&self, slot: u16) -> &[Option<u16>]
        requires { slot < length self.now.slots }
        ensures flows { flows_from 0 result.now ≡ slot_in self.now.slots slot }
        ensures count { length result.now ≡ self.now.endpoints }
    {
        self.rows.row(slot)
    }

    /// Which endpoints send in the slot: a word for each 64 of them, with a bit for each, the first one's the lowest.
    pub fn senders(&self, slot: u16) -> &[u64]
        requires { slot < length self.now.slots }
        ensures bits { AreSendersOf (slot_in self.now.slots slot) result.now }
        ensures count { length result.now ≡ words_for self.now.endpoints }
    {
        self.senders.of(slot)
    }

    /// Whether two slots have the same packets. Who sends is compared first, as slots with other packets mostly have other
    /// senders.
    pub fn are_equal(&self, slot: u16, other: u16) -> bool
        requires slot { slot < length self.now.slots }
        requires other { other < length self.now.slots }
        ensures { IsTrue result → slot_in self.now.slots slot ≡ slot_in self.now.slots other }
    {
        self.senders.of(slot) == self.senders.of(other)
            && self.rows.row(slot) == self.rows.row(other)
    }

    /// Whether the slot has a row. One without a row is idle, and this is told without a look at its packets.
    pub fn has_row(&self, slot: u16) -> bool
        requires { slot < length self.now.slots }
        ensures { result ≡ false → slot_in self.now.slots slot ≡ [] }
    {
        self.rows.has_row(slot)
    }

    /// Empties every slot.
    pub fn clear(&mut self)
        ensures slots { self.new.slots ≡ replicate (length self.old.slots) [] }
        ensures endpoints { self.new.endpoints ≡ self.old.endpoints }
    {
        self.rows.clear(&mut self.senders);
    }

    /// Makes the slots from place `to` on those of a table for as many endpoints or fewer.
    pub fn copy(&mut self, from: &SlotTable, to: u16)
        requires endpoints { from.now.endpoints ≤ self.old.endpoints }
        requires places { to + length from.now.slots ≤ length self.old.slots }
        ensures slots { self.new.slots ≡ take to self.old.slots ++ from.now.slots ++ drop (to + length from.now.slots) self.old.slots }
        ensures endpoints { self.new.endpoints ≡ self.old.endpoints }
    {
        // A table has no more slots than 16 bits count.
        let _slots = self.slots();
        for slot in 0..from.slots() {
            self.copy_slot(from, slot, to + slot);
        }
    }

    /// Makes the slot at place `to` the one at place `slot` of a table for as many endpoints or fewer.
    fn copy_slot(&mut self, from: &SlotTable, slot: u16, to: u16)
        requires endpoints { from.now.endpoints ≤ self.old.endpoints }
        requires slot { slot < length from.now.slots }
        requires to { to < length self.old.slots }
        ensures slots { self.new.slots ≡ slice_set self.old.slots to (slot_in from.now.slots slot) }
        ensures endpoints { self.new.endpoints ≡ self.old.endpoints }
    {
        if from.rows.has_row(slot) || self.rows.has_row(to) {
            self.rows
                .copy(to, from.rows.row(slot), from.senders.of(slot));
            self.senders.copy(to, &from.senders, slot);
        }
    }

    /// Lets the slot hold what this row holds; an endpoint that has no place in it sends nothing.
    pub(crate) fn write(&mut self, slot: u16, row: &[Option<u16>])
        requires slot { slot < length self.old.slots }
        requires whole { length row.now ≤ self.old.endpoints }
        requires cells { AreCells self.old.endpoints row.now }
        ensures slots { self.new.slots ≡ slice_set self.old.slots slot (flows_from 0 row.now) }
        ensures endpoints { self.new.endpoints ≡ self.old.endpoints }
    {
        self.rows.write(slot, row);
        self.senders.note(slot, row);
    }

    /// Lets the source, which sends nothing in the slot, send to this destination.
    pub fn put(&mut self, slot: u16, src: u16, dst: u16)
        requires slot_in_range { slot < length self.old.slots }
        requires src_in_range { src < self.old.endpoints }
        requires dst_in_range { dst < self.old.endpoints }
        requires free { destination_of (slot_in self.old.slots slot) src ≡ None }
        ensures slots { self.new.slots ≡ slice_set self.old.slots slot (slot_with (record { src = src; dst = dst }) (slot_in self.old.slots slot)) }
        ensures endpoints { self.new.endpoints ≡ self.old.endpoints }
    {
        self.rows.put(slot, src, dst);
        self.senders.set(slot, src);
    }
}
