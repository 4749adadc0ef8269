//! What of a window's demand list its batches run over, while the rest is set aside.
ghost use Rattle.std.specs.Prelude.{◌≡◌, ◌<◌, ◌≤◌, ◌+◌, ◌*◌, Bool, length, true, false, IfOk, vec_capacity};
ghost use Rattle.greedy_rules.specs.declared.flows.Flow.{Flow};
ghost use Rattle.greedy_rules.specs.declared.flows.Item.{Item};
ghost use Rattle.slot_batches.specs.Feeding.{IsInOrder};
ghost use Rattle.slot_batches.specs.Marks.{has_mark};
ghost use Rattle.slot_batches.specs.Woven.{woven, OnlyOpen, places_from};
ghost use Rattle.greedy_rules.specs.Demands.{HasEachFlowOnce, AreBelow};
ghost use Rattle.window_allocation.specs.Picked.{HasRoomForPairs, IsReached};
ghost use Rattle.window_allocation.specs.Reach.{OpenNew, AreOut};

use crate::batches::stays_short;
use crate::flow_slots::FlowSlots;
use crate::guess::Guess;
use crate::in_place::weave_in_place;
use crate::reach::are_out;
use crate::weave::{first_served, weave_lists};
use crate::window_list::{PAUSE, is_long};
use greedy_rules::{Batch, DemandList, Item, SlotTable};
use no_memory::NoMemory;
use slot_batches::{FlowMarks, give_items};
use std::alloc::Global;

/// Whether a guess of what the batches can choose is made: their slots fit a word, no rack has more hosts than cores, and the list
/// is not short, but long.
fn pays(list: &[Item], batches: &[Batch], b: u8, endpoints: u16) -> bool
    requires some { 0 < length batches.now }
    requires count { length batches.now ≤ 16 }
    ensures { result ≡ true → length batches.now * b ≤ 64 }
{
    let limits = batches[0].limits();
    if batches.len() * b as usize > 64 || limits.hosts > limits.cores {
        return false;
    }
    !stays_short(list, batches) && is_long(list.len(), endpoints, b)
}

/// The items of a window's list over which its batches run, and the memory in which they and the others come together again.
#[derive(Drop)]
pub(crate) struct Picked {
    marks: FlowMarks,
    pub(crate) items: DemandList,
    // Where each of them stood in the list.
    places: Vec<usize>,
    whole: Vec<Item>,
    // The window's list, while it is woven where it stands. There is room for so many items that the list may have these in its
    // place.
    list: Vec<Item>,
    // For the guess and the test of what a window's batches can choose.
    guess: Guess,
    pub(crate) slots: FlowSlots,
    // So many windows pass before that is guessed again.
    wait: u8,
}

impl Picked {
    /// With room for an item of each pair of endpoints.
    pub(crate) fn open(alloc: Global, endpoints: u16) -> Result<Picked, NoMemory>
        ensures { IfOk result (HasRoomForPairs endpoints) }
    {
        let pairs = endpoints as usize * endpoints as usize;
        Ok(Picked {
            marks: FlowMarks::open(alloc)?,
            items: DemandList::open(alloc, pairs)?,
            places: Vec::with_capacity(alloc, pairs)?,
            whole: Vec::with_capacity(alloc, pairs)?,
            list: Vec::with_capacity(alloc, pairs)?,
            guess: Guess::open(alloc, endpoints)?,
            slots: FlowSlots::open(alloc, endpoints)?,
            wait: 0,
        })
    }

    /// Picks the items of the list that the batches may reach by a guess, and all that may have an entry in one of them, unless
    /// these are more than half of it, or the guess would cost more than it saves; where they were more, some windows pass before
    /// that is looked at again.
    pub(crate) fn reach(&mut self, list: &[Item], batches: &[Batch], b: u8) -> bool
        requires some { 0 < length batches.now }
        requires count { length batches.now ≤ 16 }
        requires order { IsInOrder list.now }
        requires once { HasEachFlowOnce list.now }
        requires below { AreBelow self.old.guess.words.endpoints list.now }
        requires room { length list.now ≤ length self.old.items.items + self.old.items.spare }
        requires places_room { length list.now ≤ vec_capacity self.old.places }
        ensures reached { result ≡ true → IsReached self.new.marks list.now self.new.items.items self.new.places.items }
        ensures few { result ≡ true → length batches.now * b ≤ 64 }
        ensures unmarked { result ≡ true → (flow : Flow) → has_mark self.new.marks flow ≡ false → OnlyOpen batches.now flow }
        ensures room { length self.new.items.items + self.new.items.spare ≡ length self.old.items.items + self.old.items.spare }
        ensures places_room { vec_capacity self.new.places ≡ vec_capacity self.old.places }
        ensures whole { self.new.whole ≡ self.old.whole }
        ensures slots { self.new.slots ≡ self.old.slots }
        ensures words { self.new.guess.words.endpoints ≡ self.old.guess.words.endpoints }
    {
        if self.wait > 0 {
            self.wait -= 1;
            return false;
        }
        if !pays(list, batches, b, self.slots.endpoints()) {
            return false;
        }
        self.marks.mark(batches);
        let reached = self.guess.pick(
            list,
            &self.marks,
            batches,
            u16::from(b),
            &mut self.items,
            &mut self.places,
        );
        if !reached {
            self.wait = PAUSE;
        }
        reached
    }

    /// Whether none of the other items would be chosen in these slots, which the batches gave to those that were picked.
    pub(crate) fn keeps_out(
        &mut self,
        list: &[Item],
        batches: &[Batch],
        b: u8,
        out: &SlotTable,
    ) -> bool
        requires order { IsInOrder list.now }
        requires below { AreBelow self.old.guess.words.endpoints list.now }
        requires count { length batches.now ≤ 16 }
        requires few { length batches.now * b ≤ 64 }
        requires slots { length batches.now * b ≤ length out.now.slots }
        requires endpoints { self.old.slots.endpoints ≤ out.now.endpoints }
        ensures out { result ≡ true → (aside : Item → Bool) → self.old.places.items ≡ places_from aside 0 list.now → OpenNew list.now batches.now → AreOut b (length batches.now * b) out.now.slots list.now aside (λ flow. false) list.now }
        ensures items { self.new.items ≡ self.old.items }
        ensures places { self.new.places ≡ self.old.places }
        ensures whole { self.new.whole ≡ self.old.whole }
        ensures endpoints { self.new.slots.endpoints ≡ self.old.slots.endpoints }
        ensures words { self.new.guess.words.endpoints ≡ self.old.guess.words.endpoints }
    {
        let b = u16::from(b);
        self.slots.note(out, batches.len() as u16 * b);
        are_out(
            &mut self.guess.words,
            &self.slots,
            list,
            &self.places,
            batches,
            b,
        )
    }

    /// Puts the list together again by a copy of all its items.
    fn weave_anew(&mut self, list: &mut DemandList)
        requires list_order { IsInOrder list.old.items }
        requires order { IsInOrder self.old.items.items }
        requires room { (aside : Item → Bool) × (self.old.places.items ≡ places_from aside 0 list.old.items) × (length (woven aside list.old.items self.old.items.items) ≤ length list.old.items + list.old.spare) × (length (woven aside list.old.items self.old.items.items) ≤ vec_capacity self.old.whole) }
        ensures items { (aside : Item → Bool) → self.old.places.items ≡ places_from aside 0 list.old.items → list.new.items ≡ woven aside list.old.items self.old.items.items }
        ensures spare { length list.new.items + list.new.spare ≡ length list.old.items + list.old.spare }
        ensures rest { self.new.items ≡ self.old.items }
        ensures places { self.new.places ≡ self.old.places }
        ensures whole { vec_capacity self.old.whole ≤ vec_capacity self.new.whole }
        ensures slots { self.new.slots ≡ self.old.slots }
        ensures words { self.new.guess.words.endpoints ≡ self.old.guess.words.endpoints }
    {
        weave_lists(
            list.items(),
            &self.places,
            self.items.items(),
            &mut self.whole,
        );
        give_items(&mut self.whole, list);
    }

    /// Puts the list together again from itself and what the batches left of the items that were picked from it. It has as much
    /// room as before. Where no item was picked and all that opened was served, that follows the list, and nothing is copied; a
    /// list of other room than it was opened for is copied whole.
    pub(crate) fn weave_into(&mut self, list: &mut DemandList)
        requires list_order { IsInOrder list.old.items }
        requires order { IsInOrder self.old.items.items }
        requires room { (aside : Item → Bool) × (self.old.places.items ≡ places_from aside 0 list.old.items) × (length (woven aside list.old.items self.old.items.items) ≤ length list.old.items + list.old.spare) × (length (woven aside list.old.items self.old.items.items) ≤ vec_capacity self.old.whole) }
        ensures items { (aside : Item → Bool) → self.old.places.items ≡ places_from aside 0 list.old.items → list.new.items ≡ woven aside list.old.items self.old.items.items }
        ensures spare { length list.new.items + list.new.spare ≡ length list.old.items + list.old.spare }
        ensures room { length self.new.items.items + self.new.items.spare ≡ length self.old.items.items + self.old.items.spare }
        ensures places { vec_capacity self.new.places ≡ vec_capacity self.old.places }
        ensures whole { vec_capacity self.old.whole ≤ vec_capacity self.new.whole }
        ensures slots { self.new.slots ≡ self.old.slots }
        ensures words { self.new.guess.words.endpoints ≡ self.old.guess.words.endpoints }
    {
        if self.places.is_empty() && first_served(self.items.items()) == 0 {
            list.append(self.items.items());
            return;
        }
        if list.room() != self.list.capacity() {
            self.weave_anew(list);
            return;
        }
        list.exchange(&mut self.list);
        let end = weave_in_place(
            &mut self.list,
            &self.places,
            self.items.items(),
            &mut self.whole,
        );
        list.exchange(&mut self.list);
        match end {
            Some(at) => list.append(&self.items.items()[at..]),
            None => self.weave_anew(list),
        }
    }
}
