ghost use Rattle.std.specs.Prelude.{◌≡◌, ◌<◌, ◌≤◌, ◌+◌, ◌-◌, ◌^◌, ℕ, List, [], ◌∷◌, ◌++◌, length, take, Bool, true, false, Some, None, IfOk, IsSome, All, option_map, vec_capacity};
ghost use Rattle.greedy_rules.specs.Batches.{DemandBatch, entry_of};
ghost use Rattle.greedy_rules.specs.Demands.{need_with, AreBelow, opened};
ghost use Rattle.slot_batches.specs.ArrayStands.{array_endpoints, array_size, array_first, array_number, array_slots, array_left, IsSameArrayWork, MayBeFed, ArrayStands};
ghost use Rattle.slot_batches.specs.Settled.{settled, slots_filled};
ghost use Rattle.slot_batches.specs.Pieces.{Part, part_of, next_piece};

use crate::doubts::{close_up, doubts, serve_doubted};
use crate::entry_places::EntryPlaces;
use crate::filling::{Filling, append_items};
use crate::marks::mark_entries;
use crate::opening::{open_due, with_near_entry};
use crate::piece::Piece;
use crate::resting::{all_rest, doubts_suffice, resting};
use greedy_rules::{Batch, DemandList, Item, SlotTable};
use item_chain::Chain;
use no_memory::NoMemory;
use std::alloc::Global;
use std::marker::Model;

/// A batch of slots, flow by flow, whose items lie in arrays: fed a demand list item by item, it fills the slots of the greedy
/// allocation, and gives the list that the batch leaves, in pieces or whole.
#[derive(Debug, Drop)]
pub(crate) struct ArrayStage {
    filling: Filling,
    marks: Vec<u64>,
    places: EntryPlaces,
    number: u32,
    unopened: usize,
    given: u32,
    ends: bool,
}

impl Model for ArrayStage {
    ghost use Rattle.slot_batches.specs.Parts.{fill_of, IsWhole};
    ghost use Rattle.slot_batches.specs.ArrayStands.{ArrayState};

    ghost Value = { ArrayState };

    ghost view = { λ s. record { number = s.number; fill = fill_of s.filling; marks = s.marks.items; unopened = s.unopened; given = s.given; ends = s.ends } };

    ghost invariant = { λ s. IsWhole s.filling s.marks.items };
}

/// Hands the items over as a list with the room that this one had. Where both have as much room they are not copied.
pub fn give_items(items: &mut Vec<Item>, list: &mut DemandList)
    requires { length items.old.items ≤ length list.old.items + list.old.spare }
    ensures items { list.new.items ≡ items.old.items }
    ensures spare { length list.new.items + list.new.spare ≡ length list.old.items + list.old.spare }
    ensures capacity { vec_capacity items.new ≡ vec_capacity items.old }
{
    if list.room() == items.capacity() {
        list.exchange(items);
    } else {
        list.clear();
        list.append(items);
    }
}

impl ArrayStage {
    /// For batches of `b` slots between so many endpoints. No later call takes memory.
    pub(crate) fn open(alloc: Global, endpoints: u16, b: u8) -> Result<ArrayStage, NoMemory>
        requires endpoints { endpoints ≤ 256 }
        requires b { b ≤ 64 }
        ensures endpoints { IfOk result (λ stage. array_endpoints stage ≡ endpoints) }
        ensures b { IfOk result (λ stage. array_size stage ≡ b) }
    {
        Ok(ArrayStage {
            filling: Filling::open(alloc, endpoints, b)?,
            marks: vec![in alloc; 0; 512]?,
            places: EntryPlaces::open(alloc)?,
            number: 0,
            unopened: 0,
            given: 0,
            ends: false,
        })
    }

    /// Begins the batch with this first slot; `stage` numbers its pieces.
    pub(crate) fn begin(&mut self, batch: &Batch, stage: u32, first_slot: u32)
        requires first { 1 ≤ first_slot }
        requires numbers { first_slot + array_size self.old ≤ 2 ^ 32 }
        requires in_range { AreBelow (array_endpoints self.old) (opened batch.now.entries) }
        ensures work { IsSameArrayWork (array_endpoints self.old) (array_size self.old) stage first_slot self.new }
        ensures stands { ArrayStands batch.now [] false 0 self.new }
    {
        self.filling.begin(first_slot, batch.limits());
        mark_entries(&mut self.marks, batch);
        self.places.note(batch);
        self.number = stage;
        self.unopened = batch.len();
        self.given = 0;
        self.ends = false;
    }

    /// Feeds the next item of the list.
    pub(crate) fn feed(&mut self, batch: &Batch, item: Item)
        requires may { (fed : List Item) × (given : ℕ) × ArrayStands batch.now fed false given self.old × MayBeFed batch.now.entries (array_endpoints self.old) (array_first self.old) (fed ++ item ∷ []) }
        requires need { need_with (entry_of batch.now.entries item.flow) item.need < 2 ^ 32 }
        ensures work { IsSameArrayWork (array_endpoints self.old) (array_size self.old) (array_number self.old) (array_first self.old) self.new }
        ensures stands { (fed : List Item) → (given : ℕ) →
            ArrayStands batch.now fed false given self.old →
            MayBeFed batch.now.entries (array_endpoints self.old) (array_first self.old) (fed ++ item ∷ []) →
            ArrayStands batch.now (fed ++ item ∷ []) false given self.new }
    {
        open_due(&mut self.filling, &mut self.unopened, batch, item.last > 0);
        let item = with_near_entry(item, batch, &self.marks, &self.places);
        self.filling.serve(item);
    }

    /// Feeds the next items of the list, one after the other.
    pub(crate) fn feed_items(&mut self, batch: &Batch, items: &[Item])
        requires may { (fed : List Item) × (given : ℕ) × ArrayStands batch.now fed false given self.old × MayBeFed batch.now.entries (array_endpoints self.old) (array_first self.old) (fed ++ items.now) }
        requires needs { All (λ item. need_with (entry_of batch.now.entries item.flow) item.need < 2 ^ 32) items.now }
        ensures work { IsSameArrayWork (array_endpoints self.old) (array_size self.old) (array_number self.old) (array_first self.old) self.new }
        ensures stands { (fed : List Item) → (given : ℕ) →
            ArrayStands batch.now fed false given self.old →
            MayBeFed batch.now.entries (array_endpoints self.old) (array_first self.old) (fed ++ items.now) →
            ArrayStands batch.now (fed ++ items.now) false given self.new }
    {
        let mut from = 0;
        while from < items.len() {
            from += self.keep_resting(batch, &items[from..]);
            if from < items.len() {
                self.feed(batch, items[from]);
                from += 1;
            }
        }
    }

    /// As `feed_items`, for the items of a piece, whose places may hold anything then.
    pub(crate) fn feed_piece(&mut self, batch: &Batch, items: &mut [Item])
        requires few { length items.old ≤ 64 }
        requires may { (fed : List Item) × (given : ℕ) × ArrayStands batch.now fed false given self.old × MayBeFed batch.now.entries (array_endpoints self.old) (array_first self.old) (fed ++ items.old) }
        requires needs { All (λ item. need_with (entry_of batch.now.entries item.flow) item.need < 2 ^ 32) items.old }
        ensures work { IsSameArrayWork (array_endpoints self.old) (array_size self.old) (array_number self.old) (array_first self.old) self.new }
        ensures stands { (fed : List Item) → (given : ℕ) →
            ArrayStands batch.now fed false given self.old →
            MayBeFed batch.now.entries (array_endpoints self.old) (array_first self.old) (fed ++ items.old) →
            ArrayStands batch.now (fed ++ items.old) false given self.new }
    {
        let doubts = doubts_suffice(self.unopened, batch);
        if doubts && !all_rest(&self.filling, self.unopened, batch) {
            self.feed_by_doubts(batch, items)
        } else {
            self.feed_items(batch, items)
        }
    }

    /// Feeds the items of a piece, where no flow may open any more: the doubted ones are served, and all that took no slot wait.
    fn feed_by_doubts(&mut self, batch: &Batch, items: &mut [Item])
        requires few { length items.old ≤ 64 }
        requires opened { self.old.unopened ≡ 0 }
        requires may { (fed : List Item) × (given : ℕ) × ArrayStands batch.now fed false given self.old × MayBeFed batch.now.entries (array_endpoints self.old) (array_first self.old) (fed ++ items.old) }
        requires needs { All (λ item. need_with (entry_of batch.now.entries item.flow) item.need < 2 ^ 32) items.old }
        ensures work { IsSameArrayWork (array_endpoints self.old) (array_size self.old) (array_number self.old) (array_first self.old) self.new }
        ensures stands { (fed : List Item) → (given : ℕ) →
            ArrayStands batch.now fed false given self.old →
            MayBeFed batch.now.entries (array_endpoints self.old) (array_first self.old) (fed ++ items.old) →
            ArrayStands batch.now (fed ++ items.old) false given self.new }
    {
        let doubted = doubts(&self.filling, &self.marks, items);
        let served = serve_doubted(
            &mut self.filling,
            batch,
            &self.marks,
            &self.places,
            items,
            doubted,
        );
        let left = close_up(items, served);
        append_items(&mut self.filling.waiting, &items[..left]);
    }

    /// Feeds the items at the front that wait as they are, and answers how many these are.
    fn keep_resting(&mut self, batch: &Batch, items: &[Item]) -> usize
        requires may { (fed : List Item) × (given : ℕ) × ArrayStands batch.now fed false given self.old × MayBeFed batch.now.entries (array_endpoints self.old) (array_first self.old) (fed ++ items.now) }
        ensures within { result ≤ length items.now }
        ensures work { IsSameArrayWork (array_endpoints self.old) (array_size self.old) (array_number self.old) (array_first self.old) self.new }
        ensures stands { (fed : List Item) → (given : ℕ) →
            ArrayStands batch.now fed false given self.old →
            MayBeFed batch.now.entries (array_endpoints self.old) (array_first self.old) (fed ++ items.now) →
            ArrayStands batch.now (fed ++ take result items.now) false given self.new }
    {
        let count = resting(&self.filling, &self.marks, self.unopened, batch, items);
        if count > 0 {
            self.filling.keep(&items[..count]);
        }
        count
    }

    /// Ends the list: the slots are filled, and all of the list that they leave is settled.
    pub(crate) fn finish(&mut self, batch: &Batch)
        requires { (fed : List Item) × (given : ℕ) × ArrayStands batch.now fed false given self.old }
        ensures work { IsSameArrayWork (array_endpoints self.old) (array_size self.old) (array_number self.old) (array_first self.old) self.new }
        ensures stands { (fed : List Item) → (given : ℕ) →
            ArrayStands batch.now fed false given self.old →
            ArrayStands batch.now fed true given self.new }
    {
        open_due(&mut self.filling, &mut self.unopened, batch, true);
        self.filling.end();
        self.ends = true;
    }

    /// The next piece of the list that the batch leaves, in nodes of those that are loose: as soon as more than 64 items wait, and
    /// once the list was ended until the piece with the end was given; None otherwise.
    pub(crate) fn emit(&mut self, alloc: Global, loose: &mut Chain<Item>) -> Option<Piece>
        requires stands { (batch : DemandBatch) × (fed : List Item) × (finished : Bool) × (given : ℕ) × ArrayStands batch fed finished given self.old }
        requires nodes { length self.old.fill.waiting - self.old.given ≤ length loose.old }
        ensures piece { (batch : DemandBatch) → (fed : List Item) → (finished : Bool) → (given : ℕ) →
            ArrayStands batch fed finished given self.old →
            option_map part_of result ≡ next_piece (array_number self.old) finished given (settled batch (array_first self.old) (array_size self.old) fed finished) }
        ensures more { (batch : DemandBatch) → (fed : List Item) → (finished : Bool) → (given : ℕ) →
            ArrayStands batch fed finished given self.old →
            IsSome result →
            ArrayStands batch fed finished (given + 1) self.new }
        ensures none { result ≡ None → (self.new ≡ self.old) × (loose.new ≡ loose.old) }
        ensures nodes { (part : Part) → option_map part_of result ≡ Some part → length loose.new + length part.items ≡ length loose.old }
        ensures fewer { IsSome result → array_left self.new < array_left self.old }
        ensures work { IsSameArrayWork (array_endpoints self.old) (array_size self.old) (array_number self.old) (array_first self.old) self.new }
        ensures slots { array_slots self.new ≡ array_slots self.old }
    {
        let from = self.given;
        let waiting = &self.filling.waiting[from as usize..];
        let end = waiting.len() <= 64;
        if end && !self.ends {
            return None;
        }
        let items = &waiting[..waiting.len().min(64)];
        let piece = Piece::of(alloc, self.number, from, items, end, loose);
        self.given += items.len() as u32;
        self.ends &= !end;
        Some(piece)
    }

    /// Hands the items over that wait, as a list with the room that this one had. Where both have as much room they are not
    /// copied.
    pub(crate) fn give(&mut self, list: &mut DemandList)
        requires { length self.old.fill.waiting ≤ length list.old.items + list.old.spare }
        ensures items { list.new.items ≡ self.old.fill.waiting }
        ensures spare { length list.new.items + list.new.spare ≡ length list.old.items + list.old.spare }
        ensures stays { self.new ≡ record self.old { fill = record self.old.fill { waiting = self.new.fill.waiting } } }
    {
        give_items(&mut self.filling.waiting, list);
    }

    /// Serves a whole list at once: it is fed all of it, and hands over the list that the batch leaves, as a list with the room that
    /// this one had.
    pub(crate) fn serve_list(&mut self, batch: &Batch, items: &[Item], left: &mut DemandList)
        requires begun { ArrayStands batch.now [] false 0 self.old }
        requires may { MayBeFed batch.now.entries (array_endpoints self.old) (array_first self.old) items.now }
        requires needs { All (λ item. need_with (entry_of batch.now.entries item.flow) item.need < 2 ^ 32) items.now }
        requires none { left.old.items ≡ [] }
        requires room { length (settled batch.now (array_first self.old) (array_size self.old) items.now true) ≤ left.old.spare }
        ensures work { IsSameArrayWork (array_endpoints self.old) (array_size self.old) (array_number self.old) (array_first self.old) self.new }
        ensures slots { array_slots self.new ≡ slots_filled batch.now (array_first self.old) (array_size self.old) items.now true }
        ensures left { left.new.items ≡ settled batch.now (array_first self.old) (array_size self.old) items.now true }
        ensures spare { length left.new.items + left.new.spare ≡ left.old.spare }
    {
        self.take_room(left);
        self.feed_items(batch, items);
        self.finish(batch);
        self.give(left);
    }

    /// The items that are to wait will lie in the room of this list, where both lists have as much.
    fn take_room(&mut self, list: &mut DemandList)
        requires waiting { self.old.fill.waiting ≡ [] }
        requires none { list.old.items ≡ [] }
        ensures same { self.new ≡ self.old }
        ensures list { list.new ≡ list.old }
    {
        if list.room() == self.filling.waiting.capacity() {
            list.exchange(&mut self.filling.waiting);
        }
    }

    /// The slots of the batch, counted from 0.
    pub(crate) fn slots(&self) -> &SlotTable
        ensures slots { result.now.slots ≡ array_slots self.now }
        ensures endpoints { result.now.endpoints ≡ array_endpoints self.now }
        ensures count { length result.now.slots ≡ array_size self.now }
    {
        &self.filling.slots
    }
}
