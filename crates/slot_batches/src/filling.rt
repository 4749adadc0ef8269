ghost use Rattle.std.specs.Prelude.{if◌then◌else◌, ◌≡◌, ◌≢◌, ◌<◌, ◌≤◌, ◌+◌, ◌-◌, ◌^◌, ℕ, List, [], ◌∷◌, ◌++◌, length, true, None, IfOk, count_ones, vec_len, vec_capacity, map, All};
ghost use Rattle.endpoint_bitmaps.specs.Slots.{has_slot};
ghost use Rattle.greedy_rules.specs.Schedule.{slot_in};
ghost use Rattle.greedy_rules.specs.SlotTable.{destination_of};
ghost use Rattle.greedy_rules.specs.Demands.{by_last};
ghost use Rattle.greedy_rules.specs.Limits.{AreLimits};
ghost use Rattle.slot_batches.specs.FreePlaces.{HasAdded};
ghost use Rattle.slot_batches.specs.Filled.{HasTakenUp, MayBeTakenUp, IsGreatest};
ghost use Rattle.slot_batches.specs.Rests.{TakesNone, HaveNoMore};
ghost use Rattle.slot_batches.specs.Parts.{fill_of, with_waiting, FillingHasRoom, IsSameBatch};

use crate::served::append_served;
use endpoint_bitmaps::FreeMaps;
use greedy_rules::{Flow, Item, Limits, SlotTable};
use no_memory::NoMemory;
use std::alloc::Global;

/// The slots of a batch as its flows take them, one flow after the other.
#[derive(Debug, Drop)]
pub(crate) struct Filling {
    pub(crate) endpoints: u16,
    pub(crate) b: u8,
    pub(crate) first_slot: u32,
    pub(crate) maps: FreeMaps,
    pub(crate) slots: SlotTable,
    pub(crate) waiting: Vec<Item>,
    pub(crate) served: Vec<Item>,
}

impl Filling {
    /// For batches of `b` slots between so many endpoints. No later call takes memory.
    pub(crate) fn open(alloc: Global, endpoints: u16, b: u8) -> Result<Filling, NoMemory>
        requires endpoints { endpoints ≤ 256 }
        requires b { b ≤ 64 }
        ensures room { IfOk result FillingHasRoom }
        ensures endpoints { IfOk result (λ filling. filling.endpoints ≡ endpoints) }
        ensures b { IfOk result (λ filling. filling.b ≡ b) }
    {
        let pairs = endpoints as usize * endpoints as usize;
        let places = b as usize * endpoints as usize;
        Ok(Filling {
            endpoints,
            b,
            first_slot: 1,
            maps: FreeMaps::open(alloc, endpoints)?,
            slots: SlotTable::open(alloc, u16::from(b), endpoints)?,
            waiting: Vec::with_capacity(alloc, pairs)?,
            served: Vec::with_capacity(alloc, places)?,
        })
    }

    /// Begins a batch: all its slots are empty, and these limits hold in each.
    pub(crate) fn begin(&mut self, first_slot: u32, limits: Limits)
        requires room { FillingHasRoom self.old }
        requires limits { AreLimits limits }
        requires numbers { first_slot + self.old.b ≤ 2 ^ 32 }
        ensures room { FillingHasRoom self.new }
        ensures same { IsSameBatch limits self.old.endpoints self.old.b first_slot self.new }
        ensures empty { HasTakenUp [] (fill_of self.new) }
    {
        self.first_slot = first_slot;
        self.maps.reset(self.b, limits);
        self.slots.clear();
        self.waiting.clear();
        self.served.clear();
    }

    /// Lets the item take the lowest slots that are free for it, as many as it needs.
    pub(crate) fn take_up(&mut self, item: Item)
        requires room { FillingHasRoom self.old }
        requires may { (taken : List Item) × HasTakenUp taken (fill_of self.old) × MayBeTakenUp self.old.endpoints self.old.first_slot (taken ++ item ∷ []) }
        ensures room { FillingHasRoom self.new }
        ensures same { IsSameBatch self.old.maps.limits self.old.endpoints self.old.b self.old.first_slot self.new }
        ensures taken_up { (taken : List Item) →
            HasTakenUp taken (fill_of self.old) →
            MayBeTakenUp self.old.endpoints self.old.first_slot (taken ++ item ∷ []) →
            HasTakenUp (taken ++ item ∷ []) (fill_of self.new) }
    {
        if self.must_wait(&item) {
            self.waiting.push_reserved(item);
            return;
        }
        self.serve(item);
    }

    /// As `take_up`, for an item that seldom takes none.
    pub(crate) fn serve(&mut self, item: Item)
        requires room { FillingHasRoom self.old }
        requires may { (taken : List Item) × HasTakenUp taken (fill_of self.old) × MayBeTakenUp self.old.endpoints self.old.first_slot (taken ++ item ∷ []) }
        ensures room { FillingHasRoom self.new }
        ensures same { IsSameBatch self.old.maps.limits self.old.endpoints self.old.b self.old.first_slot self.new }
        ensures taken_up { (taken : List Item) →
            HasTakenUp taken (fill_of self.old) →
            MayBeTakenUp self.old.endpoints self.old.first_slot (taken ++ item ∷ []) →
            HasTakenUp (taken ++ item ∷ []) (fill_of self.new) }
    {
        if !self.serve_apart(item) {
            self.waiting.push_reserved(item);
        }
    }

    /// Serves the item, and answers whether it took a slot; where it took none, it is not among those that wait yet, and others may
    /// be that are not there. Most items take none: it stays out of their loop.
    #[inline(never)]
    pub(crate) fn serve_apart(&mut self, item: Item) -> bool
        requires room { FillingHasRoom self.old }
        requires may { (taken waiting : List Item) × HasTakenUp taken (with_waiting waiting (fill_of self.old)) × MayBeTakenUp self.old.endpoints self.old.first_slot (taken ++ item ∷ []) }
        ensures room { FillingHasRoom self.new }
        ensures same { IsSameBatch self.old.maps.limits self.old.endpoints self.old.b self.old.first_slot self.new }
        ensures waiting { self.new.waiting ≡ self.old.waiting }
        ensures no_more { HaveNoMore self.old.maps self.new.maps }
        ensures taken_up { (taken waiting : List Item) →
            HasTakenUp taken (with_waiting waiting (fill_of self.old)) →
            MayBeTakenUp self.old.endpoints self.old.first_slot (taken ++ item ∷ []) →
            HasTakenUp (taken ++ item ∷ []) (with_waiting (waiting ++ (if result then [] else item ∷ [])) (fill_of self.new)) }
    {
        let Flow { src, dst } = item.flow;
        let places = self.maps.take_lowest(src, dst, item.need);
        if places == 0 {
            return false;
        }
        let put = put_flow(&mut self.slots, places, item.flow);
        self.served.push_reserved(Item {
            flow: item.flow,
            need: item.need - put.count,
            last: self.first_slot + put.greatest,
        });
        true
    }

    /// Whether the item takes no slot.
    pub(crate) fn must_wait(&self, item: &Item) -> bool
        requires src { item.now.flow.src < self.now.maps.endpoints }
        requires dst { item.now.flow.dst < self.now.maps.endpoints }
        ensures { result ≡ true → TakesNone self.now.maps item.now }
    {
        item.need == 0 || self.maps.common(item.flow.src, item.flow.dst) == 0
    }

    /// Lets items wait that take no slot.
    pub(crate) fn keep(&mut self, items: &[Item])
        requires room { FillingHasRoom self.old }
        requires may { (taken : List Item) × HasTakenUp taken (fill_of self.old) × MayBeTakenUp self.old.endpoints self.old.first_slot (taken ++ items.now) }
        requires none { All (TakesNone self.old.maps) items.now }
        ensures room { FillingHasRoom self.new }
        ensures same { IsSameBatch self.old.maps.limits self.old.endpoints self.old.b self.old.first_slot self.new }
        ensures waiting { self.new.waiting.items ≡ self.old.waiting.items ++ items.now }
        ensures taken_up { (taken : List Item) →
            HasTakenUp taken (fill_of self.old) →
            MayBeTakenUp self.old.endpoints self.old.first_slot (taken ++ items.now) →
            HasTakenUp (taken ++ items.now) (fill_of self.new) }
    {
        append_items(&mut self.waiting, items);
    }

    /// Ends the batch: what was served follows what waits, by the last slots.
    pub(crate) fn end(&mut self)
        requires room { FillingHasRoom self.old }
        requires taken_up { (taken : List Item) × HasTakenUp taken (fill_of self.old) }
        ensures room { FillingHasRoom self.new }
        ensures same { IsSameBatch self.old.maps.limits self.old.endpoints self.old.b self.old.first_slot self.new }
        ensures slots { self.new.slots ≡ self.old.slots }
        ensures list { self.new.waiting.items ≡ self.old.waiting.items ++ by_last self.old.served.items }
    {
        append_served(&mut self.waiting, &self.served, self.first_slot, self.b);
    }
}

/// Appends the items, for which there is room. A few are written one by one: that is sooner done than a copy of all.
pub(crate) fn append_items(waiting: &mut Vec<Item>, items: &[Item])
    requires { vec_len waiting.old + length items.now ≤ vec_capacity waiting.old }
    ensures items { waiting.new.items ≡ waiting.old.items ++ items.now }
    ensures capacity { vec_capacity waiting.old ≤ vec_capacity waiting.new }
{
    if items.len() > 4 {
        let _ = waiting.extend_from_slice(items);
        return;
    }
    for item in items {
        waiting.push_reserved(*item);
    }
}

/// The places of a flow's slots: how many they are, and the greatest.
#[derive(Drop)]
struct PutPlaces {
    count: u32,
    greatest: u32,
}

/// Puts the flow into the slots at these places, and answers how many they are and the greatest of them.
fn put_flow(slots: &mut SlotTable, places: u64, flow: Flow) -> PutPlaces
    requires some { places ≢ 0 }
    requires src { flow.src < slots.old.endpoints }
    requires dst { flow.dst < slots.old.endpoints }
    requires within { (place : ℕ) → has_slot places place ≡ true → place < length slots.old.slots }
    requires free { (place : ℕ) → has_slot places place ≡ true → destination_of (slot_in slots.old.slots place) flow.src ≡ None }
    ensures slots { HasAdded flow (has_slot places) slots.old.slots slots.new.slots }
    ensures endpoints { slots.new.endpoints ≡ slots.old.endpoints }
    ensures count { result.count ≡ count_ones places }
    ensures greatest { IsGreatest (has_slot places) result.greatest }
    ensures below { result.greatest < 64 }
{
    let mut rest = places;
    let mut count = 0;
    loop {
        let greatest = rest.trailing_zeros();
        slots.put(greatest as u16, flow.src, flow.dst);
        count += 1;
        rest &= rest - 1;
        if rest == 0 {
            return PutPlaces { count, greatest };
        }
    }
}
