ghost use Rattle.std.specs.Prelude.{◌≡◌, ◌<◌, ◌≤◌, ◌+◌, ◌*◌, ◌^◌, List, [], ◌∷◌, ◌++◌, length, take, true, OnOk, IfOk, All, min, vec_len, vec_capacity};
ghost use Rattle.std.specs.List.Sorted.{IsNonDecreasingBy};
ghost use Rattle.greedy_rules.specs.declared.flows.Entry.{Entry};
ghost use Rattle.greedy_rules.specs.Batches.{entry_of};
ghost use Rattle.greedy_rules.specs.Demands.{need_with, with_batch, opened, by_key, after_batch_by};
ghost use Rattle.greedy_rules.specs.Limits.{AreLimits, is_barred};
ghost use Rattle.greedy_rules.specs.Allocation.{batch_slots, list_after_slots_by};
ghost use Rattle.greedy_rules.specs.Examples.{remaining};
ghost use Rattle.slot_batches.specs.Filled.{MayBeTakenUp};
ghost use Rattle.slot_batches.specs.Marks.{AreMarked};
ghost use Rattle.fewest_order.specs.FewestFirst.{MayServe, kept_items, raised_of, lowered_of};

use crate::allocation::{push_all_opened, sort};
use crate::orders::ByNeed;
use crate::places::{Side, place, put_among};
use greedy_rules::{Batch, Item, Limits, SlotTable};
use no_memory::NoMemory;
use slot_batches::{Turns, mark_entries, with_entry};
use std::alloc::Global;
use std::cmp::Ordering;
use std::marker::Model;
use std::mem;

/// Batches by need, one after the other, over one list: the flow that needs the fewest slots goes first.
#[derive(Drop)]
pub struct FewestFirst {
    items: Vec<Item>,
    // Room in which a batch is applied: for the items that it leaves as they are, those that it raises (and later those that its
    // slots served), and those that it lowers or opens.
    kept: Vec<Item>,
    raised: Vec<Item>,
    lowered: Vec<Item>,
    marks: Vec<u64>,
    turns: Turns,
}

impl Model for FewestFirst {
    ghost use Rattle.std.specs.Prelude.{◌≡◌, ◌≤◌, ◌*◌, length, vec_capacity};
    ghost use Rattle.fewest_order.specs.FewestFirst.{Fewest};

    ghost Value = { Fewest };

    ghost view = { λ f. record { endpoints = f.turns.endpoints; b = f.turns.b; items = f.items.items; slots = f.turns.slots } };

    ghost invariant = { λ f. (f.turns.endpoints * f.turns.endpoints ≤ vec_capacity f.items)
        × (f.turns.endpoints * f.turns.endpoints ≤ vec_capacity f.kept)
        × (f.turns.endpoints * f.turns.endpoints ≤ vec_capacity f.raised)
        × (f.turns.endpoints * f.turns.endpoints ≤ vec_capacity f.lowered)
        × (length f.marks.items ≡ 512) };
}

impl FewestFirst {
    /// With no demand, for batches of `b` slots between so many endpoints.
    pub fn open(alloc: Global, endpoints: u16, b: u8) -> Result<FewestFirst, NoMemory>
        requires endpoints { endpoints ≤ 256 }
        requires b { b ≤ 64 }
        ensures endpoints { IfOk result (λ fewest. fewest.endpoints ≡ endpoints) }
        ensures b { IfOk result (λ fewest. fewest.b ≡ b) }
        ensures empty { IfOk result (λ fewest. fewest.items ≡ []) }
    {
        let pairs = endpoints as usize * endpoints as usize;
        Ok(FewestFirst {
            items: Vec::with_capacity(alloc, pairs)?,
            kept: Vec::with_capacity(alloc, pairs)?,
            raised: Vec::with_capacity(alloc, pairs)?,
            lowered: Vec::with_capacity(alloc, pairs)?,
            marks: vec![in alloc; 0; 512]?,
            turns: Turns::open(alloc, endpoints, b)?,
        })
    }

    /// Applies the batch, whose first slot has this number, and gives it its slots. After want of memory, which only the sorts may
    /// answer, it is only to be dropped.
    pub fn serve(&mut self, batch: &Batch, first_slot: u32) -> Result<(), NoMemory>
        requires { MayServe self.old.endpoints self.old.b first_slot batch.now.entries self.old.items }
        ensures list { OnOk result (self.new.items ≡ list_after_slots_by remaining (is_barred batch.now.limits) first_slot self.old.b (after_batch_by remaining batch.now.entries self.old.items)) }
        ensures slots { OnOk result (self.new.slots ≡ batch_slots (is_barred batch.now.limits) first_slot self.old.b (after_batch_by remaining batch.now.entries self.old.items)) }
        ensures endpoints { OnOk result (self.new.endpoints ≡ self.old.endpoints) }
        ensures b { OnOk result (self.new.b ≡ self.old.b) }
    {
        let limits = batch.limits();
        let _entries = batch.len();
        apply(
            &mut self.items,
            &mut self.kept,
            &mut self.raised,
            &mut self.lowered,
            &mut self.marks,
            batch,
        )?;
        fill(
            &mut self.items,
            &mut self.raised,
            &mut self.turns,
            first_slot,
            limits,
        )
    }

    /// The list that is left, in its order.
    pub fn items(&self) -> &[Item]
        ensures { result.now ≡ self.now.items }
    {
        &self.items
    }

    /// The slots of the last batch, counted from 0.
    pub fn slots(&self) -> &SlotTable
        ensures slots { result.now.slots ≡ self.now.slots }
        ensures endpoints { result.now.endpoints ≡ self.now.endpoints }
        ensures count { length result.now.slots ≡ self.now.b }
    {
        self.turns.slots()
    }
}

/// Whether the batch leaves the item as it is.
fn stays(item: &Item, marks: &[u64], batch: &Batch) -> bool
    requires marked { AreMarked batch.now.entries marks.now }
    requires need { need_with (entry_of batch.now.entries item.now.flow) item.now.need < 2 ^ 32 }
    ensures { result ≡ true → with_batch batch.now.entries item.now ≡ item.now }
{
    with_entry(*item, batch, marks).need == item.need
}

/// How many items at the front the batch leaves as they are.
fn staying_front(items: &[Item], marks: &[u64], batch: &Batch) -> usize
    requires marked { AreMarked batch.now.entries marks.now }
    requires needs { All (λ item. need_with (entry_of batch.now.entries item.flow) item.need < 2 ^ 32) items.now }
    ensures within { result ≤ length items.now }
    ensures stay { All (λ item. with_batch batch.now.entries item ≡ item) (take result items.now) }
{
    for (at, item) in items.iter().enumerate() {
        if !stays(item, marks, batch) {
            return at;
        }
    }
    items.len()
}

/// Appends the item, which the batch makes of the one before, to those that the batch keeps, raises or lowers.
fn part(
    kept: &mut Vec<Item>,
    raised: &mut Vec<Item>,
    lowered: &mut Vec<Item>,
    before: &Item,
    item: Item,
)
    requires kept { vec_len kept.old < vec_capacity kept.old }
    requires raised { vec_len raised.old < vec_capacity raised.old }
    requires lowered { vec_len lowered.old < vec_capacity lowered.old }
    ensures kept { (entries : List Entry) → item ≡ with_batch entries before.now → kept.new.items ≡ kept.old.items ++ kept_items entries (before.now ∷ []) }
    ensures raised { (entries : List Entry) → item ≡ with_batch entries before.now → raised.new.items ≡ raised.old.items ++ raised_of entries (before.now ∷ []) }
    ensures lowered { (entries : List Entry) → item ≡ with_batch entries before.now → lowered.new.items ≡ lowered.old.items ++ lowered_of entries (before.now ∷ []) }
    ensures kept_room { vec_capacity kept.new ≡ vec_capacity kept.old }
    ensures raised_room { vec_capacity raised.new ≡ vec_capacity raised.old }
    ensures lowered_room { vec_capacity lowered.new ≡ vec_capacity lowered.old }
{
    match item.need.cmp(&before.need) {
        Ordering::Equal => kept.push_reserved(item),
        Ordering::Greater => raised.push_reserved(item),
        Ordering::Less => lowered.push_reserved(item),
    }
}

/// Parts some items at the front: those that the batch leaves as they are, up to one that it may change. Answers how many.
fn part_front(
    items: &[Item],
    kept: &mut Vec<Item>,
    raised: &mut Vec<Item>,
    lowered: &mut Vec<Item>,
    marks: &[u64],
    batch: &Batch,
) -> usize
    requires some { 0 < length items.now }
    requires marked { AreMarked batch.now.entries marks.now }
    requires needs { All (λ item. need_with (entry_of batch.now.entries item.flow) item.need < 2 ^ 32) items.now }
    requires kept { vec_len kept.old + length items.now ≤ vec_capacity kept.old }
    requires raised { vec_len raised.old < vec_capacity raised.old }
    requires lowered { vec_len lowered.old < vec_capacity lowered.old }
    ensures within { result ≤ length items.now }
    ensures some { 0 < result }
    ensures kept { kept.new.items ≡ kept.old.items ++ kept_items batch.now.entries (take result items.now) }
    ensures raised { raised.new.items ≡ raised.old.items ++ raised_of batch.now.entries (take result items.now) }
    ensures lowered { lowered.new.items ≡ lowered.old.items ++ lowered_of batch.now.entries (take result items.now) }
    ensures kept_room { vec_capacity kept.old ≤ vec_capacity kept.new }
    ensures raised_room { vec_capacity raised.new ≡ vec_capacity raised.old }
    ensures lowered_room { vec_capacity lowered.new ≡ vec_capacity lowered.old }
{
    let stay = staying_front(items, marks, batch);
    let _ = kept.extend_from_slice(&items[..stay]);
    if stay == items.len() {
        return stay;
    }
    let item = with_entry(items[stay], batch, marks);
    part(kept, raised, lowered, &items[stay], item);
    stay + 1
}

/// Parts the items that the batch keeps, raises and lowers, each with its entry applied.
fn part_all(
    items: &[Item],
    kept: &mut Vec<Item>,
    raised: &mut Vec<Item>,
    lowered: &mut Vec<Item>,
    marks: &[u64],
    batch: &Batch,
)
    requires marked { AreMarked batch.now.entries marks.now }
    requires needs { All (λ item. need_with (entry_of batch.now.entries item.flow) item.need < 2 ^ 32) items.now }
    requires kept { vec_len kept.old + length items.now ≤ vec_capacity kept.old }
    requires raised { vec_len raised.old + length items.now ≤ vec_capacity raised.old }
    requires lowered { vec_len lowered.old + length items.now ≤ vec_capacity lowered.old }
    ensures kept { kept.new.items ≡ kept.old.items ++ kept_items batch.now.entries items.now }
    ensures raised { raised.new.items ≡ raised.old.items ++ raised_of batch.now.entries items.now }
    ensures lowered { lowered.new.items ≡ lowered.old.items ++ lowered_of batch.now.entries items.now }
    ensures kept_room { vec_capacity kept.old ≤ vec_capacity kept.new }
    ensures raised_room { vec_capacity raised.new ≡ vec_capacity raised.old }
    ensures lowered_room { vec_capacity lowered.new ≡ vec_capacity lowered.old }
{
    let mut from = 0;
    while from < items.len() {
        from += part_front(&items[from..], kept, raised, lowered, marks, batch);
    }
}

/// Puts the others among the items that are kept, behind their equals; `spare` is to have room.
fn put_behind(kept: &mut Vec<Item>, others: &[Item], spare: &mut Vec<Item>)
    requires kept { IsNonDecreasingBy (λ item. item.need) kept.old.items }
    requires others { IsNonDecreasingBy (λ item. item.need) others.now }
    requires room { vec_len kept.old + length others.now ≤ vec_capacity spare.old }
    ensures kept { kept.new.items ≡ by_key remaining (kept.old.items ++ others.now) }
    ensures kept_room { min (vec_capacity kept.old) (vec_capacity spare.old) ≤ vec_capacity kept.new }
    ensures spare_room { min (vec_capacity kept.old) (vec_capacity spare.old) ≤ vec_capacity spare.new }
{
    if others.is_empty() {
        return;
    }
    spare.clear();
    put_among(spare, kept, others, Side::Behind);
    mem::swap(spare, kept);
}

/// Applies the batch to a list by need. Only what changes is sorted: of two that need the same then, one that was raised goes
/// before one that was kept, as it stood before, and one that was lowered goes behind.
fn apply(
    items: &mut Vec<Item>,
    kept: &mut Vec<Item>,
    raised: &mut Vec<Item>,
    lowered: &mut Vec<Item>,
    marks: &mut [u64],
    batch: &Batch,
) -> Result<(), NoMemory>
    requires order { IsNonDecreasingBy (λ item. item.need) items.old.items }
    requires words { length marks.old ≡ 512 }
    requires items { length items.old.items + length (opened batch.now.entries) ≤ vec_capacity items.old }
    requires kept { length items.old.items + length (opened batch.now.entries) ≤ vec_capacity kept.old }
    requires raised { length items.old.items ≤ vec_capacity raised.old }
    requires lowered { length items.old.items + length (opened batch.now.entries) ≤ vec_capacity lowered.old }
    requires needs { All (λ item. need_with (entry_of batch.now.entries item.flow) item.need < 2 ^ 32) items.old.items }
    ensures items { OnOk result (items.new.items ≡ after_batch_by remaining batch.now.entries items.old.items) }
    ensures items_room { min (vec_capacity items.old) (vec_capacity kept.old) ≤ vec_capacity items.new }
    ensures kept_room { min (vec_capacity items.old) (vec_capacity kept.old) ≤ vec_capacity kept.new }
    ensures raised_room { vec_capacity raised.new ≡ vec_capacity raised.old }
    ensures lowered_room { vec_capacity lowered.new ≡ vec_capacity lowered.old }
    ensures words { length marks.new ≡ 512 }
{
    if batch.is_empty() {
        return Ok(());
    }
    mark_entries(marks, batch);
    kept.clear();
    raised.clear();
    lowered.clear();
    part_all(items, kept, raised, lowered, marks, batch);
    push_all_opened(lowered, batch);
    sort::<ByNeed>(raised)?;
    sort::<ByNeed>(lowered)?;
    put_behind(kept, lowered, items);
    items.clear();
    put_among(items, kept, raised, Side::Front);
    Ok(())
}

/// Gives the items of a list by need their slots. Those that need none stay in front, and only the served are sorted: of two that
/// need the same then, one that got no slot stood before.
fn fill(
    items: &mut Vec<Item>,
    served: &mut Vec<Item>,
    turns: &mut Turns,
    first_slot: u32,
    limits: Limits,
) -> Result<(), NoMemory>
    requires order { IsNonDecreasingBy (λ item. item.need) items.old.items }
    requires limits { AreLimits limits }
    requires numbers { first_slot + turns.old.b ≤ 2 ^ 32 }
    requires may { MayBeTakenUp turns.old.endpoints first_slot items.old.items }
    requires room { length items.old.items ≤ vec_capacity served.old }
    ensures items { OnOk result (items.new.items ≡ list_after_slots_by remaining (is_barred limits) first_slot turns.old.b items.old.items) }
    ensures slots { turns.new.slots ≡ batch_slots (is_barred limits) first_slot turns.old.b items.old.items }
    ensures items_room { vec_capacity items.old ≤ vec_capacity items.new }
    ensures served_room { vec_capacity served.old ≤ vec_capacity served.new }
    ensures endpoints { turns.new.endpoints ≡ turns.old.endpoints }
    ensures b { turns.new.b ≡ turns.old.b }
{
    let idle = place(items, 0, Side::Behind);
    turns.fill(&items[idle..], first_slot, limits);
    served.clear();
    let _ = served.extend_from_slice(turns.served());
    sort::<ByNeed>(served)?;
    items.truncate(idle);
    put_among(items, turns.waiting(), served, Side::Behind);
    Ok(())
}
