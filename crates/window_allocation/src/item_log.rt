//! Items with gaps between them: one that is taken out leaves its place empty, and one that is new comes behind all.
ghost use Rattle.std.specs.Prelude.{◌≡◌, ◌≢◌, ◌<◌, ◌≤◌, ◌+◌, ◌*◌, ◌/◌, ◌^◌, ℕ, Bool, List, [], ◌∷◌, ◌++◌, length, take, drop, true, false, All, None, Some, IfOk, vec_len, vec_capacity, if◌then◌else◌};
ghost use Rattle.list_facts.specs.Bits.{names_place};
ghost use Rattle.greedy_rules.specs.declared.flows.Item.{Item};
ghost use Rattle.greedy_rules.specs.Demands.{is_listed, HasEachFlowOnce, AreBelow};
ghost use Rattle.slot_batches.specs.Woven.{picked as picked_of, weave, places_from, NeedNothing};
ghost use Rattle.window_allocation.specs.Logged.{gap, is_gap as is_gap_in, is_left, is_passed, standing, item_at, items_at, ArePlaced, NeedsHaveBits, HasBit, HaveBits, places_of_bits, busy_places, AreNew};
ghost use Rattle.window_allocation.specs.Picked.{staying};
ghost use Rattle.window_allocation.specs.Reach.{OpensNew, OpenNew};

use crate::needs::place;
use crate::weave::stays_at;
use greedy_rules::{Batch, DemandList, Entry, Flow, Item};
use no_memory::NoMemory;
use slot_batches::clear_words;
use std::alloc::Global;
use std::marker::Model;

/// What stands where an item was taken out.
const GAP: Item = Item {
    flow: Flow {
        src: u16::MAX,
        dst: u16::MAX,
    },
    need: 0,
    last: 0,
};

fn is_gap(item: &Item) -> bool
    ensures { result ≡ is_gap_in item.now }
{
    item.flow.src == u16::MAX
}

/// Sets the bit of this place.
fn set_bit(words: &mut [u64], at: usize)
    requires { at / 64 < length words.old }
    ensures set { names_place words.new at ≡ true }
    ensures others { (other : ℕ) → names_place words.old other ≡ true → names_place words.new other ≡ true }
    ensures count { length words.new ≡ length words.old }
{
    words[at / 64] |= 1 << (at % 64);
}

/// Clears the bit of this place.
fn clear_bit(words: &mut [u64], at: usize)
    requires { at / 64 < length words.old }
    ensures others { (other : ℕ) → other ≢ at → names_place words.old other ≡ true → names_place words.new other ≡ true }
    ensures count { length words.new ≡ length words.old }
{
    words[at / 64] &= !(1 << (at % 64));
}

/// Sets the bit of this place where something is needed there, and clears it where not.
fn note_need(words: &mut [u64], at: usize, need: u32)
    requires { at / 64 < length words.old }
    ensures set { names_place words.new at ≡ false → need ≡ 0 }
    ensures others { (other : ℕ) → other ≢ at → names_place words.old other ≡ true → names_place words.new other ≡ true }
    ensures count { length words.new ≡ length words.old }
{
    if need > 0 {
        set_bit(words, at);
    } else {
        clear_bit(words, at);
    }
}

/// Where the item of this flow stands, if one does.
fn find(endpoints: u16, items: &[Item], at: &[u32], flow: Flow) -> Option<usize>
    requires table { length at.now ≡ endpoints * endpoints }
    requires placed { ArePlaced endpoints at.now items.now }
    ensures none { result ≡ None → (place : ℕ) → is_gap_in (item_at items.now place) ≡ false → (item_at items.now place).flow ≢ flow }
    ensures found { (found : ℕ) → result ≡ Some found → (found < length items.now) × ((place : ℕ) → is_gap_in (item_at items.now place) ≡ false → (item_at items.now place).flow ≡ flow → place ≡ found) }
{
    if flow.src >= endpoints || flow.dst >= endpoints {
        return None;
    }
    let found = at[place(endpoints, flow)] as usize;
    match items.get(found) {
        Some(item) if item.flow.src == flow.src && item.flow.dst == flow.dst => Some(found),
        _ => None,
    }
}

/// Where the table has the item of this flow, whether or not one stands there.
fn noted(endpoints: u16, at: &[u32], flow: Flow) -> usize {
    if flow.src >= endpoints || flow.dst >= endpoints {
        return 0;
    }
    match at.get(place(endpoints, flow)) {
        Some(noted) => *noted as usize,
        None => 0,
    }
}

/// Reads where the items of a batch's entries stand, and then of which flow each is: of each without waiting for another, so that
/// memory brings all of them at once before they are looked up. What it answers means nothing.
fn read_batch(endpoints: u16, items: &[Item], at: &[u32], batch: &Batch) -> usize {
    let mut read = 0;
    for number in 0..batch.len() {
        read ^= noted(endpoints, at, batch.entry(number).flow);
    }
    for number in 0..batch.len() {
        if let Some(item) = items.get(noted(endpoints, at, batch.entry(number).flow)) {
            read ^= item.flow.src as usize;
        }
    }
    read
}

/// Reads where the items of the batches' entries stand, as `read_batch` does.
fn read_ahead(endpoints: u16, items: &[Item], at: &[u32], batches: &[Batch]) -> usize {
    let mut read = 0;
    for batch in batches {
        read ^= read_batch(endpoints, items, at, batch);
    }
    read
}

/// Sets the bit of the entry's item, if one stands. A flow that opens has none, and is not looked up.
#[tactic(auto, using(crate::proofs::LogLemmas::new_has_bit))]
fn mark_entry(endpoints: u16, items: &[Item], at: &[u32], words: &mut [u64], entry: Entry)
    requires table { length at.now ≡ endpoints * endpoints }
    requires placed { ArePlaced endpoints at.now items.now }
    requires long { length items.now ≤ length words.old * 64 }
    requires new { entry.opens ≡ true → is_listed (standing items.now) entry.flow ≡ false }
    ensures marked { HasBit words.new items.now entry.flow }
    ensures others { (other : ℕ) → names_place words.old other ≡ true → names_place words.new other ≡ true }
    ensures count { length words.new ≡ length words.old }
{
    if entry.opens {
        return;
    }
    if let Some(found) = find(endpoints, items, at, entry.flow) {
        set_bit(words, found);
    }
}

/// Sets the bits of the items of which the batch has entries.
fn mark_batch(endpoints: u16, items: &[Item], at: &[u32], words: &mut [u64], batch: &Batch)
    requires table { length at.now ≡ endpoints * endpoints }
    requires placed { ArePlaced endpoints at.now items.now }
    requires long { length items.now ≤ length words.old * 64 }
    requires new { OpensNew (standing items.now) batch.now.entries }
    ensures marked { HaveBits words.new items.now batch.now.entries }
    ensures others { (other : ℕ) → names_place words.old other ≡ true → names_place words.new other ≡ true }
    ensures count { length words.new ≡ length words.old }
{
    for number in 0..batch.len() {
        mark_entry(endpoints, items, at, words, batch.entry(number));
    }
}

/// Sets the bits of the items of which one of the batches has an entry.
fn mark_all(endpoints: u16, items: &[Item], at: &[u32], words: &mut [u64], batches: &[Batch])
    requires table { length at.now ≡ endpoints * endpoints }
    requires placed { ArePlaced endpoints at.now items.now }
    requires long { length items.now ≤ length words.old * 64 }
    requires new { OpenNew (standing items.now) batches.now }
    ensures marked { All (λ batch. HaveBits words.new items.now batch.entries) batches.now }
    ensures others { (other : ℕ) → names_place words.old other ≡ true → names_place words.new other ≡ true }
    ensures count { length words.new ≡ length words.old }
{
    for batch in batches {
        mark_batch(endpoints, items, at, words, batch);
    }
}

/// Appends the place, if an item stands there, unless there are `most` by then.
fn note_place(items: &[Item], at: usize, most: usize, places: &mut Vec<usize>) -> bool
    requires room { most ≤ vec_capacity places.old }
    ensures places { result ≡ true → places.new.items ≡ places.old.items ++ (if is_gap_in (item_at items.now at) then [] else at ∷ []) }
    ensures capacity { vec_capacity places.new ≡ vec_capacity places.old }
{
    match items.get(at) {
        Some(item) if !is_gap(item) => {
            if places.len() >= most {
                return false;
            }
            places.push_reserved(at);
            true
        }
        _ => true,
    }
}

/// Appends the places of a word's bits at which items stand, the first bit's place being `from`, unless they are more than `most`.
fn note_word(items: &[Item], from: usize, word: u64, most: usize, places: &mut Vec<usize>) -> bool
    requires fits { from < 2 ^ 32 }
    requires room { most ≤ vec_capacity places.old }
    ensures places { result ≡ true → places.new.items ≡ places.old.items ++ places_of_bits items.now from word }
    ensures capacity { vec_capacity places.new ≡ vec_capacity places.old }
{
    let mut rest = word;
    while rest != 0 {
        if !note_place(items, from + rest.trailing_zeros() as usize, most, places) {
            return false;
        }
        rest &= rest - 1;
    }
    true
}

/// Notes the places that have their bit, in the first `count` words, and at which items stand, unless they are more than `most`.
fn note_busy(
    items: &[Item],
    words: &[u64],
    count: usize,
    most: usize,
    places: &mut Vec<usize>,
) -> bool
    requires within { count ≤ length words.now }
    requires fits { length words.now < 2 ^ 16 }
    requires room { most ≤ vec_capacity places.old }
    ensures places { result ≡ true → places.new.items ≡ busy_places items.now words.now (count * 64) }
    ensures capacity { vec_capacity places.new ≡ vec_capacity places.old }
{
    places.clear();
    for at in 0..count {
        if !note_word(items, at * 64, words[at], most, places) {
            return false;
        }
    }
    true
}

/// Appends the items at these places, unless there are more than `most` then.
fn take_items(items: &[Item], places: &[usize], most: usize, found: &mut DemandList) -> bool
    requires room { most ≤ length found.old.items + found.old.spare }
    requires within { All (λ place. place < length items.now) places.now }
    ensures items { result ≡ true → found.new.items ≡ found.old.items ++ items_at items.now places.now }
    ensures room { length found.new.items + found.new.spare ≡ length found.old.items + found.old.spare }
{
    if most < found.len() || most - found.len() < places.len() {
        return false;
    }
    for at in places {
        found.push(items[*at]);
    }
    true
}

/// Appends the item, unless it is a gap.
fn append_one(item: Item, list: &mut DemandList)
    requires room { length (standing (item ∷ [])) ≤ list.old.spare }
    ensures items { list.new.items ≡ list.old.items ++ standing (item ∷ []) }
    ensures room { length list.new.items + list.new.spare ≡ length list.old.items + list.old.spare }
{
    if !is_gap(&item) {
        list.push(item);
    }
}

/// Appends the items that stand, for which there is room.
fn append_standing(items: &[Item], list: &mut DemandList)
    requires room { length (standing items.now) ≤ list.old.spare }
    ensures items { list.new.items ≡ list.old.items ++ standing items.now }
    ensures room { length list.new.items + list.new.spare ≡ length list.old.items + list.old.spare }
{
    for item in items {
        append_one(*item, list);
    }
}

/// Puts over the item at this place how it stands in the rest, if it stays, and else a gap. Answers how many stay: one, or none.
fn put_one(to: usize, rest: &[Item], at: usize, items: &mut [Item], words: &mut [u64]) -> usize
    requires item { to < length items.old }
    requires within { at ≤ length rest.now }
    requires long { length items.old ≤ length words.old * 64 }
    ensures count { result ≡ length (staying (drop to items.old) (drop at rest.now)) }
    ensures within { at + result ≤ length rest.now }
    ensures front { standing (take (to + 1) items.new) ≡ standing (take to items.old) ++ standing (staying (drop to items.old) (drop at rest.now)) }
    ensures behind { drop (to + 1) items.new ≡ drop (to + 1) items.old }
    ensures length { length items.new ≡ length items.old }
    ensures placed { (endpoints : ℕ) (table : List ℕ) → ArePlaced endpoints table items.old → ArePlaced endpoints table items.new }
    ensures bits { NeedsHaveBits words.old items.old → NeedsHaveBits words.new items.new }
    ensures words { length words.new ≡ length words.old }
{
    if !stays_at(&items[to], rest, at) {
        items[to] = GAP;
        clear_bit(words, to);
        return 0;
    }
    items[to] = rest[at];
    note_need(words, to, rest[at].need);
    1
}

/// Puts what of the rest stays over the items at these places, and gaps over the others. Answers where the rest goes on behind
/// them.
fn put_back(places: &[usize], rest: &[Item], items: &mut [Item], words: &mut [u64]) -> usize
    requires places { (aside : Item → Bool) × (places.now ≡ places_from aside 0 items.old) }
    requires long { length items.old ≤ length words.old * 64 }
    ensures items { (aside : Item → Bool) → places.now ≡ places_from aside 0 items.old → standing (items.new ++ drop result rest.now) ≡ standing (weave aside items.old rest.now) }
    ensures within { result ≤ length rest.now }
    ensures length { length items.new ≡ length items.old }
    ensures placed { (endpoints : ℕ) (table : List ℕ) → ArePlaced endpoints table items.old → ArePlaced endpoints table items.new }
    ensures bits { NeedsHaveBits words.old items.old → NeedsHaveBits words.new items.new }
    ensures words { length words.new ≡ length words.old }
{
    let mut at = 0;
    for place in places {
        at += put_one(*place, rest, at, items, words);
    }
    at
}

/// Appends the item, whose flow has none.
fn push_item(endpoints: u16, item: Item, items: &mut Vec<Item>, at: &mut [u32], words: &mut [u64])
    requires src { item.flow.src < endpoints }
    requires dst { item.flow.dst < endpoints }
    requires new { AreNew items.old.items (item ∷ []) }
    requires table { length at.old ≡ endpoints * endpoints }
    requires room { vec_len items.old < vec_capacity items.old }
    requires fits { vec_len items.old < 2 ^ 32 }
    requires long { vec_len items.old < length words.old * 64 }
    requires placed { ArePlaced endpoints at.old items.old.items }
    requires bits { NeedsHaveBits words.old items.old.items }
    ensures items { items.new.items ≡ items.old.items ++ item ∷ [] }
    ensures capacity { vec_capacity items.new ≡ vec_capacity items.old }
    ensures table { length at.new ≡ length at.old }
    ensures words { length words.new ≡ length words.old }
    ensures placed { ArePlaced endpoints at.new items.new.items }
    ensures bits { NeedsHaveBits words.new items.new.items }
{
    at[place(endpoints, item.flow)] = items.len() as u32;
    note_need(words, items.len(), item.need);
    items.push_reserved(item);
}

/// Appends these items, whose flows have none, each once.
fn append_items(
    endpoints: u16,
    list: &[Item],
    items: &mut Vec<Item>,
    at: &mut [u32],
    words: &mut [u64],
)
    requires once { HasEachFlowOnce list.now }
    requires below { AreBelow endpoints list.now }
    requires new { AreNew items.old.items list.now }
    requires table { length at.old ≡ endpoints * endpoints }
    requires room { vec_len items.old + length list.now ≤ vec_capacity items.old }
    requires fits { vec_len items.old + length list.now < 2 ^ 32 }
    requires long { vec_len items.old + length list.now ≤ length words.old * 64 }
    requires placed { ArePlaced endpoints at.old items.old.items }
    requires bits { NeedsHaveBits words.old items.old.items }
    ensures items { items.new.items ≡ items.old.items ++ list.now }
    ensures capacity { vec_capacity items.new ≡ vec_capacity items.old }
    ensures table { length at.new ≡ length at.old }
    ensures words { length words.new ≡ length words.old }
    ensures placed { ArePlaced endpoints at.new items.new.items }
    ensures bits { NeedsHaveBits words.new items.new.items }
{
    for item in list {
        push_item(endpoints, *item, items, at, words);
    }
}

/// Closes the gaps.
fn close_gaps(
    endpoints: u16,
    items: &mut Vec<Item>,
    at: &mut [u32],
    words: &mut [u64],
    spare: &mut DemandList,
)
    requires once { HasEachFlowOnce (standing items.old.items) }
    requires below { AreBelow endpoints (standing items.old.items) }
    requires table { length at.old ≡ endpoints * endpoints }
    requires room { length (standing items.old.items) ≤ vec_capacity items.old }
    requires spare { length (standing items.old.items) ≤ length spare.old.items + spare.old.spare }
    requires fits { length (standing items.old.items) < 2 ^ 32 }
    requires long { length (standing items.old.items) ≤ length words.old * 64 }
    ensures items { items.new.items ≡ standing items.old.items }
    ensures capacity { vec_capacity items.new ≡ vec_capacity items.old }
    ensures spare { length spare.new.items + spare.new.spare ≡ length spare.old.items + spare.old.spare }
    ensures table { length at.new ≡ length at.old }
    ensures words { length words.new ≡ length words.old }
    ensures placed { ArePlaced endpoints at.new items.new.items }
    ensures bits { NeedsHaveBits words.new items.new.items }
{
    spare.clear();
    append_standing(items, spare);
    items.clear();
    append_items(endpoints, spare.items(), items, at, words);
}

/// Whether these are too many places for so many items: more than `most`, or most words of bits would be looked at for nothing.
fn are_many(places: usize, most: usize, count: usize) -> bool
    ensures { result ≡ false → places ≤ most }
{
    places > most || places / 4 > count.saturating_add(1024)
}

/// Closes the gaps where there would be too many places with so many more items behind.
fn make_room(
    endpoints: u16,
    count: usize,
    more: usize,
    items: &mut Vec<Item>,
    at: &mut [u32],
    words: &mut [u64],
    spare: &mut DemandList,
)
    requires few { endpoints ≤ 256 }
    requires once { HasEachFlowOnce (standing items.old.items) }
    requires below { AreBelow endpoints (standing items.old.items) }
    requires table { length at.old ≡ endpoints * endpoints }
    requires words { length words.old ≡ endpoints * endpoints / 32 + 1 }
    requires most { length (standing items.old.items) + more ≤ endpoints * endpoints }
    requires length { vec_len items.old ≤ 2 * (endpoints * endpoints) }
    requires room { 2 * (endpoints * endpoints) ≤ vec_capacity items.old }
    requires spare { endpoints * endpoints ≤ length spare.old.items + spare.old.spare }
    requires placed { ArePlaced endpoints at.old items.old.items }
    requires bits { NeedsHaveBits words.old items.old.items }
    ensures items { standing items.new.items ≡ standing items.old.items }
    ensures length { vec_len items.new + more ≤ 2 * (endpoints * endpoints) }
    ensures capacity { vec_capacity items.new ≡ vec_capacity items.old }
    ensures spare { length spare.new.items + spare.new.spare ≡ length spare.old.items + spare.old.spare }
    ensures table { length at.new ≡ length at.old }
    ensures words { length words.new ≡ length words.old }
    ensures placed { ArePlaced endpoints at.new items.new.items }
    ensures bits { NeedsHaveBits words.new items.new.items }
{
    if are_many(items.len() + more, at.len() * 2, count) {
        close_gaps(endpoints, items, at, words, spare);
    }
}

/// Puts what of the rest stays over the items at these places, and appends what does not.
fn put_rest(
    endpoints: u16,
    count: usize,
    places: &[usize],
    rest: &[Item],
    items: &mut Vec<Item>,
    at: &mut [u32],
    words: &mut [u64],
    spare: &mut DemandList,
)
    requires few { endpoints ≤ 256 }
    requires picked { places.now ≡ places_from (is_passed (items_at items.old.items places.now)) 0 items.old.items }
    requires once { HasEachFlowOnce (weave (is_left (items_at items.old.items places.now)) (standing items.old.items) rest.now) }
    requires below { AreBelow endpoints (weave (is_left (items_at items.old.items places.now)) (standing items.old.items) rest.now) }
    requires most { length (weave (is_left (items_at items.old.items places.now)) (standing items.old.items) rest.now) ≤ endpoints * endpoints }
    requires table { length at.old ≡ endpoints * endpoints }
    requires words { length words.old ≡ endpoints * endpoints / 32 + 1 }
    requires length { vec_len items.old ≤ 2 * (endpoints * endpoints) }
    requires room { 2 * (endpoints * endpoints) ≤ vec_capacity items.old }
    requires spare { endpoints * endpoints ≤ length spare.old.items + spare.old.spare }
    requires placed { ArePlaced endpoints at.old items.old.items }
    requires bits { NeedsHaveBits words.old items.old.items }
    ensures items { standing items.new.items ≡ weave (is_left (items_at items.old.items places.now)) (standing items.old.items) rest.now }
    ensures length { vec_len items.new ≤ 2 * (endpoints * endpoints) }
    ensures capacity { vec_capacity items.new ≡ vec_capacity items.old }
    ensures spare { length spare.new.items + spare.new.spare ≡ length spare.old.items + spare.old.spare }
    ensures table { length at.new ≡ length at.old }
    ensures words { length words.new ≡ length words.old }
    ensures placed { ArePlaced endpoints at.new items.new.items }
    ensures bits { NeedsHaveBits words.new items.new.items }
{
    let behind = put_back(places, rest, items, words);
    make_room(
        endpoints,
        count,
        rest.len() - behind,
        items,
        at,
        words,
        spare,
    );
    append_items(endpoints, &rest[behind..], items, at, words);
}

/// Items with gaps between them, and where each stands.
#[derive(Drop)]
pub(crate) struct ItemLog {
    endpoints: u16,
    // How many items stand.
    count: usize,
    items: Vec<Item>,
    // By flow, where its item stands, if one does.
    at: Vec<u32>,
    // A bit for each place, set where an item stands that needs something.
    busy: Vec<u64>,
    // Where the items stand that were picked last.
    places: Vec<usize>,
    // Room to close the gaps.
    spare: DemandList,
    // What was read ahead last: it is kept so that it is read, and means nothing.
    ahead: usize,
}

impl Model for ItemLog {
    ghost use Rattle.std.specs.Prelude.{◌≤◌, ◌+◌, ◌*◌, length, vec_capacity};
    ghost use Rattle.window_allocation.specs.Logged.{Logged, standing, items_at, IsLog};

    ghost Value = { Logged };

    ghost view = { λ l. record { endpoints = l.endpoints; items = standing l.items.items; picked = items_at l.items.items l.places.items } };

    ghost invariant = { λ l. IsLog l.endpoints l.count l.items.items l.at.items l.busy.items l.places.items × (2 * (l.endpoints * l.endpoints) ≤ vec_capacity l.items) × (l.endpoints * l.endpoints ≤ length l.spare.items + l.spare.spare) };
}

impl ItemLog {
    /// Empty, with room for an item of each pair of endpoints. No later call takes memory.
    pub(crate) fn open(alloc: Global, endpoints: u16) -> Result<ItemLog, NoMemory>
        requires { endpoints ≤ 256 }
        ensures { IfOk result (λ log. log ≡ record { endpoints = endpoints; items = []; picked = [] }) }
    {
        let pairs = endpoints as usize * endpoints as usize;
        Ok(ItemLog {
            endpoints,
            count: 0,
            items: Vec::with_capacity(alloc, pairs * 2)?,
            at: vec![in alloc; 0; pairs]?,
            busy: vec![in alloc; 0; pairs / 32 + 1]?,
            places: Vec::with_capacity(alloc, pairs)?,
            spare: DemandList::open(alloc, pairs)?,
            ahead: 0,
        })
    }

    /// How many items stand.
    pub(crate) fn len(&self) -> usize
        ensures { result ≡ length self.now.items }
    {
        self.count
    }

    /// Takes these items over in place of its own.
    pub(crate) fn fill(&mut self, list: &[Item])
        requires once { HasEachFlowOnce list.now }
        requires below { AreBelow self.old.endpoints list.now }
        requires few { length list.now ≤ self.old.endpoints * self.old.endpoints }
        ensures { self.new ≡ record self.old { items = list.now; picked = [] } }
    {
        self.places.clear();
        self.items.clear();
        clear_words(&mut self.busy);
        self.count = list.len();
        append_items(
            self.endpoints,
            list,
            &mut self.items,
            &mut self.at,
            &mut self.busy,
        );
    }

    /// Appends all items to the list, for which there is room.
    pub(crate) fn append_to(&self, list: &mut DemandList)
        requires room { length self.now.items ≤ list.old.spare }
        ensures items { list.new.items ≡ list.old.items ++ self.now.items }
        ensures room { length list.new.items + list.new.spare ≡ length list.old.items + list.old.spare }
    {
        append_standing(&self.items, list);
    }

    /// Picks the items that need a slot or have an entry in one of the batches, and appends them where they come to no more than
    /// `most` then.
    pub(crate) fn pick(&mut self, batches: &[Batch], most: usize, found: &mut DemandList) -> bool
        requires room { most ≤ length found.old.items + found.old.spare }
        requires new { OpenNew self.old.items batches.now }
        ensures log { self.new ≡ record self.old { picked = self.new.picked } }
        ensures found { result ≡ true → found.new.items ≡ found.old.items ++ self.new.picked }
        ensures picked { self.new.picked ≡ picked_of (is_left self.new.picked) self.old.items }
        ensures nothing { result ≡ true → NeedNothing (is_left self.new.picked) batches.now self.old.items }
        ensures room { length found.new.items + found.new.spare ≡ length found.old.items + found.old.spare }
    {
        // Where no item stands, none is picked: nothing is marked, and no words are looked at.
        if self.count == 0 {
            self.places.clear();
            return true;
        }
        self.ahead = read_ahead(self.endpoints, &self.items, &self.at, batches);
        mark_all(
            self.endpoints,
            &self.items,
            &self.at,
            &mut self.busy,
            batches,
        );
        let count = self.items.len() / 64 + 1;
        let room = most.min(self.places.capacity());
        if !note_busy(&self.items, &self.busy, count, room, &mut self.places) {
            self.places.clear();
            return false;
        }
        take_items(&self.items, &self.places, most, found)
    }

    /// Puts in place of the items picked last what the batches left of these, and of the flows that they opened.
    pub(crate) fn weave(&mut self, rest: &[Item])
        requires once { HasEachFlowOnce (weave (is_left self.old.picked) self.old.items rest.now) }
        requires below { AreBelow self.old.endpoints (weave (is_left self.old.picked) self.old.items rest.now) }
        requires few { length (weave (is_left self.old.picked) self.old.items rest.now) ≤ self.old.endpoints * self.old.endpoints }
        ensures { self.new ≡ record self.old { items = weave (is_left self.old.picked) self.old.items rest.now; picked = [] } }
    {
        let kept = self.count - self.places.len();
        self.count = kept + rest.len();
        put_rest(
            self.endpoints,
            self.count,
            &self.places,
            rest,
            &mut self.items,
            &mut self.at,
            &mut self.busy,
            &mut self.spare,
        );
        self.places.clear();
    }
}
