//! A guess of the items of a window's list that its batches can choose. Nothing rests on it but speed: all items are picked that
//! may have an entry in the window, and any of the others may be.
ghost use Rattle.std.specs.Prelude.{◌≡◌, ◌<◌, ◌≤◌, ◌+◌, ◌*◌, ◌^◌, List, [], ◌∷◌, ◌++◌, length, take, true, false, if◌then◌else◌, vec_len, vec_capacity, All, IfOk};
ghost use Rattle.greedy_rules.specs.Demands.{HasEachFlowOnce, AreBelow};
ghost use Rattle.slot_batches.specs.Feeding.{IsInOrder};
ghost use Rattle.slot_batches.specs.Marks.{has_mark as has_mark_in};
ghost use Rattle.window_allocation.specs.Picked.{IsReached};
ghost use Rattle.window_allocation.specs.Reach.{HasWords};

use crate::end_words::EndWords;
use crate::flow_slots::first_slots;
use crate::marked::has_mark;
use crate::reach::stop_from;
use crate::weave::first_served;
use greedy_rules::{Batch, DemandList, Entry, Flow, Item};
use no_memory::NoMemory;
use slot_batches::FlowMarks;
use std::alloc::Global;

/// For each flow a bit for each batch of a window: whether it has an entry of the flow.
#[derive(Drop)]
pub(crate) struct EntryBits {
    endpoints: u16,
    words: Vec<u16>,
}

impl EntryBits {
    /// For so many endpoints. No later call takes memory.
    pub(crate) fn open(alloc: Global, endpoints: u16) -> Result<EntryBits, NoMemory> {
        Ok(EntryBits {
            endpoints,
            words: vec![in alloc; 0; endpoints as usize * endpoints as usize]?,
        })
    }

    fn place(&self, flow: Flow) -> usize {
        flow.src as usize * self.endpoints as usize + flow.dst as usize
    }

    fn of(&self, flow: Flow) -> u16 {
        match self.words.get(self.place(flow)) {
            Some(word) => *word,
            None => 0,
        }
    }

    fn set(&mut self, flow: Flow, word: u16) {
        let at = self.place(flow);
        if at < self.words.len() {
            self.words[at] = word;
        }
    }

    fn note_batch(&mut self, batch: &Batch, bit: u16) {
        for at in 0..batch.len() {
            let flow = batch.entry(at).flow;
            let word = self.of(flow) | bit;
            self.set(flow, word);
        }
    }

    /// Notes the entries of the batches, where none is noted.
    fn note(&mut self, batches: &[Batch]) {
        let mut bit: u16 = 1;
        for batch in batches {
            self.note_batch(batch, bit);
            bit = bit.wrapping_add(bit);
        }
    }

    /// Forgets those entries.
    fn forget(&mut self, batches: &[Batch]) {
        for batch in batches {
            for at in 0..batch.len() {
                self.set(batch.entry(at).flow, 0);
            }
        }
    }
}

/// What a guess needs of memory: the slots that are taken so far, and the entries.
#[derive(Drop)]
pub(crate) struct Guess {
    pub(crate) words: EndWords,
    entries: EntryBits,
}

/// The lowest `need` of the slots; often there are no more.
fn lowest(slots: u64, need: u32) -> u64 {
    if slots.count_ones() <= need {
        return slots;
    }
    let mut rest = slots;
    for _ in 0..need {
        if rest == 0 {
            break;
        }
        rest &= rest - 1;
    }
    slots & !rest
}

/// Those of the slots that are named at neither end of the flow.
fn free_of(words: &EndWords, flow: Flow, slots: u64) -> u64
    requires { HasWords words.now flow }
{
    slots & !words.either(flow)
}

/// Those of the slots that are of the batch of the first one.
fn of_its_batch(slots: u64, b: u16) -> u64 {
    let size = u32::from(b.max(1));
    let from = slots.trailing_zeros() / size * size;
    slots & first_slots(b).wrapping_shl(from)
}

/// Takes of these slots those of the first batch that has one, as many as the flow needs. Most items take none: it stays out of
/// their loop.
#[inline(never)]
fn take_some(words: &mut EndWords, flow: Flow, need: u32, free: u64, b: u16)
    ensures { words.new.endpoints ≡ words.old.endpoints }
{
    words.add(flow, lowest(of_its_batch(free, b), need));
}

/// Takes of these slots for the flow, and answers whether it took one.
fn take(words: &mut EndWords, flow: Flow, need: u32, free: u64, b: u16) -> bool
    ensures { words.new.endpoints ≡ words.old.endpoints }
{
    if free == 0 || need == 0 {
        return false;
    }
    take_some(words, flow, need, free, b);
    true
}

/// The need once the batch's entry of the flow is applied.
fn need_with(need: u32, entry: Option<Entry>) -> u32 {
    match entry {
        Some(entry) => {
            let kept = if entry.clear { 0 } else { need };
            kept.saturating_add(entry.add)
        }
        None => need,
    }
}

/// Takes of these slots for a flow that has entries in the batches, as the bits say: its need changes from batch to batch.
#[inline(never)]
fn take_changed(
    words: &mut EndWords,
    entries: u16,
    flow: Flow,
    need: u32,
    batches: &[Batch],
    b: u16,
    slots: u64,
)
    requires { HasWords words.old flow }
    ensures { words.new.endpoints ≡ words.old.endpoints }
{
    let free = free_of(words, flow, slots);
    if free == 0 {
        return;
    }
    let mut need = need;
    let mut entries = entries;
    let mut here = first_slots(b);
    for batch in batches {
        if entries & 1 == 1 {
            need = need_with(need, batch.find(flow));
        }
        entries >>= 1;
        if take(words, flow, need, free & here, b) {
            return;
        }
        here = here.wrapping_shl(u32::from(b));
    }
}

/// Takes slots for the flows that the batch opens, but for those without words: nothing rests on the guess, so nothing is asked of
/// the entries.
fn take_opened(
    words: &mut EndWords,
    entries: &EntryBits,
    batch: &Batch,
    batches: &[Batch],
    b: u16,
    slots: u64,
)
    ensures { words.new.endpoints ≡ words.old.endpoints }
{
    for at in 0..batch.len() {
        let entry = batch.entry(at);
        if entry.opens && words.has_words(entry.flow) {
            take_changed(
                words,
                entries.of(entry.flow),
                entry.flow,
                0,
                batches,
                b,
                slots,
            );
        }
    }
}

/// Takes slots for the flows that the batches open.
#[inline(never)]
fn take_all_opened(words: &mut EndWords, entries: &EntryBits, batches: &[Batch], b: u16, slots: u64)
    ensures { words.new.endpoints ≡ words.old.endpoints }
{
    for batch in batches {
        take_opened(words, entries, batch, batches, b, slots);
    }
}

/// Whether the item may have an entry, or needs a slot and has one of these free at both ends. Whether it has is hard to foresee,
/// so there is one branch on all of it.
fn may_reach(words: &EndWords, marks: &FlowMarks, item: &Item, slots: u64) -> bool
    requires { HasWords words.now item.now.flow }
    ensures { result ≡ false → has_mark_in marks.now item.now.flow ≡ false }
{
    let takes = (free_of(words, item.flow, slots) != 0) & (item.need != 0);
    has_mark(marks, item.flow) | takes
}

/// How many items at the front the batches don't reach. Most items are passed here: the loop does nothing else.
fn count_beyond(words: &EndWords, marks: &FlowMarks, items: &[Item], slots: u64) -> usize
    requires { AreBelow words.now.endpoints items.now }
    ensures within { result ≤ length items.now }
    ensures unmarked { All (λ item. has_mark_in marks.now item.flow ≡ false) (take result items.now) }
{
    for at in 0..items.len() {
        if may_reach(words, marks, &items[at], slots) {
            return at;
        }
    }
    items.len()
}

/// Appends the item and its place, unless there are `most` by then.
#[inline(never)]
fn append(
    item: Item,
    at: usize,
    most: usize,
    found: &mut DemandList,
    places: &mut Vec<usize>,
) -> bool
    requires room { most ≤ length found.old.items + found.old.spare }
    requires places_room { most ≤ vec_capacity places.old }
    requires same { length found.old.items ≡ length places.old.items }
    ensures items { result ≡ true → found.new.items ≡ found.old.items ++ item ∷ [] }
    ensures places { result ≡ true → places.new.items ≡ places.old.items ++ at ∷ [] }
    ensures same { length found.new.items ≡ length places.new.items }
    ensures room { length found.new.items + found.new.spare ≡ length found.old.items + found.old.spare }
    ensures capacity { vec_capacity places.new ≡ vec_capacity places.old }
{
    if found.len() >= most {
        return false;
    }
    found.push(item);
    places.push_reserved(at);
    true
}

/// Appends the item and its place, where it is reached, unless there are `most` by then.
fn choose(
    reached: bool,
    item: Item,
    at: usize,
    most: usize,
    found: &mut DemandList,
    places: &mut Vec<usize>,
) -> bool
    requires room { most ≤ length found.old.items + found.old.spare }
    requires places_room { most ≤ vec_capacity places.old }
    requires same { length found.old.items ≡ length places.old.items }
    ensures items { result ≡ true → found.new.items ≡ found.old.items ++ (if reached then item ∷ [] else []) }
    ensures places { result ≡ true → places.new.items ≡ places.old.items ++ (if reached then at ∷ [] else []) }
    ensures same { length found.new.items ≡ length places.new.items }
    ensures room { length found.new.items + found.new.spare ≡ length found.old.items + found.old.spare }
    ensures capacity { vec_capacity places.new ≡ vec_capacity places.old }
{
    if !reached {
        return true;
    }
    append(item, at, most, found, places)
}

impl Guess {
    /// For so many endpoints. No later call takes memory.
    pub(crate) fn open(alloc: Global, endpoints: u16) -> Result<Guess, NoMemory>
        ensures { IfOk result (λ guess. guess.words.endpoints ≡ endpoints) }
    {
        Ok(Guess {
            words: EndWords::open(alloc, endpoints)?,
            entries: EntryBits::open(alloc, endpoints)?,
        })
    }

    /// Takes slots for the flows that the batches open, where this is so.
    fn take_opened_if(&mut self, here: bool, batches: &[Batch], b: u16, slots: u64)
        ensures { self.new.words.endpoints ≡ self.old.words.endpoints }
    {
        if here {
            take_all_opened(&mut self.words, &self.entries, batches, b, slots);
        }
    }

    /// Takes slots for the item, and answers whether it takes one or may have an entry.
    fn reaches(
        &mut self,
        item: &Item,
        marks: &FlowMarks,
        batches: &[Batch],
        b: u16,
        slots: u64,
    ) -> bool
        requires { HasWords self.old.words item.now.flow }
        ensures unmarked { result ≡ false → has_mark_in marks.now item.now.flow ≡ false }
        ensures endpoints { self.new.words.endpoints ≡ self.old.words.endpoints }
    {
        let words = &mut self.words;
        if has_mark(marks, item.flow) {
            let of_item = self.entries.of(item.flow);
            take_changed(words, of_item, item.flow, item.need, batches, b, slots);
            return true;
        }
        let free = free_of(words, item.flow, slots);
        take(words, item.flow, item.need, free, b)
    }

    /// Picks the items of the list that the batches may reach by the guess, and their places, where they are no more than half of
    /// it.
    #[inline(never)]
    pub(crate) fn pick(
        &mut self,
        list: &[Item],
        marks: &FlowMarks,
        batches: &[Batch],
        b: u16,
        found: &mut DemandList,
        places: &mut Vec<usize>,
    ) -> bool
        requires order { IsInOrder list.now }
        requires once { HasEachFlowOnce list.now }
        requires below { AreBelow self.old.words.endpoints list.now }
        requires count { length batches.now ≤ 16 }
        requires few { length batches.now * b ≤ 64 }
        requires room { length list.now ≤ length found.old.items + found.old.spare }
        requires places_room { length list.now ≤ vec_capacity places.old }
        ensures reached { result ≡ true → IsReached marks.now list.now found.new.items places.new.items }
        ensures endpoints { self.new.words.endpoints ≡ self.old.words.endpoints }
        ensures room { length found.new.items + found.new.spare ≡ length found.old.items + found.old.spare }
        ensures capacity { vec_capacity places.new ≡ vec_capacity places.old }
    {
        self.words.clear();
        found.clear();
        places.clear();
        let most = list.len() / 2;
        let slots = first_slots(batches.len() as u16 * b);
        let served = first_served(list);
        self.entries.note(batches);
        let mut at = 0;
        while at < list.len() {
            self.take_opened_if(at == served, batches, b, slots);
            let stop = stop_from(at, served, list.len());
            at += count_beyond(&self.words, marks, &list[at..stop], slots);
            if at == stop {
                continue;
            }
            let reached = self.reaches(&list[at], marks, batches, b, slots);
            if !choose(reached, list[at], at, most, found, places) {
                self.entries.forget(batches);
                return false;
            }
            at += 1;
        }
        self.entries.forget(batches);
        true
    }
}
