//! The test that the items that were not picked may be set aside: no batch of the window would choose one of them. Where it
//! answers no, nothing is known.
ghost use Rattle.std.specs.Prelude.{◌≡◌, ◌<◌, ◌≤◌, ◌*◌, ◌&&◌, ◌||◌, ◌==◌, ◌⊎◌, ℕ, List, Bool, true, false, nat_lt, length, All};
ghost use Rattle.std.specs.List.{slice_index_or};
ghost use Rattle.greedy_rules.specs.declared.flows.Flow.{Flow};
ghost use Rattle.greedy_rules.specs.declared.flows.Item.{Item};
ghost use Rattle.greedy_rules.specs.Demands.{AreBelow};
ghost use Rattle.endpoint_bitmaps.specs.Slots.{has_slot};
ghost use Rattle.slot_batches.specs.Feeding.{IsInOrder};
ghost use Rattle.slot_batches.specs.Woven.{places_from};
ghost use Rattle.window_allocation.specs.Reach.{HasWords, names_source, names_destination, AreAhead, ShowSlots, OpenAhead, IsNamed, OpenNew, AreOut};

use crate::end_words::EndWords;
use crate::flow_slots::{FlowSlots, first_slots};
use crate::weave::first_served;
use greedy_rules::{Batch, Entry, Item};

/// Lets the words name where the entry's flow is served first, if it is opened.
fn note_entry(words: &mut EndWords, slots: &FlowSlots, entry: Entry, count: u16, b: u16)
    requires few { count * b ≤ 64 }
    ensures ahead { (all : List (List Flow)) (ahead : Flow → Bool) → ShowSlots slots.now.endpoints (count * b) all slots.now.words.items → AreAhead b all ahead words.old → (entry.opens ≡ true → ahead entry.flow ≡ true) → AreAhead b all ahead words.new }
    ensures endpoints { words.new.endpoints ≡ words.old.endpoints }
{
    if entry.opens {
        words.add(entry.flow, slots.earliest(entry.flow, count, b));
    }
}

/// Lets the words name where the flows that the batch opens are served first.
fn note_batch(words: &mut EndWords, slots: &FlowSlots, batch: &Batch, count: u16, b: u16)
    requires few { count * b ≤ 64 }
    ensures ahead { (all : List (List Flow)) (ahead : Flow → Bool) → ShowSlots slots.now.endpoints (count * b) all slots.now.words.items → AreAhead b all ahead words.old → All (λ entry. entry.opens ≡ true → ahead entry.flow ≡ true) batch.now.entries → AreAhead b all ahead words.new }
    ensures endpoints { words.new.endpoints ≡ words.old.endpoints }
{
    for at in 0..batch.len() {
        note_entry(words, slots, batch.entry(at), count, b);
    }
}

/// Lets the words name where the flows that the batches open are served first.
#[inline(never)]
fn note_opened(words: &mut EndWords, slots: &FlowSlots, batches: &[Batch], count: u16, b: u16)
    requires few { count * b ≤ 64 }
    ensures ahead { (all : List (List Flow)) (ahead : Flow → Bool) → ShowSlots slots.now.endpoints (count * b) all slots.now.words.items → AreAhead b all ahead words.old → OpenAhead ahead batches.now → AreAhead b all ahead words.new }
    ensures endpoints { words.new.endpoints ≡ words.old.endpoints }
{
    for batch in batches {
        note_batch(words, slots, batch, count, b);
    }
}

/// Notes the opened flows where this is so.
fn note_opened_if(
    here: bool,
    words: &mut EndWords,
    slots: &FlowSlots,
    batches: &[Batch],
    count: u16,
    b: u16,
)
    requires few { count * b ≤ 64 }
    ensures ahead { (all : List (List Flow)) (ahead : Flow → Bool) → ShowSlots slots.now.endpoints (count * b) all slots.now.words.items → AreAhead b all ahead words.old → (here ≡ true → OpenAhead ahead batches.now) → AreAhead b all ahead words.new }
    ensures endpoints { words.new.endpoints ≡ words.old.endpoints }
{
    if here {
        note_opened(words, slots, batches, count, b);
    }
}

/// Whether the item needs nothing, or its ends are named in each of these slots. Which of the two is hard to foresee, so both are
/// looked at.
fn is_out(words: &EndWords, item: &Item, all: u64) -> bool
    requires { HasWords words.now item.now.flow }
    ensures { result ≡ true → (count : ℕ) → ((at : ℕ) → at < count → has_slot all at ≡ true) → IsNamed words.now count item.now }
{
    let open = all & !words.either(item.flow);
    (open == 0) | (item.need == 0)
}

/// Whether each of the items is out.
fn all_out(words: &EndWords, items: &[Item], count: u16, b: u16, all: u64) -> bool
    requires below { AreBelow words.now.endpoints items.now }
    requires all { (at : ℕ) → at < count * b → has_slot all at ≡ true }
    ensures { result ≡ true → All (IsNamed words.now (count * b)) items.now }
{
    for item in items {
        if !is_out(words, item, all) {
            return false;
        }
    }
    true
}

/// Where a walk from this place on stops: at the first item that was served, or at the list's end.
pub(crate) fn stop_from(at: usize, served: usize, len: usize) -> usize
    requires inside { at < len }
    requires served { served ≤ len }
    ensures behind { at < result }
    ensures within { result ≤ len }
{
    if at < served { served } else { len }
}

/// Items that were not picked end at this place, where one stands that was, if so.
#[derive(Clone, Copy)]
struct Gap {
    end: usize,
    picked: bool,
}

/// The items that were not picked from this place on, up to the next that was, or to `stop`.
fn gap_from(places: &[usize], next: usize, at: usize, stop: usize) -> Gap
    requires { at < stop }
    ensures from { at ≤ result.end }
    ensures within { result.end ≤ stop }
    ensures picked { result.picked ≡ true → (result.end < stop) × ((nat_lt next (length places.now) && (slice_index_or places.now next 0 == result.end)) ≡ true) }
    ensures none { result.picked ≡ false → at < result.end }
    ensures others { (other : ℕ) → at ≤ other → other < result.end → (nat_lt next (length places.now) && (slice_index_or places.now next 0 == other)) ≡ false }
{
    match places.get(next) {
        Some(place) if at <= *place && *place < stop => Gap {
            end: *place,
            picked: true,
        },
        _ => Gap {
            end: stop,
            picked: false,
        },
    }
}

/// Lets the words name where the item is served first. Most items of a list come past it: it stays out of their loop.
#[inline(never)]
fn note_picked(words: &mut EndWords, slots: &FlowSlots, item: &Item, count: u16, b: u16)
    requires few { count * b ≤ 64 }
    ensures ahead { (all : List (List Flow)) (ahead : Flow → Bool) → ShowSlots slots.now.endpoints (count * b) all slots.now.words.items → AreAhead b all ahead words.old → ahead item.now.flow ≡ true → AreAhead b all ahead words.new }
    ensures endpoints { words.new.endpoints ≡ words.old.endpoints }
{
    words.add(item.flow, slots.earliest(item.flow, count, b));
}

/// Lets the words name where the item at this place is served first, where this is so.
fn note_picked_if(
    here: bool,
    words: &mut EndWords,
    slots: &FlowSlots,
    list: &[Item],
    at: usize,
    count: u16,
    b: u16,
)
    requires few { count * b ≤ 64 }
    requires within { here ≡ true → at < length list.now }
    ensures noted { here ≡ true → (none : Item) (all : List (List Flow)) (ahead : Flow → Bool) → ShowSlots slots.now.endpoints (count * b) all slots.now.words.items → AreAhead b all ahead words.old → ahead (slice_index_or list.now at none).flow ≡ true → AreAhead b all ahead words.new }
    ensures same { here ≡ false → words.new ≡ words.old }
    ensures endpoints { words.new.endpoints ≡ words.old.endpoints }
{
    if here {
        note_picked(words, slots, &list[at], count, b);
    }
}

/// Whether each item of the list that needs a slot and was not picked, these being the places of those that were, is kept out of
/// every slot of the batches by flows that go ahead of it, as far as their ends tell.
#[inline(never)]
pub(crate) fn are_out(
    words: &mut EndWords,
    slots: &FlowSlots,
    list: &[Item],
    places: &[usize],
    batches: &[Batch],
    b: u16,
) -> bool
    requires order { IsInOrder list.now }
    requires below { AreBelow words.old.endpoints list.now }
    requires count { length batches.now ≤ 16 }
    requires few { length batches.now * b ≤ 64 }
    ensures endpoints { words.new.endpoints ≡ words.old.endpoints }
    ensures out { result ≡ true → (aside : Item → Bool) (all : List (List Flow)) → places.now ≡ places_from aside 0 list.now → ShowSlots slots.now.endpoints (length batches.now * b) all slots.now.words.items → OpenNew list.now batches.now → AreOut b (length batches.now * b) all list.now aside (λ flow. false) list.now }
{
    words.clear();
    let count = batches.len() as u16;
    let all = first_slots(count * b);
    let served = first_served(list);
    let mut next = 0;
    let mut at = 0;
    while at < list.len() {
        note_opened_if(at == served, words, slots, batches, count, b);
        let gap = gap_from(places, next, at, stop_from(at, served, list.len()));
        if !all_out(words, &list[at..gap.end], count, b, all) {
            return false;
        }
        note_picked_if(gap.picked, words, slots, list, gap.end, count, b);
        at = gap.end + usize::from(gap.picked);
        next += usize::from(gap.picked);
    }
    true
}
