//! The items of a piece of the list that something may speak against waiting as they are: their places are the bits of a word, so
//! that the others are passed over without a look at each.
ghost use Rattle.std.specs.Prelude.{◌≡◌, ◌<◌, ◌≤◌, ◌^◌, ◌++◌, ℕ, List, length, take, get_or, true, false, All};
ghost use Rattle.greedy_rules.specs.declared.flows.Entry.{Entry};
ghost use Rattle.greedy_rules.specs.declared.flows.Item.{Item};
ghost use Rattle.greedy_rules.specs.Batches.{entry_of};
ghost use Rattle.greedy_rules.specs.Demands.{AreBelow, need_with};
ghost use Rattle.endpoint_bitmaps.specs.Slots.{has_slot};
ghost use Rattle.slot_batches.specs.ArrayStands.{HasBeenFed, MayBeFed};
ghost use Rattle.slot_batches.specs.Doubts.{left_of, AreUndoubted};
ghost use Rattle.slot_batches.specs.Marks.{AreMarked};
ghost use Rattle.slot_batches.specs.Parts.{fill_of, with_waiting, FillingHasRoom, IsSameBatch, IsWhole};

use crate::entry_places::EntryPlaces;
use crate::filling::Filling;
use crate::opening::with_near_entry;
use crate::resting::is_doubted;
use greedy_rules::{Batch, Item};

/// The places of the items that something may speak against, where no flow may open any more.
pub(crate) fn doubts(filling: &Filling, marks: &[u64], items: &[Item]) -> u64
    requires few { length items.now ≤ 64 }
    requires whole { IsWhole filling.now marks.now }
    requires below { AreBelow filling.now.maps.endpoints items.now }
    ensures within { (place : ℕ) → has_slot result place ≡ true → place < length items.now }
    ensures others { (entries : List Entry) → AreMarked entries marks.now → AreUndoubted entries filling.now.maps result items.now }
{
    let mut doubted = 0;
    for at in 0..items.len() {
        doubted |= u64::from(is_doubted(filling, marks, &items[at])) << at;
    }
    doubted
}

/// Serves the doubted items of a piece, one after the other, and answers the places of those that took slots. In the other places
/// the items stand then as they wait; these do not wait among the others yet.
pub(crate) fn serve_doubted(
    filling: &mut Filling,
    batch: &Batch,
    marks: &[u64],
    places: &EntryPlaces,
    items: &mut [Item],
    doubted: u64,
) -> u64
    requires few { length items.old ≤ 64 }
    requires room { FillingHasRoom filling.old }
    requires may { (fed : List Item) × HasBeenFed batch.now fed (fill_of filling.old) 0 × MayBeFed batch.now.entries filling.old.endpoints filling.old.first_slot (fed ++ items.old) }
    requires needs { All (λ item. need_with (entry_of batch.now.entries item.flow) item.need < 2 ^ 32) items.old }
    requires marked { AreMarked batch.now.entries marks.now }
    requires within { (place : ℕ) → has_slot doubted place ≡ true → place < length items.old }
    requires others { AreUndoubted batch.now.entries filling.old.maps doubted items.old }
    ensures room { FillingHasRoom filling.new }
    ensures same { IsSameBatch filling.old.maps.limits filling.old.endpoints filling.old.b filling.old.first_slot filling.new }
    ensures waiting { filling.new.waiting ≡ filling.old.waiting }
    ensures count { length items.new ≡ length items.old }
    ensures fed { (fed : List Item) →
        HasBeenFed batch.now fed (fill_of filling.old) 0 →
        MayBeFed batch.now.entries filling.old.endpoints filling.old.first_slot (fed ++ items.old) →
        HasBeenFed batch.now (fed ++ items.old) (with_waiting (filling.old.waiting.items ++ left_of result 0 items.new) (fill_of filling.new)) 0 }
{
    let mut rest = doubted;
    let mut served = 0;
    while rest != 0 {
        let at = rest.trailing_zeros();
        rest &= rest - 1;
        let fed = items[at as usize];
        let item = with_near_entry(fed, batch, marks, places);
        items[at as usize] = item;
        if filling.serve_apart(item) {
            served |= 1 << at;
        }
    }
    served
}

/// Moves the items that are not gone to the front, in order, and answers how many they are. Each is written, whether it goes or
/// stays: so nothing is to be guessed.
pub(crate) fn close_up(items: &mut [Item], gone: u64) -> usize
    requires few { length items.old ≤ 64 }
    ensures within { result ≤ length items.new }
    ensures left { take result items.new ≡ left_of gone 0 items.old }
{
    if gone == 0 {
        return items.len();
    }
    let mut to = 0;
    for at in 0..items.len() {
        items[to] = items[at];
        to += usize::from((gone >> at) % 2 == 0);
    }
    to
}
