ghost use Rattle.std.specs.Prelude.{◌≡◌, ◌<◌, ◌≤◌, ℕ, List, length, take, true, false, None, All};
ghost use Rattle.greedy_rules.specs.declared.flows.Entry.{Entry};
ghost use Rattle.greedy_rules.specs.Batches.{entry_of};
ghost use Rattle.greedy_rules.specs.Demands.{AreBelow};
ghost use Rattle.slot_batches.specs.Marks.{AreMarked};
ghost use Rattle.slot_batches.specs.Parts.{IsWhole};
ghost use Rattle.slot_batches.specs.Rests.{opens_before, ItemRests, TakesNone, WantsNone, IsUndoubted};

use crate::filling::Filling;
use crate::marks::common_marks;
use greedy_rules::{Batch, Item};

/// How many slots the item takes at most: 0 only where it wants none.
pub(crate) fn wanted(filling: &Filling, item: &Item) -> u64
    requires src { item.now.flow.src < filling.now.maps.endpoints }
    requires dst { item.now.flow.dst < filling.now.maps.endpoints }
    ensures { result ≡ 0 → WantsNone filling.now.maps item.now }
{
    let slots = filling.maps.may_share(item.flow.src, item.flow.dst);
    slots.min(u64::from(item.need))
}

/// Whether something may speak against the item waiting as it is where no flow opens before it, whatever its racks may: false only
/// where nothing does, nor will as the batch goes on. All is looked at, and nothing guessed.
pub(crate) fn is_doubted(filling: &Filling, marks: &[u64], item: &Item) -> bool
    requires whole { IsWhole filling.now marks.now }
    requires src { item.now.flow.src < filling.now.maps.endpoints }
    requires dst { item.now.flow.dst < filling.now.maps.endpoints }
    ensures { (entries : List Entry) → AreMarked entries marks.now → result ≡ false → IsUndoubted entries filling.now.maps item.now }
{
    let slots = filling.maps.may_share(item.flow.src, item.flow.dst);
    let common = common_marks(marks, &item.flow);
    ((item.need != 0) & (slots != 0)) | (common != 0)
}

/// How many items at the front wait as they are, at least, where no flow may open any more.
fn undoubted(filling: &Filling, marks: &[u64], items: &[Item]) -> usize
    requires whole { IsWhole filling.now marks.now }
    requires below { AreBelow filling.now.maps.endpoints items.now }
    ensures within { result ≤ length items.now }
    ensures rest { (entries : List Entry) → AreMarked entries marks.now → All (ItemRests entries 0 filling.now.maps) (take result items.now) }
{
    let mut at = 0;
    while at < items.len() && !is_doubted(filling, marks, &items[at]) {
        at += 1;
    }
    at
}

/// Whether the item waits as it is: no flow opens before it, it takes no slot, and its ends have no mark in common.
fn rests(filling: &Filling, marks: &[u64], unopened: usize, item: &Item) -> bool
    requires whole { IsWhole filling.now marks.now }
    requires src { item.now.flow.src < filling.now.maps.endpoints }
    requires dst { item.now.flow.dst < filling.now.maps.endpoints }
    ensures { (entries : List Entry) → AreMarked entries marks.now → result ≡ true → ItemRests entries unopened filling.now.maps item.now }
{
    if unopened > 0 && item.last > 0 {
        return false;
    }
    if !filling.must_wait(item) {
        return false;
    }
    common_marks(marks, &item.flow) == 0
}

/// How many items at the front wait as they are, also where flows may still open or racks limit them.
fn resting_each(filling: &Filling, marks: &[u64], unopened: usize, items: &[Item]) -> usize
    requires whole { IsWhole filling.now marks.now }
    requires below { AreBelow filling.now.maps.endpoints items.now }
    ensures within { result ≤ length items.now }
    ensures rest { (entries : List Entry) → AreMarked entries marks.now → All (ItemRests entries unopened filling.now.maps) (take result items.now) }
{
    let mut at = 0;
    while at < items.len() && rests(filling, marks, unopened, &items[at]) {
        at += 1;
    }
    at
}

/// Whether every item waits as it is, whichever it be: no endpoint may send any more, and the batch has no entry.
pub(crate) fn all_rest(filling: &Filling, unopened: usize, batch: &Batch) -> bool
    ensures { result ≡ true → (item : Item) → ItemRests batch.now.entries unopened filling.now.maps item }
{
    unopened == 0 && batch.is_empty() && filling.maps.none_may_send()
}

/// Whether what is doubted tells all: no flow may open any more, and racks limit nothing.
pub(crate) fn doubts_suffice(unopened: usize, batch: &Batch) -> bool
    ensures { result ≡ true → unopened ≡ 0 }
{
    let limits = batch.limits();
    unopened == 0 && limits.hosts <= limits.cores
}

/// How many items at the front wait as they are.
pub(crate) fn resting(
    filling: &Filling,
    marks: &[u64],
    unopened: usize,
    batch: &Batch,
    items: &[Item],
) -> usize
    requires whole { IsWhole filling.now marks.now }
    requires below { AreBelow filling.now.maps.endpoints items.now }
    ensures within { result ≤ length items.now }
    ensures rest { AreMarked batch.now.entries marks.now → All (ItemRests batch.now.entries unopened filling.now.maps) (take result items.now) }
{
    if all_rest(filling, unopened, batch) {
        return items.len();
    }
    if doubts_suffice(unopened, batch) {
        return undoubted(filling, marks, items);
    }
    resting_each(filling, marks, unopened, items)
}
