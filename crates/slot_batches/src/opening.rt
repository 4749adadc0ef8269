ghost use Rattle.std.specs.Prelude.{if◌then◌else◌, ◌≡◌, ◌<◌, ◌≤◌, ◌^◌, List, [], ◌∷◌, ◌++◌, length, take};
ghost use Rattle.greedy_rules.specs.Batches.{entry_of};
ghost use Rattle.greedy_rules.specs.Demands.{need_with, with_batch, opened};
ghost use Rattle.slot_batches.specs.Marks.{AreMarked};
ghost use Rattle.slot_batches.specs.Feeding.{taken_up};
ghost use Rattle.slot_batches.specs.Filled.{HasTakenUp, MayBeTakenUp};
ghost use Rattle.slot_batches.specs.Parts.{fill_of, FillingHasRoom, IsSameBatch};
ghost use Rattle.slot_batches.specs.ArrayStands.{HasBeenFed};

use crate::entry_places::EntryPlaces;
use crate::filling::Filling;
use crate::marks::is_marked;
use batch_lookup::BatchLookup;
use greedy_rules::{Batch, Entry, Item};

/// The item with the batch's entry of its flow applied, if there is one; only a marked flow is looked up.
pub fn with_entry(item: Item, batch: &Batch, marks: &[u64]) -> Item
    requires marks { AreMarked batch.now.entries marks.now }
    requires need { need_with (entry_of batch.now.entries item.flow) item.need < 2 ^ 32 }
    ensures { result ≡ with_batch batch.now.entries item }
{
    if !is_marked(marks, item.flow) {
        return item;
    }
    with_its_entry(item, BatchLookup::find(batch, item.flow))
}

/// As `with_entry`, for a batch whose entries' places were noted.
pub(crate) fn with_near_entry(
    item: Item,
    batch: &Batch,
    marks: &[u64],
    places: &EntryPlaces,
) -> Item
    requires marks { AreMarked batch.now.entries marks.now }
    requires need { need_with (entry_of batch.now.entries item.flow) item.need < 2 ^ 32 }
    ensures { result ≡ with_batch batch.now.entries item }
{
    if !is_marked(marks, item.flow) {
        return item;
    }
    with_its_entry(item, places.find(batch, item.flow))
}

/// The item with this entry of its flow applied, if there is one.
pub(crate) fn with_its_entry(item: Item, entry: Option<Entry>) -> Item
    requires { need_with entry item.need < 2 ^ 32 }
    ensures { result ≡ record item { need = need_with entry item.need } }
{
    match entry {
        Some(entry) => {
            let kept = if entry.clear { 0 } else { item.need };
            Item {
                flow: item.flow,
                need: kept + entry.add,
                last: item.last,
            }
        }
        None => item,
    }
}

/// Takes up the entry's flow, if it opens.
fn open_flow(filling: &mut Filling, entry: Entry)
    requires room { FillingHasRoom filling.old }
    requires may { (taken : List Item) × HasTakenUp taken (fill_of filling.old) × MayBeTakenUp filling.old.endpoints filling.old.first_slot (taken ++ opened (entry ∷ [])) }
    ensures room { FillingHasRoom filling.new }
    ensures same { IsSameBatch filling.old.maps.limits filling.old.endpoints filling.old.b filling.old.first_slot filling.new }
    ensures taken_up { (taken : List Item) →
        HasTakenUp taken (fill_of filling.old) →
        MayBeTakenUp filling.old.endpoints filling.old.first_slot (taken ++ opened (entry ∷ [])) →
        HasTakenUp (taken ++ opened (entry ∷ [])) (fill_of filling.new) }
{
    if entry.opens {
        filling.take_up(Item {
            flow: entry.flow,
            need: entry.add,
            last: 0,
        });
    }
}

/// Takes up the flows that open by the first so many entries of the batch: once in a batch, so it stays out of its callers.
#[inline(never)]
pub(crate) fn open_flows(filling: &mut Filling, batch: &Batch, entries: usize)
    requires entries { entries ≤ length batch.now.entries }
    requires room { FillingHasRoom filling.old }
    requires may { (taken : List Item) × HasTakenUp taken (fill_of filling.old) × MayBeTakenUp filling.old.endpoints filling.old.first_slot (taken ++ opened (take entries batch.now.entries)) }
    ensures room { FillingHasRoom filling.new }
    ensures same { IsSameBatch filling.old.maps.limits filling.old.endpoints filling.old.b filling.old.first_slot filling.new }
    ensures taken_up { (taken : List Item) →
        HasTakenUp taken (fill_of filling.old) →
        MayBeTakenUp filling.old.endpoints filling.old.first_slot (taken ++ opened (take entries batch.now.entries)) →
        HasTakenUp (taken ++ opened (take entries batch.now.entries)) (fill_of filling.new) }
{
    for at in 0..entries {
        open_flow(filling, batch.entry(at));
    }
}

/// Takes up the flows that open, where they are due and were not yet taken up.
pub(crate) fn open_due(filling: &mut Filling, unopened: &mut usize, batch: &Batch, due: bool)
    requires room { FillingHasRoom filling.old }
    requires fed { (fed : List Item) × HasBeenFed batch.now fed (fill_of filling.old) unopened.old }
    ensures room { FillingHasRoom filling.new }
    ensures same { IsSameBatch filling.old.maps.limits filling.old.endpoints filling.old.b filling.old.first_slot filling.new }
    ensures unopened { unopened.new ≡ (if due then 0 else unopened.old) }
    ensures taken_up { (fed : List Item) →
        HasBeenFed batch.now fed (fill_of filling.old) unopened.old →
        HasTakenUp (taken_up batch.now.entries fed due) (fill_of filling.new) }
{
    if due {
        if *unopened > 0 {
            open_flows(filling, batch, *unopened);
            *unopened = 0;
        }
    }
}
