//! Where to look first for an entry of a batch.
ghost use Rattle.std.specs.Prelude.{◌≡◌, Some, IfSome};
ghost use Rattle.greedy_rules.specs.Batches.{entry_of};

use batch_lookup::BatchLookup;
use greedy_rules::{Batch, Entry, Flow};
use no_memory::NoMemory;
use std::alloc::Global;

/// For each source below 256 a place in a batch, where its last entry stands once they were noted. Nothing rests on that but speed:
/// a batch has few entries of one source, which stand together, so the one that is sought mostly stands there or shortly before.
#[derive(Debug, Drop)]
pub(crate) struct EntryPlaces {
    places: Vec<usize>,
}

/// The entry at this place, if one of the flow stands there.
fn entry_at(batch: &Batch, place: usize, flow: Flow) -> Option<Entry>
    ensures { IfSome result (λ entry. entry_of batch.now.entries flow ≡ Some entry) }
{
    if place >= batch.len() {
        return None;
    }
    let entry = batch.entry(place);
    if entry.flow != flow {
        return None;
    }
    Some(entry)
}

/// The entry of the flow, if it stands at this place or among the seven before it.
fn entry_up_to(batch: &Batch, place: usize, flow: Flow) -> Option<Entry>
    ensures { IfSome result (λ entry. entry_of batch.now.entries flow ≡ Some entry) }
{
    let mut at = place;
    for _ in 0..8 {
        let found = entry_at(batch, at, flow);
        if found.is_some() || at == 0 {
            return found;
        }
        at -= 1;
    }
    None
}

impl EntryPlaces {
    /// With no place noted. No later call takes memory.
    pub(crate) fn open(alloc: Global) -> Result<EntryPlaces, NoMemory> {
        Ok(EntryPlaces {
            places: vec![in alloc; 0; 256]?,
        })
    }

    fn of(&self, source: u16) -> usize {
        match self.places.get(source as usize) {
            Some(place) => *place,
            None => 0,
        }
    }

    fn set(&mut self, source: u16, place: usize) {
        if (source as usize) < self.places.len() {
            self.places[source as usize] = place;
        }
    }

    /// Notes where the batch's entries stand.
    pub(crate) fn note(&mut self, batch: &Batch) {
        for at in 0..batch.len() {
            self.set(batch.entry(at).flow.src, at);
        }
    }

    /// The batch's entry of the flow; None where the batch has none. Most items have none: it stays out of their loop.
    #[inline(never)]
    pub(crate) fn find(&self, batch: &Batch, flow: Flow) -> Option<Entry>
        ensures { result ≡ entry_of batch.now.entries flow }
    {
        let found = entry_up_to(batch, self.of(flow.src), flow);
        if found.is_some() {
            return found;
        }
        BatchLookup::find(batch, flow)
    }
}
