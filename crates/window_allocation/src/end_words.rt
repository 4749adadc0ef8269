//! The slots of a window in which each endpoint is served, as words.
ghost use Rattle.std.specs.Prelude.{◌≡◌, ◌<◌, ◌≤◌, ◌*◌, ◌||◌, ◌&&◌, ◌⊎◌, ℕ, List, Bool, true, false, nat_lt, length, vec_len, IfOk};
ghost use Rattle.std.specs.List.{slice_index_or};
ghost use Rattle.greedy_rules.specs.declared.flows.Flow.{Flow};
ghost use Rattle.endpoint_bitmaps.specs.Slots.{has_slot};

use greedy_rules::Flow;
use no_memory::NoMemory;
use std::alloc::Global;

/// For each of so many endpoints a word of a window's slots as a source, and one as a destination.
#[derive(Drop)]
pub(crate) struct EndWords {
    endpoints: u16,
    sources: Vec<u64>,
    destinations: Vec<u64>,
    ghost whole_sources: { vec_len sources ≡ endpoints },
    ghost whole_destinations: { vec_len destinations ≡ endpoints },
}

/// Lets the word of this endpoint, if there is one, name these slots too.
fn add_slots(words: &mut Vec<u64>, endpoint: u16, slots: u64)
    ensures named { (other at : ℕ) → has_slot (slice_index_or words.new.items other 0) at ≡ true → (has_slot (slice_index_or words.old.items other 0) at ≡ true) ⊎ ((other ≡ endpoint) × (has_slot slots at ≡ true)) }
    ensures count { vec_len words.new ≡ vec_len words.old }
{
    if (endpoint as usize) < words.len() {
        words[endpoint as usize] |= slots;
    }
}

impl EndWords {
    // Not at the top of the file: the struct imports what stands there, and these words speak of the struct.
    ghost use Rattle.window_allocation.specs.Reach.{IsEarliest, HasWords, names_source, names_destination, AreAhead};

    /// For so many endpoints. No later call takes memory.
    pub(crate) fn open(alloc: Global, endpoints: u16) -> Result<EndWords, NoMemory>
        ensures { IfOk result (λ words. words.endpoints ≡ endpoints) }
    {
        Ok(EndWords {
            endpoints,
            sources: vec![in alloc; 0; endpoints as usize]?,
            destinations: vec![in alloc; 0; endpoints as usize]?,
        })
    }

    /// Lets no word name a slot.
    pub(crate) fn clear(&mut self)
        ensures none { (b : ℕ) (slots : List (List Flow)) (ahead : Flow → Bool) → AreAhead b slots ahead self.new }
        ensures endpoints { self.new.endpoints ≡ self.old.endpoints }
    {
        self.sources.fill(0);
        self.destinations.fill(0);
    }

    /// Whether there are words for both ends of the flow.
    pub(crate) fn has_words(&self, flow: Flow) -> bool
        ensures { result ≡ true → HasWords self.now flow }
    {
        flow.src < self.endpoints && flow.dst < self.endpoints
    }

    /// The slots that are named at the flow's source or its destination.
    pub(crate) fn either(&self, flow: Flow) -> u64
        requires { HasWords self.now flow }
        ensures { (at : ℕ) → has_slot result at ≡ (names_source self.now flow.src at || names_destination self.now flow.dst at) }
    {
        self.sources[flow.src as usize] | self.destinations[flow.dst as usize]
    }

    /// Lets the words of the flow's ends name these slots too.
    pub(crate) fn add(&mut self, flow: Flow, slots: u64)
        ensures ahead { (b : ℕ) (all : List (List Flow)) (ahead : Flow → Bool) → AreAhead b all ahead self.old → ahead flow ≡ true → ((at : ℕ) → has_slot slots at ≡ true → IsEarliest b all at flow) → AreAhead b all ahead self.new }
        ensures endpoints { self.new.endpoints ≡ self.old.endpoints }
    {
        add_slots(&mut self.sources, flow.src, slots);
        add_slots(&mut self.destinations, flow.dst, slots);
    }
}
