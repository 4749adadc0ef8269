ghost use Rattle.std.specs.Prelude.{◌≡◌, ◌<◌, true, false, length, IfOk, All};
ghost use Rattle.greedy_rules.specs.declared.flows.Flow.{Flow};
ghost use Rattle.slot_batches.specs.Marks.{own_place, own_bit, has_own_bit, HaveOwnBits, has_mark};
ghost use Rattle.slot_batches.specs.Woven.{OnlyOpen};

use crate::marks::clear_words;
use greedy_rules::{Batch, Flow};
use no_memory::NoMemory;
use std::alloc::Global;
use std::marker::Model;

/// How many words there are: four for each of 256 sources.
const WORDS: usize = 1024;

/// Marks of the flows that the batches of a window may change. Between 256 endpoints each flow has a bit of its own; past them
/// a flow may be marked without an entry, never the other way round.
#[derive(Debug, Drop)]
pub struct FlowMarks {
    words: Vec<u64>,
    some: bool,
}

impl Model for FlowMarks {
    ghost use Rattle.std.specs.Prelude.{◌≡◌, vec_len};
    ghost use Rattle.slot_batches.specs.Marks.{WindowMarks};

    ghost Value = { WindowMarks };

    ghost view = { λ m. record { words = m.words.items; some = m.some } };

    ghost invariant = { λ m. vec_len m.words ≡ 1024 };
}

/// Where the flow's bit stands.
fn place(flow: Flow) -> usize
    ensures value { result ≡ own_place flow }
    ensures below { result < 1024 }
{
    (flow.src as usize * 4 + flow.dst as usize / 64) % WORDS
}

/// Which bit of that word is the flow's.
fn bit(flow: Flow) -> u32
    ensures value { result ≡ own_bit flow }
    ensures below { result < 64 }
{
    u32::from(flow.dst) % 64
}

/// Marks the flow, beside those that are marked.
fn mark_flow(words: &mut [u64], flow: Flow)
    requires { length words.old ≡ 1024 }
    ensures marked { has_own_bit words.new flow ≡ true }
    ensures others { (other : Flow) → has_own_bit words.old other ≡ true → has_own_bit words.new other ≡ true }
    ensures count { length words.new ≡ length words.old }
{
    words[place(flow)] |= 1 << bit(flow);
}

/// Marks the flows of the batch's entries, beside those that are marked.
fn mark_batch(words: &mut [u64], batch: &Batch)
    requires { length words.old ≡ 1024 }
    ensures marked { HaveOwnBits batch.now.entries words.new }
    ensures others { (other : Flow) → has_own_bit words.old other ≡ true → has_own_bit words.new other ≡ true }
    ensures count { length words.new ≡ length words.old }
{
    for at in 0..batch.len() {
        mark_flow(words, batch.entry(at).flow);
    }
}

/// Marks the flows of all entries of the batches, and no others between 256 endpoints.
fn mark_all(words: &mut [u64], batches: &[Batch])
    requires { length words.old ≡ 1024 }
    ensures { All (λ batch. HaveOwnBits batch.entries words.new) batches.now }
{
    clear_words(words);
    for batch in batches {
        mark_batch(words, batch);
    }
}

impl FlowMarks {
    /// With no flow marked. No later call takes memory.
    pub fn open(alloc: Global) -> Result<FlowMarks, NoMemory>
        ensures { IfOk result (λ marks. (flow : Flow) → has_mark marks flow ≡ false) }
    {
        Ok(FlowMarks {
            words: vec![in alloc; 0; WORDS]?,
            some: false,
        })
    }

    /// Marks the flows of these batches, but for those that the batches only open.
    pub fn mark(&mut self, batches: &[Batch])
        ensures { (flow : Flow) → has_mark self.new flow ≡ false → OnlyOpen batches.now flow }
    {
        let had = self.some;
        self.some = !batches.iter().all(|batch| batch.only_opens());
        if self.some {
            mark_all(&mut self.words, batches);
        } else if had {
            clear_words(&mut self.words);
        }
    }

    /// Whether the flow may have a mark: between 256 endpoints, whether it has one.
    pub fn may_have(&self, flow: Flow) -> bool
        ensures { result ≡ false → has_mark self.now flow ≡ false }
    {
        (self.words[place(flow)] >> bit(flow)) & 1 == 1
    }
}
