ghost use Rattle.std.specs.Prelude.{◌≡◌, ◌<◌, ◌==◌, ◌&&◌, ◌||◌, ℕ, length, replicate, true, false};
ghost use Rattle.greedy_rules.specs.declared.flows.Flow.{Flow};
ghost use Rattle.slot_batches.specs.Marks.{source_place, destination_place, mark_bit, has_bit as has_bit_in, is_flow_marked as is_marked_in, AreMarked};

use greedy_rules::{Batch, Flow};

/// Where the marks of a flow's source stand.
fn source_at(flow: &Flow) -> usize
    ensures { result ≡ source_place flow.now }
{
    flow.src as usize
}

/// Where the marks of a flow's destination stand.
fn destination_at(flow: &Flow) -> usize
    ensures { result ≡ destination_place flow.now }
{
    flow.dst as usize + 256
}

/// Which bit of these is the flow's.
fn bit(flow: Flow) -> u32
    ensures value { result ≡ mark_bit flow }
    ensures below { result < 64 }
{
    (u32::from(flow.src) + u32::from(flow.dst)) % 64
}

/// Whether the word at this place has the bit, or there is no such word.
fn has_bit(words: &[u64], at: usize, bit: u32) -> bool
    requires { bit < 64 }
    ensures { result ≡ has_bit_in words.now at bit }
{
    match words.get(at) {
        Some(word) => (word >> bit) & 1 == 1,
        None => true,
    }
}

/// Whether the flow has a mark, so that the batch may have an entry of it.
pub(crate) fn is_marked(words: &[u64], flow: Flow) -> bool
    ensures { result ≡ is_marked_in words.now flow }
{
    has_bit(words, source_at(&flow), bit(flow)) && has_bit(words, destination_at(&flow), bit(flow))
}

/// The marks that the flow's source and its destination have in common: 0 only where the flow has none.
pub(crate) fn common_marks(words: &[u64], flow: &Flow) -> u64
    requires source { source_place flow.now < length words.now }
    requires destination { destination_place flow.now < length words.now }
    ensures { result ≡ 0 → is_marked_in words.now flow.now ≡ false }
{
    words[source_at(flow)] & words[destination_at(flow)]
}

/// Sets the bit of the word at this place, if there is such a word.
fn set_bit(words: &mut [u64], at: usize, bit: u32)
    requires { bit < 64 }
    ensures set { has_bit_in words.new at bit ≡ true }
    ensures others { (place other : ℕ) → has_bit_in words.old place other ≡ true → has_bit_in words.new place other ≡ true }
    ensures count { length words.new ≡ length words.old }
{
    if at < words.len() {
        words[at] |= 1 << bit;
    }
}

/// Marks the flow; its endpoints may be past the words.
fn mark(words: &mut [u64], flow: Flow)
    ensures marked { is_marked_in words.new flow ≡ true }
    ensures others { (other : Flow) → is_marked_in words.old other ≡ true → is_marked_in words.new other ≡ true }
    ensures count { length words.new ≡ length words.old }
{
    set_bit(words, source_at(&flow), bit(flow));
    set_bit(words, destination_at(&flow), bit(flow));
}

/// Lets each word be 0, part by part: a short part is filled by the machine's wide stores.
pub fn clear_words(words: &mut [u64])
    ensures { words.new ≡ replicate (length words.old) 0 }
{
    let mut from = 0;
    while from < words.len() {
        let few = (words.len() - from).min(256);
        words[from..from + few].fill(0);
        from += few;
    }
}

/// Marks the flows of the batch's entries, and perhaps others.
pub fn mark_entries(words: &mut [u64], batch: &Batch)
    ensures marked { AreMarked batch.now.entries words.new }
    ensures count { length words.new ≡ length words.old }
{
    clear_words(words);
    for at in 0..batch.len() {
        mark(words, batch.entry(at).flow);
    }
}
