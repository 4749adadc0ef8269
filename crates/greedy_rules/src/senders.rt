//! Which endpoints send in each slot of a table, as bits of words.
ghost use Rattle.std.specs.Prelude.{◌≡◌, ◌<◌, ◌≤◌, ◌+◌, ◌*◌, ◌/◌, ◌%◌, ◌^◌, ◌==◌, ◌&&◌, ◌||◌, ℕ, Option, None, is_some, length, false, IfOk, if◌then◌else◌};
ghost use Rattle.std.specs.List.{slice_index_or};
ghost use Rattle.std.specs.Int.{bit_at};
ghost use Rattle.list_facts.specs.Bits.{names_place};
ghost use Rattle.greedy_rules.specs.Senders.{is_sender, HasSenderWords};

use no_memory::NoMemory;
use std::alloc::Global;

/// A bit for each endpoint in each slot, which is 1 where it sends: slot after slot, so many words each.
#[derive(Debug, Drop)]
pub(crate) struct Senders {
    pub(crate) words: Vec<u64>,
    pub(crate) each: usize,
}

impl Senders {
    /// For so many slots and endpoints: nobody sends.
    pub(crate) fn open(alloc: Global, slots: u16, endpoints: u16) -> Result<Senders, NoMemory>
        ensures words { IfOk result (HasSenderWords slots endpoints) }
        ensures none { IfOk result (λ senders. (slot src : ℕ) → is_sender senders slot src ≡ false) }
    {
        let each = (endpoints as usize).div_ceil(64);
        Ok(Senders {
            words: vec![in alloc; 0; slots as usize * each]?,
            each,
        })
    }

    /// The words of a slot.
    pub(crate) fn of(&self, slot: u16) -> &[u64]
        requires { (slots endpoints : ℕ) × HasSenderWords slots endpoints self.now × (slot < slots) }
        ensures bits { (src : ℕ) → names_place result.now src ≡ is_sender self.now slot src }
        ensures count { length result.now ≡ self.now.each }
    {
        let from = slot as usize * self.each;
        &self.words[from..from + self.each]
    }

    /// From now on the slot's word of this number is this one.
    fn set_word(&mut self, slot: u16, word: usize, bits: u64)
        requires slot { (slots endpoints : ℕ) × HasSenderWords slots endpoints self.old × (slot < slots) }
        requires word { word < self.old.each }
        ensures words { (slots endpoints : ℕ) → HasSenderWords slots endpoints self.old → HasSenderWords slots endpoints self.new }
        ensures set { (at src : ℕ) → is_sender self.new at src ≡ (if (at == slot) && (src / 64 == word) then bit_at bits (src % 64) == 1 else is_sender self.old at src) }
    {
        self.words[slot as usize * self.each + word] = bits;
    }

    /// From now on the source sends in the slot.
    pub(crate) fn set(&mut self, slot: u16, src: u16)
        requires { (slots endpoints : ℕ) × HasSenderWords slots endpoints self.old × (slot < slots) × (src < endpoints) }
        ensures words { (slots endpoints : ℕ) → HasSenderWords slots endpoints self.old → HasSenderWords slots endpoints self.new }
        ensures set { (at other : ℕ) → is_sender self.new at other ≡ (is_sender self.old at other || ((at == slot) && (other == src))) }
    {
        self.words[slot as usize * self.each + src as usize / 64] |= 1 << (src % 64);
    }

    /// From now on those send in the slot that these words name; others are named by none.
    fn set_words(&mut self, slot: u16, words: &[u64])
        requires slot { (slots endpoints : ℕ) × HasSenderWords slots endpoints self.old × (slot < slots) }
        requires fewer { length words.now ≤ self.old.each }
        ensures words { (slots endpoints : ℕ) → HasSenderWords slots endpoints self.old → HasSenderWords slots endpoints self.new }
        ensures set { (at src : ℕ) → is_sender self.new at src ≡ (if at == slot then names_place words.now src else is_sender self.old at src) }
    {
        for word in 0..self.each {
            self.set_word(slot, word, word_at(words, word));
        }
    }

    /// From now on nobody sends in the slot.
    pub(crate) fn clear(&mut self, slot: u16)
        requires { (slots endpoints : ℕ) × HasSenderWords slots endpoints self.old × (slot < slots) }
        ensures words { (slots endpoints : ℕ) → HasSenderWords slots endpoints self.old → HasSenderWords slots endpoints self.new }
        ensures cleared { (at src : ℕ) → is_sender self.new at src ≡ (if at == slot then false else is_sender self.old at src) }
    {
        self.set_words(slot, &[]);
    }

    /// From now on those send in the slot that send in this slot of others, for as many endpoints or fewer.
    pub(crate) fn copy(&mut self, slot: u16, others: &Senders, from: u16)
        requires slot { (slots endpoints : ℕ) × HasSenderWords slots endpoints self.old × (slot < slots) }
        requires others { (slots endpoints : ℕ) × HasSenderWords slots endpoints others.now × (from < slots) }
        requires fewer { others.now.each ≤ self.old.each }
        ensures words { (slots endpoints : ℕ) → HasSenderWords slots endpoints self.old → HasSenderWords slots endpoints self.new }
        ensures copied { (at src : ℕ) → is_sender self.new at src ≡ (if at == slot then is_sender others.now from src else is_sender self.old at src) }
    {
        self.set_words(slot, others.of(from));
    }

    /// From now on those send in the slot that have a destination in this row.
    pub(crate) fn note(&mut self, slot: u16, row: &[Option<u16>])
        requires { (slots endpoints : ℕ) × HasSenderWords slots endpoints self.old × (slot < slots) × (length row.now ≤ endpoints) × (endpoints < 2 ^ 16) }
        ensures words { (slots endpoints : ℕ) → HasSenderWords slots endpoints self.old → HasSenderWords slots endpoints self.new }
        ensures noted { (at src : ℕ) → is_sender self.new at src ≡ (if at == slot then is_some (slice_index_or row.now src None) else is_sender self.old at src) }
    {
        self.set_words(slot, &[]);
        for src in 0..row.len() {
            if row[src].is_some() {
                self.set(slot, src as u16);
            }
        }
    }
}

/// The word of this number, 0 where there is none.
fn word_at(words: &[u64], at: usize) -> u64
    ensures { result ≡ slice_index_or words.now at 0 }
{
    match words.get(at) {
        Some(word) => *word,
        None => 0,
    }
}
