//! The rows of a slot table, of which a slot has one once something was written into it.
ghost use Rattle.std.specs.Prelude.{◌≡◌, ◌<◌, ◌≤◌, ◌+◌, ◌-◌, ◌*◌, ◌/◌, ◌%◌, ◌^◌, ◌==◌, ◌&&◌, ℕ, List, [], ◌++◌, length, replicate, Option, Some, None, true, false, IsTrue, IfOk, MatchOption, slice_set, vec_len, if◌then◌else◌};
ghost use Rattle.std.specs.List.{slice_index_or};
ghost use Rattle.std.specs.Int.{bit_at};
ghost use Rattle.list_facts.specs.Bits.{names_place};
ghost use Rattle.greedy_rules.specs.Slot.{slot_with};
ghost use Rattle.greedy_rules.specs.Schedule.{slot_in};
ghost use Rattle.greedy_rules.specs.SlotTable.{destination_of, flows_from, place_at, AreCells, IsTable, slots_of_rows};
ghost use Rattle.greedy_rules.specs.Senders.{AreSendersOf, TellSenders};

use crate::senders::Senders;
use no_memory::NoMemory;
use std::alloc::Global;

/// Up to so many senders a row is written sender by sender; one of more is written whole.
const FEW: u32 = 40;

/// Rows in the order in which their slots were given them; a slot without a row is empty, and in a row without a slot nobody
/// sends.
#[derive(Debug, Drop)]
pub(crate) struct Rows {
    pub(crate) endpoints: u16,
    // By slot: the number of its row, if it has one.
    pub(crate) places: Vec<Option<u16>>,
    // By row: the slot that has it.
    pub(crate) owners: Vec<u16>,
    // Row after row, where each endpoint sends.
    pub(crate) cells: Vec<Option<u16>>,
    // A row in which nobody sends.
    pub(crate) idle: Vec<Option<u16>>,
}

impl Rows {
    /// For so many slots, all empty.
    pub(crate) fn open(alloc: Global, slots: u16, endpoints: u16) -> Result<Rows, NoMemory>
        ensures table { IfOk result IsTable }
        ensures slots { IfOk result (λ rows. slots_of_rows rows ≡ replicate slots []) }
        ensures endpoints { IfOk result (λ rows. rows.endpoints ≡ endpoints) }
    {
        Ok(Rows {
            endpoints,
            places: vec![in alloc; None; slots as usize]?,
            owners: Vec::with_capacity(alloc, slots as usize)?,
            cells: vec![in alloc; None; slots as usize * endpoints as usize]?,
            idle: vec![in alloc; None; endpoints as usize]?,
        })
    }

    /// Empties every slot; so no source is a sender any more.
    pub(crate) fn clear(&mut self, senders: &mut Senders)
        requires table { IsTable self.old }
        requires senders { TellSenders self.old.endpoints (slots_of_rows self.old) senders.old }
        ensures table { IsTable self.new }
        ensures senders { TellSenders self.new.endpoints (slots_of_rows self.new) senders.new }
        ensures slots { slots_of_rows self.new ≡ replicate (vec_len self.old.places) [] }
        ensures count { vec_len self.new.places ≡ vec_len self.old.places }
        ensures endpoints { self.new.endpoints ≡ self.old.endpoints }
    {
        while let Some(slot) = self.last_owner() {
            self.free_row(slot, senders.of(slot));
            senders.clear(slot);
        }
    }

    /// The slot that was given its row last, if any has one.
    fn last_owner(&self) -> Option<u16>
        requires { IsTable self.now }
        ensures { MatchOption result (vec_len self.now.owners ≡ 0) (λ slot. place_at self.now.places.items slot ≡ Some (vec_len self.now.owners - 1)) }
    {
        self.owners.last().copied()
    }

    /// Empties the slot that was given its row last, in which those send whom these words name, and takes the row back.
    fn free_row(&mut self, slot: u16, senders: &[u64])
        requires table { IsTable self.old }
        requires last { place_at self.old.places.items slot ≡ Some (vec_len self.old.owners - 1) }
        requires senders { AreSendersOf (slot_in (slots_of_rows self.old) slot) senders.now }
        ensures table { IsTable self.new }
        ensures slots { slots_of_rows self.new ≡ slice_set (slots_of_rows self.old) slot [] }
        ensures owners { vec_len self.new.owners + 1 ≡ vec_len self.old.owners }
        ensures count { vec_len self.new.places ≡ vec_len self.old.places }
        ensures endpoints { self.new.endpoints ≡ self.old.endpoints }
    {
        let row = self.owners.len() - 1;
        let from = row * self.endpoints as usize;
        empty_row(
            &mut self.cells[from..from + self.endpoints as usize],
            &self.idle,
            senders,
        );
        self.owners.truncate(row);
        self.places[slot as usize] = None;
    }

    /// Whether the slot has a row; without one it is empty.
    pub(crate) fn has_row(&self, slot: u16) -> bool
        requires { slot < vec_len self.now.places }
        ensures slot { result ≡ false → slot_in (slots_of_rows self.now) slot ≡ [] }
        ensures place { result ≡ false → place_at self.now.places.items slot ≡ None }
    {
        self.places[slot as usize].is_some()
    }

    /// Where each source sends in the slot.
    pub(crate) fn row(&self, slot: u16) -> &[Option<u16>]
        requires table { IsTable self.now }
        requires slot { slot < vec_len self.now.places }
        ensures flows { flows_from 0 result.now ≡ slot_in (slots_of_rows self.now) slot }
        ensures count { length result.now ≡ self.now.endpoints }
        ensures cells { AreCells self.now.endpoints result.now }
    {
        match self.places[slot as usize] {
            Some(row) => {
                let from = row as usize * self.endpoints as usize;
                &self.cells[from..from + self.endpoints as usize]
            }
            None => &self.idle,
        }
    }

    /// Where the slot's row begins; it is given one if it has none.
    pub(crate) fn reach(&mut self, slot: u16) -> usize
        requires table { IsTable self.old }
        requires slot { slot < vec_len self.old.places }
        ensures table { IsTable self.new }
        ensures slots { slots_of_rows self.new ≡ slots_of_rows self.old }
        ensures count { vec_len self.new.places ≡ vec_len self.old.places }
        ensures endpoints { self.new.endpoints ≡ self.old.endpoints }
        ensures row { (row : ℕ) × (place_at self.new.places.items slot ≡ Some row) × (result ≡ row * self.new.endpoints) }
    {
        match self.places[slot as usize] {
            Some(row) => row as usize * self.endpoints as usize,
            None => self.add_row(slot),
        }
    }

    /// Gives a slot that has none a row in which nobody sends, and answers where it begins. Most calls of `reach` find a row.
    #[inline(never)]
    fn add_row(&mut self, slot: u16) -> usize
        requires table { IsTable self.old }
        requires slot { slot < vec_len self.old.places }
        requires none { place_at self.old.places.items slot ≡ None }
        ensures table { IsTable self.new }
        ensures slots { slots_of_rows self.new ≡ slots_of_rows self.old }
        ensures count { vec_len self.new.places ≡ vec_len self.old.places }
        ensures endpoints { self.new.endpoints ≡ self.old.endpoints }
        ensures row { (row : ℕ) × (place_at self.new.places.items slot ≡ Some row) × (result ≡ row * self.new.endpoints) }
    {
        let row = self.owners.len();
        self.owners.push_reserved(slot);
        self.places[slot as usize] = Some(row as u16);
        row * self.endpoints as usize
    }

    /// Lets the slot hold what this row holds; who has no place in it sends nothing.
    pub(crate) fn write(&mut self, slot: u16, row: &[Option<u16>])
        requires table { IsTable self.old }
        requires slot { slot < vec_len self.old.places }
        requires whole { length row.now ≤ self.old.endpoints }
        requires cells { AreCells self.old.endpoints row.now }
        ensures table { IsTable self.new }
        ensures slots { slots_of_rows self.new ≡ slice_set (slots_of_rows self.old) slot (flows_from 0 row.now) }
        ensures count { vec_len self.new.places ≡ vec_len self.old.places }
        ensures endpoints { self.new.endpoints ≡ self.old.endpoints }
    {
        let from = self.reach(slot);
        write_row(&mut self.cells[from..from + self.endpoints as usize], row);
    }

    /// The same where these words name who sends in the row.
    pub(crate) fn copy(&mut self, slot: u16, row: &[Option<u16>], senders: &[u64])
        requires table { IsTable self.old }
        requires slot { slot < vec_len self.old.places }
        requires whole { length row.now ≤ self.old.endpoints }
        requires cells { AreCells self.old.endpoints row.now }
        requires senders { AreSendersOf (flows_from 0 row.now) senders.now }
        ensures table { IsTable self.new }
        ensures slots { slots_of_rows self.new ≡ slice_set (slots_of_rows self.old) slot (flows_from 0 row.now) }
        ensures count { vec_len self.new.places ≡ vec_len self.old.places }
        ensures endpoints { self.new.endpoints ≡ self.old.endpoints }
    {
        if !self.has_row(slot) && are_few(senders) {
            self.write_new(slot, row, senders);
        } else {
            self.write(slot, row);
        }
    }

    /// Lets a slot that has no row hold what this one holds, in which those send whom these words name.
    fn write_new(&mut self, slot: u16, row: &[Option<u16>], senders: &[u64])
        requires table { IsTable self.old }
        requires slot { slot < vec_len self.old.places }
        requires none { place_at self.old.places.items slot ≡ None }
        requires whole { length row.now ≤ self.old.endpoints }
        requires cells { AreCells self.old.endpoints row.now }
        requires senders { AreSendersOf (flows_from 0 row.now) senders.now }
        ensures table { IsTable self.new }
        ensures slots { slots_of_rows self.new ≡ slice_set (slots_of_rows self.old) slot (flows_from 0 row.now) }
        ensures count { vec_len self.new.places ≡ vec_len self.old.places }
        ensures endpoints { self.new.endpoints ≡ self.old.endpoints }
    {
        let from = self.add_row(slot);
        write_named(
            &mut self.cells[from..from + self.endpoints as usize],
            row,
            senders,
        );
    }

    /// Lets the source, which sends nothing in the slot, send to this destination.
    pub(crate) fn put(&mut self, slot: u16, src: u16, dst: u16)
        requires table { IsTable self.old }
        requires slot { slot < vec_len self.old.places }
        requires src { src < self.old.endpoints }
        requires dst { dst < self.old.endpoints }
        requires free { destination_of (slot_in (slots_of_rows self.old) slot) src ≡ None }
        ensures table { IsTable self.new }
        ensures slots { slots_of_rows self.new ≡ slice_set (slots_of_rows self.old) slot (slot_with (record { src = src; dst = dst }) (slot_in (slots_of_rows self.old) slot)) }
        ensures count { vec_len self.new.places ≡ vec_len self.old.places }
        ensures endpoints { self.new.endpoints ≡ self.old.endpoints }
    {
        let from = self.reach(slot);
        self.cells[from + src as usize] = Some(dst);
    }
}

/// Writes a row over one that is as long or longer; nobody sends in the places behind it.
fn write_row(into: &mut [Option<u16>], row: &[Option<u16>])
    requires { length row.now ≤ length into.old }
    ensures { into.new ≡ row.now ++ replicate (length into.old - length row.now) None }
{
    let (sends, idle) = into.split_at_mut(row.len());
    sends.copy_from_slice(row);
    idle.fill(None);
}

/// From now on nobody sends in the row, in which those send whom these words name; `idle` is one as long, in which nobody does.
fn empty_row(row: &mut [Option<u16>], idle: &[Option<u16>], senders: &[u64])
    requires few { length row.old < 2 ^ 16 }
    requires idle { idle.now ≡ replicate (length row.old) None }
    requires senders { AreSendersOf (flows_from 0 row.old) senders.now }
    ensures { row.new ≡ replicate (length row.old) None }
{
    if are_few(senders) {
        write_named(row, idle, senders);
    } else {
        row.copy_from_slice(idle);
    }
}

/// Whether these words name few.
fn are_few(named: &[u64]) -> bool {
    let mut count = 0;
    for word in named {
        count += word.count_ones();
        if count > FEW {
            return false;
        }
    }
    true
}

/// Writes what the row holds at the places that these words name; the others keep what they hold.
fn write_named(into: &mut [Option<u16>], row: &[Option<u16>], named: &[u64])
    requires few { length into.old < 2 ^ 16 }
    requires within { (place : ℕ) → names_place named.now place ≡ true → (place < length into.old) × (place < length row.now) }
    ensures { (place : ℕ) → slice_index_or into.new place None ≡ (if names_place named.now place then slice_index_or row.now place None else slice_index_or into.old place None) }
{
    for word in 0..named.len() {
        write_word(into, row, word, named[word]);
    }
}

/// The same for the places of the word of this number, which has a bit for each.
#[inline(always)]
fn write_word(into: &mut [Option<u16>], row: &[Option<u16>], word: usize, named: u64)
    requires few { length into.old < 2 ^ 16 }
    requires within { (bit : ℕ) → (bit_at named bit == 1) ≡ true → (word * 64 + bit < length into.old) × (word * 64 + bit < length row.now) }
    ensures { (place : ℕ) → slice_index_or into.new place None ≡ (if (place / 64 == word) && (bit_at named (place % 64) == 1) then slice_index_or row.now place None else slice_index_or into.old place None) }
{
    let mut rest = named;
    while rest != 0 {
        let place = word * 64 + rest.trailing_zeros() as usize;
        into[place] = row[place];
        rest &= rest - 1;
    }
}
