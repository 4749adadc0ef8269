ghost use Rattle.std.specs.Prelude.{◌≡◌, ◌≢◌, ◌<◌, ◌≤◌, ◌↔◌, ℕ, IfOk, IsTrue, min, count_ones, nat_lt, length, vec_len, true, ◌==◌, ◌&&◌, not};
ghost use Rattle.std.specs.List.{slice_index_or};
ghost use Rattle.greedy_rules.specs.Limits.{AreLimits};
ghost use Rattle.endpoint_bitmaps.specs.Slots.{has_slot, count_below, is_among_lowest, NoneFrom};
ghost use Rattle.endpoint_bitmaps.specs.Links.{HasTakenLinks, ShowsLeft, IsUsed};
ghost use Rattle.endpoint_bitmaps.specs.Fit.{AreRacks, naming};
ghost use Rattle.endpoint_bitmaps.specs.FreeSlots.{is_free_to_send, may_receive, IsFreeBelow, HasNoneBetween, needs_links, is_common, NoneMaySend, HasTaken};

use crate::noted_flows::NotedFlows;
use crate::rack_links::RackLinks;
use greedy_rules::{Flow, Limits};
use no_memory::NoMemory;
use std::alloc::Global;
use std::marker::Model;

/// Which endpoints are free in which slots of a batch of at most 64: for each endpoint a map of the slots in which it may
/// still send, and one of those in which it may still receive. Bit i of a map is the batch's slot i, counted from 0. How
/// many endpoints may still send in some slot is counted. The flows that took slots are noted, so that only the
/// maps of their ends are written where few did.
#[derive(Debug, Drop)]
pub struct FreeMaps {
    limits: Limits,
    senders: Vec<u64>,
    receivers: Vec<u64>,
    sending: usize,
    noted: NotedFlows,
    racks: Vec<u16>,
    leaving: RackLinks,
    entering: RackLinks,
}

impl Model for FreeMaps {
    ghost use Rattle.std.specs.Prelude.{◌≡◌, vec_len, vec_capacity};
    ghost use Rattle.endpoint_bitmaps.specs.Fit.{Fit, naming};
    ghost use Rattle.endpoint_bitmaps.specs.Links.{IsUsed};
    ghost use Rattle.endpoint_bitmaps.specs.Noted.{NotesTaken};
    ghost use Rattle.endpoint_bitmaps.specs.FreeSlots.{FreeSlots};

    ghost Value = { FreeSlots };

    ghost view = { λ m. record { endpoints = vec_len m.senders; limits = m.limits; to_send = m.senders.items; to_receive = m.receivers.items; leaving = m.leaving.taken.items; entering = m.entering.taken.items } };

    ghost invariant = { λ m. Fit m.limits m.senders.items m.receivers.items m.racks.items m.leaving.taken.items m.leaving.left.items m.entering.taken.items m.entering.left.items × (m.sending ≡ naming m.senders.items) × IsUsed m.leaving.used m.leaving.taken.items × IsUsed m.entering.used m.entering.taken.items × NotesTaken (vec_capacity m.noted.flows) m.noted.free m.noted.flows.items m.senders.items m.receivers.items };
}

impl FreeMaps {
    /// Maps of so many endpoints, none of which is free in any slot. No later call takes memory.
    pub fn open(alloc: Global, endpoints: u16) -> Result<FreeMaps, NoMemory>
        ensures endpoints { IfOk result (λ maps. maps.endpoints ≡ endpoints) }
        ensures none { IfOk result (IsFreeBelow 0) }
    {
        Ok(FreeMaps {
            limits: Limits {
                hosts: u16::MAX,
                cores: 64,
            },
            senders: vec![in alloc; 0; endpoints as usize]?,
            receivers: vec![in alloc; 0; endpoints as usize]?,
            sending: 0,
            noted: NotedFlows::open(alloc)?,
            racks: vec![in alloc; 0; endpoints as usize]?,
            leaving: RackLinks::open(alloc, endpoints)?,
            entering: RackLinks::open(alloc, endpoints)?,
        })
    }

    /// Makes every endpoint free in the first `b` slots, and in no other, with no flow taken in any of them; `hosts`
    /// endpoints are a rack, and `cores` packets of a slot may go from a rack to others, and as many come to it.
    pub fn reset(&mut self, b: u8, limits: Limits)
        requires b { b ≤ 64 }
        requires limits { AreLimits limits }
        ensures endpoints { self.new.endpoints ≡ self.old.endpoints }
        ensures limits { self.new.limits ≡ limits }
        ensures free { IsFreeBelow b self.new }
        ensures none { HasNoneBetween self.new }
    {
        renumber(&mut self.racks, self.limits.hosts, limits.hosts);
        self.limits = limits;
        self.leaving.clear(limits.cores);
        self.entering.clear(limits.cores);
        let free = first_slots(b);
        self.noted
            .free_all(&mut self.senders, &mut self.receivers, free);
        self.sending = self.senders.len() * usize::from(free != 0);
    }

    /// Whether no endpoint may send in any slot any more.
    pub fn none_may_send(&self) -> bool
        ensures { IsTrue result ↔ NoneMaySend self.now }
    {
        self.sending == 0
    }

    /// The slots in which the source may send and the destination may receive, whatever their racks may: all that they have
    /// in common are among these.
    pub fn may_share(&self, src: u16, dst: u16) -> u64
        requires src_in_range { src < self.now.endpoints }
        requires dst_in_range { dst < self.now.endpoints }
        ensures { (slot : ℕ) → has_slot result slot ≡ (is_free_to_send self.now src slot && may_receive self.now dst slot) }
    {
        self.senders[src as usize] & self.receivers[dst as usize]
    }

    /// Whether a packet takes a link of each of two racks: its endpoints are in different ones, and a rack has fewer links
    /// than endpoints. Where it has as many, a rack with a free endpoint has one left.
    fn needs_links(&self, src: u16, dst: u16) -> bool
        requires src_in_range { src < self.now.endpoints }
        requires dst_in_range { dst < self.now.endpoints }
        ensures { result ≡ needs_links self.now src dst }
    {
        if self.limits.hosts <= self.limits.cores {
            return false;
        }
        self.racks[src as usize] != self.racks[dst as usize]
    }

    /// The slots in which the source may send and the destination may receive; where they are in different racks, only
    /// those in which each of these has a packet left, of the limit that the last reset gave.
    pub fn common(&self, src: u16, dst: u16) -> u64
        requires src_in_range { src < self.now.endpoints }
        requires dst_in_range { dst < self.now.endpoints }
        ensures { (slot : ℕ) → has_slot result slot ≡ is_common self.now src dst slot }
    {
        let free = self.may_share(src, dst);
        if free == 0 {
            return 0;
        }
        if !self.needs_links(src, dst) {
            return free;
        }
        let from = self.racks[src as usize];
        let to = self.racks[dst as usize];
        free & (self.leaving.left[from as usize] & self.entering.left[to as usize])
    }

    /// Takes the lowest `need` slots that the source and the destination have in common, or all where there are fewer, and
    /// answers them.
    pub fn take_lowest(&mut self, src: u16, dst: u16, need: u32) -> u64
        requires src_in_range { src < self.old.endpoints }
        requires dst_in_range { dst < self.old.endpoints }
        ensures lowest { (slot : ℕ) → has_slot result slot ≡ is_among_lowest (is_common self.old src dst) need slot }
        ensures count { (b : ℕ) → NoneFrom b (is_common self.old src dst) → count_ones result ≡ min need (count_below (is_common self.old src dst) b) }
        ensures taken { HasTaken src dst (has_slot result) self.old self.new }
    {
        if need == 0 {
            return 0;
        }
        let common = self.common(src, dst);
        if common == 0 {
            return 0;
        }
        let counted = self.needs_links(src, dst);
        let from = self.racks[src as usize];
        let to = self.racks[dst as usize];
        let taken = take_links(
            &mut self.leaving,
            &mut self.entering,
            counted,
            from,
            to,
            common,
            need,
            self.limits.cores,
        );
        self.noted.note(Flow { src, dst });
        take_slots(&mut self.senders, &mut self.sending, src, taken);
        self.receivers[dst as usize] &= !taken;
        taken
    }
}

/// Takes these slots from the endpoint's word, and counts the endpoint out where it has none left.
fn take_slots(words: &mut [u64], count: &mut usize, endpoint: u16, slots: u64)
    requires endpoint { endpoint < length words.old }
    requires some { slice_index_or words.old endpoint 0 ≢ 0 }
    requires count { count.old ≡ naming words.old }
    ensures length { length words.new ≡ length words.old }
    ensures others { (at : ℕ) → at ≢ endpoint → slice_index_or words.new at 0 ≡ slice_index_or words.old at 0 }
    ensures words { (at slot : ℕ) → has_slot (slice_index_or words.new at 0) slot ≡ (has_slot (slice_index_or words.old at 0) slot && not ((at == endpoint) && has_slot slots slot)) }
    ensures count { count.new ≡ naming words.new }
{
    let word = &mut words[endpoint as usize];
    *word &= !slots;
    *count -= usize::from(*word == 0);
}

/// Takes the lowest `need` of these slots for a flow, or all where there are fewer, and answers them; where its links are
/// counted, it takes one of both racks in each of them.
fn take_links(
    leaving: &mut RackLinks,
    entering: &mut RackLinks,
    counted: bool,
    from: u16,
    to: u16,
    slots: u64,
    need: u32,
    cores: u16,
) -> u64
    requires cores { cores ≤ 64 }
    requires from { from < vec_len leaving.old.left }
    requires to { to < vec_len entering.old.left }
    requires leaving { ShowsLeft cores leaving.old.taken.items leaving.old.left.items }
    requires entering { ShowsLeft cores entering.old.taken.items entering.old.left.items }
    requires leaving_left { counted ≡ true → (slot : ℕ) → has_slot slots slot ≡ true → has_slot (slice_index_or leaving.old.left.items from 0) slot ≡ true }
    requires entering_left { counted ≡ true → (slot : ℕ) → has_slot slots slot ≡ true → has_slot (slice_index_or entering.old.left.items to 0) slot ≡ true }
    requires leaving_used { IsUsed leaving.old.used leaving.old.taken.items }
    requires entering_used { IsUsed entering.old.used entering.old.taken.items }
    ensures lowest { (slot : ℕ) → has_slot result slot ≡ is_among_lowest (has_slot slots) need slot }
    ensures leaving_used { IsUsed leaving.new.used leaving.new.taken.items }
    ensures entering_used { IsUsed entering.new.used entering.new.taken.items }
    ensures leaving_racks { vec_len leaving.new.left ≡ vec_len leaving.old.left }
    ensures entering_racks { vec_len entering.new.left ≡ vec_len entering.old.left }
    ensures leaving_shown { ShowsLeft cores leaving.new.taken.items leaving.new.left.items }
    ensures entering_shown { ShowsLeft cores entering.new.taken.items entering.new.left.items }
    ensures leaving { HasTakenLinks from (λ slot. counted && has_slot result slot) leaving.old.taken.items leaving.new.taken.items }
    ensures entering { HasTakenLinks to (λ slot. counted && has_slot result slot) entering.old.taken.items entering.new.taken.items }
{
    if counted {
        take_between(leaving, entering, from, to, slots, need, cores)
    } else {
        lowest(slots, need)
    }
}

/// Takes the lowest `need` of these slots, or all where there are fewer, and in each a link of both racks, and answers them.
fn take_between(
    leaving: &mut RackLinks,
    entering: &mut RackLinks,
    from: u16,
    to: u16,
    slots: u64,
    need: u32,
    cores: u16,
) -> u64
    requires cores { cores ≤ 64 }
    requires from { from < vec_len leaving.old.left }
    requires to { to < vec_len entering.old.left }
    requires leaving { ShowsLeft cores leaving.old.taken.items leaving.old.left.items }
    requires entering { ShowsLeft cores entering.old.taken.items entering.old.left.items }
    requires leaving_left { (slot : ℕ) → has_slot slots slot ≡ true → has_slot (slice_index_or leaving.old.left.items from 0) slot ≡ true }
    requires entering_left { (slot : ℕ) → has_slot slots slot ≡ true → has_slot (slice_index_or entering.old.left.items to 0) slot ≡ true }
    requires leaving_used { IsUsed leaving.old.used leaving.old.taken.items }
    requires entering_used { IsUsed entering.old.used entering.old.taken.items }
    ensures lowest { (slot : ℕ) → has_slot result slot ≡ is_among_lowest (has_slot slots) need slot }
    ensures leaving_used { IsUsed leaving.new.used leaving.new.taken.items }
    ensures entering_used { IsUsed entering.new.used entering.new.taken.items }
    ensures leaving_racks { vec_len leaving.new.left ≡ vec_len leaving.old.left }
    ensures entering_racks { vec_len entering.new.left ≡ vec_len entering.old.left }
    ensures leaving_shown { ShowsLeft cores leaving.new.taken.items leaving.new.left.items }
    ensures entering_shown { ShowsLeft cores entering.new.taken.items entering.new.left.items }
    ensures leaving { HasTakenLinks from (has_slot result) leaving.old.taken.items leaving.new.taken.items }
    ensures entering { HasTakenLinks to (has_slot result) entering.old.taken.items entering.new.taken.items }
{
    leaving.use_rack(from);
    entering.use_rack(to);
    let mut free = slots;
    for _ in 0..need {
        if free == 0 {
            break;
        }
        let slot = free.trailing_zeros();
        leaving.take_one(from, slot, cores);
        entering.take_one(to, slot, cores);
        free &= free - 1;
    }
    slots & !free
}

/// Numbers the racks of so many endpoints each, where there were `before` a rack.
fn renumber(racks: &mut [u16], before: u16, hosts: u16)
    requires some { 1 ≤ hosts }
    requires few { length racks.old < 65536 }
    requires before { AreRacks before racks.old }
    ensures racks { AreRacks hosts racks.new }
    ensures count { length racks.new ≡ length racks.old }
{
    if hosts != before {
        number_racks(racks, hosts);
    }
}

fn number_racks(racks: &mut [u16], hosts: u16)
    requires some { 1 ≤ hosts }
    requires few { length racks.old < 65536 }
    ensures racks { AreRacks hosts racks.new }
    ensures count { length racks.new ≡ length racks.old }
{
    for (endpoint, rack) in racks.iter_mut().enumerate() {
        *rack = (endpoint / hosts as usize) as u16;
    }
}

/// The first `count` slots.
fn first_slots(count: u8) -> u64
    requires { count ≤ 64 }
    ensures { (slot : ℕ) → has_slot result slot ≡ nat_lt slot count }
{
    if count == 64 {
        u64::MAX
    } else {
        (1 << count) - 1
    }
}

/// The lowest `need` of these slots, or all of them where there are fewer.
fn lowest(slots: u64, need: u32) -> u64
    ensures { (slot : ℕ) → has_slot result slot ≡ is_among_lowest (has_slot slots) need slot }
{
    if slots.count_ones() <= need {
        return slots;
    }
    let mut rest = slots;
    for _ in 0..need {
        rest &= rest - 1;
    }
    slots & !rest
}
