ghost use Rattle.std.specs.Prelude.{◌≡◌, ◌<◌, ◌≤◌, ◌+◌, ◌-◌, ◌^◌, List, [], ◌++◌, length, take, true, IfOk, All};
ghost use Rattle.greedy_rules.specs.Demands.{AreBelow};
ghost use Rattle.greedy_rules.specs.Limits.{AreLimits};
ghost use Rattle.slot_batches.specs.Filled.{HasTakenUp, MayBeTakenUp};
ghost use Rattle.slot_batches.specs.Parts.{fill_of, FillingHasRoom, IsSameBatch};
ghost use Rattle.slot_batches.specs.Rests.{TakesNone};

use crate::filling::Filling;
use crate::resting::wanted;
use greedy_rules::{Item, Limits, SlotTable};
use no_memory::NoMemory;
use std::alloc::Global;
use std::marker::Model;

/// The slots of a batch as the items of a list take them, one item after the other, whatever the order of the list.
#[derive(Debug, Drop)]
pub struct Turns {
    filling: Filling,
}

impl Model for Turns {
    ghost use Rattle.slot_batches.specs.Filled.{Fill};
    ghost use Rattle.slot_batches.specs.Parts.{fill_of, FillingHasRoom};

    ghost Value = { Fill };

    ghost view = { λ t. fill_of t.filling };

    ghost invariant = { λ t. FillingHasRoom t.filling };
}

impl Turns {
    /// For batches of `b` slots between so many endpoints. No later call takes memory.
    pub fn open(alloc: Global, endpoints: u16, b: u8) -> Result<Turns, NoMemory>
        requires endpoints { endpoints ≤ 256 }
        requires b { b ≤ 64 }
        ensures endpoints { IfOk result (λ turns. turns.endpoints ≡ endpoints) }
        ensures b { IfOk result (λ turns. turns.b ≡ b) }
    {
        Ok(Turns {
            filling: Filling::open(alloc, endpoints, b)?,
        })
    }

    /// Begins a batch with this first slot, and lets these items take their slots.
    pub fn fill(&mut self, items: &[Item], first_slot: u32, limits: Limits)
        requires limits { AreLimits limits }
        requires numbers { first_slot + self.old.b ≤ 2 ^ 32 }
        requires may { MayBeTakenUp self.old.endpoints first_slot items.now }
        ensures endpoints { self.new.endpoints ≡ self.old.endpoints }
        ensures b { self.new.b ≡ self.old.b }
        ensures first { self.new.first_slot ≡ first_slot }
        ensures limits { self.new.maps.limits ≡ limits }
        ensures taken_up { HasTakenUp items.now self.new }
    {
        self.filling.begin(first_slot, limits);
        take_all(&mut self.filling, items);
    }

    /// The items that got no slot, as they were, in the order of the list.
    pub fn waiting(&self) -> &[Item]
        ensures { result.now ≡ self.now.waiting }
    {
        &self.filling.waiting
    }

    /// The items that got slots, as they are then, in the order of the list.
    pub fn served(&self) -> &[Item]
        ensures { result.now ≡ self.now.served }
    {
        &self.filling.served
    }

    /// The slots of the batch, counted from 0.
    pub fn slots(&self) -> &SlotTable
        ensures slots { result.now.slots ≡ self.now.slots }
        ensures endpoints { result.now.endpoints ≡ self.now.endpoints }
        ensures count { length result.now.slots ≡ self.now.b }
    {
        &self.filling.slots
    }
}

/// Whether no item takes a slot, whichever it be.
fn none_takes(filling: &Filling) -> bool
    ensures { result ≡ true → (item : Item) → TakesNone filling.now.maps item }
{
    filling.maps.none_may_send()
}

/// Whether none of four items takes a slot, as far as this is seen at once; what they need is looked at first.
fn four_take_none(filling: &Filling, four: &[Item]) -> bool
    requires below { AreBelow filling.now.maps.endpoints four.now }
    requires four { length four.now ≡ 4 }
    ensures { result ≡ true → All (TakesNone filling.now.maps) four.now }
{
    if four[0].need | four[1].need | four[2].need | four[3].need == 0 {
        return true;
    }
    let first = wanted(filling, &four[0]);
    let second = wanted(filling, &four[1]);
    let third = wanted(filling, &four[2]);
    let fourth = wanted(filling, &four[3]);
    first | second | third | fourth == 0
}

/// How many items at the front take no slot, at least: all where none can, else going on by fours.
fn idle_front(filling: &Filling, items: &[Item]) -> usize
    requires { AreBelow filling.now.maps.endpoints items.now }
    ensures within { result ≤ length items.now }
    ensures none { All (TakesNone filling.now.maps) (take result items.now) }
{
    if none_takes(filling) {
        return items.len();
    }
    let mut at = 0;
    while items.len() - at >= 4 && four_take_none(filling, &items[at..at + 4]) {
        at += 4;
    }
    at
}

/// Lets the items take their slots, one after the other.
fn take_all(filling: &mut Filling, items: &[Item])
    requires room { FillingHasRoom filling.old }
    requires begun { HasTakenUp [] (fill_of filling.old) }
    requires may { MayBeTakenUp filling.old.endpoints filling.old.first_slot items.now }
    ensures room { FillingHasRoom filling.new }
    ensures same { IsSameBatch filling.old.maps.limits filling.old.endpoints filling.old.b filling.old.first_slot filling.new }
    ensures taken_up { HasTakenUp items.now (fill_of filling.new) }
{
    let mut from = 0;
    while from < items.len() {
        let idle = idle_front(filling, &items[from..]);
        filling.keep(&items[from..from + idle]);
        from += idle;
        if from < items.len() {
            filling.take_up(items[from]);
            from += 1;
        }
    }
}
