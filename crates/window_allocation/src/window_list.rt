//! The demand that is left, window after window: in a list, or in logs while windows pick little of it.
ghost use Rattle.std.specs.Prelude.{◌≡◌, ◌≤◌, ◌+◌, ◌*◌, [], length, true, false, IfOk};
ghost use Rattle.greedy_rules.specs.declared.flows.Item.{Item};
ghost use Rattle.slot_batches.specs.Feeding.{IsInOrder};
ghost use Rattle.slot_batches.specs.Woven.{picked as picked_of, woven, NeedNothing};
ghost use Rattle.window_allocation.specs.Logged.{is_left, MayBeLogged};
ghost use Rattle.window_allocation.specs.Reach.{OpenNew};
ghost use Rattle.window_allocation.specs.WindowLists.{demands_of, IsWindowList};

use crate::demand_log::DemandLog;
use greedy_rules::{Batch, DemandList, Item};
use no_memory::NoMemory;
use std::alloc::Global;

/// How many windows pass before something is tried again that did not pay.
pub(crate) const PAUSE: u8 = 15;

/// Whether a list of so many items has more than twice as many as a batch has places for sources.
pub(crate) fn is_long(len: usize, endpoints: u16, b: u8) -> bool {
    len / 2 > endpoints as usize * b as usize
}

/// How many items are picked at most of a list of so many: half of them, but an eighth where a guess may pick still fewer.
pub(crate) fn most_picked(len: usize, endpoints: u16, b: u8) -> usize
    ensures { result ≤ len }
{
    if is_long(len, endpoints, b) {
        len / 8
    } else {
        len / 2
    }
}

/// How many of the items need a slot.
fn count_needs(items: &[Item]) -> u32 {
    let mut count: u32 = 0;
    for item in items {
        count = count.wrapping_add(item.need.min(1));
    }
    count
}

/// The demand that is left, in a list or in logs, in which a window costs what it picks.
#[derive(Drop)]
pub(crate) struct WindowList {
    // Empty while the items stand in the logs.
    pub(crate) list: DemandList,
    log: DemandLog,
    logged: bool,
    // So many windows pass before it is tried again to pick little.
    pause: u8,
}

impl WindowList {
    /// Empty, with room for an item of each pair of endpoints.
    pub(crate) fn open(alloc: Global, endpoints: u16) -> Result<WindowList, NoMemory>
        requires { endpoints ≤ 256 }
        ensures is { IfOk result (IsWindowList endpoints) }
        ensures empty { IfOk result (λ list. (demands_of list).items ≡ []) }
        ensures spare { IfOk result (λ list. endpoints * endpoints ≤ (demands_of list).spare) }
    {
        let pairs = endpoints as usize * endpoints as usize;
        Ok(WindowList {
            list: DemandList::open(alloc, pairs)?,
            log: DemandLog::open(alloc, endpoints)?,
            logged: false,
            pause: 0,
        })
    }

    /// How many items are left.
    pub(crate) fn len(&self) -> usize
        ensures { result ≡ length (demands_of self.now).items }
    {
        if self.logged {
            return self.log.len();
        }
        self.list.len()
    }

    /// Whether the items stand in the logs, into which they are taken where at most so many need a slot; else some windows pass
    /// before these are counted again.
    fn enter(&mut self, most: usize) -> bool
        requires is { IsWindowList self.old.log.endpoints self.old }
        requires may { MayBeLogged self.old.log.endpoints (demands_of self.old).items }
        ensures is { IsWindowList self.old.log.endpoints self.new }
        ensures same { demands_of self.new ≡ demands_of self.old }
        ensures logged { self.new.logged ≡ result }
    {
        if self.logged {
            return true;
        }
        if self.pause > 0 {
            self.pause -= 1;
            return false;
        }
        if count_needs(self.list.items()) as usize > most {
            self.pause = PAUSE;
            return false;
        }
        self.log.fill(self.list.items());
        self.list.clear();
        self.logged = true;
        true
    }

    /// Takes the items out of the logs again, if they stand there.
    pub(crate) fn leave(&mut self)
        requires is { IsWindowList self.old.log.endpoints self.old }
        ensures is { IsWindowList self.old.log.endpoints self.new }
        ensures same { demands_of self.new ≡ demands_of self.old }
        ensures whole { self.new.logged ≡ false }
    {
        if !self.logged {
            return;
        }
        self.log.append_to(&mut self.list);
        self.logged = false;
    }

    /// Picks the items that need a slot or have an entry in one of the batches, where they stand in the logs and are no more than
    /// `most`; else they all stand in the list.
    pub(crate) fn pick(&mut self, batches: &[Batch], most: usize, found: &mut DemandList) -> bool
        requires is { IsWindowList self.old.log.endpoints self.old }
        requires may { MayBeLogged self.old.log.endpoints (demands_of self.old).items }
        requires room { most ≤ length found.old.items + found.old.spare }
        requires new { OpenNew (demands_of self.old).items batches.now }
        ensures is { IsWindowList self.old.log.endpoints self.new }
        ensures same { demands_of self.new ≡ demands_of self.old }
        ensures logged { self.new.logged ≡ result }
        ensures found { result ≡ true → found.new.items ≡ self.new.log.picked }
        ensures picked { result ≡ true → self.new.log.picked ≡ picked_of (is_left self.new.log.picked) (demands_of self.new).items }
        ensures nothing { result ≡ true → NeedNothing (is_left self.new.log.picked) batches.now (demands_of self.new).items }
        ensures room { length found.new.items + found.new.spare ≡ length found.old.items + found.old.spare }
    {
        if !self.enter(most) {
            return false;
        }
        if self.log.pick(batches, most, found) {
            return true;
        }
        self.leave();
        self.pause = PAUSE;
        false
    }

    /// Puts in place of the items picked last what the batches left of these, and of the flows that they opened.
    pub(crate) fn weave(&mut self, rest: &[Item])
        requires is { IsWindowList self.old.log.endpoints self.old }
        requires logged { self.old.logged ≡ true }
        requires picked { self.old.log.picked ≡ picked_of (is_left self.old.log.picked) (demands_of self.old).items }
        requires order { IsInOrder rest.now }
        requires may { MayBeLogged self.old.log.endpoints (woven (is_left self.old.log.picked) (demands_of self.old).items rest.now) }
        ensures is { IsWindowList self.old.log.endpoints self.new }
        ensures items { (demands_of self.new).items ≡ woven (is_left self.old.log.picked) (demands_of self.old).items rest.now }
        ensures room { length (demands_of self.new).items + (demands_of self.new).spare ≡ length (demands_of self.old).items + (demands_of self.old).spare }
    {
        self.log.weave(rest);
    }
}
