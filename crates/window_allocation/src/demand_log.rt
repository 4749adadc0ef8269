//! The demand list in two logs, so that a window costs what it picks: the items that were never served, and those that were.
ghost use Rattle.std.specs.Prelude.{◌≡◌, ◌≤◌, ◌+◌, [], ◌++◌, length, true, IfOk};
ghost use Rattle.greedy_rules.specs.declared.flows.Item.{Item};
ghost use Rattle.slot_batches.specs.Feeding.{IsInOrder};
ghost use Rattle.slot_batches.specs.Woven.{picked as picked_of, woven, NeedNothing};
ghost use Rattle.window_allocation.specs.Logged.{is_left, MayBeLogged};
ghost use Rattle.window_allocation.specs.Reach.{OpenNew};

use crate::item_log::ItemLog;
use crate::weave::first_served;
use greedy_rules::{Batch, DemandList, Item};
use no_memory::NoMemory;
use std::alloc::Global;
use std::marker::Model;

/// A demand list, from which a few items are picked for a window and put back behind it.
#[derive(Drop)]
pub(crate) struct DemandLog {
    never: ItemLog,
    served: ItemLog,
}

impl Model for DemandLog {
    ghost use Rattle.std.specs.Prelude.{◌++◌};
    ghost use Rattle.window_allocation.specs.Logged.{Logged, AreParts};

    ghost Value = { Logged };

    ghost view = { λ l. record { endpoints = l.never.endpoints; items = l.never.items ++ l.served.items; picked = l.never.picked ++ l.served.picked } };

    ghost invariant = { λ l. AreParts l.never l.served };
}

impl DemandLog {
    /// Empty, with room for an item of each pair of endpoints. No later call takes memory.
    pub(crate) fn open(alloc: Global, endpoints: u16) -> Result<DemandLog, NoMemory>
        requires { endpoints ≤ 256 }
        ensures { IfOk result (λ log. log ≡ record { endpoints = endpoints; items = []; picked = [] }) }
    {
        Ok(DemandLog {
            never: ItemLog::open(alloc, endpoints)?,
            served: ItemLog::open(alloc, endpoints)?,
        })
    }

    /// How many items there are.
    pub(crate) fn len(&self) -> usize
        ensures { result ≡ length self.now.items }
    {
        self.never.len() + self.served.len()
    }

    /// Takes these items over in place of its own.
    pub(crate) fn fill(&mut self, list: &[Item])
        requires { MayBeLogged self.old.endpoints list.now }
        ensures { self.new ≡ record self.old { items = list.now; picked = [] } }
    {
        let served = first_served(list);
        self.never.fill(&list[..served]);
        self.served.fill(&list[served..]);
    }

    /// Appends all items to the list, for which there is room.
    pub(crate) fn append_to(&self, list: &mut DemandList)
        requires room { length self.now.items ≤ list.old.spare }
        ensures items { list.new.items ≡ list.old.items ++ self.now.items }
        ensures spare { list.new.spare + length self.now.items ≡ list.old.spare }
    {
        self.never.append_to(list);
        self.served.append_to(list);
    }

    /// Picks the items that need a slot or have an entry in one of the batches, where they are no more than `most`.
    pub(crate) fn pick(&mut self, batches: &[Batch], most: usize, found: &mut DemandList) -> bool
        requires room { most ≤ length found.old.items + found.old.spare }
        requires new { OpenNew self.old.items batches.now }
        ensures log { self.new ≡ record self.old { picked = self.new.picked } }
        ensures found { result ≡ true → found.new.items ≡ self.new.picked }
        ensures picked { result ≡ true → self.new.picked ≡ picked_of (is_left self.new.picked) self.old.items }
        ensures nothing { result ≡ true → NeedNothing (is_left self.new.picked) batches.now self.old.items }
        ensures room { length found.new.items + found.new.spare ≡ length found.old.items + found.old.spare }
    {
        found.clear();
        if !self.never.pick(batches, most, found) {
            return false;
        }
        self.served.pick(batches, most, found)
    }

    /// Puts in place of the items picked last what the batches left of these, and of the flows that they opened.
    pub(crate) fn weave(&mut self, rest: &[Item])
        requires picked { self.old.picked ≡ picked_of (is_left self.old.picked) self.old.items }
        requires order { IsInOrder rest.now }
        requires may { MayBeLogged self.old.endpoints (woven (is_left self.old.picked) self.old.items rest.now) }
        ensures { self.new ≡ record self.old { items = woven (is_left self.old.picked) self.old.items rest.now; picked = [] } }
    {
        let served = first_served(rest);
        self.never.weave(&rest[..served]);
        self.served.weave(&rest[served..]);
    }
}
