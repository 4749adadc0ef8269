ghost use Rattle.std.specs.Prelude.{◌≡◌, ◌<◌, ◌≤◌, ◌+◌, ◌++◌, ◌^◌, length};
ghost use Rattle.slot_batches.specs.Pieces.{part_of};

use crate::chains::{append_all, chain_of};
use greedy_rules::{DemandList, Item};
use item_chain::Chain;
use std::alloc::Global;

/// A part of a demand list: at most 64 items, each in a node of its own, the place of the first in the list, and whether the list
/// ends with it.
#[derive(Drop)]
pub struct Piece {
    pub stage: u32,
    pub from: u32,
    pub items: Chain<Item>,
    pub end: bool,
}

impl Piece {
    /// The piece of these items, at most 64, in nodes of those that are loose.
    pub fn of(
        alloc: Global,
        stage: u32,
        from: u32,
        items: &[Item],
        end: bool,
        loose: &mut Chain<Item>,
    ) -> Piece
        requires few { length items.now ≤ 64 }
        requires nodes { length items.now ≤ length loose.old }
        ensures piece { part_of result ≡ record { stage = stage; from = from; items = items.now; end = end } }
        ensures nodes { length loose.new + length items.now ≡ length loose.old }
    {
        Piece {
            stage,
            from,
            items: chain_of(alloc, loose, items),
            end,
        }
    }

    /// Appends the items to the list, which has room for them; the nodes are loose then.
    pub fn unload(self, list: &mut DemandList, loose: &mut Chain<Item>)
        requires room { length self.items ≤ list.old.spare }
        requires fits { length loose.old + length self.items < 2 ^ 64 }
        ensures items { list.new.items ≡ list.old.items ++ self.items }
        ensures spare { list.new.spare + length self.items ≡ list.old.spare }
        ensures nodes { length loose.new ≡ length loose.old + length self.items }
    {
        let mut items = self.items;
        append_all(&mut items, loose, list);
    }
}
