//! Chains of nodes whose values mean nothing, and items that are written into them.
ghost use Rattle.std.specs.Prelude.{◌≡◌, ◌+◌, ◌<◌, ◌≤◌, ◌^◌, [], ◌∷◌, ◌++◌, length, take, drop};
ghost use Rattle.greedy_rules.specs.Demands.{opened};

use greedy_rules::{Batch, DemandList, Entry, Flow, Item};
use item_chain::Chain;
use std::alloc::Global;

// What a place holds until an item is read into it.
pub(crate) const BLANK: Item = Item {
    flow: Flow { src: 0, dst: 0 },
    need: 0,
    last: 0,
};

/// The item in the front node.
pub(crate) fn front(chain: &mut Chain<Item>) -> Item
    requires { 0 < length chain.old }
    ensures same { chain.new ≡ chain.old }
    ensures front { take 1 chain.old ≡ result ∷ [] }
{
    *chain.front_mut()
}

/// A chain of these items, in nodes of those that are loose.
pub(crate) fn chain_of(alloc: Global, loose: &mut Chain<Item>, items: &[Item]) -> Chain<Item>
    requires nodes { length items.now ≤ length loose.old }
    requires few { length items.now ≤ 64 }
    ensures items { result ≡ items.now }
    ensures loose { length loose.new + length items.now ≡ length loose.old }
{
    let mut chain = Chain::new(alloc);
    loose.move_writing(items, &mut chain);
    chain
}

/// Takes a node, if the entry opens its flow.
fn open_node(spare: &mut Chain<Item>, loose: &mut Chain<Item>, entry: Entry)
    requires some { length (opened (entry ∷ [])) ≤ length spare.old }
    requires fits { length loose.old + 1 < 2 ^ 64 }
    ensures loose { length loose.new ≡ length loose.old + length (opened (entry ∷ [])) }
    ensures spare { spare.new ≡ drop (length (opened (entry ∷ []))) spare.old }
{
    if entry.opens {
        spare.move_front(loose);
    }
}

/// Takes a node for each entry that opens its flow.
pub(crate) fn open_nodes(spare: &mut Chain<Item>, loose: &mut Chain<Item>, batch: &Batch)
    requires some { length (opened batch.now.entries) ≤ length spare.old }
    requires none { loose.old ≡ [] }
    ensures loose { length loose.new ≡ length (opened batch.now.entries) }
    ensures spare { spare.new ≡ drop (length (opened batch.now.entries)) spare.old }
{
    for at in 0..batch.len() {
        open_node(spare, loose, batch.entry(at));
    }
}

/// Copies the items out of their nodes, which lie loose then.
pub(crate) fn read_all(from: &mut Chain<Item>, loose: &mut Chain<Item>, items: &mut [Item])
    requires all { length items.old ≡ length from.old }
    requires fits { length loose.old + length from.old < 2 ^ 64 }
    ensures items { items.new ≡ from.old }
    ensures from { from.new ≡ [] }
    ensures loose { length loose.new ≡ length loose.old + length from.old }
{
    from.move_reading(items, loose);
}

/// Appends the items to the list, which has room for them; their nodes lie loose then.
pub(crate) fn append_all(from: &mut Chain<Item>, loose: &mut Chain<Item>, list: &mut DemandList)
    requires room { length from.old ≤ list.old.spare }
    requires fits { length loose.old + length from.old < 2 ^ 64 }
    ensures items { list.new.items ≡ list.old.items ++ from.old }
    ensures spare { list.new.spare + length from.old ≡ list.old.spare }
    ensures from { from.new ≡ [] }
    ensures loose { length loose.new ≡ length loose.old + length from.old }
{
    let mut places = [BLANK; 64];
    while from.len() > 0 {
        let items = &mut places[..from.len().min(64)];
        from.move_reading(items, loose);
        list.append(items);
    }
}
