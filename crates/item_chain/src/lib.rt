//! Lists of nodes, which go from one list to another without a copy or an allocation.
//!
//! `item_chain` has `Chain`, a list whose nodes go from one chain to another without a copy. `parts.rt` and `nodes.rt` have the
//! eight small functions over raw pointers, proved by hand; `lib.rt` the calls.
#![tactic(auto)]

ghost use Rattle.std.specs.Prelude.{◌≡◌, ◌+◌, ◌^◌, ◌<◌, ◌≤◌, [], ◌∷◌, ◌++◌, length, take, drop, replicate, slice_index_or, OnOk, OnErr};
ghost use Rattle.std.specs.Borrow.{sem};
ghost use Rattle.item_chain.specs.Lent.{lends_front};

mod laws;
mod nodes;
mod parts;

pub use laws::chains_may_go_to_a_thread;
pub use no_memory::NoMemory;
use nodes::{Node, Nodes};
use parts::Parts;
use std::alloc::Global;
use std::marker::Model;

/// A list of values, each in a node of its own, which no other list has. No call depends on its length, and none but `fill` takes
/// memory. `fill`, `move_reading` and `move_writing` depend on how many nodes they add or move.
pub struct Chain<T: Copy> {
    nodes: Nodes<T>,
    len: usize,
    alloc: Global,
}

impl<T: Copy> Model for Chain<T> {
    ghost use Rattle.std.specs.Prelude.{◌≡◌, List, length};

    ghost Value = { List T };

    ghost view = { λ c. c.nodes.items };

    ghost invariant = { λ c. c.len ≡ length c.nodes.items };
}

impl<T: Copy> Drop for Chain<T> {
    fn drop(mut self) {
        self.clear();
        let Chain {
            nodes,
            len: _,
            alloc: _,
        } = self;
        nodes.end();
    }
}

impl<T: Copy> Chain<T> {
    /// An empty chain, which takes no memory.
    pub fn new(alloc: Global) -> Chain<T>
        ensures { result ≡ [] }
    {
        Chain {
            nodes: Nodes::new(),
            len: 0,
            alloc,
        }
    }

    /// How many nodes it has.
    pub fn len(&self) -> usize
        ensures { result ≡ length self.now }
    {
        self.len
    }

    /// Adds `n` nodes with this value at the back, or none; Err where there is no memory for them.
    pub fn fill(&mut self, n: usize, value: T) -> Result<(), NoMemory>
        ensures filled { OnOk result (self.new ≡ self.old ++ replicate n value) }
        ensures refused { OnErr result (self.new ≡ self.old) }
    {
        if usize::MAX - self.len < n {
            return Err(NoMemory);
        }
        let mut more = Chain::new(self.alloc);
        for _ in 0..n {
            more.push(value)?;
        }
        self.append(&mut more);
        Ok(())
    }

    /// Moves the front node to the back of `to`, whose length stays within 64 bits.
    pub fn move_front(&mut self, to: &mut Chain<T>)
        requires some { 0 < length self.old }
        requires fits { length to.old + 1 < 2 ^ 64 }
        ensures rest { self.new ≡ drop 1 self.old }
        ensures moved { to.new ≡ to.old ++ take 1 self.old }
    {
        let first = self.nodes.split_first();
        self.len -= 1;
        to.take_in(first, 1);
    }

    /// Moves the front nodes, as many as there are places, to the back of `to`, whose length stays within 64 bits, and copies their
    /// values to these places.
    pub fn move_reading(&mut self, values: &mut [T], to: &mut Chain<T>)
        requires some { length values.old ≤ length self.old }
        requires fits { length to.old + length values.old < 2 ^ 64 }
        ensures rest { self.new ≡ drop (length values.old) self.old }
        ensures moved { to.new ≡ to.old ++ take (length values.old) self.old }
        ensures values { values.new ≡ take (length values.old) self.old }
    {
        let len = values.len();
        if len == 0 {
            return;
        }
        let front = self.nodes.split_reading(values);
        self.len -= len;
        to.take_in(front, len);
    }

    /// Moves the front nodes, as many as there are values, to the back of `to`, whose length stays within 64 bits, and writes these
    /// values into them.
    pub fn move_writing(&mut self, values: &[T], to: &mut Chain<T>)
        requires some { length values.now ≤ length self.old }
        requires fits { length to.old + length values.now < 2 ^ 64 }
        ensures rest { self.new ≡ drop (length values.now) self.old }
        ensures moved { to.new ≡ to.old ++ values.now }
    {
        let len = values.len();
        if len == 0 {
            return;
        }
        let front = self.nodes.split_writing(values);
        self.len -= len;
        to.take_in(front, len);
    }

    /// Moves all nodes of `other` to the back; the length stays within 64 bits.
    pub fn append(&mut self, other: &mut Chain<T>)
        requires fits { length self.old + length other.old < 2 ^ 64 }
        ensures joined { self.new ≡ self.old ++ other.old }
        ensures emptied { other.new ≡ [] }
    {
        if other.len == 0 {
            return;
        }
        self.nodes.follow(&mut other.nodes, self.len);
        self.len += other.len;
        other.len = 0;
    }

    /// The value in the front node.
    pub fn front_mut(&mut self) -> &mut T
        requires { 0 < length self.old }
        ensures* writes_back { sem 𝓛 (lends_front T.row self.entry result) }
        ensures value { result.now ≡ slice_index_or self.old 0 result.now }
    {
        self.nodes.front_mut()
    }

    /// Adds these nodes, so many, at the back.
    fn take_in(&mut self, nodes: Nodes<T>, len: usize)
        requires some { 0 < len }
        requires len { len ≡ length nodes.items }
        requires fits { length self.old + len < 2 ^ 64 }
        ensures { self.new ≡ self.old ++ nodes.items }
    {
        let mut more = nodes;
        self.nodes.follow(&mut more, self.len);
        self.len += len;
        more.end();
    }

    /// Adds a node of its own with this value at the back.
    fn push(&mut self, value: T) -> Result<(), NoMemory>
        requires { length self.old + 1 < 2 ^ 64 }
        ensures pushed { OnOk result (self.new ≡ self.old ++ value ∷ []) }
        ensures refused { OnErr result (self.new ≡ self.old) }
    {
        match Box::new(self.alloc, Node::of(value)) {
            Ok(node) => {
                self.take_in(Nodes::single(Parts::of(node)), 1);
                Ok(())
            }
            Err(_) => Err(NoMemory),
        }
    }

    /// Gives all nodes back to the allocator.
    fn clear(&mut self)
        ensures { self.new ≡ [] }
    {
        while 0 < self.len {
            let first = self.nodes.split_first();
            self.len -= 1;
            drop(first.into_parts(self.alloc).into_box());
        }
    }
}

#[cfg(test)]
mod tests {
    use super::Chain;
    use std::test::Fail;

    #[test]
    fn nodes_go_from_chain_to_chain(rt: HostRuntime) -> Result<(), Fail> {
        let mut spare: Chain<u32> = Chain::new(rt.alloc());
        let mut list: Chain<u32> = Chain::new(rt.alloc());
        spare.fill(2, 7)?;
        spare.fill(1, 9)?;
        assert_eq!(rt; spare.len(), 3);
        *spare.front_mut() = 8;
        spare.move_front(&mut list);
        spare.move_front(&mut list);
        assert_eq!(rt; list.len(), 2);
        assert_eq!(rt; *list.front_mut(), 8);
        list.append(&mut spare);
        assert_eq!(rt; (list.len(), spare.len()), (3, 0));
        list.move_front(&mut spare);
        list.move_front(&mut spare);
        assert_eq!(rt; *list.front_mut(), 9);
        Ok(())
    }

    #[test]
    fn values_are_read_and_written_as_nodes_move(rt: HostRuntime) -> Result<(), Fail> {
        let mut spare: Chain<u32> = Chain::new(rt.alloc());
        let mut list: Chain<u32> = Chain::new(rt.alloc());
        spare.fill(4, 7)?;
        spare.move_writing(&[1, 2, 3], &mut list);
        spare.move_writing(&[], &mut list);
        assert_eq!(rt; (list.len(), spare.len()), (3, 1));
        let mut values = [0; 2];
        list.move_reading(&mut values, &mut spare);
        assert_eq!(rt; values, [1, 2]);
        assert_eq!(rt; (list.len(), spare.len()), (1, 3));
        assert_eq!(rt; *list.front_mut(), 3);
        spare.append(&mut list);
        let mut all = [0; 4];
        spare.move_reading(&mut all, &mut list);
        assert_eq!(rt; all, [7, 1, 2, 3]);
        Ok(())
    }
}
