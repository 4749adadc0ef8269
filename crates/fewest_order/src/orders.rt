ghost use Rattle.std.specs.Prelude.{◌≡◌};
ghost use Rattle.greedy_rules.specs.Demands.{Key, last_served};
ghost use Rattle.greedy_rules.specs.Examples.{remaining};

use greedy_rules::Item;

/// By what a demand list is sorted, the least first. Items of one number keep the order in which they stood.
pub trait Order {
    ghost number: { Key };

    /// The item's number, which comes of its need and of the slot in which it was last served, and of nothing else.
    fn key(item: &Item) -> u32
        ensures { result ≡ number item.now.need item.now.last };
}

/// The flow served least recently first, as the plain allocator has it.
pub struct ByLast;

impl Order for ByLast {
    ghost number = { last_served };

    fn key(item: &Item) -> u32 {
        item.last
    }
}

/// The flow that needs the fewest slots first.
pub struct ByNeed;

impl Order for ByNeed {
    ghost number = { remaining };

    fn key(item: &Item) -> u32 {
        item.need
    }
}
