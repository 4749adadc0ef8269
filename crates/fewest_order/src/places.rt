ghost use Rattle.std.specs.Prelude.{◌≡◌, ◌≤◌, ◌+◌, [], ◌∷◌, ◌++◌, length, take, drop, true, false, All, vec_len, vec_capacity};
ghost use Rattle.std.specs.List.Sorted.{IsNonDecreasingBy};
ghost use Rattle.greedy_rules.specs.Demands.{by_key};
ghost use Rattle.greedy_rules.specs.Examples.{remaining};
ghost use Rattle.fewest_order.specs.Places.{goes_before, joined};

use greedy_rules::Item;

/// On which side of those that need the same an item is put.
#[derive(Clone, Copy, Debug)]
pub(crate) enum Side {
    Front,
    Behind,
}

/// How many items of a list by need go before one of this need that is put on this side of its equals.
pub(crate) fn place(items: &[Item], need: u32, side: Side) -> usize
    requires { IsNonDecreasingBy (λ item. item.need) items.now }
    ensures within { result ≤ length items.now }
    ensures before { All (λ item. goes_before side item.need need ≡ true) (take result items.now) }
    ensures behind { All (λ item. goes_before side item.need need ≡ false) (drop result items.now) }
{
    match side {
        Side::Front => items.partition_point(|item| item.need < need),
        Side::Behind => items.partition_point(|item| item.need <= need),
    }
}

/// Appends the items that stand before the item, and the item.
fn put_next(items: &mut Vec<Item>, before: &[Item], item: Item)
    requires room { vec_len items.old + (length before.now + 1) ≤ vec_capacity items.old }
    ensures items { items.new.items ≡ items.old.items ++ (before.now ++ item ∷ []) }
    ensures capacity { vec_capacity items.old ≤ vec_capacity items.new }
{
    let _ = items.extend_from_slice(before);
    items.push_reserved(item);
}

/// Appends the items of a list by need with others, by need too, each at its place among them.
pub(crate) fn put_among(items: &mut Vec<Item>, standing: &[Item], others: &[Item], side: Side)
    requires standing { IsNonDecreasingBy (λ item. item.need) standing.now }
    requires others { IsNonDecreasingBy (λ item. item.need) others.now }
    requires room { vec_len items.old + (length standing.now + length others.now) ≤ vec_capacity items.old }
    ensures items { items.new.items ≡ items.old.items ++ by_key remaining (joined side standing.now others.now) }
    ensures capacity { vec_capacity items.old ≤ vec_capacity items.new }
{
    let mut from = 0;
    for item in others {
        let count = place(&standing[from..], item.need, side);
        put_next(items, &standing[from..from + count], *item);
        from += count;
    }
    let _ = items.extend_from_slice(&standing[from..]);
}
