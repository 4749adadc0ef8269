//! The items that are set aside come between the others again.
ghost use Rattle.std.specs.Prelude.{◌≡◌, ◌≤◌, ◌<◌, ◌+◌, Bool, List, [], ◌∷◌, ◌++◌, ◌-◌, length, take, drop, ◌&&◌, nat_lt, true, false, vec_len, vec_capacity};
ghost use Rattle.std.specs.List.{slice_index_or};
ghost use Rattle.std.specs.List.Sorted.{IsNonDecreasingBy, IsPartitionPoint};
ghost use Rattle.greedy_rules.specs.declared.flows.Item.{Item};
ghost use Rattle.slot_batches.specs.Feeding.{IsInOrder};
ghost use Rattle.slot_batches.specs.Woven.{stays as stays_in, weave, never_served, once_served, woven, places_from};
ghost use Rattle.window_allocation.specs.Picked.{staying};

use greedy_rules::Item;

/// Where the items begin that were served in some slot.
pub(crate) fn first_served(items: &[Item]) -> usize
    requires { IsInOrder items.now }
    ensures within { result ≤ length items.now }
    ensures never { take result items.now ≡ never_served items.now }
    ensures once { drop result items.now ≡ once_served items.now }
{
    items.partition_point(|item| item.last == 0)
}

/// Whether the later item is of the same flow, which was not served since.
fn stays(item: &Item, later: &Item) -> bool
    ensures { result ≡ stays_in item.now later.now }
{
    item.flow.src == later.flow.src && item.flow.dst == later.flow.dst && item.last == later.last
}

/// Whether the item stays as the one at this place.
pub(crate) fn stays_at(item: &Item, rest: &[Item], at: usize) -> bool
    ensures { result ≡ (nat_lt at (length rest.now) && stays_in item.now (slice_index_or rest.now at item.now)) }
{
    match rest.get(at) {
        Some(later) => stays(item, later),
        None => false,
    }
}

/// Appends the items of the list up to a place, and then the one at this place, if it stays, as it stands in the rest. Answers
/// where the rest goes on.
fn weave_run(
    list: &[Item],
    from: usize,
    to: usize,
    rest: &[Item],
    at: usize,
    whole: &mut Vec<Item>,
) -> usize
    requires run { from ≤ to }
    requires item { to < length list.now }
    requires within { at ≤ length rest.now }
    requires room { vec_len whole.old + ((to - from) + length (staying (drop to list.now) (drop at rest.now))) ≤ vec_capacity whole.old }
    ensures items { whole.new.items ≡ whole.old.items ++ (take (to - from) (drop from list.now) ++ staying (drop to list.now) (drop at rest.now)) }
    ensures rest { result ≡ at + length (staying (drop to list.now) (drop at rest.now)) }
    ensures within { result ≤ length rest.now }
    ensures capacity { vec_capacity whole.old ≤ vec_capacity whole.new }
{
    let _ = whole.extend_from_slice(&list[from..to]);
    if !stays_at(&list[to], rest, at) {
        return at;
    }
    whole.push_reserved(rest[at]);
    at + 1
}

/// Appends one part of the list, woven: its first item stands at the place `first`, and those that were picked at these.
pub(crate) fn weave_part(
    list: &[Item],
    first: usize,
    places: &[usize],
    rest: &[Item],
    whole: &mut Vec<Item>,
)
    requires room { (aside : Item → Bool) × (places.now ≡ places_from aside first list.now) × (vec_len whole.old + length (weave aside list.now rest.now) ≤ vec_capacity whole.old) }
    ensures items { (aside : Item → Bool) → places.now ≡ places_from aside first list.now → whole.new.items ≡ whole.old.items ++ weave aside list.now rest.now }
    ensures capacity { vec_capacity whole.old ≤ vec_capacity whole.new }
{
    let mut from = 0;
    let mut at = 0;
    for place in places {
        let to = *place - first;
        at = weave_run(list, from, to, rest, at, whole);
        from = to + 1;
    }
    let _ = whole.extend_from_slice(&list[from..]);
    let _ = whole.extend_from_slice(&rest[at..]);
}

/// How many of the places, which rise, are below this one.
pub(crate) fn places_below(places: &[usize], end: usize) -> usize
    requires { IsNonDecreasingBy (λ place. place) places.now }
    ensures within { result ≤ length places.now }
    ensures point { IsPartitionPoint (λ place. nat_lt place end ≡ true) (λ place. nat_lt place end ≡ false) places.now result }
{
    places.partition_point(|place| *place < end)
}

/// The list woven from itself, of which the items at these places were picked, and the rest that the batches left, both in
/// order.
pub(crate) fn weave_lists(list: &[Item], places: &[usize], rest: &[Item], whole: &mut Vec<Item>)
    requires list_order { IsInOrder list.now }
    requires order { IsInOrder rest.now }
    requires room { (aside : Item → Bool) × (places.now ≡ places_from aside 0 list.now) × (length (woven aside list.now rest.now) ≤ vec_capacity whole.old) }
    ensures items { (aside : Item → Bool) → places.now ≡ places_from aside 0 list.now → whole.new.items ≡ woven aside list.now rest.now }
    ensures capacity { vec_capacity whole.old ≤ vec_capacity whole.new }
{
    let served = first_served(list);
    let rest_served = first_served(rest);
    let places_served = places_below(places, served);
    whole.clear();
    weave_part(
        &list[..served],
        0,
        &places[..places_served],
        &rest[..rest_served],
        whole,
    );
    weave_part(
        &list[served..],
        served,
        &places[places_served..],
        &rest[rest_served..],
        whole,
    );
}
