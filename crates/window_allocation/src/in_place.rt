//! The items that are set aside stay in the list, and the others come between them again.
ghost use Rattle.std.specs.Prelude.{◌≡◌, ◌≤◌, ◌<◌, ◌+◌, Bool, ◌++◌, length, take, drop, None, IfSome, vec_len, vec_capacity};
ghost use Rattle.greedy_rules.specs.declared.flows.Item.{Item};
ghost use Rattle.slot_batches.specs.Feeding.{IsInOrder};
ghost use Rattle.slot_batches.specs.Woven.{weave, woven, places_from};
ghost use Rattle.window_allocation.specs.Picked.{staying};

use crate::weave::{first_served, places_below, stays_at, weave_part};
use greedy_rules::Item;

/// Puts these items over the first ones of the list.
fn put_front(list: &mut Vec<Item>, items: &[Item])
    requires { length items.now ≤ vec_len list.old }
    ensures items { list.new.items ≡ items.now ++ drop (length items.now) list.old.items }
    ensures capacity { vec_capacity list.new ≡ vec_capacity list.old }
{
    list[0..items.len()].copy_from_slice(items);
}

/// Puts over the item at this place, if it stays, how it stands in the rest. Answers how many stay: one, or none.
fn renew_item(list: &mut Vec<Item>, to: usize, rest: &[Item], at: usize) -> usize
    requires item { to < vec_len list.old }
    requires within { at ≤ length rest.now }
    ensures count { result ≡ length (staying (drop to list.old.items) (drop at rest.now)) }
    ensures one { result ≤ 1 }
    ensures items { take (to + result) list.new.items ≡ take to list.old.items ++ staying (drop to list.old.items) (drop at rest.now) }
    ensures behind { drop (to + 1) list.new.items ≡ drop (to + 1) list.old.items }
    ensures within { at + result ≤ length rest.now }
    ensures length { vec_len list.new ≡ vec_len list.old }
    ensures capacity { vec_capacity list.new ≡ vec_capacity list.old }
{
    if !stays_at(&list[to], rest, at) {
        return 0;
    }
    list[to] = rest[at];
    1
}

/// Weaves what of the list begins at the place `first` where it stands, from the place `down` on, but for the end: answers where
/// that begins in the rest. The items that were picked stood at these places.
fn weave_down(
    list: &mut Vec<Item>,
    first: usize,
    down: usize,
    places: &[usize],
    rest: &[Item],
) -> usize
    requires down { down ≤ first }
    requires first { first ≤ vec_len list.old }
    requires places { (aside : Item → Bool) × (places.now ≡ places_from aside first (drop first list.old.items)) }
    ensures items { (aside : Item → Bool) → places.now ≡ places_from aside first (drop first list.old.items) → list.new.items ++ drop result rest.now ≡ take down list.old.items ++ weave aside (drop first list.old.items) rest.now }
    ensures within { result ≤ length rest.now }
    ensures capacity { vec_capacity list.new ≡ vec_capacity list.old }
{
    let mut end = down;
    let mut from = first;
    let mut at = 0;
    for place in places {
        let kept = renew_item(list, *place, rest, at);
        list.copy_within(from..*place + kept, end);
        end += *place + kept - from;
        at += kept;
        from = *place + 1;
    }
    let last = list.len();
    list.copy_within(from..last, end);
    list.truncate(end + (last - from));
    at
}

/// Weaves the list where it stands, but for the end: answers where that begins in the rest. None where the items that were never
/// served would need more places than before; the list stays then as it was.
pub(crate) fn weave_in_place(
    list: &mut Vec<Item>,
    places: &[usize],
    rest: &[Item],
    whole: &mut Vec<Item>,
) -> Option<usize>
    requires list_order { IsInOrder list.old.items }
    requires order { IsInOrder rest.now }
    requires room { (aside : Item → Bool) × (places.now ≡ places_from aside 0 list.old.items) × (length (woven aside list.old.items rest.now) ≤ vec_capacity whole.old) }
    ensures items { (aside : Item → Bool) → places.now ≡ places_from aside 0 list.old.items → IfSome result (λ at. list.new.items ++ drop at rest.now ≡ woven aside list.old.items rest.now) }
    ensures within { IfSome result (λ at. at ≤ length rest.now) }
    ensures same { result ≡ None → list.new.items ≡ list.old.items }
    ensures capacity { vec_capacity list.new ≡ vec_capacity list.old }
    ensures whole { vec_capacity whole.old ≤ vec_capacity whole.new }
{
    let served = first_served(list);
    let rest_served = first_served(rest);
    let places_served = places_below(places, served);
    whole.clear();
    weave_part(
        &list[..served],
        0,
        &places[..places_served],
        &rest[..rest_served],
        whole,
    );
    let front = whole.len();
    if front > served {
        return None;
    }
    put_front(list, whole);
    let at = weave_down(
        list,
        served,
        front,
        &places[places_served..],
        &rest[rest_served..],
    );
    Some(rest_served + at)
}
