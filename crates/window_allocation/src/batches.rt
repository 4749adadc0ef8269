//! Where a window's batches are parted: those that change nothing, and runs of others.
ghost use Rattle.std.specs.Prelude.{◌≡◌, ◌<◌, ◌≤◌, [], length, take, true, All};
ghost use Rattle.window_allocation.specs.Idle.{AreIdle};

use greedy_rules::{Batch, Item};

/// Up to so many items, three pieces of a list, all batches are played at once that may change something: to part these would
/// save less than a run costs.
const SHORT: usize = 192;

/// The bits of all that the items need: none only where no item needs a slot.
fn needs_of(items: &[Item]) -> u32
    ensures { result ≡ 0 → All (λ item. item.need ≡ 0) items.now }
{
    let mut needs = 0;
    for item in items {
        needs |= item.need;
    }
    needs
}

/// Whether no item needs a slot.
fn needs_none(items: &[Item]) -> bool
    ensures { result ≡ true → All (λ item. item.need ≡ 0) items.now }
{
    for few in items.chunks(64) {
        if needs_of(few) > 0 {
            return false;
        }
    }
    true
}

/// How many batches at the front change nothing: they have no entries, and no item needs a slot.
pub(crate) fn count_idle(items: &[Item], batches: &[Batch]) -> usize
    ensures count { result ≤ length batches.now }
    ensures idle { AreIdle items.now (take result batches.now) }
{
    let count = count_empty(batches);
    if count > 0 && needs_none(items) {
        count
    } else {
        0
    }
}

/// How many batches at the front have no entries.
fn count_empty(batches: &[Batch]) -> usize
    ensures count { result ≤ length batches.now }
    ensures empty { All (λ batch. batch.entries ≡ []) (take result batches.now) }
{
    for count in 0..batches.len() {
        if !batches[count].is_empty() {
            return count;
        }
    }
    batches.len()
}

/// Whether the list has at most `SHORT` items, with all that the batches may open.
pub(crate) fn stays_short(items: &[Item], batches: &[Batch]) -> bool {
    let mut most = items.len();
    for batch in batches {
        most = most.saturating_add(batch.len());
    }
    most <= SHORT
}

/// How many slots the items need.
fn needed(items: &[Item]) -> u32 {
    let mut slots: u32 = 0;
    for item in items {
        slots = slots.saturating_add(item.need);
    }
    slots
}

/// How many slots the batch adds.
fn added(batch: &Batch) -> u32 {
    let mut slots: u32 = 0;
    for at in 0..batch.len() {
        slots = slots.saturating_add(batch.entry(at).add);
    }
    slots
}

/// How many batches of `b` slots may change something, for all that the needs tell: the last of them has entries, or the flows may
/// need a slot by then though each slot serves but one of them.
fn count_busy(items: &[Item], batches: &[Batch], b: u8) -> usize
    ensures { result ≤ length batches.now }
{
    let mut left = needed(items);
    let mut count = 0;
    for at in 0..batches.len() {
        left = left.saturating_add(added(&batches[at]));
        if left > 0 || !batches[at].is_empty() {
            count = at + 1;
        }
        left = left.saturating_sub(u32::from(b));
    }
    count
}

/// How many batches are played at once: all that may change something where the list stays short, and else all up to the first
/// without entries that comes behind one with entries.
pub(crate) fn count_run(items: &[Item], batches: &[Batch], b: u8) -> usize
    requires { 0 < length batches.now }
    ensures some { 0 < result }
    ensures count { result ≤ length batches.now }
{
    if stays_short(items, batches) {
        return count_busy(items, batches, b).max(1);
    }
    for count in 1..batches.len() {
        if batches[count].is_empty() && !batches[count - 1].is_empty() {
            return count;
        }
    }
    batches.len()
}
