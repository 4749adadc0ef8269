//! One batch by the standing order, flow by flow.
ghost use Rattle.std.specs.Prelude.{◌≡◌, ◌<◌, ◌≤◌, ◌+◌, ◌^◌, ◌++◌, length, OnOk, All, vec_capacity};
ghost use Rattle.greedy_rules.specs.Demands.{HasEachFlowOnce, AreBelow, OpensNewFlows, need_with, by_last, after_batch, opened};
ghost use Rattle.greedy_rules.specs.Batches.{entry_of};
ghost use Rattle.greedy_rules.specs.Limits.{is_barred};
ghost use Rattle.greedy_rules.specs.Allocation.{batch_slots, list_after_slots};

use crate::allocation::{sort, start_list};
use crate::orders::ByLast;
use greedy_rules::{Batch, DemandList, Item};
use no_memory::NoMemory;
use slot_batches::Turns;
use std::alloc::Global;

/// Makes the list that of the items after their turns: those that got no slot, as they stood, and behind them the others, sorted.
fn put_turns(list: &mut DemandList, turns: &Turns, served: &mut Vec<Item>) -> Result<(), NoMemory>
    requires list { length turns.now.waiting + length turns.now.served ≤ length list.old.items + list.old.spare }
    requires served { length turns.now.served ≤ vec_capacity served.old }
    ensures list { OnOk result (list.new.items ≡ turns.now.waiting ++ by_last turns.now.served) }
    ensures spare { OnOk result (length list.new.items + list.new.spare ≡ length list.old.items + list.old.spare) }
{
    served.clear();
    let _ = served.extend_from_slice(turns.served());
    sort::<ByLast>(served)?;
    list.clear();
    list.append(turns.waiting());
    list.append(served);
    Ok(())
}

/// Greedy allocation of one batch, as `plain_batch` of greedy_rules has it, flow by flow: applies the batch to the list, lets its
/// items take their slots, which stand in `turns` then, and sorts the list. Only items that were served change their place, so no
/// others are sorted. After want of memory the list is only to be dropped.
pub fn batch_by_turns(
    alloc: Global,
    turns: &mut Turns,
    list: &mut DemandList,
    batch: &Batch,
    first_slot: u32,
) -> Result<(), NoMemory>
    // Eight conditions that a caller can break one by one, the two results, and four that the next call asks for.
    requires once { HasEachFlowOnce list.old.items }
    requires opens { OpensNewFlows batch.now.entries list.old.items }
    requires room { length (opened batch.now.entries) ≤ list.old.spare }
    requires needs { All (λ item. need_with (entry_of batch.now.entries item.flow) item.need < 2 ^ 32) list.old.items }
    requires endpoints { AreBelow turns.old.endpoints (list.old.items ++ opened batch.now.entries) }
    requires before { All (λ item. item.last < first_slot) list.old.items }
    requires first { 1 ≤ first_slot }
    requires numbers { first_slot + turns.old.b ≤ 2 ^ 32 }
    ensures list { OnOk result (list.new.items ≡ list_after_slots (is_barred batch.now.limits) first_slot turns.old.b (after_batch batch.now.entries list.old.items)) }
    ensures slots { OnOk result (turns.new.slots ≡ batch_slots (is_barred batch.now.limits) first_slot turns.old.b (after_batch batch.now.entries list.old.items)) }
    ensures before { OnOk result (All (λ item. item.last < first_slot + turns.old.b) list.new.items) }
    ensures spare { OnOk result (length list.new.items + list.new.spare ≡ length list.old.items + list.old.spare) }
    ensures endpoints { turns.new.endpoints ≡ turns.old.endpoints }
    ensures b { turns.new.b ≡ turns.old.b }
{
    let limits = batch.limits();
    let mut items = start_list::<ByLast>(alloc, list, batch)?;
    turns.fill(&items, first_slot, limits);
    put_turns(list, turns, &mut items)
}
