//! The slots of a window in which each flow is served, as words.
ghost use Rattle.std.specs.Prelude.{◌≡◌, ◌<◌, ◌≤◌, ◌+◌, ◌*◌, ◌||◌, ◌&&◌, ◌==◌, ℕ, List, Bool, Some, true, false, nat_lt, length, vec_len, IfOk};
ghost use Rattle.std.specs.List.{slice_index_or};
ghost use Rattle.greedy_rules.specs.declared.flows.Flow.{Flow};
ghost use Rattle.greedy_rules.specs.Flows.{same_flow};
ghost use Rattle.greedy_rules.specs.Slot.{has_flow};
ghost use Rattle.greedy_rules.specs.Schedule.{slot_in};
ghost use Rattle.endpoint_bitmaps.specs.Slots.{has_slot};
ghost use Rattle.window_allocation.specs.Needs.{place_of};
ghost use Rattle.window_allocation.specs.Reach.{IsEarliest, ShowSlots, IsFirstBatch};

use crate::needs::place;
use greedy_rules::{Flow, SlotTable};
use no_memory::NoMemory;
use slot_batches::clear_words;
use std::alloc::Global;

/// The first `count` slots of a window.
pub(crate) fn first_slots(count: u16) -> u64
    ensures { count ≤ 64 → (slot : ℕ) → has_slot result slot ≡ nat_lt slot count }
{
    if count >= 64 {
        u64::MAX
    } else {
        (1 << count) - 1
    }
}

/// For each flow between so many endpoints a word of a window's slots.
#[derive(Drop)]
pub(crate) struct FlowSlots {
    endpoints: u16,
    words: Vec<u64>,
    ghost whole: { vec_len words ≡ endpoints * endpoints },
}

impl FlowSlots {
    /// For so many endpoints. No later call takes memory.
    pub(crate) fn open(alloc: Global, endpoints: u16) -> Result<FlowSlots, NoMemory>
        ensures { IfOk result (λ slots. slots.endpoints ≡ endpoints) }
    {
        Ok(FlowSlots {
            endpoints,
            words: vec![in alloc; 0; endpoints as usize * endpoints as usize]?,
        })
    }

    /// How many endpoints there are.
    pub(crate) fn endpoints(&self) -> u16
        ensures { result ≡ self.now.endpoints }
    {
        self.endpoints
    }

    /// Lets the word of the flow from this source name the slot, if its destination is an endpoint.
    fn note_flow(&mut self, slot: u16, src: u16, dst: u16)
        requires slot { slot < 64 }
        requires src { src < self.old.endpoints }
        ensures endpoints { self.new.endpoints ≡ self.old.endpoints }
        ensures named { (flow : Flow) (at : ℕ) → flow.src < self.old.endpoints → flow.dst < self.old.endpoints → has_slot (slice_index_or self.new.words.items (place_of self.old.endpoints flow.src flow.dst) 0) at ≡ (has_slot (slice_index_or self.old.words.items (place_of self.old.endpoints flow.src flow.dst) 0) at || ((at == slot) && same_flow (record { src = src; dst = dst }) flow)) }
    {
        if dst < self.endpoints {
            let at = place(self.endpoints, Flow { src, dst });
            self.words[at] |= 1 << slot;
        }
    }

    /// Lets the words of the slot's flows name it.
    fn note_slot(&mut self, out: &SlotTable, slot: u16)
        requires slot { slot < length out.now.slots }
        requires few { slot < 64 }
        requires endpoints { self.old.endpoints ≤ out.now.endpoints }
        ensures endpoints { self.new.endpoints ≡ self.old.endpoints }
        ensures named { (flow : Flow) (at : ℕ) → flow.src < self.old.endpoints → flow.dst < self.old.endpoints → has_slot (slice_index_or self.new.words.items (place_of self.old.endpoints flow.src flow.dst) 0) at ≡ (has_slot (slice_index_or self.old.words.items (place_of self.old.endpoints flow.src flow.dst) 0) at || ((at == slot) && has_flow (slot_in out.now.slots slot) flow)) }
    {
        // The flows of a slot rise by source.
        let _slots = out.slots();
        let row = out.row(slot);
        for src in 0..self.endpoints {
            if let Some(dst) = row[src as usize] {
                self.note_flow(slot, src, dst);
            }
        }
    }

    /// Notes in which of the first `count` slots each flow is served.
    pub(crate) fn note(&mut self, out: &SlotTable, count: u16)
        requires count { count ≤ length out.now.slots }
        requires few { count ≤ 64 }
        requires endpoints { self.old.endpoints ≤ out.now.endpoints }
        ensures endpoints { self.new.endpoints ≡ self.old.endpoints }
        ensures slots { ShowSlots self.new.endpoints count out.now.slots self.new.words.items }
    {
        clear_words(&mut self.words);
        for slot in 0..count {
            self.note_slot(out, slot);
        }
    }

    /// The slots of the first batch in which the flow is served, of so many of b slots each.
    pub(crate) fn earliest(&self, flow: Flow, batches: u16, b: u16) -> u64
        requires { batches * b ≤ 64 }
        ensures { (slots : List (List Flow)) → ShowSlots self.now.endpoints (batches * b) slots self.now.words.items → (at : ℕ) → has_slot result at ≡ true → IsEarliest b slots at flow }
    {
        if flow.src < self.endpoints && flow.dst < self.endpoints {
            of_first_batch(self.words[place(self.endpoints, flow)], batches, b)
        } else {
            0
        }
    }
}

/// Those of the slots that are of the first batch that has one.
pub(crate) fn of_first_batch(slots: u64, batches: u16, b: u16) -> u64
    requires { batches * b ≤ 64 }
    ensures { (at : ℕ) → has_slot result at ≡ true → (has_slot slots at ≡ true) × IsFirstBatch b slots at }
{
    if slots == 0 || b == 0 {
        return 0;
    }
    let batch = slots.trailing_zeros() / u32::from(b);
    if batch >= u32::from(batches) {
        return 0;
    }
    slots & first_slots((batch as u16 + 1) * b)
}
