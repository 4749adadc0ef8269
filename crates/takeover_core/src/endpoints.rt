ghost use Rattle.std.specs.Prelude.{◌≡◌, ◌<◌, ◌≤◌, ◌+◌, ◌-◌, ◌^◌, ◌==◌, ◌&&◌, nat_lt, ℕ, [], ◌∷◌, ◌++◌, length, slice_index, OnOk, IfOk, if◌then◌else◌, vec_len, slice_get, Some, replicate, IfSome};
ghost use Rattle.greedy_rules.specs.Schedule.{slot_in};
ghost use Rattle.takeover_history.specs.Endpoints.{own_sends, send_to};
ghost use Rattle.takeover_core.specs.Cells.{cell};
ghost use Rattle.takeover_core.specs.Sending.{sends_in, SendsAreCounted};

use crate::flow_table::FlowTable;
use endpoint_agent::Sent;
use greedy_rules::SlotTable;
use no_memory::NoMemory;
use std::alloc::Global;

/// The endpoints: the generation that each took last; of each flow what is asked for, how much of it was sent in, and how much had
/// been when its source took its generation; and every send, with its source.
#[derive(Drop)]
pub(crate) struct Endpoints {
    pub generations: Vec<u32>,
    pub asked: FlowTable,
    pub counts: FlowTable,
    pub base: FlowTable,
    pub sent: Vec<(u16, Sent)>,
}

impl Endpoints {
    pub(crate) fn open(alloc: Global, endpoints: u16) -> Result<Endpoints, NoMemory>
        ensures generations { IfOk result (λ ends. ends.generations.items ≡ replicate endpoints 0) }
        ensures asked { IfOk result (λ ends. (ends.asked.endpoints ≡ endpoints) × ((src dst : ℕ) → cell ends.asked src dst ≡ 0)) }
        ensures counts { IfOk result (λ ends. (ends.counts.endpoints ≡ endpoints) × ((src dst : ℕ) → cell ends.counts src dst ≡ 0)) }
        ensures base { IfOk result (λ ends. (ends.base.endpoints ≡ endpoints) × ((src dst : ℕ) → cell ends.base src dst ≡ 0)) }
        ensures sent { IfOk result (λ ends. ends.sent.items ≡ []) }
    {
        Ok(Endpoints {
            generations: vec![in alloc; 0; endpoints as usize]?,
            asked: FlowTable::open(alloc, endpoints)?,
            counts: FlowTable::open(alloc, endpoints)?,
            base: FlowTable::open(alloc, endpoints)?,
            sent: Vec::new(alloc),
        })
    }

    /// Asks for more slots.
    pub(crate) fn ask(&mut self, src: u16, dst: u16, slots: u32)
        requires src { src < self.old.asked.endpoints }
        requires dst { dst < self.old.asked.endpoints }
        requires fits { cell self.old.asked src dst + slots < 2 ^ 32 }
        ensures asked { (s d : ℕ) → d < self.old.asked.endpoints → cell self.new.asked s d ≡ (if (src == s) && (dst == d) then slots else 0) + cell self.old.asked s d }
        ensures endpoints { self.new.asked.endpoints ≡ self.old.asked.endpoints }
        ensures generations { self.new.generations.items ≡ self.old.generations.items }
        ensures counts { self.new.counts ≡ self.old.counts }
        ensures base { self.new.base ≡ self.old.base }
        ensures sent { self.new.sent.items ≡ self.old.sent.items }
    {
        let asked = self.asked.get(src, dst) + slots;
        self.asked.set(src, dst, asked);
    }

    /// Lets the source take a generation, where it is a later one: its totals begin anew, at its sends so far.
    pub(crate) fn take(&mut self, src: u16, generation: u32)
        requires src { src < length self.old.generations.items }
        requires within { src < self.old.counts.endpoints }
        requires base { self.old.base.endpoints ≡ self.old.counts.endpoints }
        requires later { slice_index self.old.generations.items src ≤ generation }
        ensures generations { (s : ℕ) → slice_index self.new.generations.items s ≡ (if src == s then generation else slice_index self.old.generations.items s) }
        ensures length { length self.new.generations.items ≡ length self.old.generations.items }
        ensures base { (s d : ℕ) → d < self.old.counts.endpoints → cell self.new.base s d
            ≡ (if (src == s) && nat_lt (slice_index self.old.generations.items src) generation then cell self.old.counts s d else cell self.old.base s d) }
        ensures endpoints { self.new.base.endpoints ≡ self.old.base.endpoints }
        ensures asked { self.new.asked ≡ self.old.asked }
        ensures counts { self.new.counts ≡ self.old.counts }
        ensures sent { self.new.sent.items ≡ self.old.sent.items }
    {
        if self.generations[src as usize] < generation {
            self.generations[src as usize] = generation;
            begin_anew(&mut self.base, &self.counts, src);
        }
    }

    /// Sends in each of the source's slots of a batch, of which the first has this number.
    pub(crate) fn send(
        &mut self,
        src: u16,
        first_slot: u32,
        slots: &SlotTable,
    ) -> Result<(), NoMemory>
        requires src { src < slots.now.endpoints }
        requires table { slots.now.endpoints ≡ self.old.counts.endpoints }
        requires numbers { first_slot + length slots.now.slots < 2 ^ 32 }
        requires few { length self.old.sent.items + length slots.now.slots < 2 ^ 32 }
        requires counted { SendsAreCounted self.old.counts self.old.sent.items }
        ensures sent { OnOk result (sends_in self.new.sent.items ≡ sends_in self.old.sent.items ++ own_sends src first_slot slots.now.slots) }
        ensures counted { OnOk result (SendsAreCounted self.new.counts self.new.sent.items) }
        ensures endpoints { OnOk result (self.new.counts.endpoints ≡ self.old.counts.endpoints) }
        ensures generations { OnOk result (self.new.generations.items ≡ self.old.generations.items) }
        ensures asked { OnOk result (self.new.asked ≡ self.old.asked) }
        ensures base { OnOk result (self.new.base ≡ self.old.base) }
    {
        let count = slots.slots();
        for offset in 0..count {
            let to = slots.to(offset, src);
            self.send_to(src, first_slot + u32::from(offset), to)?;
        }
        Ok(())
    }

    /// Sends in a slot, where there is a destination.
    fn send_to(&mut self, src: u16, slot: u32, to: Option<u16>) -> Result<(), NoMemory>
        requires src { src < self.old.counts.endpoints }
        requires to { IfSome to (λ dst. dst < self.old.counts.endpoints) }
        requires few { length self.old.sent.items + 1 < 2 ^ 32 }
        requires counted { SendsAreCounted self.old.counts self.old.sent.items }
        ensures sent { OnOk result (sends_in self.new.sent.items ≡ sends_in self.old.sent.items ++ send_to src slot to) }
        ensures length { OnOk result (length self.new.sent.items ≤ length self.old.sent.items + 1) }
        ensures counted { OnOk result (SendsAreCounted self.new.counts self.new.sent.items) }
        ensures endpoints { OnOk result (self.new.counts.endpoints ≡ self.old.counts.endpoints) }
        ensures generations { OnOk result (self.new.generations.items ≡ self.old.generations.items) }
        ensures asked { OnOk result (self.new.asked ≡ self.old.asked) }
        ensures base { OnOk result (self.new.base ≡ self.old.base) }
    {
        if let Some(dst) = to {
            let count = self.counts.get(src, dst) + 1;
            self.counts.set(src, dst, count);
            self.sent.push((src, Sent { slot, dst }))?;
        }
        Ok(())
    }
}

/// Lets the base of each of the source's flows be what was sent of it.
fn begin_anew(base: &mut FlowTable, counts: &FlowTable, src: u16)
    requires src { src < counts.now.endpoints }
    requires endpoints { base.old.endpoints ≡ counts.now.endpoints }
    ensures cells { (s d : ℕ) → d < counts.now.endpoints → cell base.new s d ≡ (if src == s then cell counts.now s d else cell base.old s d) }
    ensures endpoints { base.new.endpoints ≡ base.old.endpoints }
{
    for dst in 0..counts.endpoints() {
        base.set(src, dst, counts.get(src, dst));
    }
}

/// Lets the totals of the source's flows be what is asked for, less the base.
pub(crate) fn tell(told: &mut FlowTable, asked: &FlowTable, base: &FlowTable, src: u16)
    requires src { src < asked.now.endpoints }
    requires told { told.old.endpoints ≡ asked.now.endpoints }
    requires base { base.now.endpoints ≡ asked.now.endpoints }
    requires less { (dst : ℕ) → dst < asked.now.endpoints → cell base.now src dst ≤ cell asked.now src dst }
    ensures cells { (s d : ℕ) → d < asked.now.endpoints → cell told.new s d ≡ (if src == s then cell asked.now s d - cell base.now s d else cell told.old s d) }
    ensures endpoints { told.new.endpoints ≡ told.old.endpoints }
{
    for dst in 0..asked.endpoints() {
        told.set(src, dst, asked.get(src, dst) - base.get(src, dst));
    }
}
