ghost use Rattle.std.specs.Prelude.{◌≡◌, ◌≢◌, ◌<◌, ◌≤◌, ◌+◌, ◌*◌, ◌^◌, ℕ, [], ◌++◌, length, None, Some, All, OnOk, IfOk, IfSome};
ghost use Rattle.greedy_rules.specs.Demands.{HasEachFlowOnce, AreBelow, OpensNewFlows, need_with, opened};
ghost use Rattle.greedy_rules.specs.Batches.{entry_of};
ghost use Rattle.greedy_rules.specs.Schedule.{first_slot, slots_then, list_then};
ghost use Rattle.takeover_core.specs.Cells.{cell};
ghost use Rattle.takeover_core.specs.Entries.{entries_between};
ghost use Rattle.takeover_core.specs.Node.{IsOfNewGeneration, MayPublish, next_of, lease_refusal_of};

use crate::entries::batch_of;
use crate::flow_table::FlowTable;
use fewest_order::batch_by_turns;
use greedy_rules::{Batch, DemandList, SlotTable};
use no_memory::NoMemory;
use slot_batches::Turns;
use std::alloc::Global;
use takeover_history::{Lease, Refusal};

/// An arbiter: its boot, the lease that it took last in this boot and how many batches of it are published; and of the lease's
/// generation the totals that it was told, what is published of them, and the demand that its batches left.
#[derive(Drop)]
pub(crate) struct Node {
    pub boot: u32,
    pub lease: Option<Lease>,
    pub used: u16,
    pub told: FlowTable,
    pub published: FlowTable,
    pub list: DemandList,
}

impl Node {
    /// A node in its first boot, with no lease.
    pub(crate) fn open(alloc: Global, endpoints: u16) -> Result<Node, NoMemory>
        ensures boot { IfOk result (λ node. node.boot ≡ 1) }
        ensures lease { IfOk result (λ node. node.lease ≡ None) }
        ensures used { IfOk result (λ node. node.used ≡ 0) }
        ensures told { IfOk result (λ node. node.told.endpoints ≡ endpoints) }
        ensures published { IfOk result (λ node. node.published.endpoints ≡ endpoints) }
        ensures room { IfOk result (λ node. endpoints * endpoints ≤ length node.list.items + node.list.spare) }
    {
        Ok(Node {
            boot: 1,
            lease: None,
            used: 0,
            told: FlowTable::open(alloc, endpoints)?,
            published: FlowTable::open(alloc, endpoints)?,
            list: DemandList::open(alloc, endpoints as usize * endpoints as usize)?,
        })
    }

    /// Why a node of this number refuses to take the lease, if it does.
    pub(crate) fn refuses(&self, number: u16, lease: Lease, span: u16) -> Option<Refusal>
        requires { IfSome self.now.lease (λ last. last.first + span < 2 ^ 32) }
        ensures { result ≡ lease_refusal_of number self.now.boot self.now.lease lease span }
    {
        if lease.holder.node != number {
            return Some(Refusal::NoMessage);
        }
        if lease.holder.boot != self.boot {
            return Some(Refusal::OldBoot);
        }
        match self.lease {
            Some(last) if lease.first < last.first + u32::from(span) => Some(Refusal::OldLease),
            _ => None,
        }
    }

    /// Takes a lease. In another generation than that of the last one nothing is told or published yet.
    pub(crate) fn take(&mut self, lease: Lease)
        ensures lease { self.new.lease ≡ Some lease }
        ensures used { self.new.used ≡ 0 }
        ensures boot { self.new.boot ≡ self.old.boot }
        ensures told { self.new.told.endpoints ≡ self.old.told.endpoints }
        ensures published { self.new.published.endpoints ≡ self.old.published.endpoints }
        ensures room { length self.new.list.items + self.new.list.spare ≡ length self.old.list.items + self.old.list.spare }
        ensures anew { IsOfNewGeneration self.old.lease lease → (self.new.list.items ≡ [])
            × ((src dst : ℕ) → cell self.new.told src dst ≡ 0) × ((src dst : ℕ) → cell self.new.published src dst ≡ 0) }
        ensures goes_on { (last : _) → self.old.lease ≡ Some last → last.generation ≡ lease.generation → (self.new.list ≡ self.old.list)
            × (self.new.told ≡ self.old.told) × (self.new.published ≡ self.old.published) }
    {
        match self.lease {
            Some(last) if last.generation == lease.generation => {}
            _ => self.forget(),
        }
        self.lease = Some(lease);
        self.used = 0;
    }

    /// Forgets what it was told and what it published.
    fn forget(&mut self)
        ensures lease { self.new.lease ≡ self.old.lease }
        ensures used { self.new.used ≡ self.old.used }
        ensures boot { self.new.boot ≡ self.old.boot }
        ensures told { self.new.told.endpoints ≡ self.old.told.endpoints }
        ensures published { self.new.published.endpoints ≡ self.old.published.endpoints }
        ensures room { length self.new.list.items + self.new.list.spare ≡ length self.old.list.items + self.old.list.spare }
        ensures list { self.new.list.items ≡ [] }
        ensures no_totals { (src dst : ℕ) → cell self.new.told src dst ≡ 0 }
        ensures none_published { (src dst : ℕ) → cell self.new.published src dst ≡ 0 }
    {
        self.list.clear();
        self.told.clear();
        self.published.clear();
    }

    /// Boots anew, and forgets all but the number of its boots.
    pub(crate) fn crash(&mut self)
        requires { self.old.boot + 1 < 2 ^ 32 }
        ensures boot { self.new.boot ≡ self.old.boot + 1 }
        ensures lease { self.new.lease ≡ None }
        ensures used { self.new.used ≡ 0 }
        ensures told { self.new.told ≡ self.old.told }
        ensures published { self.new.published ≡ self.old.published }
        ensures list { self.new.list ≡ self.old.list }
    {
        self.boot += 1;
        self.lease = None;
        self.used = 0;
    }

    /// Allocates the next batch, of this number, by greedy allocation, and counts it as published. The table has `b` slots.
    pub(crate) fn publish(
        &mut self,
        alloc: Global,
        endpoints: u16,
        number: u32,
        b: u8,
        turns: &mut Turns,
        slots: &mut SlotTable,
    ) -> Result<Batch, NoMemory>
        requires may { MayPublish endpoints self.old }
        requires used { self.old.used + 1 < 2 ^ 16 }
        requires number { number * b + b + 1 ≤ 2 ^ 32 }
        requires before { All (λ item. item.last < first_slot b number) self.old.list.items }
        requires turns { (turns.old.endpoints ≡ endpoints) × (turns.old.b ≡ b) }
        requires slots { length slots.old.slots ≡ b }
        requires endpoints { slots.old.endpoints ≡ endpoints }
        ensures batch { IfOk result (λ batch. batch ≡ next_of endpoints self.old) }
        ensures slots { OnOk result (slots.new.slots ≡ slots_then b number (next_of endpoints self.old) self.old.list.items) }
        ensures table { OnOk result (slots.new.endpoints ≡ endpoints) }
        ensures list { OnOk result (self.new.list.items ≡ list_then b number (next_of endpoints self.old) self.old.list.items) }
        ensures before { OnOk result (All (λ item. item.last < first_slot b (number + 1)) self.new.list.items) }
        ensures room { OnOk result (length self.new.list.items + self.new.list.spare ≡ length self.old.list.items + self.old.list.spare) }
        ensures turns { (turns.new.endpoints ≡ endpoints) × (turns.new.b ≡ b) }
        ensures published { OnOk result (self.new.published ≡ self.old.told) }
        ensures used { OnOk result (self.new.used ≡ self.old.used + 1) }
        ensures told { OnOk result (self.new.told ≡ self.old.told) }
        ensures boot { OnOk result (self.new.boot ≡ self.old.boot) }
        ensures lease { OnOk result (self.new.lease ≡ self.old.lease) }
    {
        let batch = batch_of(alloc, &self.told, &self.published, endpoints)?;
        let first_slot = number * u32::from(b) + 1;
        batch_by_turns(alloc, turns, &mut self.list, &batch, first_slot)?;
        slots.copy(turns.slots(), 0);
        self.published.copy(&self.told);
        self.used += 1;
        Ok(batch)
    }
}
