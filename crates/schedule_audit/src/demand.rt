//! The demand that the batches of a text leave, served batch after batch by one stage.
ghost use Rattle.std.specs.Prelude.{◌≡◌, ◌≤◌, ◌+◌, ◌^◌, [], IfOk};
ghost use Rattle.greedy_rules.specs.Limits.{is_barred};
ghost use Rattle.greedy_rules.specs.Demands.{after_batch};
ghost use Rattle.greedy_rules.specs.Allocation.{batch_slots, list_after_slots};
ghost use Rattle.greedy_rules.specs.Recorded.{Applies};
ghost use Rattle.slot_batches.specs.NextList.{IsListBefore};

use greedy_rules::{Batch, DemandList, Flow, Item, SlotTable, flows_fit_pairs};
use item_chain::Chain;
use no_memory::NoMemory;
use slot_batches::{Stage, every_batch_leaves_a_list, lists_may_be_fed};
use std::alloc::Global;
use std::marker::Model;
use std::mem;

/// A demand list, the stage that serves it with its nodes, and room for the list that a batch leaves.
#[derive(Drop)]
pub(crate) struct Demand {
    list: DemandList,
    left: DemandList,
    stage: Stage,
    spare: Chain<Item>,
}

impl Model for Demand {
    ghost use Rattle.std.specs.Prelude.{◌≡◌, ◌<◌, ◌≤◌, ◌+◌, ◌-◌, ◌*◌, ◌^◌, length};
    ghost use Rattle.slot_batches.specs.Stands.{stage_endpoints, batch_size_of, stage_slots};
    ghost use Rattle.schedule_audit.specs.Demanded.{Demanded};

    ghost Value = { Demanded };

    ghost view = { λ d. record { endpoints = stage_endpoints d.stage; b = batch_size_of d.stage; items = d.list.items; slots = stage_slots d.stage } };

    ghost invariant = { λ d. (stage_endpoints d.stage ≤ 256)
        × (d.stage.nodes ≡ 0)
        × (length d.spare ≡ stage_endpoints d.stage * (stage_endpoints d.stage - 1))
        × (stage_endpoints d.stage * (stage_endpoints d.stage - 1) ≤ length d.list.items + d.list.spare)
        × (stage_endpoints d.stage * (stage_endpoints d.stage - 1) ≤ length d.left.items + d.left.spare) };
}

impl Demand {
    /// No demand, for batches of `b` slots between so many endpoints.
    pub(crate) fn open(alloc: Global, endpoints: u16, b: u8) -> Result<Demand, NoMemory>
        requires endpoints { endpoints ≤ 256 }
        requires b { b ≤ 64 }
        ensures endpoints { IfOk result (λ demand. demand.endpoints ≡ endpoints) }
        ensures b { IfOk result (λ demand. demand.b ≡ b) }
        ensures empty { IfOk result (λ demand. demand.items ≡ []) }
    {
        let pairs = endpoints as usize * (endpoints as usize).saturating_sub(1);
        // As much room as the stage has for what waits: so lists change hands and are not copied.
        let room = endpoints as usize * endpoints as usize;
        let mut spare = Chain::new(alloc);
        let blank = Item {
            flow: Flow { src: 0, dst: 0 },
            need: 0,
            last: 0,
        };
        spare.fill(pairs, blank)?;
        Ok(Demand {
            list: DemandList::open(alloc, room)?,
            left: DemandList::open(alloc, room)?,
            stage: Stage::open(alloc, endpoints, b)?,
            spare,
        })
    }

    /// Applies the batch, whose first slot has this number, and gives it its slots.
    pub(crate) fn serve(&mut self, batch: &Batch, first_slot: u32)
        requires applies { Applies self.old.endpoints batch.now self.old.items }
        requires before { IsListBefore first_slot self.old.items }
        requires first { 1 ≤ first_slot }
        requires numbers { first_slot + self.old.b ≤ 2 ^ 32 }
        ensures list { self.new.items ≡ list_after_slots (is_barred batch.now.limits) first_slot self.old.b (after_batch batch.now.entries self.old.items) }
        ensures slots { self.new.slots ≡ batch_slots (is_barred batch.now.limits) first_slot self.old.b (after_batch batch.now.entries self.old.items) }
        ensures endpoints { self.new.endpoints ≡ self.old.endpoints }
        ensures b { self.new.b ≡ self.old.b }
    {
        lists_may_be_fed();
        every_batch_leaves_a_list();
        flows_fit_pairs();
        self.left.clear();
        self.stage.begin(batch, 0, first_slot, &mut self.spare);
        self.stage
            .serve_list(batch, self.list.items(), &mut self.left, &mut self.spare);
        mem::swap(&mut self.list, &mut self.left);
    }

    /// The demand that is left.
    pub(crate) fn list(&self) -> &DemandList
        ensures { result.now.items ≡ self.now.items }
    {
        &self.list
    }

    /// The slots of the last batch, counted from 0.
    pub(crate) fn slots(&self) -> &SlotTable
        ensures slots { result.now.slots ≡ self.now.slots }
        ensures endpoints { result.now.endpoints ≡ self.now.endpoints }
    {
        self.stage.slots()
    }
}
