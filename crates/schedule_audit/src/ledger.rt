//! What is kept of each flow while the batches of a text go by.
ghost use Rattle.std.specs.Prelude.{◌≡◌, ◌<◌, ◌≤◌, ◌+◌, ◌^◌, ◌&&◌, ℕ, [], IfOk, if◌then◌else◌};
ghost use Rattle.greedy_rules.specs.declared.flows.Flow.{Flow};
ghost use Rattle.greedy_rules.specs.Flows.{same_flow};
ghost use Rattle.greedy_rules.specs.Matching.{AreAmong};
ghost use Rattle.schedule_audit.specs.FlowNumbers.{flow_number_of};
ghost use Rattle.schedule_audit.specs.Entered.{Enters, AreSized, LedgerStands};

use crate::flow_counts::FlowCounts;
use crate::flow_numbers::FlowNumbers;
use crate::seen_flows::SeenFlows;
use greedy_rules::{Batch, Entry};
use no_memory::NoMemory;
use std::alloc::Global;

/// For each flow: 1 where a batch has it, what its entries added, and how many slots it had at its last clear.
#[derive(Drop)]
pub(crate) struct Ledger {
    pub(crate) seen: SeenFlows,
    pub(crate) added: FlowNumbers,
    pub(crate) cleared: FlowNumbers,
}

impl Ledger {
    pub(crate) fn open(alloc: Global, endpoints: u16) -> Result<Ledger, NoMemory>
        ensures stands { IfOk result (λ ledger. (b : ℕ) → LedgerStands b [] ledger) }
        ensures sized { IfOk result (AreSized endpoints) }
    {
        Ok(Ledger {
            seen: SeenFlows::open(alloc, endpoints)?,
            added: FlowNumbers::open(alloc, endpoints)?,
            cleared: FlowNumbers::open(alloc, endpoints)?,
        })
    }

    /// Enters what a batch records of one flow, which had so many slots before it.
    fn enter_one(&mut self, entry: Entry, slots: &FlowCounts)
        requires seen { entry.flow.src < self.old.seen.endpoints }
        requires sized { AreSized self.old.seen.endpoints self.old }
        requires dst { entry.flow.dst < self.old.seen.endpoints }
        requires few { flow_number_of self.old.added entry.flow + entry.add < 2 ^ 64 }
        ensures seen { (other : Flow) → flow_number_of self.new.seen other ≡ (if same_flow entry.flow other then 1 else flow_number_of self.old.seen other) }
        ensures added { (other : Flow) → flow_number_of self.new.added other ≡ (if same_flow entry.flow other then flow_number_of self.old.added entry.flow + entry.add else flow_number_of self.old.added other) }
        ensures cleared { (other : Flow) → flow_number_of self.new.cleared other ≡ (if entry.clear && same_flow entry.flow other then flow_number_of slots.now entry.flow else flow_number_of self.old.cleared other) }
        ensures sized { AreSized self.old.seen.endpoints self.new }
        ensures small { entry.add ≤ 4294967295 }
    {
        self.seen.see(entry.flow);
        let before = self.added.get(entry.flow);
        self.added.set(entry.flow, before + u64::from(entry.add));
        if entry.clear {
            self.cleared.set(entry.flow, slots.get(entry.flow));
        }
    }

    /// Enters a batch, before which each flow had so many slots.
    pub(crate) fn enter(&mut self, batch: &Batch, slots: &FlowCounts)
        requires in_range { AreAmong self.old.seen.endpoints batch.now.entries }
        requires sized { AreSized self.old.seen.endpoints self.old }
        requires few { (flow : Flow) → flow_number_of self.old.added flow < 2 ^ 63 }
        ensures enters { Enters batch.now.entries slots.now self.old self.new }
        ensures sized { AreSized self.old.seen.endpoints self.new }
    {
        for at in 0..batch.len() {
            let entry = batch.entry(at);
            self.enter_one(entry, slots);
        }
    }
}
