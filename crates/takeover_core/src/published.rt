ghost use Rattle.std.specs.Prelude.{◌≡◌, ◌==◌, ◌&&◌, ◌||◌, nat_eq, false, ℕ, [], None, Some, OnOk, option_copied, if◌then◌else◌};
ghost use Rattle.takeover_core.specs.Published.{issue_in, is_heard};
ghost use Rattle.takeover_core.specs.declared.published.Issued.{Issued as IssuedBatch};

use greedy_rules::{Batch, Limits, SlotTable};
use no_memory::NoMemory;
use std::alloc::Global;
use std::collections::{HashMap, HashSet};

/// A published batch: its generation, its entries and its slots.
#[derive(Drop)]
pub(crate) struct Issued {
    pub generation: u32,
    pub batch: Batch,
    pub slots: SlotTable,
}

/// The batches that are published, by their numbers, the number of the last one, and which endpoint heard which.
#[derive(Drop)]
pub(crate) struct Published {
    pub batches: HashMap<u32, Issued>,
    pub heard: HashSet<(u16, u32)>,
}

impl Published {
    pub(crate) fn new(alloc: Global) -> Published
        ensures none { (number : ℕ) → issue_in result number ≡ None }
        ensures unheard { (src number : ℕ) → is_heard result src number ≡ false }
    {
        Published {
            batches: HashMap::new(alloc),
            heard: HashSet::new(alloc),
        }
    }

    /// The batch of this number; None where it is not published.
    pub(crate) fn get(&self, number: u32) -> Option<&Issued>
        ensures { option_copied result ≡ issue_in self.now number }
    {
        self.batches.get(&number)
    }

    /// Publishes a batch.
    pub(crate) fn publish(&mut self, number: u32, issued: Issued) -> Result<(), NoMemory>
        ensures batches { OnOk result ((n : ℕ) → issue_in self.new n ≡ (if number == n then Some issued else issue_in self.old n)) }
        ensures heard { OnOk result ((src n : ℕ) → is_heard self.new src n ≡ is_heard self.old src n) }
    {
        self.batches.insert(number, issued)?;
        Ok(())
    }

    /// Whether the endpoint heard the batch.
    pub(crate) fn has_heard(&self, src: u16, number: u32) -> bool
        ensures { result ≡ is_heard self.now src number }
    {
        self.heard.contains(&(src, number))
    }

    /// Notes that the endpoint heard the batch.
    pub(crate) fn hear(&mut self, src: u16, number: u32) -> Result<(), NoMemory>
        ensures batches { OnOk result ((n : ℕ) → issue_in self.new n ≡ issue_in self.old n) }
        ensures heard { OnOk result ((s n : ℕ) → is_heard self.new s n ≡ (((src == s) && (number == n)) || is_heard self.old s n)) }
    {
        self.heard.insert((src, number))?;
        Ok(())
    }
}
