ghost use Rattle.std.specs.Prelude.{◌≡◌, ◌<◌, ◌↔◌, List, [], ◌∷◌, ◌++◌, length, IsTrue, OnOk, OnErr, true, All, slice_get};
ghost use Rattle.greedy_rules.specs.declared.flows.Entry.{Entry};
ghost use Rattle.greedy_rules.specs.Batches.{DemandBatch, IsBatch, IsAboveLast, entry_of};
ghost use Rattle.greedy_rules.specs.Limits.{AreLimits};

use crate::flows::{Entry, Flow};
use crate::limits::Limits;
use no_memory::NoMemory;
use std::alloc::Global;
use std::marker::Model;

/// The entries of one round, strictly rising by flow, and the limits of its slots, each 1 to 64.
#[derive(Debug, Drop)]
pub struct Batch {
    entries: Vec<Entry>,
    limits: Limits,
}

impl Model for Batch {
    ghost Value = { DemandBatch };

    ghost view = { λ b. record { entries = b.entries.items; limits = b.limits } };

    ghost invariant = { λ b. IsBatch b.entries.items × AreLimits b.limits };
}

impl Batch {
    /// No entries yet, in racks of these limits.
    pub fn with_limits(alloc: Global, limits: Limits) -> Batch
        requires { AreLimits limits }
        ensures { result ≡ record { entries = []; limits = limits } }
    {
        Batch {
            entries: Vec::new(alloc),
            limits,
        }
    }

    /// Appends an entry, whose flow is above that of the last one.
    pub fn push(&mut self, entry: Entry) -> Result<(), NoMemory>
        requires { IsAboveLast self.old.entries entry.flow }
        ensures ok { OnOk result (self.new.entries ≡ self.old.entries ++ entry ∷ []) }
        ensures err { OnErr result (self.new.entries ≡ self.old.entries) }
        ensures limits { self.new.limits ≡ self.old.limits }
    {
        self.entries.push(entry)?;
        Ok(())
    }

    /// The hosts of each rack, and the cores.
    pub fn limits(&self) -> Limits
        ensures limits { result ≡ self.now.limits }
        ensures sizes { AreLimits self.now.limits }
    {
        self.limits
    }

    pub fn len(&self) -> usize
        ensures entries { result ≡ length self.now.entries }
        ensures rising { IsBatch self.now.entries }
    {
        self.entries.len()
    }

    pub fn is_empty(&self) -> bool
        ensures { IsTrue result ↔ (self.now.entries ≡ []) }
    {
        self.entries.is_empty()
    }

    /// Whether every entry opens its flow.
    pub fn only_opens(&self) -> bool
        ensures { IsTrue result ↔ All (λ entry. entry.opens ≡ true) self.now.entries }
    {
        self.entries.iter().all(|entry| entry.opens)
    }

    pub fn entry(&self, at: usize) -> Entry
        requires { at < length self.now.entries }
        ensures { slice_get self.now.entries at ≡ Some result }
    {
        self.entries[at]
    }

    /// The entry of a flow, by halving; None where there is none.
    pub fn find(&self, flow: Flow) -> Option<Entry>
        ensures { result ≡ entry_of self.now.entries flow }
    {
        match self.entries.binary_search_by_key(&flow, |entry| entry.flow) {
            Ok(at) => Some(self.entries[at]),
            Err(_) => None,
        }
    }
}
