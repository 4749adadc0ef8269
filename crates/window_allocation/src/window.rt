ghost use Rattle.std.specs.Prelude.{◌≡◌, ◌↔◌, IsTrue, IfOk};
ghost use Rattle.window_allocation.specs.Windows.{HasTables};

use greedy_rules::SlotTable;
use no_memory::NoMemory;
use path_workers::CoreTable;
use std::alloc::Global;
use std::marker::Model;

/// So many batches from this one on, or rounds.
#[derive(Clone, Copy, Debug, PartialEq, Eq)]
pub struct Span {
    pub first: u32,
    pub count: u32,
}

/// The slots of some batches, one after the other, and the cores of their packets.
#[derive(Drop)]
pub struct Window {
    pub(crate) span: Span,
    pub(crate) slots: SlotTable,
    pub(crate) cores: CoreTable,
}

impl Model for Window {
    ghost use Rattle.window_allocation.specs.Windows.{WindowContent};

    ghost Value = { WindowContent };

    ghost view = { λ w. record { span = w.span; slots = w.slots; cores = w.cores } };
}

impl Window {
    /// A window of no batch, with tables for so many slots of so many endpoints.
    pub(crate) fn open(alloc: Global, slots: u16, endpoints: u16) -> Result<Window, NoMemory>
        ensures { IfOk result (HasTables slots endpoints) }
    {
        Ok(Window {
            span: Span { first: 0, count: 0 },
            slots: SlotTable::open(alloc, slots, endpoints)?,
            cores: CoreTable::open(alloc, slots, endpoints)?,
        })
    }

    /// Whether its tables are for just so many slots of so many endpoints.
    pub(crate) fn has_tables(&self, slots: u16, endpoints: u16) -> bool
        ensures { IsTrue result ↔ HasTables slots endpoints self.now }
    {
        self.slots.slots() == slots
            && self.slots.endpoints() == endpoints
            && self.cores.slots() == slots
            && self.cores.endpoints() == endpoints
    }

    /// Which batches these are.
    pub fn span(&self) -> Span
        ensures { result ≡ self.now.span }
    {
        self.span
    }

    /// Their slots: slot i of batch s, both counted from 0, stands at place `s * b + i`.
    pub fn slots(&self) -> &SlotTable
        ensures { result.now ≡ self.now.slots }
    {
        &self.slots
    }

    /// The cores of these slots, at the same places.
    pub fn cores(&self) -> &CoreTable
        ensures { result.now ≡ self.now.cores }
    {
        &self.cores
    }
}
