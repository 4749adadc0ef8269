ghost use Rattle.std.specs.Prelude.{◌≡◌, ◌<◌, ◌≤◌, ◌+◌, ◌*◌, ◌^◌, ◌==◌, ◌&&◌, ℕ, length, IfOk, if◌then◌else◌};
ghost use Rattle.takeover_core.specs.Cells.{cell};

use no_memory::NoMemory;
use std::alloc::Global;
use std::marker::Model;

/// A number for each flow between so many endpoints, 0 at first.
#[derive(Drop)]
pub(crate) struct FlowTable {
    endpoints: u16,
    cells: Vec<u32>,
}

impl Model for FlowTable {
    ghost use Rattle.std.specs.Prelude.{◌≡◌, ◌*◌, length};
    ghost use Rattle.takeover_core.specs.Cells.{CellsContent};

    ghost Value = { CellsContent };

    ghost view = { λ table. record { endpoints = table.endpoints; cells = table.cells.items } };

    ghost invariant = { λ table. length table.cells.items ≡ table.endpoints * table.endpoints };
}

impl FlowTable {
    pub(crate) fn open(alloc: Global, endpoints: u16) -> Result<FlowTable, NoMemory>
        ensures zero { IfOk result (λ table. (src dst : ℕ) → cell table src dst ≡ 0) }
        ensures endpoints { IfOk result (λ table. table.endpoints ≡ endpoints) }
    {
        let pairs = endpoints as usize * endpoints as usize;
        Ok(FlowTable {
            endpoints,
            cells: vec![in alloc; 0; pairs]?,
        })
    }

    pub(crate) fn endpoints(&self) -> u16
        ensures { result ≡ self.now.endpoints }
    {
        self.endpoints
    }

    pub(crate) fn get(&self, src: u16, dst: u16) -> u32
        requires src { src < self.now.endpoints }
        requires dst { dst < self.now.endpoints }
        ensures { result ≡ cell self.now src dst }
    {
        self.cells[src as usize * self.endpoints as usize + dst as usize]
    }

    pub(crate) fn set(&mut self, src: u16, dst: u16, number: u32)
        requires src { src < self.old.endpoints }
        requires dst { dst < self.old.endpoints }
        ensures cells { (s d : ℕ) → d < self.old.endpoints → cell self.new s d ≡ (if (src == s) && (dst == d) then number else cell self.old s d) }
        ensures endpoints { self.new.endpoints ≡ self.old.endpoints }
    {
        let place = src as usize * self.endpoints as usize + dst as usize;
        self.cells[place] = number;
    }

    /// Makes every number 0.
    pub(crate) fn clear(&mut self)
        ensures zero { (src dst : ℕ) → cell self.new src dst ≡ 0 }
        ensures endpoints { self.new.endpoints ≡ self.old.endpoints }
    {
        self.cells.fill(0);
    }

    /// Takes all numbers of a table for as many endpoints.
    pub(crate) fn copy(&mut self, from: &FlowTable)
        requires { from.now.endpoints ≡ self.old.endpoints }
        ensures { self.new ≡ from.now }
    {
        self.cells.copy_from_slice(&from.cells);
    }
}
