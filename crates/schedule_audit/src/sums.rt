ghost use Rattle.std.specs.Prelude.{◌≡◌, ◌<◌, ◌+◌, ◌^◌, ◌==◌, ◌&&◌, ℕ, Some, None, IfOk, if◌then◌else◌};
ghost use Rattle.schedule_audit.specs.Standing.{sum_of};

use no_memory::NoMemory;
use std::alloc::Global;
use std::marker::Model;

/// A sum, or none, for each flow between so many endpoints; none at first. A cell holds one more than its sum, and 0 for none.
#[derive(Drop)]
pub(crate) struct FlowSums {
    endpoints: u16,
    cells: Vec<u32>,
}

impl Model for FlowSums {
    ghost use Rattle.std.specs.Prelude.{◌≡◌, ◌*◌, length, map};
    ghost use Rattle.schedule_audit.specs.Standing.{Sums, sum_in};

    ghost Value = { Sums };

    ghost view = { λ sums. record { endpoints = sums.endpoints; cells = map sum_in sums.cells.items } };

    ghost invariant = { λ sums. length sums.cells.items ≡ sums.endpoints * sums.endpoints };
}

impl FlowSums {
    pub(crate) fn open(alloc: Global, endpoints: u16) -> Result<FlowSums, NoMemory>
        ensures none { IfOk result (λ sums. (src dst : ℕ) → sum_of sums src dst ≡ None) }
        ensures endpoints { IfOk result (λ sums. sums.endpoints ≡ endpoints) }
    {
        let pairs = endpoints as usize * endpoints as usize;
        Ok(FlowSums {
            endpoints,
            cells: vec![in alloc; 0; pairs]?,
        })
    }

    pub(crate) fn endpoints(&self) -> u16
        ensures { result ≡ self.now.endpoints }
    {
        self.endpoints
    }

    pub(crate) fn get(&self, src: u16, dst: u16) -> Option<u32>
        requires src { src < self.now.endpoints }
        requires dst { dst < self.now.endpoints }
        ensures { result ≡ sum_of self.now src dst }
    {
        match self.cells[src as usize * self.endpoints as usize + dst as usize] {
            0 => None,
            more => Some(more - 1),
        }
    }

    pub(crate) fn set(&mut self, src: u16, dst: u16, sum: u32)
        requires src { src < self.old.endpoints }
        requires dst { dst < self.old.endpoints }
        requires fits { sum + 1 < 2 ^ 32 }
        ensures cells { (s d : ℕ) → d < self.old.endpoints → sum_of self.new s d ≡ (if (src == s) && (dst == d) then Some sum else sum_of self.old s d) }
        ensures endpoints { self.new.endpoints ≡ self.old.endpoints }
    {
        let place = src as usize * self.endpoints as usize + dst as usize;
        self.cells[place] = sum + 1;
    }
}
