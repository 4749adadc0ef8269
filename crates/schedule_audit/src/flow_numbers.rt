ghost use Rattle.std.specs.Prelude.{◌≡◌, ◌<◌, ℕ, IfOk, if◌then◌else◌};
ghost use Rattle.greedy_rules.specs.declared.flows.Flow.{Flow};
ghost use Rattle.greedy_rules.specs.Flows.{same_flow};
ghost use Rattle.schedule_audit.specs.FlowNumbers.{flow_number_of};

use greedy_rules::Flow;
use no_memory::NoMemory;
use std::alloc::Global;
use std::marker::Model;

/// A number for each flow between so many endpoints, 0 at first; that of any other flow is 0.
#[derive(Drop)]
pub(crate) struct FlowNumbers {
    endpoints: u16,
    cells: Vec<u64>,
}

impl Model for FlowNumbers {
    ghost use Rattle.std.specs.Prelude.{◌≡◌, ◌*◌, length};
    ghost use Rattle.schedule_audit.specs.FlowNumbers.{Numbers};

    ghost Value = { Numbers };

    ghost view = { λ numbers. record { endpoints = numbers.endpoints; cells = numbers.cells.items } };

    ghost invariant = { λ numbers. length numbers.cells.items ≡ numbers.endpoints * numbers.endpoints };
}

impl FlowNumbers {
    pub(crate) fn open(alloc: Global, endpoints: u16) -> Result<FlowNumbers, NoMemory>
        ensures zero { IfOk result (λ numbers. (flow : Flow) → flow_number_of numbers flow ≡ 0) }
        ensures endpoints { IfOk result (λ numbers. numbers.endpoints ≡ endpoints) }
    {
        let pairs = endpoints as usize * endpoints as usize;
        Ok(FlowNumbers {
            endpoints,
            cells: vec![in alloc; 0; pairs]?,
        })
    }

    pub(crate) fn get(&self, flow: Flow) -> u64
        ensures { result ≡ flow_number_of self.now flow }
    {
        if flow.src >= self.endpoints || flow.dst >= self.endpoints {
            return 0;
        }
        self.cells[flow.src as usize * self.endpoints as usize + flow.dst as usize]
    }

    pub(crate) fn set(&mut self, flow: Flow, number: u64)
        requires src { flow.src < self.old.endpoints }
        requires dst { flow.dst < self.old.endpoints }
        ensures numbers { (other : Flow) → flow_number_of self.new other ≡ (if same_flow flow other then number else flow_number_of self.old other) }
        ensures endpoints { self.new.endpoints ≡ self.old.endpoints }
    {
        let place = flow.src as usize * self.endpoints as usize + flow.dst as usize;
        self.cells[place] = number;
    }
}
