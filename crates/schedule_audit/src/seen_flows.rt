ghost use Rattle.std.specs.Prelude.{◌≡◌, ◌<◌, ℕ, IfOk, if◌then◌else◌};
ghost use Rattle.greedy_rules.specs.declared.flows.Flow.{Flow};
ghost use Rattle.greedy_rules.specs.Flows.{same_flow};
ghost use Rattle.schedule_audit.specs.FlowNumbers.{flow_number_of};

use greedy_rules::Flow;
use no_memory::NoMemory;
use std::alloc::Global;
use std::marker::Model;

/// For each flow between so many endpoints 1 where it was seen, and 0 where not; 0 for any other flow. A byte each, so that the
/// table stays near the processor.
#[derive(Drop)]
pub(crate) struct SeenFlows {
    endpoints: u16,
    cells: Vec<u8>,
}

impl Model for SeenFlows {
    ghost use Rattle.std.specs.Prelude.{◌≡◌, ◌*◌, length};
    ghost use Rattle.schedule_audit.specs.FlowNumbers.{Numbers};

    ghost Value = { Numbers };

    ghost view = { λ seen. record { endpoints = seen.endpoints; cells = seen.cells.items } };

    ghost invariant = { λ seen. length seen.cells.items ≡ seen.endpoints * seen.endpoints };
}

impl SeenFlows {
    pub(crate) fn open(alloc: Global, endpoints: u16) -> Result<SeenFlows, NoMemory>
        ensures zero { IfOk result (λ seen. (flow : Flow) → flow_number_of seen flow ≡ 0) }
        ensures endpoints { IfOk result (λ seen. seen.endpoints ≡ endpoints) }
    {
        let pairs = endpoints as usize * endpoints as usize;
        Ok(SeenFlows {
            endpoints,
            cells: vec![in alloc; 0; pairs]?,
        })
    }

    pub(crate) fn get(&self, flow: Flow) -> u8
        ensures { result ≡ flow_number_of self.now flow }
    {
        if flow.src >= self.endpoints || flow.dst >= self.endpoints {
            return 0;
        }
        self.cells[flow.src as usize * self.endpoints as usize + flow.dst as usize]
    }

    pub(crate) fn see(&mut self, flow: Flow)
        requires src { flow.src < self.old.endpoints }
        requires dst { flow.dst < self.old.endpoints }
        ensures numbers { (other : Flow) → flow_number_of self.new other ≡ (if same_flow flow other then 1 else flow_number_of self.old other) }
        ensures endpoints { self.new.endpoints ≡ self.old.endpoints }
    {
        let place = flow.src as usize * self.endpoints as usize + flow.dst as usize;
        self.cells[place] = 1;
    }
}
