ghost use Rattle.std.specs.Prelude.{◌≡◌, ◌<◌, ◌+◌, ◌^◌, ℕ, IfOk, if◌then◌else◌};
ghost use Rattle.greedy_rules.specs.declared.flows.Flow.{Flow};
ghost use Rattle.greedy_rules.specs.Flows.{same_flow};
ghost use Rattle.schedule_audit.specs.FlowNumbers.{flow_number_of};

use greedy_rules::Flow;
use no_memory::NoMemory;
use std::alloc::Global;
use std::marker::Model;

/// How often each flow between so many endpoints came, in 32 bits; 0 for any other flow.
#[derive(Drop)]
pub(crate) struct FlowCounts {
    endpoints: u16,
    cells: Vec<u32>,
}

impl Model for FlowCounts {
    ghost use Rattle.std.specs.Prelude.{◌≡◌, ◌*◌, length};
    ghost use Rattle.schedule_audit.specs.FlowNumbers.{Numbers};

    ghost Value = { Numbers };

    ghost view = { λ counts. record { endpoints = counts.endpoints; cells = counts.cells.items } };

    ghost invariant = { λ counts. length counts.cells.items ≡ counts.endpoints * counts.endpoints };
}

impl FlowCounts {
    pub(crate) fn open(alloc: Global, endpoints: u16) -> Result<FlowCounts, NoMemory>
        ensures zero { IfOk result (λ counts. (flow : Flow) → flow_number_of counts flow ≡ 0) }
        ensures endpoints { IfOk result (λ counts. counts.endpoints ≡ endpoints) }
    {
        let pairs = endpoints as usize * endpoints as usize;
        Ok(FlowCounts {
            endpoints,
            cells: vec![in alloc; 0; pairs]?,
        })
    }

    pub(crate) fn get(&self, flow: Flow) -> u64
        ensures { result ≡ flow_number_of self.now flow }
    {
        if flow.src >= self.endpoints || flow.dst >= self.endpoints {
            return 0;
        }
        u64::from(self.cells[flow.src as usize * self.endpoints as usize + flow.dst as usize])
    }

    /// Counts the flow once more.
    pub(crate) fn count(&mut self, flow: Flow)
        requires src { flow.src < self.old.endpoints }
        requires dst { flow.dst < self.old.endpoints }
        requires few { flow_number_of self.old flow + 1 < 2 ^ 32 }
        ensures numbers { (other : Flow) → flow_number_of self.new other ≡ (if same_flow flow other then flow_number_of self.old flow + 1 else flow_number_of self.old other) }
        ensures endpoints { self.new.endpoints ≡ self.old.endpoints }
    {
        let place = flow.src as usize * self.endpoints as usize + flow.dst as usize;
        self.cells[place] += 1;
    }
}
