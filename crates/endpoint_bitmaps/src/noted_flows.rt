ghost use Rattle.std.specs.Prelude.{◌≡◌, ◌∷◌, ◌++◌, [], ℕ, IfOk, length, replicate, take, vec_capacity};
ghost use Rattle.greedy_rules.specs.declared.flows.Flow.{Flow};
ghost use Rattle.endpoint_bitmaps.specs.Noted.{AreEnds, NotesTaken};

use greedy_rules::Flow;
use no_memory::NoMemory;
use std::alloc::Global;

/// The flows that took slots since all words of the maps were `free`. Where there is no room for one more, not all may be here.
#[derive(Debug, Drop)]
pub(crate) struct NotedFlows {
    pub(crate) free: u64,
    pub(crate) flows: Vec<Flow>,
}

/// How many flows are noted at most.
const MOST_NOTED: usize = 64;

impl NotedFlows {
    /// No flow, in maps whose words are all 0.
    pub(crate) fn open(alloc: Global) -> Result<NotedFlows, NoMemory>
        ensures { IfOk result (λ noted. (endpoints : ℕ) → NotesTaken (vec_capacity noted.flows) noted.free noted.flows.items (replicate endpoints 0) (replicate endpoints 0)) }
    {
        Ok(NotedFlows {
            free: 0,
            flows: Vec::with_capacity(alloc, MOST_NOTED)?,
        })
    }

    /// Notes a flow, where there is room for it.
    pub(crate) fn note(&mut self, flow: Flow)
        ensures free { self.new.free ≡ self.old.free }
        ensures room { vec_capacity self.new.flows ≡ vec_capacity self.old.flows }
        ensures flows { self.new.flows.items ≡ take (vec_capacity self.old.flows) (self.old.flows.items ++ flow ∷ []) }
    {
        if self.flows.len() < self.flows.capacity() {
            self.flows.push_reserved(flow);
        }
    }

    /// Makes every word of the maps this one, and notes no flow any more.
    pub(crate) fn free_all(&mut self, senders: &mut [u64], receivers: &mut [u64], free: u64)
        requires noted { NotesTaken (vec_capacity self.old.flows) self.old.free self.old.flows.items senders.old receivers.old }
        ensures senders { senders.new ≡ replicate (length senders.old) free }
        ensures receivers { receivers.new ≡ replicate (length receivers.old) free }
        ensures noted { NotesTaken (vec_capacity self.new.flows) self.new.free self.new.flows.items senders.new receivers.new }
    {
        if free == self.free && self.flows.len() < self.flows.capacity() {
            give_back(senders, receivers, &self.flows, free);
        } else {
            senders.fill(free);
            receivers.fill(free);
        }
        self.free = free;
        self.flows.clear();
    }
}

/// Makes every word this one, where only those of the ends of these flows are others.
fn give_back(senders: &mut [u64], receivers: &mut [u64], flows: &[Flow], free: u64)
    requires ends { AreEnds free flows.now senders.old receivers.old }
    ensures senders { senders.new ≡ replicate (length senders.old) free }
    ensures receivers { receivers.new ≡ replicate (length receivers.old) free }
{
    for flow in flows {
        senders[flow.src as usize] = free;
        receivers[flow.dst as usize] = free;
    }
}
