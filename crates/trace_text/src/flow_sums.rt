// The asks of a round, summed by flow.
ghost use Rattle.std.specs.Prelude.{◌≡◌, ◌+◌, ◌<◌, ◌≤◌, ◌^◌, ℕ, length, slice_index, sum_by, All, IfOk, OnOk, true};
ghost use Rattle.std.specs.List.{slice_set};
ghost use Rattle.trace_text.specs.Asks.{slots_asked, IsAmong};
ghost use Rattle.trace_text.specs.FlowSums.{flow_number, held_sum, holds_none, IsTidy, HoldsAmong};

use crate::ask::Ask;
use line_marks::Marks;
use no_memory::NoMemory;
use std::alloc::{AllocError, Global};

const ENDPOINTS: usize = 256;

const FLOWS: usize = 65_536;

/// The slots that are asked for in one round, summed by flow.
#[derive(Drop)]
pub struct FlowSums {
    round: u32,
    // By source and then destination.
    slots: Vec<u32>,
    // The sources of which a sum is not 0 are among these.
    sources: Marks,
    // For each source, the destinations for which its sum is not 0.
    destinations: Vec<Marks>,
}

/// The asks as one a flow for each run of one round, by source and then destination; the runs stay in their order.
pub fn sum_rounds(alloc: Global, asks: &[Ask]) -> Result<Vec<Ask>, AllocError>
    requires small { All (IsAmong 256) asks.now }
    requires bounded { (round src dst : ℕ) → sum_by (slots_asked round src dst) asks.now < 2 ^ 32 }
    ensures among { IfOk result (λ summed. (endpoints : ℕ) → All (IsAmong endpoints) asks.now → All (IsAmong endpoints) summed.items) }
    ensures sums { IfOk result (λ summed. (round src dst : ℕ) → sum_by (slots_asked round src dst) summed.items ≡ sum_by (slots_asked round src dst) asks.now) }
{
    let mut sums = FlowSums::new(alloc)?;
    let mut summed = Vec::with_capacity(alloc, asks.len())?;
    for ask in asks {
        sums.turn_to(ask.round, &mut summed)?;
        sums.add(ask);
    }
    sums.drain_into(&mut summed)?;
    Ok(summed)
}

impl FlowSums {
    pub fn new(alloc: Global) -> Result<FlowSums, AllocError>
        ensures tidy { IfOk result IsTidy }
        ensures none { IfOk result holds_none }
    {
        let mut destinations = Vec::with_capacity(alloc, ENDPOINTS)?;
        for _ in 0..ENDPOINTS {
            destinations.push(Marks::new())?;
        }
        Ok(FlowSums {
            round: 0,
            slots: vec![in alloc; 0; FLOWS]?,
            sources: Marks::new(),
            destinations,
        })
    }

    /// Goes on with this round, where it is another one, and hands out what the last one asked for.
    pub fn turn_to(&mut self, round: u32, summed: &mut Vec<Ask>) -> Result<(), AllocError>
        requires tidy { IsTidy self.old }
        ensures tidy { OnOk result (IsTidy self.new) }
        ensures round { OnOk result (self.new.round ≡ round) }
        ensures among { (endpoints : ℕ) → All (IsAmong endpoints) summed.old.items → HoldsAmong endpoints self.old → OnOk result (All (IsAmong endpoints) summed.new.items × HoldsAmong endpoints self.new) }
        ensures sums { (round src dst : ℕ) → OnOk result (sum_by (slots_asked round src dst) summed.new.items + held_sum self.new round src dst ≡ sum_by (slots_asked round src dst) summed.old.items + held_sum self.old round src dst) }
    {
        if round == self.round {
            return Ok(());
        }
        self.drain_into(summed)?;
        self.round = round;
        Ok(())
    }

    /// Whether the asks are of this round.
    pub fn is_of(&self, round: u32) -> bool
        ensures { result ≡ true → self.now.round ≡ round }
    {
        self.round == round
    }

    /// Adds the slots of an ask of the round to those of its flow.
    pub fn add(&mut self, ask: &Ask)
        requires tidy { IsTidy self.old }
        requires round { ask.now.round ≡ self.old.round }
        requires small { IsAmong 256 ask.now }
        requires fits { slice_index self.old.slots.items (flow_number ask.now) + ask.now.slots < 2 ^ 32 }
        ensures tidy { IsTidy self.new }
        ensures round { self.new.round ≡ self.old.round }
        ensures slots { self.new.slots.items ≡ slice_set self.old.slots.items (flow_number ask.now) (slice_index self.old.slots.items (flow_number ask.now) + ask.now.slots) }
    {
        let src = usize::from(ask.src);
        let dst = usize::from(ask.dst);
        let before = self.slots[src * ENDPOINTS + dst];
        self.slots[src * ENDPOINTS + dst] = before + ask.slots;
        if before > 0 {
            return;
        }
        self.sources.set(src);
        self.destinations[src].set(dst);
    }

    // Hands out one ask a flow that has slots, by source and then destination, and begins anew.
    fn drain_into(&mut self, summed: &mut Vec<Ask>) -> Result<(), AllocError>
        requires tidy { IsTidy self.old }
        ensures tidy { OnOk result (IsTidy self.new) }
        ensures none { OnOk result (holds_none self.new) }
        ensures among { (endpoints : ℕ) → All (IsAmong endpoints) summed.old.items → HoldsAmong endpoints self.old → OnOk result (All (IsAmong endpoints) summed.new.items) }
        ensures sums { (round src dst : ℕ) → OnOk result (sum_by (slots_asked round src dst) summed.new.items ≡ sum_by (slots_asked round src dst) summed.old.items + held_sum self.old round src dst) }
    {
        let mut flow = self.next_from(0);
        while flow < FLOWS {
            let slots = self.take(flow);
            summed.push(Ask {
                round: self.round,
                src: (flow / ENDPOINTS) as u16,
                dst: (flow % ENDPOINTS) as u16,
                slots,
            })?;
            flow = self.next_from(flow + 1);
        }
        self.sources.clear_all();
        Ok(())
    }

    /// These asks, and behind them those of the round.
    pub fn finish(self, asks: Vec<Ask>) -> Result<Vec<Ask>, NoMemory>
        requires tidy { IsTidy self }
        ensures among { IfOk result (λ all. (endpoints : ℕ) → All (IsAmong endpoints) asks.items → HoldsAmong endpoints self → All (IsAmong endpoints) all.items) }
        ensures sums { IfOk result (λ all. (round src dst : ℕ) → sum_by (slots_asked round src dst) all.items ≡ sum_by (slots_asked round src dst) asks.items + held_sum self round src dst) }
    {
        let mut sums = self;
        let mut all = asks;
        sums.drain_into(&mut all)?;
        Ok(all)
    }

    // Takes the slots of a flow out.
    fn take(&mut self, flow: usize) -> u32
        requires tidy { IsTidy self.old }
        requires flow { flow < 65536 }
        ensures number { result ≡ slice_index self.old.slots.items flow }
        ensures tidy { IsTidy self.new }
        ensures round { self.new.round ≡ self.old.round }
        ensures slots { self.new.slots.items ≡ slice_set self.old.slots.items flow 0 }
    {
        let slots = self.slots[flow];
        self.slots[flow] = 0;
        self.destinations[flow / ENDPOINTS].clear(flow % ENDPOINTS);
        slots
    }

    // The first flow from this one on that has slots, 65,536 where there is none.
    fn next_from(&self, flow: usize) -> usize
        requires tidy { IsTidy self.now }
        requires flow { flow ≤ 65536 }
        ensures from { flow ≤ result }
        ensures most { result ≤ 65536 }
        ensures some { result < 65536 → 0 < slice_index self.now.slots.items result }
        ensures first { (other : ℕ) → flow ≤ other → other < result → slice_index self.now.slots.items other ≡ 0 }
    {
        let mut src = flow / ENDPOINTS;
        let mut from = flow % ENDPOINTS;
        while src < ENDPOINTS {
            let dst = self.destinations[src].next_from(from);
            if dst < ENDPOINTS {
                return src * ENDPOINTS + dst;
            }
            src = self.sources.next_from(src + 1);
            from = 0;
        }
        FLOWS
    }
}
