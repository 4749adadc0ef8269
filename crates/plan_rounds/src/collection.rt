ghost use Rattle.std.specs.Prelude.{◌≡◌, ◌<◌, ◌≤◌, ◌+◌, ◌*◌, [], length, take, drop, slice_index, IfOk, OnOk};
ghost use Rattle.std.specs.List.{slice_index_or};
ghost use Rattle.clos_topology.specs.Network.{endpoints_of};
ghost use Rattle.clos_topology.specs.NetSlots.{limits_of};
ghost use Rattle.window_allocation.specs.Needs.{place_of};
ghost use Rattle.plan_rounds.specs.Batches.{batch_after, plan_batches};
ghost use Rattle.plan_rounds.specs.Standing.{HasCollected};
ghost use Rattle.plan_rounds.specs.Tallies.{Tallies};

use clos_topology::Net;
use greedy_rules::{Batch, Entry, Flow, Limits};
use no_memory::NoMemory;
use std::alloc::Global;
use std::marker::Model;
use trace_text::Trace;
use window_allocation::place;

/// Collects what a trace asks for into batches, round after round.
#[derive(Drop)]
pub struct Collection {
    endpoints: u16,
    // The first round that isn't done.
    rounds: u32,
    // The slots asked for so far, by source and then destination.
    asked: Vec<u32>,
    // What was read ahead last: it is kept so that it is read, and means nothing.
    ahead: u32,
}

impl Model for Collection {
    ghost use Rattle.plan_rounds.specs.Standing.{Collected};

    ghost Value = { Collected };

    ghost view = { λ c. record { endpoints = c.endpoints; rounds = c.rounds; asked = c.asked.items } };
}

impl Collection {
    /// Before the first round.
    pub fn open(alloc: Global, trace: &Trace) -> Result<Collection, NoMemory>
        ensures stands { IfOk result (HasCollected trace.now) }
        ensures start { IfOk result (λ half. half.rounds ≡ 0) }
    {
        let endpoints = trace.endpoints();
        let flows = endpoints as usize * endpoints as usize;
        Ok(Collection {
            endpoints,
            rounds: 0,
            asked: vec![in alloc; 0; flows]?,
            ahead: 0,
        })
    }

    /// How many rounds are done.
    pub fn rounds(&self) -> u32
        ensures { result ≡ self.now.rounds }
    {
        self.rounds
    }

    /// The slots of the flow that were asked for.
    pub fn asked(&self, flow: Flow) -> u32
        requires long { length self.now.asked ≡ self.now.endpoints * self.now.endpoints }
        requires src { flow.src < self.now.endpoints }
        requires dst { flow.dst < self.now.endpoints }
        ensures { result ≡ slice_index self.now.asked (place_of self.now.endpoints flow.src flow.dst) }
    {
        self.asked[place(self.endpoints, flow)]
    }

    /// The batches of the next so many rounds. After want of memory it is only to be dropped.
    pub fn window(
        &mut self,
        alloc: Global,
        trace: &Trace,
        count: u32,
    ) -> Result<Vec<Batch>, NoMemory>
        requires stands { HasCollected trace.now self.old }
        requires within { self.old.rounds + count ≤ trace.now.rounds }
        ensures batches { IfOk result (λ batches. batches.items ≡ take count (drop self.old.rounds (plan_batches trace.now))) }
        ensures stands { OnOk result (HasCollected trace.now self.new) }
        ensures rounds { OnOk result (self.new.rounds ≡ self.old.rounds + count) }
    {
        let _rounds = trace.rounds();
        self.ahead = read_ahead(trace, self.rounds, count, &self.asked);
        let batches = collect(alloc, trace, self.rounds, count, &mut self.asked)?;
        self.rounds += count;
        Ok(batches)
    }
}

/// Reads what the table has of the flows that so many rounds from this one on ask for, of each without waiting for another, so that
/// memory brings all of it at once. What it answers means nothing.
fn read_ahead(trace: &Trace, first: u32, count: u32, asked: &[u32]) -> u32
    requires within { first + count ≤ trace.now.rounds }
{
    let _rounds = trace.rounds();
    let mut read = 0;
    for round in first..first + count {
        read ^= read_round(trace, round, asked);
    }
    read
}

/// Reads what the table has of the flows that a round asks for.
fn read_round(trace: &Trace, round: u32, asked: &[u32]) -> u32
    requires round { round < trace.now.rounds }
{
    let endpoints = trace.endpoints();
    let mut read = 0;
    for ask in trace.asks_in(round) {
        let flow = Flow {
            src: ask.src,
            dst: ask.dst,
        };
        read ^= read_flow(endpoints, flow, asked);
    }
    read
}

/// Reads what the table has of a flow.
fn read_flow(endpoints: u16, flow: Flow, asked: &[u32]) -> u32 {
    if flow.src >= endpoints || flow.dst >= endpoints {
        return 0;
    }
    match asked.get(place(endpoints, flow)) {
        Some(slots) => *slots,
        None => 0,
    }
}

fn limits(net: &Net) -> Limits
    ensures { result ≡ limits_of net.now }
{
    Limits {
        hosts: net.hosts(),
        cores: net.cores(),
    }
}

/// The batch of a round, whose slots come into the table: an entry for each flow that is asked for, which opens where no slot
/// was asked for before. A flow has one entry at most, so the table still shows what was asked for before the round.
fn collect_round(
    alloc: Global,
    trace: &Trace,
    round: u32,
    asked: &mut [u32],
) -> Result<Batch, NoMemory>
    requires round { round < trace.now.rounds }
    requires tallies { Tallies (endpoints_of trace.now.net) (take round trace.now.asked) asked.old }
    ensures batch { IfOk result (λ batch. batch ≡ batch_after (limits_of trace.now.net) (take round trace.now.asked) (slice_index_or trace.now.asked round [])) }
    ensures tallies { OnOk result (Tallies (endpoints_of trace.now.net) (take (round + 1) trace.now.asked) asked.new) }
{
    let mut batch = Batch::with_limits(alloc, limits(trace.net()));
    let endpoints = trace.endpoints();
    for ask in trace.asks_in(round) {
        let flow = Flow {
            src: ask.src,
            dst: ask.dst,
        };
        let at = place(endpoints, flow);
        let before = asked[at];
        batch.push(Entry {
            flow,
            opens: before == 0,
            clear: false,
            add: ask.slots,
        })?;
        asked[at] = before + ask.slots;
    }
    Ok(batch)
}

/// The batches of so many rounds from this one on, whose slots come into the table.
fn collect(
    alloc: Global,
    trace: &Trace,
    first: u32,
    count: u32,
    asked: &mut [u32],
) -> Result<Vec<Batch>, NoMemory>
    requires within { first + count ≤ trace.now.rounds }
    requires tallies { Tallies (endpoints_of trace.now.net) (take first trace.now.asked) asked.old }
    ensures batches { IfOk result (λ batches. batches.items ≡ take count (drop first (plan_batches trace.now))) }
    ensures tallies { OnOk result (Tallies (endpoints_of trace.now.net) (take (first + count) trace.now.asked) asked.new) }
{
    let _rounds = trace.rounds();
    let mut batches = Vec::with_capacity(alloc, count as usize)?;
    for round in first..first + count {
        let batch = collect_round(alloc, trace, round, asked)?;
        batches.push(batch)?;
    }
    Ok(batches)
}
