//! The rounds of all endpoints.
ghost use Rattle.std.specs.Prelude.{◌≡◌, ◌<◌, ◌≤◌, ◌+◌, ◌*◌, ◌-◌, ◌↔◌, ℕ, true, length, min, IfOk, OnOk, IfSome, IsSome};
ghost use Rattle.endpoint_history.specs.Entries.{had};
ghost use Rattle.trace_text.specs.Trace.{TraceContent};
ghost use Rattle.trace_text.specs.Valid.{IsTrace};
ghost use Rattle.trace_run.specs.Histories.{lane_after};
ghost use Rattle.trace_run.specs.Windows.{InWindows};
ghost use Rattle.clos_topology.specs.Network.{endpoints_of};
ghost use Rattle.clos_topology.specs.NetSlots.{SlotCores, AreSlotCores};
ghost use Rattle.slot_publisher.specs.Window.{NamesCores};
ghost use Rattle.replay_rounds.specs.Played.{rounds_played};
ghost use Rattle.replay_rounds.specs.Standing.{AllRoundsStand, IsNextWindow, setting_with};
ghost use Rattle.replay_rounds.specs.Counts.{count_of_lane, lane_count, sent_and_missed};

use crate::NoMemory;
use crate::collect::{WindowInPlay, collect};
use crate::played::Played;
use crate::publish::{count_slots, counting_holds};
use greedy_rules::{Flow, SlotTable};
use lane_rounds::{FlowCount, LaneRounds};
use slot_publisher::{CoreTable, Publisher};
use std::alloc::Global;
use std::marker::Model;
use std::thread::Threads;
use trace_run::steps_go_on;
use trace_text::Trace;

/// The rounds of every endpoint of a trace. What clauses say of them holds for all cores for which they stand.
#[derive(Drop)]
pub struct ReplayRounds {
    // In at most so many threads a window is played: each worker but the one that allocates beside.
    threads: u16,
    endpoints: u16,
    b: u8,
    g: u8,
    // The first round that isn't collected.
    collected: u32,
    // The first batch that isn't published.
    published: u32,
    // The first batch whose slots the lanes haven't counted.
    counted: u32,
    lanes: Vec<LaneRounds>,
    publisher: Publisher,
}

impl Model for ReplayRounds {
    ghost use Rattle.replay_rounds.specs.Standing.{RoundsContent};

    ghost Value = { RoundsContent };

    ghost view = { λ r. record {
      endpoints = r.endpoints;
      b = r.b;
      g = r.g;
      collected = r.collected;
      published = r.published;
      counted = r.counted;
      lanes = r.lanes.items;
      window = r.publisher;
    } };
}

impl ReplayRounds {
    /// Before the first round of the trace, with batches of `b` slots (1 to 64) and windows of `g` rounds (1 to 16). Of the workers
    /// (1 to 16) all but one play a window's rounds side by side.
    pub fn open(
        alloc: Global,
        trace: &Trace,
        workers: u16,
        b: u8,
        g: u8,
    ) -> Result<ReplayRounds, NoMemory>
        requires b { (0 < b) × (b ≤ 64) }
        requires g { (0 < g) × (g ≤ 16) }
        ensures stands { IfOk result (λ all. (cores : SlotCores) → AreSlotCores cores → AllRoundsStand trace.now cores all) }
        ensures b { IfOk result (λ all. all.b ≡ b) }
        ensures g { IfOk result (λ all. all.g ≡ g) }
        ensures collected { IfOk result (λ all. all.collected ≡ 0) }
        ensures published { IfOk result (λ all. all.published ≡ 0) }
        ensures count_of_lane { IfOk result (λ all. all.counted ≡ 0) }
        ensures first { IfOk result (λ all. all.window.first_batch ≡ 0) }
    {
        let endpoints = trace.endpoints();
        let mut lanes = Vec::with_capacity(alloc, endpoints as usize)?;
        for endpoint in 0..endpoints {
            lanes.push(LaneRounds::open(alloc, endpoint, endpoints, b, g)?)?;
        }
        Ok(ReplayRounds {
            threads: workers.saturating_sub(1).max(1),
            endpoints,
            b,
            g,
            collected: 0,
            published: 0,
            counted: 0,
            lanes,
            publisher: Publisher::open(alloc, endpoints, u16::from(g), b)?,
        })
    }

    /// How many rounds are collected.
    pub fn collected(&self) -> u32
        ensures { result ≡ self.now.collected }
    {
        self.collected
    }

    /// How many batches are published.
    pub fn published(&self) -> u32
        ensures { result ≡ self.now.published }
    {
        self.published
    }

    /// Plays the next window of `g` rounds, or those that are left; before them the lanes count the slots that are published and not
    /// counted yet. The trace is the one given to `open`; after want of memory the rounds are only to be dropped.
    pub fn collect<R: Threads + Sync>(
        &mut self,
        rt: &R,
        alloc: Global,
        trace: &Trace,
    ) -> Result<Played, NoMemory>
        requires stands { (cores : SlotCores) × AllRoundsStand trace.now cores self.old }
        // The batches up to two windows before each of these rounds are published.
        requires windows { InWindows self.old.g trace.now.rounds self.old.collected self.old.published self.old.window.first_batch }
        ensures frame { OnOk result (self.new ≡ record self.old {
          collected = self.old.collected + min self.old.g (trace.now.rounds - self.old.collected);
          counted = self.old.published;
          lanes = self.new.lanes;
        }) }
        ensures stands { OnOk result ((cores : SlotCores) → AllRoundsStand trace.now cores self.old → AllRoundsStand trace.now cores self.new) }
        ensures played { IfOk result (λ played. (cores : SlotCores) →
            AllRoundsStand trace.now cores self.old →
            played ≡ rounds_played (setting_with trace.now cores self.old) trace.now self.old.collected (min self.old.g (trace.now.rounds - self.old.collected))) }
    {
        steps_go_on();
        let count = u32::from(self.g).min(trace.rounds() - self.collected);
        let window = WindowInPlay {
            trace,
            publisher: &self.publisher,
            g: self.g,
            counted: self.counted,
            first: self.collected,
            count,
        };
        let played = collect(rt, alloc, self.threads, &mut self.lanes, &window)?;
        self.collected += count;
        self.counted = self.published;
        Ok(played)
    }

    /// Lets the lanes count the slots that are published and not counted yet.
    pub fn count_published(&mut self)
        requires stands { (trace : TraceContent) × (cores : SlotCores) × AllRoundsStand trace cores self.old }
        ensures frame { self.new ≡ record self.old { counted = self.old.published; lanes = self.new.lanes } }
        ensures stands { (trace : TraceContent) (cores : SlotCores) → AllRoundsStand trace cores self.old → AllRoundsStand trace cores self.new }
    {
        let _collected = self.collected();
        count_slots(&mut self.lanes, &self.publisher, self.counted);
        self.counted = self.published;
    }

    /// Publishes the slots of the next `count` batches, with their cores, in place of the window that was published before, of which the
    /// lanes count first what they haven't counted.
    pub fn publish(&mut self, count: u16, slots: &SlotTable, cores: &CoreTable)
        // These are the slots of the run's next batches, of rounds that are collected.
        requires next { (trace : TraceContent) × (named : SlotCores) × IsTrace trace × AllRoundsStand trace named self.old × IsNextWindow trace named self.old count slots.now cores.now }
        requires collected { self.old.published + count ≤ self.old.collected }
        requires room { count ≤ self.old.g }
        requires served { slots.now.endpoints ≡ self.old.endpoints }
        requires core_slots { length slots.now.slots ≤ cores.now.slots }
        requires core_endpoints { slots.now.endpoints ≤ cores.now.endpoints }
        ensures frame { self.new ≡ record self.old {
          published = self.old.published + count;
          counted = self.old.published;
          lanes = self.new.lanes;
          window = self.new.window;
        } }
        ensures first { self.new.window.first_batch ≡ self.old.published }
        ensures count { self.new.window.count ≡ count }
        ensures stands { (trace : TraceContent) (named : SlotCores) →
            IsTrace trace → AllRoundsStand trace named self.old → IsNextWindow trace named self.old count slots.now cores.now →
            AllRoundsStand trace named self.new }
    {
        counting_holds();
        let _slots = slots.slots();
        self.count_published();
        self.publisher.put(self.published, slots, cores);
        self.published += u32::from(count);
    }

    /// What the flow's lane counts since its last reset; None where no batch has the flow. Of the published slots it has counted those
    /// of the batches before `counted`: all of them after `count_published`.
    pub fn count(&self, flow: Flow) -> Option<FlowCount>
        requires stands { (trace : TraceContent) × (cores : SlotCores) × AllRoundsStand trace cores self.now }
        requires src { flow.src < self.now.endpoints }
        requires dst { flow.dst < self.now.endpoints }
        ensures opened { (trace : TraceContent) (cores : SlotCores) → AllRoundsStand trace cores self.now →
            (IsSome result ↔ (had self.now.g (lane_after (setting_with trace cores self.now) self.now.collected flow.src) flow.dst ≡ true)) }
        ensures counts { IfSome result (λ count. (trace : TraceContent) (cores : SlotCores) → AllRoundsStand trace cores self.now →
            count_of_lane count ≡ lane_count (setting_with trace cores self.now) self.now.collected self.now.counted flow.src flow.dst) }
    {
        self.lanes[flow.src as usize].count(flow.dst)
    }

    /// The slots that the flow's source sent in, and those that it missed, since its last boot.
    pub fn totals(&self, flow: Flow) -> (u32, u32)
        requires stands { (trace : TraceContent) × (cores : SlotCores) × AllRoundsStand trace cores self.now }
        requires src { flow.src < self.now.endpoints }
        requires dst { flow.dst < self.now.endpoints }
        ensures { (trace : TraceContent) (cores : SlotCores) → AllRoundsStand trace cores self.now →
            result ≡ sent_and_missed (setting_with trace cores self.now) self.now.collected flow.src flow.dst }
    {
        self.lanes[flow.src as usize].totals(flow.dst)
    }
}
