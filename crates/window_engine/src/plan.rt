ghost use Rattle.std.specs.Prelude.{◌≡◌, ◌≢◌, ◌<◌, ◌≤◌, ◌+◌, ◌*◌, ◌↔◌, ℕ, List, length, Some, IsTrue, IfOk, OnOk, IfSome, option_map};
ghost use Rattle.std.specs.Rc.{rc_value};
ghost use Rattle.greedy_rules.specs.Batches.{DemandBatch};
ghost use Rattle.clos_topology.specs.Network.{Network};
ghost use Rattle.trace_text.specs.Trace.{TraceContent};
ghost use Rattle.trace_text.specs.Valid.{IsTrace};
ghost use Rattle.plan_rounds.specs.Batches.{plan_batches};
ghost use Rattle.window_engine.specs.Counts.{counts_of};
ghost use Rattle.window_engine.specs.Settings.{IsSetting};
ghost use Rattle.window_allocation.specs.Needs.{Needs};
ghost use Rattle.window_allocation.specs.Standing.{HasAllocated};
ghost use Rattle.window_allocation.specs.Giving.{HandsOn};
ghost use Rattle.window_allocation.specs.Windows.{jobs_for};
ghost use Rattle.window_engine.specs.Plan.{PlanStands, plan_window};
ghost use Rattle.window_engine.specs.Step.{StepIsPlanned};

use crate::counts::Counts;
use crate::laws::every_plan_balances;
use crate::setting::Setting;
use crate::step::{Step, StepRounds};
use fp_edge::Gate;
use greedy_rules::{Flow, recorded_batches_may_be_applied, schedules_go_on};
use no_memory::NoMemory;
use plan_rounds::{Collection, every_plan_adds_what_is_asked, every_plan_is_recorded};
use std::alloc::Global;
use std::marker::Model;
use std::rc::Rc;
use std::sync::Wait;
use std::thread::Threads;
use trace_text::Trace;
use window_allocation::{Allocation, Span, Window, place};

/// Plans a trace, window after window of rounds.
#[derive(Drop)]
pub(crate) struct Plan {
    alloc: Global,
    g: u8,
    endpoints: u16,
    rounds: u32,
    collection: Collection,
    allocation: Allocation,
    // The window that was given last, shared with the step that gave it.
    last: Option<Rc<Window>>,
    // By source and then destination, once every round is done.
    pending: Vec<u32>,
}

impl Model for Plan {
    ghost use Rattle.window_engine.specs.Plan.{PlanState};

    ghost Value = { PlanState };

    ghost view = { λ p. record {
      g = p.g;
      endpoints = p.endpoints;
      rounds = p.rounds;
      collection = p.collection;
      allocation = p.allocation;
      pending = p.pending.items;
    } };
}

/// Takes out the window that was given last; None where there is none, or the step that gave it still holds it.
fn past_window(last: &mut Option<Rc<Window>>) -> Option<Window>
    ensures { IfSome result (λ window. option_map rc_value last.old ≡ Some window) }
{
    Rc::into_inner(last.take()?)
}

impl Plan {
    /// Before the first round of the trace.
    pub(crate) fn open(alloc: Global, trace: &Trace, setting: Setting) -> Result<Plan, NoMemory>
        requires sizes { IsSetting setting }
        ensures stands { IfOk result (PlanStands trace.now) }
        ensures start { IfOk result (λ plan. plan.collection.rounds ≡ 0) }
        ensures b { IfOk result (λ plan. plan.allocation.b ≡ setting.b) }
        ensures workers { IfOk result (λ plan. plan.allocation.ring.workers ≡ setting.workers) }
        ensures paths { IfOk result (λ plan. plan.allocation.paths.paths ≡ setting.paths) }
        ensures g { IfOk result (λ plan. plan.g ≡ setting.g) }
    {
        let endpoints = trace.endpoints();
        let flows = endpoints as usize * endpoints as usize;
        Ok(Plan {
            alloc,
            g: setting.g,
            endpoints,
            rounds: trace.rounds(),
            collection: Collection::open(alloc, trace)?,
            allocation: Allocation::open(
                alloc,
                trace.net(),
                setting.workers,
                setting.paths,
                setting.b,
                setting.g,
            )?,
            last: None,
            pending: vec![in alloc; 0; flows]?,
        })
    }

    /// Plans the next window of `g` rounds, or of those that are left: collects their batches, and gives these their slots
    /// and cores. The trace is the one given to `open`.
    pub(crate) fn step<R: Threads + Wait + Sync, G: Gate + Sync>(
        &mut self,
        rt: &R,
        gate: &G,
        trace: &Trace,
    ) -> Result<Step, NoMemory>
        requires stands { PlanStands trace.now self.old }
        requires more { self.old.collection.rounds ≢ self.old.rounds }
        ensures stands { OnOk result (PlanStands trace.now self.new) }
        ensures rounds { OnOk result (self.new.collection.rounds ≡ self.old.collection.rounds + plan_window self.old) }
        ensures all { OnOk result (self.new.rounds ≡ self.old.rounds) }
        ensures endpoints { OnOk result (self.new.endpoints ≡ self.old.endpoints) }
        ensures b { OnOk result (self.new.allocation.b ≡ self.old.allocation.b) }
        ensures g { OnOk result (self.new.g ≡ self.old.g) }
        ensures workers { OnOk result (self.new.allocation.ring.workers ≡ self.old.allocation.ring.workers) }
        ensures paths { OnOk result (self.new.allocation.paths.paths ≡ self.old.allocation.paths.paths) }
        // Each slot came out of the ring, whose edges brought all that it was handed.
        ensures handed { IfOk result (λ step. HandsOn self.old.allocation step.played.batches self.new.allocation step.window) }
        ensures jobs { IfOk result (λ step. self.new.allocation.paths.jobs ≡ self.old.allocation.paths.jobs + jobs_for step.window.span.count self.old.allocation.b self.old.allocation.paths.paths) }
        ensures planned { IfOk result (StepIsPlanned trace.now self.old.allocation.b self.old.collection.rounds (plan_window self.old)) }
    {
        every_plan_is_recorded();
        recorded_batches_may_be_applied();
        schedules_go_on();
        let _rounds = trace.rounds();
        let first = self.collection.rounds();
        let count = u32::from(self.g).min(self.rounds - first);
        let batches = self.collection.window(self.alloc, trace, count)?;
        let past = past_window(&mut self.last);
        let mut window = self.allocation.open_window(past, &batches)?;
        self.allocation.fill(rt, gate, &batches, &mut window);
        let shared = Rc::new(self.alloc, window)?;
        self.last = Some(shared.clone()?);
        self.end();
        Ok(Step {
            collected: Span { first, count },
            rounds: StepRounds::Plan(batches),
            window: shared,
        })
    }

    /// After the last round the needs that are left are written down.
    fn end(&mut self)
        requires allocated { (net : Network) × (most : ℕ) × (batches : List DemandBatch) × HasAllocated net most batches self.old.allocation }
        requires pending { length self.old.pending ≡ self.old.allocation.ring.endpoints * self.old.allocation.ring.endpoints }
        ensures pending { length self.new.pending ≡ length self.old.pending }
        ensures ended { self.new.collection.rounds ≡ self.new.rounds → Needs self.new.allocation.ring.endpoints self.new.allocation.list.items self.new.pending }
        ensures g { self.new.g ≡ self.old.g }
        ensures endpoints { self.new.endpoints ≡ self.old.endpoints }
        ensures rounds { self.new.rounds ≡ self.old.rounds }
        ensures collection { self.new.collection ≡ self.old.collection }
        ensures allocation { self.new.allocation ≡ self.old.allocation }
    {
        if self.collection.rounds() == self.rounds {
            self.allocation.write_needs(&mut self.pending);
        }
    }

    /// Whether every round is done.
    pub(crate) fn done(&self) -> bool
        ensures { IsTrue result ↔ (self.now.collection.rounds ≡ self.now.rounds) }
    {
        self.collection.rounds() == self.rounds
    }

    /// What became of the flow's demand over the whole trace; None where no batch has the flow. Only once every round is
    /// done.
    pub(crate) fn counts(&self, flow: Flow) -> Option<Counts>
        requires stands { (trace : TraceContent) × IsTrace trace × PlanStands trace self.now }
        requires done { self.now.collection.rounds ≡ self.now.rounds }
        requires src { flow.src < self.now.endpoints }
        requires dst { flow.dst < self.now.endpoints }
        ensures { (trace : TraceContent) → IsTrace trace → PlanStands trace self.now → result ≡ counts_of self.now.allocation.b (plan_batches trace) flow }
    {
        every_plan_balances();
        every_plan_adds_what_is_asked();
        every_plan_is_recorded();
        let demanded = self.collection.asked(flow);
        if demanded == 0 {
            return None;
        }
        let pending = self.pending[place(self.endpoints, flow)];
        Some(Counts {
            demanded,
            allocated: demanded - pending,
            acknowledged: 0,
            lost: 0,
            pending,
            sent: 0,
            missed: 0,
        })
    }
}
