ghost use Rattle.std.specs.Prelude.{◌≡◌, ◌≢◌, ◌<◌, ◌↔◌, true, false, IsTrue, IfOk};
ghost use Rattle.clos_topology.specs.NetSlots.{SlotCores, AreSlotCores};
ghost use Rattle.trace_text.specs.Trace.{TraceContent};
ghost use Rattle.trace_text.specs.Valid.{IsTrace};
ghost use Rattle.plan_rounds.specs.Batches.{plan_batches};
ghost use Rattle.window_engine.specs.Counts.{counts_of};
ghost use Rattle.window_engine.specs.Replay.{replay_counts};
ghost use Rattle.window_engine.specs.Settings.{IsSetting};
ghost use Rattle.window_engine.specs.Standing.{StandsForPlan, StandsForReplay, StandsForTrace, run_of, HasStepped, HasPlannedWindow, HasReplayedWindow};

use crate::counts::Counts;
use crate::plan::Plan;
use crate::replay::Replay;
use crate::setting::Setting;
use crate::step::Step;
use fp_edge::Gate;
use greedy_rules::Flow;
use no_memory::NoMemory;
use std::alloc::Global;
use std::marker::Model;
use std::sync::Wait;
use std::thread::Threads;
use trace_text::Trace;

/// Plays a trace, window after window of rounds, for its plan or for its replay. What clauses say of a replay holds for all cores for
/// which it stands.
#[derive(Drop)]
pub struct Engine {
    run: EngineRun,
}

/// What an engine plays a trace for.
#[derive(Drop)]
pub(crate) enum EngineRun {
    Plan(Plan),
    Replay(Replay),
}

impl Model for Engine {
    ghost use Rattle.window_engine.specs.Standing.{EngineState, engine_of};

    ghost Value = { EngineState };

    ghost view = { λ e. engine_of e.run };
}

impl Engine {
    /// Before the first round of the trace.
    pub fn open(alloc: Global, trace: &Trace, setting: Setting) -> Result<Engine, NoMemory>
        requires sizes { IsSetting setting }
        ensures plan { setting.replay ≡ false → IfOk result (StandsForPlan trace.now) }
        ensures replay { setting.replay ≡ true → IfOk result (λ engine. (cores : SlotCores) → AreSlotCores cores → StandsForReplay trace.now cores engine) }
        ensures collected { IfOk result (λ engine. engine.collected ≡ 0) }
        ensures allocated { IfOk result (λ engine. engine.allocated ≡ 0) }
        ensures b { IfOk result (λ engine. engine.b ≡ setting.b) }
        ensures g { IfOk result (λ engine. engine.g ≡ setting.g) }
        ensures workers { IfOk result (λ engine. engine.allocation.ring.workers ≡ setting.workers) }
        ensures paths { IfOk result (λ engine. engine.allocation.paths.paths ≡ setting.paths) }
    {
        if setting.replay {
            let replay = Replay::open(alloc, trace, setting)?;
            return Ok(Engine {
                run: EngineRun::Replay(replay),
            });
        }
        let plan = Plan::open(alloc, trace, setting)?;
        Ok(Engine {
            run: EngineRun::Plan(plan),
        })
    }

    /// Collects the next window of `g` rounds, or of those that are left; a plan gives their batches slots and cores, a replay those of
    /// the window before. The trace is the one given to `open`; after want of memory the engine is only to be dropped.
    pub fn step<R: Threads + Wait + Sync, G: Gate + Sync>(
        &mut self,
        rt: &R,
        gate: &G,
        trace: &Trace,
    ) -> Result<Step, NoMemory>
        requires stands { StandsForTrace trace.now self.old }
        requires more { self.old.allocated ≢ self.old.rounds }
        ensures stepped { IfOk result (HasStepped self.old self.new) }
        ensures planned { StandsForPlan trace.now self.old → IfOk result (HasPlannedWindow trace.now self.old self.new) }
        ensures replayed { (cores : SlotCores) → StandsForReplay trace.now cores self.old → IfOk result (HasReplayedWindow trace.now cores self.old self.new) }
    {
        self.step_beside(rt, gate, trace, &mut || {})
    }

    /// What `step` does, and beside it calls `meanwhile`, once, whatever comes of the step. A replay calls it while a thread of its own
    /// gives slots and cores.
    pub fn step_beside<R: Threads + Wait + Sync, G: Gate + Sync, F: FnMut()>(
        &mut self,
        rt: &R,
        gate: &G,
        trace: &Trace,
        meanwhile: &mut F,
    ) -> Result<Step, NoMemory>
        requires stands { StandsForTrace trace.now self.old }
        requires more { self.old.allocated ≢ self.old.rounds }
        requires may_call { F.pre meanwhile.old }
        ensures called { F.step meanwhile.old tt meanwhile.new }
        ensures stepped { IfOk result (HasStepped self.old self.new) }
        ensures planned { StandsForPlan trace.now self.old → IfOk result (HasPlannedWindow trace.now self.old self.new) }
        ensures replayed { (cores : SlotCores) → StandsForReplay trace.now cores self.old → IfOk result (HasReplayedWindow trace.now cores self.old self.new) }
    {
        match &mut self.run {
            EngineRun::Plan(plan) => {
                meanwhile();
                plan.step(rt, gate, trace)
            }
            EngineRun::Replay(replay) => replay.step_beside(rt, gate, trace, meanwhile),
        }
    }

    /// Whether every round is collected and every batch allocated.
    pub fn done(&self) -> bool
        ensures { IsTrue result ↔ (self.now.allocated ≡ self.now.rounds) }
    {
        match &self.run {
            EngineRun::Plan(plan) => plan.done(),
            EngineRun::Replay(replay) => replay.done(),
        }
    }

    /// What became of the flow's demand over the whole trace; None where no batch has the flow. Only once every batch is allocated.
    pub fn counts(&self, flow: Flow) -> Option<Counts>
        requires stands { (trace : TraceContent) × IsTrace trace × StandsForTrace trace self.now }
        requires done { self.now.allocated ≡ self.now.rounds }
        requires src { flow.src < self.now.endpoints }
        requires dst { flow.dst < self.now.endpoints }
        ensures planned { (trace : TraceContent) → IsTrace trace → StandsForPlan trace self.now → result ≡ counts_of self.now.b (plan_batches trace) flow }
        ensures replayed { (trace : TraceContent) (cores : SlotCores) → IsTrace trace → StandsForReplay trace cores self.now →
            result ≡ replay_counts (run_of trace cores self.now) trace.rounds flow }
    {
        match &self.run {
            EngineRun::Plan(plan) => plan.counts(flow),
            EngineRun::Replay(replay) => replay.counts(flow),
        }
    }
}
