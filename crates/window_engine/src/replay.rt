ghost use Rattle.std.specs.Prelude.{◌≡◌, ◌≢◌, ◌<◌, ◌≤◌, ◌+◌, ◌*◌, ◌-◌, ◌↔◌, ℕ, List, length, min, IsTrue, IfOk, OnOk, option_map};
ghost use Rattle.std.specs.Rc.{rc_value};
ghost use Rattle.greedy_rules.specs.Batches.{DemandBatch};
ghost use Rattle.clos_topology.specs.Network.{Network};
ghost use Rattle.clos_topology.specs.NetSlots.{SlotCores, AreSlotCores};
ghost use Rattle.window_allocation.specs.Needs.{Needs};
ghost use Rattle.window_allocation.specs.Standing.{HasAllocated};
ghost use Rattle.window_allocation.specs.Windows.{IsWindowOf, jobs_for};
ghost use Rattle.window_allocation.specs.Giving.{MayGive, IsOpenForBatches, HandsOn, HasGiven};
ghost use Rattle.trace_text.specs.Trace.{TraceContent};
ghost use Rattle.trace_text.specs.Valid.{IsTrace};
ghost use Rattle.trace_run.specs.Shown.{IsShown};
ghost use Rattle.replay_rounds.specs.Played.{rounds_played};
ghost use Rattle.replay_rounds.specs.Standing.{AllRoundsStand, slots_between};
ghost use Rattle.window_engine.specs.Replay.{ReplayStands, replay_run, replay_counts, batches_in};
ghost use Rattle.window_engine.specs.Step.{HasCoresOf};
ghost use Rattle.window_engine.specs.Settings.{IsSetting};
ghost use Rattle.window_engine.specs.Beside.{MayPlayBeside, HasPlayedBeside};

use crate::counts::Counts;
use crate::replay_laws::replays_hold;
use crate::setting::Setting;
use crate::step::{Step, StepRounds};
use fp_edge::Gate;
use greedy_rules::{Batch, Flow};
use no_memory::NoMemory;
use replay_rounds::{Played, ReplayRounds};
use std::alloc::Global;
use std::marker::Model;
use std::rc::Rc;
use std::sync::Wait;
use std::thread::{Threads, join_mut};
use trace_run::every_replay_shows;
use trace_text::Trace;
use window_allocation::{Allocation, Span, Window, place};

/// From so many entries on, a thread allocates a window's batches while the next rounds are played.
const MANY: usize = 16;

/// Replays a trace, window after window of rounds: in each step the rounds of a window are collected, and beside that the batches of
/// the window before get their slots. What clauses say of it holds for all cores for which it stands.
#[derive(Drop)]
pub(crate) struct Replay {
    alloc: Global,
    rounds: u32,
    lanes: ReplayRounds,
    // The rounds that were played last, whose batches wait.
    last: Option<Rc<Played>>,
    allocation: Allocation,
    // By source and then destination, once every batch is allocated.
    pending: Vec<u32>,
}

impl Model for Replay {
    ghost use Rattle.std.specs.Prelude.{option_map};
    ghost use Rattle.std.specs.Rc.{rc_value};
    ghost use Rattle.window_engine.specs.Replay.{ReplayState, batches_in};

    ghost Value = { ReplayState };

    ghost view = { λ r. record {
      rounds = r.rounds;
      lanes = r.lanes;
      waiting = batches_in (option_map rc_value r.last);
      allocation = r.allocation;
      pending = r.pending.items;
    } };
}

/// Whether the batches have so many entries that a thread allocates them.
fn have_many(batches: &[Batch]) -> bool {
    let mut entries = 0usize;
    for batch in batches {
        entries = entries.saturating_add(batch.len());
    }
    entries >= MANY
}

/// The batches of the rounds that were played last, if some were.
fn batches_of(last: &Option<Rc<Played>>) -> &[Batch]
    ensures { result.now ≡ batches_in (option_map rc_value last.now) }
{
    match last {
        Some(played) => played.batches(),
        None => &[],
    }
}

impl Replay {
    /// Before the first round of the trace.
    pub(crate) fn open(alloc: Global, trace: &Trace, setting: Setting) -> Result<Replay, NoMemory>
        requires sizes { IsSetting setting }
        ensures stands { IfOk result (λ replay. (cores : SlotCores) → AreSlotCores cores → ReplayStands trace.now cores replay) }
        ensures b { IfOk result (λ replay. replay.lanes.b ≡ setting.b) }
        ensures workers { IfOk result (λ replay. replay.allocation.ring.workers ≡ setting.workers) }
        ensures paths { IfOk result (λ replay. replay.allocation.paths.paths ≡ setting.paths) }
        ensures g { IfOk result (λ replay. replay.lanes.g ≡ setting.g) }
        ensures collected { IfOk result (λ replay. replay.lanes.collected ≡ 0) }
        ensures published { IfOk result (λ replay. replay.lanes.published ≡ 0) }
    {
        let endpoints = trace.endpoints();
        let flows = endpoints as usize * endpoints as usize;
        Ok(Replay {
            alloc,
            rounds: trace.rounds(),
            lanes: ReplayRounds::open(alloc, trace, setting.workers, setting.b, setting.g)?,
            last: None,
            allocation: Allocation::open(
                alloc,
                trace.net(),
                setting.workers,
                setting.paths,
                setting.b,
                setting.g,
            )?,
            pending: vec![in alloc; 0; flows]?,
        })
    }

    /// After the last batch the lanes count its slots, and the needs that are left are written down.
    fn end(&mut self)
        requires stands { (trace : TraceContent) × (cores : SlotCores) × AllRoundsStand trace cores self.old.lanes }
        requires allocated { (net : Network) × (most : ℕ) × (batches : List DemandBatch) × HasAllocated net most batches self.old.allocation }
        requires pending { length self.old.pending ≡ self.old.allocation.ring.endpoints * self.old.allocation.ring.endpoints }
        ensures pending { length self.new.pending ≡ length self.old.pending }
        ensures ended { self.new.lanes.published ≡ self.new.rounds → Needs self.new.allocation.ring.endpoints self.new.allocation.list.items self.new.pending }
        ensures rounds { self.new.rounds ≡ self.old.rounds }
        ensures lanes { self.new.lanes ≡ record self.old.lanes { counted = self.new.lanes.counted; lanes = self.new.lanes.lanes } }
        ensures counted { self.new.lanes.published ≡ self.new.rounds → self.new.lanes.counted ≡ self.new.lanes.published }
        ensures stands { (trace : TraceContent) (cores : SlotCores) → AllRoundsStand trace cores self.old.lanes → AllRoundsStand trace cores self.new.lanes }
        ensures waiting { self.new.waiting ≡ self.old.waiting }
        ensures allocation { self.new.allocation ≡ self.old.allocation }
    {
        if self.done() {
            self.lanes.count_published();
            self.allocation.write_needs(&mut self.pending);
        }
    }

    /// Gives the batches that wait their slots and cores in a thread of their own, and beside it calls `meanwhile` and plays the next
    /// window of rounds. Where these batches have few entries no thread is started.
    fn play_beside<R: Threads + Wait + Sync, G: Gate + Sync, F: FnMut()>(
        &mut self,
        rt: &R,
        gate: &G,
        trace: &Trace,
        meanwhile: &mut F,
    ) -> Result<(Played, Window), NoMemory>
        requires may_play { MayPlayBeside trace.now self.old.lanes }
        requires may_allocate { MayGive self.old.allocation self.old.waiting }
        requires may_call { F.pre meanwhile.old }
        ensures called { F.step meanwhile.old tt meanwhile.new }
        ensures others { self.new ≡ record self.old { lanes = self.new.lanes; allocation = self.new.allocation } }
        ensures rounds { IfOk result (λ both. HasPlayedBeside trace.now self.old.lanes self.new.lanes both.0) }
        ensures given { IfOk result (λ both. HasGiven self.old.allocation self.old.waiting self.new.allocation both.1) }
    {
        let alloc = self.alloc;
        let lanes = &mut self.lanes;
        let allocation = &mut self.allocation;
        let batches = batches_of(&self.last);
        let mut opened = match allocation.open_window(None, batches) {
            Ok(opened) => opened,
            Err(none) => {
                meanwhile();
                return Err(none);
            }
        };
        let window = &mut opened;
        if !have_many(batches) {
            meanwhile();
            allocation.fill(rt, gate, batches, window);
            return Ok((lanes.collect(rt, alloc, trace)?, opened));
        }
        let ((), played) = join_mut(
            rt,
            &mut || -> ()
                requires may { MayGive allocation.now batches.now }
                requires tables { IsOpenForBatches allocation.now batches.now window.now }
                ensures { HasGiven allocation.entry.now batches.entry.now allocation.exit.now window.exit.now }
            { allocation.fill(rt, gate, batches, window) },
            &mut || -> Result<Played, NoMemory>
                requires may_call { F.pre meanwhile.now }
                requires may_play { MayPlayBeside trace.now lanes.now }
                ensures called { F.step meanwhile.entry.now tt meanwhile.exit.now }
                ensures played { IfOk result (HasPlayedBeside trace.entry.now lanes.entry.now lanes.exit.now) }
            {
                meanwhile();
                lanes.collect(rt, alloc, trace)
            },
        );
        Ok((played?, opened))
    }

    /// Plays the next window of `g` rounds, or of those that are left, and gives the batches of the window before their slots and
    /// cores, which are then published. `meanwhile` is called once, while a thread gives these. The trace is the one given to `open`.
    pub(crate) fn step_beside<R: Threads + Wait + Sync, G: Gate + Sync, F: FnMut()>(
        &mut self,
        rt: &R,
        gate: &G,
        trace: &Trace,
        meanwhile: &mut F,
    ) -> Result<Step, NoMemory>
        requires stands { (cores : SlotCores) × ReplayStands trace.now cores self.old }
        requires more { self.old.lanes.published ≢ self.old.rounds }
        requires may_call { F.pre meanwhile.old }
        ensures called { F.step meanwhile.old tt meanwhile.new }
        ensures rounds { OnOk result (self.new.rounds ≡ self.old.rounds) }
        ensures b { OnOk result (self.new.lanes.b ≡ self.old.lanes.b) }
        ensures g { OnOk result (self.new.lanes.g ≡ self.old.lanes.g) }
        ensures endpoints { OnOk result (self.new.lanes.endpoints ≡ self.old.lanes.endpoints) }
        ensures workers { OnOk result (self.new.allocation.ring.workers ≡ self.old.allocation.ring.workers) }
        ensures paths { OnOk result (self.new.allocation.paths.paths ≡ self.old.allocation.paths.paths) }
        // Each slot came out of the ring, whose edges brought all that it was handed.
        ensures handed { IfOk result (λ step. HandsOn self.old.allocation self.old.waiting self.new.allocation step.window) }
        ensures collected { OnOk result (self.new.lanes.collected ≡ self.old.lanes.collected + min self.old.lanes.g (self.old.rounds - self.old.lanes.collected)) }
        ensures published { OnOk result (self.new.lanes.published ≡ self.old.lanes.collected) }
        ensures first { IfOk result (λ step. step.collected ≡ record { first = self.old.lanes.collected; count = min self.old.lanes.g (self.old.rounds - self.old.lanes.collected) }) }
        ensures played { IfOk result (λ step. (cores : SlotCores) → ReplayStands trace.now cores self.old →
            step.played ≡ rounds_played (replay_run trace.now cores self.old) trace.now self.old.lanes.collected (min self.old.lanes.g (self.old.rounds - self.old.lanes.collected))) }
        ensures span { IfOk result (λ step. step.window.span ≡ record { first = self.old.lanes.published; count = self.old.lanes.collected - self.old.lanes.published }) }
        ensures window { IfOk result (λ step. (cores : SlotCores) → ReplayStands trace.now cores self.old →
            IsWindowOf trace.now.net self.old.lanes.b (slots_between (replay_run trace.now cores self.old) self.old.lanes.published self.old.lanes.collected) step.window) }
        ensures jobs { OnOk result (self.new.allocation.paths.jobs ≡ self.old.allocation.paths.jobs + jobs_for (self.old.lanes.collected - self.old.lanes.published) self.old.lanes.b self.old.allocation.paths.paths) }
        // What the rounds collected so far show, whatever cores are named, and that no loss, delay, repeat or boot harms.
        ensures shown { OnOk result ((cores : SlotCores) → IsShown (replay_run trace.now cores self.old) self.new.lanes.collected) }
        // It goes on standing for all cores that are, for these slots, the ones given.
        ensures stands { IfOk result (λ step. (cores : SlotCores) → ReplayStands trace.now cores self.old →
            HasCoresOf self.old.lanes.b step cores → ReplayStands trace.now cores self.new) }
    {
        replays_hold();
        every_replay_shows();
        let _rounds = trace.rounds();
        let first = self.lanes.collected();
        let (played, window) = self.play_beside(rt, gate, trace, meanwhile)?;
        let count = self.lanes.collected() - first;
        let published = window.span().count as u16;
        self.lanes
            .publish(published, window.slots(), window.cores());
        let shared = Rc::new(self.alloc, played)?;
        self.last = Some(shared.clone()?);
        self.end();
        Ok(Step {
            collected: Span { first, count },
            rounds: StepRounds::Replay(shared),
            window: Rc::new(self.alloc, window)?,
        })
    }

    /// Whether every round is played and every batch allocated.
    pub(crate) fn done(&self) -> bool
        ensures { IsTrue result ↔ (self.now.lanes.published ≡ self.now.rounds) }
    {
        self.lanes.published() == self.rounds
    }

    /// What became of the flow's demand; None where no batch has the flow. Only once every batch is allocated.
    pub(crate) fn counts(&self, flow: Flow) -> Option<Counts>
        requires stands { (trace : TraceContent) × (cores : SlotCores) × IsTrace trace × ReplayStands trace cores self.now }
        requires done { self.now.lanes.published ≡ self.now.rounds }
        requires src { flow.src < self.now.lanes.endpoints }
        requires dst { flow.dst < self.now.lanes.endpoints }
        ensures { (trace : TraceContent) (cores : SlotCores) → IsTrace trace → ReplayStands trace cores self.now →
            result ≡ replay_counts (replay_run trace cores self.now) trace.rounds flow }
    {
        let count = self.lanes.count(flow)?;
        let (sent, missed) = self.lanes.totals(flow);
        let endpoints = self.allocation.endpoints();
        Some(Counts {
            demanded: count.demanded,
            allocated: count.allocated,
            acknowledged: count.acknowledged,
            lost: count.lost,
            pending: self.pending[place(endpoints, flow)],
            sent,
            missed,
        })
    }
}
