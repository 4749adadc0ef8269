ghost use Rattle.std.specs.Prelude.{◌≡◌, ◌<◌, Some, length, slice_get};

use greedy_rules::{Batch, SlotTable};
use path_workers::CoreTable;
use replay_rounds::{Departure, Played};
use std::marker::Model;
use std::rc::Rc;
use window_allocation::{Span, Window};

/// What a step gives: the batches that it collected and what was answered and sent meanwhile, and the slots and cores of the batches
/// that it allocated.
#[derive(Drop)]
pub struct Step {
    pub(crate) collected: Span,
    pub(crate) rounds: StepRounds,
    // A plan's is shared with the plan, whose next step fills it again if this one is dropped by then.
    pub(crate) window: Rc<Window>,
}

/// What the rounds of a step give.
#[derive(Drop)]
pub(crate) enum StepRounds {
    Plan(Vec<Batch>),
    // Shared with the replay, whose next step allocates their batches.
    Replay(Rc<Played>),
}

impl Model for Step {
    ghost use Rattle.std.specs.Rc.{rc_value};
    ghost use Rattle.window_engine.specs.Step.{StepContent};
    ghost use Rattle.window_engine.specs.StepRounds.{played_in};

    ghost Value = { StepContent };

    ghost view = { λ s. record { collected = s.collected; played = played_in s.rounds; window = rc_value s.window } };
}

impl Step {
    /// The rounds that were collected.
    pub fn collected(&self) -> Span
        ensures { result ≡ self.now.collected }
    {
        self.collected
    }

    /// Their batches.
    pub fn batches(&self) -> &[Batch]
        ensures { result.now ≡ self.now.played.batches }
    {
        match &self.rounds {
            StepRounds::Plan(batches) => batches,
            StepRounds::Replay(played) => played.batches(),
        }
    }

    /// What the raw packets of a round are answered in a replay, by its place among those collected.
    pub fn answers(&self, at: usize) -> &[Option<u8>]
        requires { at < length self.now.played.answers }
        ensures { slice_get self.now.played.answers at ≡ Some result.now }
    {
        match &self.rounds {
            StepRounds::Plan(_) => &[],
            StepRounds::Replay(played) => played.answers(at),
        }
    }

    /// What is sent in a round of a replay, by its place among those collected.
    pub fn departures(&self, at: usize) -> &[Departure]
        requires { at < length self.now.played.departures }
        ensures { slice_get self.now.played.departures at ≡ Some result.now }
    {
        match &self.rounds {
            StepRounds::Plan(_) => &[],
            StepRounds::Replay(played) => played.departures(at),
        }
    }

    /// The rounds whose batches were allocated.
    pub fn allocated(&self) -> Span
        ensures { result ≡ self.now.window.span }
    {
        self.window.span()
    }

    /// The slots of these: slot i of batch s, both counted from 0, stands at place `s * b + i`.
    pub fn slots(&self) -> &SlotTable
        ensures { result.now ≡ self.now.window.slots }
    {
        self.window.slots()
    }

    /// The cores of these slots, at the same places.
    pub fn cores(&self) -> &CoreTable
        ensures { result.now ≡ self.now.window.cores }
    {
        self.window.cores()
    }
}
