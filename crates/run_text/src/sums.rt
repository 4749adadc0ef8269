// The sums of the counts of a replay's flows.
ghost use Rattle.std.specs.Prelude.{◌≡◌, ◌<◌, ◌≤◌, ◌+◌, ◌*◌, ℕ, List, [], ◌++◌, IfSome};
ghost use Rattle.clos_topology.specs.Network.{endpoints_of};
ghost use Rattle.clos_topology.specs.NetSlots.{SlotCores};
ghost use Rattle.trace_text.specs.Valid.{IsTrace};
ghost use Rattle.window_engine.specs.declared.counts.Counts.{Counts};
ghost use Rattle.window_engine.specs.Standing.{StandsForReplay, run_of};
ghost use Rattle.run_text.specs.Made.{sums_of, counts_from, counts_of_run, made_line};
ghost use Rattle.run_text.specs.Sums.{counts_listed, AreOfAtMost};

use greedy_rules::Flow;
use report_text::Line;
use run_lines::{every_count_has_a_flight, flight};
use trace_text::Trace;
use window_engine::{Counts, Engine};

/// How many flows there are, and the sums of their counts.
#[derive(Clone, Copy, Debug, PartialEq, Eq)]
pub(crate) struct Sums {
    pub(crate) flows: u32,
    pub(crate) demanded: u64,
    pub(crate) acknowledged: u64,
    pub(crate) flight: u64,
    pub(crate) pending: u64,
    pub(crate) lost: u64,
    pub(crate) sent: u64,
    pub(crate) missed: u64,
}

impl Sums {
    /// Those of no flow.
    fn new() -> Sums
        ensures { result ≡ sums_of [] }
    {
        Sums {
            flows: 0,
            demanded: 0,
            acknowledged: 0,
            flight: 0,
            pending: 0,
            lost: 0,
            sent: 0,
            missed: 0,
        }
    }

    /// Adds a flow's counts, if it has some.
    fn add(&mut self, counts: Option<Counts>)
        requires counts { IfSome counts (λ c. c.acknowledged + c.lost ≤ c.allocated) }
        requires room { (most : ℕ) × (most < 65536) × AreOfAtMost most self.old }
        ensures sums { (all : List Counts) → self.old ≡ sums_of all → self.new ≡ sums_of (all ++ counts_listed counts) }
        ensures most { (most : ℕ) → AreOfAtMost most self.old → AreOfAtMost (most + 1) self.new }
    {
        let Some(counts) = counts else {
            return;
        };
        self.flows += 1;
        self.demanded += u64::from(counts.demanded);
        self.acknowledged += u64::from(counts.acknowledged);
        self.flight += u64::from(flight(counts));
        self.pending += u64::from(counts.pending);
        self.lost += u64::from(counts.lost);
        self.sent += u64::from(counts.sent);
        self.missed += u64::from(counts.missed);
    }

    /// Adds the counts of one source's flows.
    fn add_source(&mut self, trace: &Trace, replay: &Engine, src: u16)
        requires accepted { IsTrace trace.now }
        requires stands { (cores : SlotCores) × StandsForReplay trace.now cores replay.now }
        requires done { replay.now.allocated ≡ replay.now.rounds }
        requires src { src < endpoints_of trace.now.net }
        requires room { AreOfAtMost (src * endpoints_of trace.now.net) self.old }
        ensures sums { (cores : SlotCores) (all : List Counts) → StandsForReplay trace.now cores replay.now → self.old ≡ sums_of all →
            self.new ≡ sums_of (all ++ counts_from (run_of trace.now cores replay.now) trace.now.rounds src) }
        ensures most { AreOfAtMost ((src + 1) * endpoints_of trace.now.net) self.new }
    {
        every_count_has_a_flight();
        for dst in 0..trace.endpoints() {
            self.add(replay.counts(Flow { src, dst }));
        }
    }

    /// The line that tells them.
    pub(crate) fn line(&self, number: u32) -> Line
        ensures { result ≡ made_line number self.now }
    {
        Line::Made {
            number,
            flows: self.flows,
            demanded: self.demanded,
            acknowledged: self.acknowledged,
            flight: self.flight,
            pending: self.pending,
            lost: self.lost,
            sent: self.sent,
            missed: self.missed,
        }
    }
}

/// The sums over all flows, once every batch is allocated.
pub(crate) fn sum_counts(trace: &Trace, replay: &Engine) -> Sums
    requires accepted { IsTrace trace.now }
    requires stands { (cores : SlotCores) × StandsForReplay trace.now cores replay.now }
    requires done { replay.now.allocated ≡ replay.now.rounds }
    ensures { (cores : SlotCores) → StandsForReplay trace.now cores replay.now →
        result ≡ sums_of (counts_of_run (run_of trace.now cores replay.now) trace.now.rounds) }
{
    let mut sums = Sums::new();
    for src in 0..trace.endpoints() {
        sums.add_source(trace, replay, src);
    }
    sums
}
