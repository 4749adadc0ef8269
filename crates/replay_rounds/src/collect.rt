//! The rounds of a window, endpoint by endpoint, and parts of the endpoints side by side.
ghost use Rattle.std.specs.Thread.{IsSync};
ghost use Rattle.std.specs.Prelude.{◌≡◌, ◌<◌, ◌≤◌, ◌+◌, ◌*◌, ◌-◌, ◌++◌, ℕ, map, length, All, IfOk, OnOk};
ghost use Rattle.std.specs.List.{range_with_len, slice_index_or};
ghost use Rattle.greedy_rules.specs.Batches.{IsAboveLast};
ghost use Rattle.clos_topology.specs.Network.{endpoints_of};
ghost use Rattle.clos_topology.specs.NetSlots.{SlotCores};
ghost use Rattle.replay_rounds.specs.Played.{rounds_played};
ghost use Rattle.replay_rounds.specs.Standing.{LaneStands};
ghost use Rattle.replay_rounds.specs.Collecting.{answers_of, blank_round, played_of, published_by, run_told, with_behind, with_endpoint, AreRaws, AreRoundsPlayed, LanesArePlayed, LanesStand, LieBelow, MayCollectRounds, MayPlayLane, MayPlayLanes, RoundPart};

use crate::NoMemory;
use crate::part::{Buffers, RoundInPlay};
use crate::played::Played;
use crate::publish::count_lane;
use crate::raw::RawRound;
use lane_rounds::LaneRounds;
use slot_publisher::Publisher;
use std::alloc::Global;
use std::thread::{Threads, join_mut};
use trace_text::Trace;

/// A window of rounds: what is told in them, and from which batch on the lanes count the slots that are published.
#[derive(Clone, Copy)]
pub(crate) struct WindowInPlay<'a> {
    pub(crate) trace: &'a Trace,
    pub(crate) publisher: &'a Publisher,
    pub(crate) g: u8,
    pub(crate) counted: u32,
    pub(crate) first: u32,
    pub(crate) count: u32,
}

/// Plays the window's rounds for every endpoint, in at most so many threads. Before its rounds each lane counts its slots of the
/// published batches that aren't counted yet.
pub(crate) fn collect<R: Threads + Sync>(
    rt: &R,
    alloc: Global,
    threads: u16,
    lanes: &mut [LaneRounds],
    window: &WindowInPlay,
) -> Result<Played, NoMemory>
    requires may { (cores : SlotCores) × MayCollectRounds window.now cores lanes.old }
    ensures lanes { OnOk result ((cores : SlotCores) →
        MayCollectRounds window.now cores lanes.old →
        LanesStand (run_told window.now cores) (window.now.first + window.now.count) (published_by window.now.publisher.now) lanes.new) }
    ensures played { IfOk result (λ played. (cores : SlotCores) →
        MayCollectRounds window.now cores lanes.old →
        played ≡ rounds_played (run_told window.now cores) window.now.trace.now window.now.first window.now.count) }
{
    let raws = read_raws(alloc, window)?;
    let rounds = play_beside(rt, alloc, threads, window, &raws, 0, lanes)?;
    gather(alloc, &raws, rounds)
}

/// The raw packets of each round.
fn read_raws(alloc: Global, window: &WindowInPlay) -> Result<Vec<RawRound>, NoMemory>
    requires within { window.now.first + window.now.count ≤ window.now.trace.now.rounds }
    requires few { window.now.first + window.now.count ≤ 100000 }
    ensures { IfOk result (λ raws. AreRaws window.now raws.items) }
{
    let mut raws = Vec::with_capacity(alloc, window.count as usize)?;
    for at in 0..window.count {
        raws.push(RawRound::read(alloc, window.trace, window.first + at)?)?;
    }
    Ok(raws)
}

/// Plays the rounds for these endpoints, the first of which has this number: where there may be two threads or more, for the endpoints of a
/// front in one, and beside it for those behind them.
#[cycle(beside)]
fn play_beside<R: Threads + Sync>(
    rt: &R,
    alloc: Global,
    threads: u16,
    window: &WindowInPlay,
    raws: &[RawRound],
    from: u16,
    lanes: &mut [LaneRounds],
) -> Result<Vec<RoundInPlay>, NoMemory>
    requires may { (cores : SlotCores) × MayPlayLanes window.now cores from raws.now lanes.old }
    ensures lanes { OnOk result (LanesArePlayed window.now from raws.now lanes.old lanes.new) }
    ensures rounds { IfOk result (λ rounds. AreRoundsPlayed window.now from raws.now lanes.old rounds.items) }
{
    if threads < 2 || lanes.len() < threads as usize {
        return play_in_turn(alloc, window, raws, from, lanes);
    }
    let middle = lanes.len() * (threads / 2) as usize / threads as usize;
    let (front, back) = lanes.split_at_mut(middle);
    let (rounds, behind) = play_halves(rt, alloc, threads, window, raws, from, front, back);
    let mut rounds = rounds?;
    append_rounds(&mut rounds, &behind?)?;
    Ok(rounds)
}

/// Plays the rounds for the endpoints of a front, the first of which has this number, and beside it for those behind them, in at most so
/// many threads together.
#[cycle(beside)]
fn play_halves<R: Threads + Sync>(
    rt: &R,
    alloc: Global,
    threads: u16,
    window: &WindowInPlay,
    raws: &[RawRound],
    from: u16,
    front: &mut [LaneRounds],
    back: &mut [LaneRounds],
) -> (
    Result<Vec<RoundInPlay>, NoMemory>,
    Result<Vec<RoundInPlay>, NoMemory>,
)
    requires threads { 2 ≤ threads }
    requires front { (cores : SlotCores) × MayPlayLanes window.now cores from raws.now front.old }
    requires back { (cores : SlotCores) × MayPlayLanes window.now cores (from + length front.old) raws.now back.old }
    ensures front { OnOk result.0 (LanesArePlayed window.now from raws.now front.old front.new) }
    ensures front_rounds { IfOk result.0 (λ rounds. AreRoundsPlayed window.now from raws.now front.old rounds.items) }
    ensures back { OnOk result.1 (LanesArePlayed window.now (from + length front.old) raws.now back.old back.new) }
    ensures back_rounds { IfOk result.1 (λ rounds. AreRoundsPlayed window.now (from + length front.old) raws.now back.old rounds.items) }
{
    let behind = from + front.len() as u16;
    let half = threads / 2;
    let rest = threads - half;
    let mut first = || -> Result<Vec<RoundInPlay>, NoMemory>
        requires { IsSync R.row × ((cores : SlotCores) × MayPlayLanes window.now cores from raws.now front.now) }
        ensures lanes { OnOk result (LanesArePlayed window.entry.now from raws.entry.now front.entry.now front.exit.now) }
        ensures rounds { IfOk result (λ rounds. AreRoundsPlayed window.entry.now from raws.entry.now front.entry.now rounds.items) }
    { play_beside(rt, alloc, half, window, raws, from, front) };
    let mut second = || -> Result<Vec<RoundInPlay>, NoMemory>
        requires { IsSync R.row × ((cores : SlotCores) × MayPlayLanes window.now cores behind raws.now back.now) }
        ensures lanes { OnOk result (LanesArePlayed window.entry.now behind raws.entry.now back.entry.now back.exit.now) }
        ensures rounds { IfOk result (λ rounds. AreRoundsPlayed window.entry.now behind raws.entry.now back.entry.now rounds.items) }
    { play_beside(rt, alloc, rest, window, raws, behind, back) };
    join_mut(rt, &mut first, &mut second)
}

/// Appends to each round what endpoints behind these give in it.
fn append_rounds(rounds: &mut [RoundInPlay], behind: &[RoundInPlay]) -> Result<(), NoMemory>
    requires same { length rounds.old ≡ length behind.now }
    requires below { (at : ℕ) (d : RoundPart) → at < length rounds.old → LieBelow (slice_index_or rounds.old at d).batch.entries (slice_index_or behind.now at d).batch.entries }
    ensures { OnOk result ((at : ℕ) (d : RoundPart) → at < length rounds.old → slice_index_or rounds.new at d ≡ with_behind (slice_index_or behind.now at d) (slice_index_or rounds.old at d)) }
{
    for at in 0..rounds.len() {
        rounds[at].append(&behind[at])?;
    }
    Ok(())
}

/// Plays the rounds for one endpoint after the other, so that a lane stays in the cache for all of them.
fn play_in_turn(
    alloc: Global,
    window: &WindowInPlay,
    raws: &[RawRound],
    from: u16,
    lanes: &mut [LaneRounds],
) -> Result<Vec<RoundInPlay>, NoMemory>
    requires may { (cores : SlotCores) × MayPlayLanes window.now cores from raws.now lanes.old }
    ensures lanes { OnOk result (LanesArePlayed window.now from raws.now lanes.old lanes.new) }
    ensures rounds { IfOk result (λ rounds. AreRoundsPlayed window.now from raws.now lanes.old rounds.items) }
{
    let mut rounds = open_rounds(alloc, window, lanes.len())?;
    let mut buffers = Buffers::new(alloc);
    play_lanes(window, raws, from, lanes, &mut buffers, &mut rounds)?;
    Ok(rounds)
}

/// The rounds before the first of so many endpoints.
fn open_rounds(
    alloc: Global,
    window: &WindowInPlay,
    endpoints: usize,
) -> Result<Vec<RoundInPlay>, NoMemory>
    requires few { window.now.first + window.now.count ≤ 100000 }
    ensures { IfOk result (λ rounds. rounds.items ≡ map (blank_round window.now.trace.now) (range_with_len window.now.first window.now.count)) }
{
    let mut rounds = Vec::with_capacity(alloc, window.count as usize)?;
    for at in 0..window.count {
        rounds.push(RoundInPlay::open(alloc, window.trace, window.first + at, endpoints)?)?;
    }
    Ok(rounds)
}

/// Plays the rounds for one endpoint after the other.
fn play_lanes(
    window: &WindowInPlay,
    raws: &[RawRound],
    from: u16,
    lanes: &mut [LaneRounds],
    buffers: &mut Buffers,
    rounds: &mut [RoundInPlay],
) -> Result<(), NoMemory>
    requires may { (cores : SlotCores) × MayPlayLanes window.now cores from raws.now lanes.old }
    requires blank { rounds.old ≡ map (blank_round window.now.trace.now) (range_with_len window.now.first window.now.count) }
    ensures lanes { OnOk result (LanesArePlayed window.now from raws.now lanes.old lanes.new) }
    ensures rounds { OnOk result (AreRoundsPlayed window.now from raws.now lanes.old rounds.new) }
{
    for at in 0..lanes.len() {
        let endpoint = from + at as u16;
        play_lane(window, raws, endpoint, &mut lanes[at], buffers, rounds)?;
    }
    Ok(())
}

/// Counts an endpoint's slots that are published and plays the rounds for it: it shares nothing with others but the rounds that it
/// appends to.
fn play_lane(
    window: &WindowInPlay,
    raws: &[RawRound],
    endpoint: u16,
    lane: &mut LaneRounds,
    buffers: &mut Buffers,
    rounds: &mut [RoundInPlay],
) -> Result<(), NoMemory>
    requires may { (cores : SlotCores) × MayPlayLane window.now cores endpoint raws.now lane.old rounds.old }
    requires endpoint { endpoint < endpoints_of window.now.trace.now.net }
    requires above { All (λ part. IsAboveLast part.batch.entries (record { src = endpoint; dst = 0 })) rounds.old }
    ensures lane { OnOk result ((cores : SlotCores) →
        MayPlayLane window.now cores endpoint raws.now lane.old rounds.old →
        LaneStands (run_told window.now cores) (window.now.first + window.now.count) (published_by window.now.publisher.now) endpoint lane.new) }
    ensures rounds { OnOk result ((cores : SlotCores) →
        MayPlayLane window.now cores endpoint raws.now lane.old rounds.old →
        rounds.new ≡ map (with_endpoint (run_told window.now cores) window.now.trace.now endpoint) rounds.old) }
{
    count_lane(lane, endpoint, window.publisher, window.counted);
    for at in 0..rounds.len() {
        rounds[at].play(
            lane,
            endpoint,
            window.trace,
            window.publisher,
            window.g,
            &raws[at],
            buffers,
        )?;
    }
    Ok(())
}

/// What the rounds give once every endpoint is played.
fn gather(alloc: Global, raws: &[RawRound], rounds: Vec<RoundInPlay>) -> Result<Played, NoMemory>
    requires { length raws.now ≡ length rounds.items }
    ensures { IfOk result (λ played. played ≡ played_of raws.now rounds.items) }
{
    let answers = answer_raws(alloc, raws, &rounds)?;
    let mut batches = Vec::with_capacity(alloc, rounds.len())?;
    let mut departures = Vec::with_capacity(alloc, rounds.len())?;
    for round in rounds {
        let (batch, sent) = round.into_parts()?;
        batches.push(batch)?;
        departures.push(sent)?;
    }
    Ok(Played {
        batches,
        answers,
        departures,
    })
}

/// What the raw packets of each round are answered.
fn answer_raws(
    alloc: Global,
    raws: &[RawRound],
    rounds: &[RoundInPlay],
) -> Result<Vec<Vec<Option<u8>>>, NoMemory>
    requires { length raws.now ≡ length rounds.now }
    ensures { IfOk result (λ answers. map (λ v. v.items) answers.items ≡ answers_of raws.now rounds.now) }
{
    let mut answers = Vec::with_capacity(alloc, raws.len())?;
    for at in 0..raws.len() {
        answers.push(raws[at].answers(rounds[at].refused())?)?;
    }
    Ok(answers)
}
