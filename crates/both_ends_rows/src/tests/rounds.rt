//! Rounds of an endpoint of two, with batches of one slot and windows of one round. A batch has a slot of the endpoint's flow
//! exactly where the flow is owed one.
ghost use Rattle.std.specs.Prelude.{◌≡◌, ◌<◌, ◌≤◌, ◌+◌, [], ◌∷◌, List, true, false, IfOk, OnOk, IsOk};
ghost use Rattle.fcp_framing.specs.Versions.{IsVersion};
ghost use Rattle.endpoint_history.specs.Counts.{Allocation, allocated, owed};
ghost use Rattle.endpoint_history.specs.Rounds.{Round};
ghost use Rattle.endpoint_history.specs.Steps.{lane_of};
ghost use Rattle.lane_rounds.specs.Standing.{RoundsStandFor, played_by};
ghost use Rattle.both_ends_rows.specs.Callers.{HasPlayedRounds, told_of_one};

use super::{Outside, QUIET, REFUSED, ROWS, Row, Shown, TAKEN, told, what_comes};
use arbiter_lane::conditions_suffice;
use arrayvec::ArrayVec;
use greedy_rules::{Batch, Entry, Flow, Limits};
use lane_rounds::{AskList, Events, LaneRounds, NoMemory, RawList, RefusedList, Sent};
use loss_world::Fate;
use std::alloc::Global;
use std::process::Abort;
use std::test::Fail;

/// What a round writes.
#[derive(Drop)]
struct Written {
    batch: Batch,
    sent: ArrayVec<Sent, 64>,
    refused: RefusedList,
}

/// The rounds with what their caller keeps: the flow's destination, the next round, what was asked for, and whether the last two
/// batches have a slot.
#[derive(Drop)]
struct Caller {
    alloc: Global,
    rounds: LaneRounds,
    dst: u16,
    round: u32,
    asked: u32,
    before: bool,
    last: bool,
}

/// Whether the flow is owed a slot.
fn is_owed(rounds: &LaneRounds, dst: u16) -> bool
    requires { dst < rounds.now.lane.endpoints }
    ensures { result ≡ true → (played : List Round) (allocations : List Allocation) →
        RoundsStandFor rounds.now played allocations →
        allocated (lane_of (played_by rounds.now played).steps) allocations dst + 1 ≤ owed rounds.now.lane.g (lane_of (played_by rounds.now played).steps) dst }
{
    match rounds.count(dst) {
        Some(count) => count.pending() > 0,
        None => false,
    }
}

impl Caller {
    /// Before the first round.
    fn open(alloc: Global, endpoint: u16) -> Result<Caller, NoMemory>
        requires { endpoint < 2 }
        ensures { IfOk result (λ caller. HasPlayedRounds caller.rounds caller.dst caller.round caller.asked caller.before caller.last) }
    {
        Ok(Caller {
            alloc,
            rounds: LaneRounds::open(alloc, endpoint, 2, 1, 1)?,
            dst: 1 - endpoint,
            round: 0,
            asked: 0,
            before: false,
            last: false,
        })
    }

    /// Plays the next round, in which it asks for so many slots.
    fn play_round(
        &mut self,
        ask: u32,
        events: &Events,
        written: &mut Written,
    ) -> Result<(), NoMemory>
        requires played { HasPlayedRounds self.old.rounds self.old.dst self.old.round self.old.asked self.old.before self.old.last }
        requires rounds { self.old.round < 99999 }
        requires boots { events.now.boots ≤ 1 }
        requires version { 0 < events.now.boots → IsVersion events.now.version }
        requires asks { events.now.asks ≡ (self.old.dst, ask) ∷ [] }
        requires most { self.old.asked + ask ≤ 100000000 }
        requires batch { written.old.batch.entries ≡ [] }
        requires sent { written.old.sent.items ≡ [] }
        ensures round { self.new.round ≡ self.old.round + 1 }
        ensures last { self.new.last ≡ false }
        ensures played { OnOk result (HasPlayedRounds self.new.rounds self.new.dst self.new.round self.new.asked self.new.before false) }
    {
        conditions_suffice();
        let told = told(self.dst, self.before);
        let round = self.round;
        self.round = round + 1;
        self.asked += ask;
        self.before = self.last;
        self.last = false;
        self.rounds.round(
            round,
            events,
            &told,
            &mut written.batch,
            &mut written.sent,
            &mut written.refused,
        )
    }

    /// Counts the slot of the batch that was recorded last, where the flow is owed one.
    fn count_slot(&mut self)
        requires played { HasPlayedRounds self.old.rounds self.old.dst self.old.round self.old.asked self.old.before false }
        requires some { 0 < self.old.round }
        requires last { self.old.last ≡ false }
        ensures { HasPlayedRounds self.new.rounds self.new.dst self.new.round self.new.asked self.new.before self.new.last }
    {
        if is_owed(&self.rounds, self.dst) {
            self.rounds.allocated(self.dst, self.round - 1, 1);
            self.last = true;
        }
    }

    /// Plays the next round, and counts the slot of its batch.
    fn play(&mut self, rt: &impl Abort, outside: Outside, raw: RawList) -> Result<Written, NoMemory>
        requires { HasPlayedRounds self.old.rounds self.old.dst self.old.round self.old.asked self.old.before self.old.last }
        ensures { IsOk result → HasPlayedRounds self.new.rounds self.new.dst self.new.round self.new.asked self.new.before self.new.last }
    {
        assert!(rt; self.round < 99_999 && outside.version <= 2);
        assert!(rt; outside.ask <= 100_000_000 && self.asked <= 100_000_000 - outside.ask);
        let mut asks = AskList::new(self.alloc);
        asks.push(self.dst, outside.ask)?;
        let events = Events {
            boots: u32::from(outside.version > 0),
            version: outside.version,
            asks,
            up: outside.up,
            down: outside.down,
            raw,
        };
        let mut written = Written {
            batch: Batch::with_limits(self.alloc, Limits { hosts: 2, cores: 2 }),
            sent: ArrayVec::new(),
            refused: RefusedList::new(self.alloc),
        };
        self.play_round(outside.ask, &events, &mut written)?;
        self.count_slot();
        Ok(written)
    }

    /// Demanded, acknowledged, in flight, pending, lost, sent and missed.
    fn counts(&self) -> [u32; 7]
        requires { HasPlayedRounds self.now.rounds self.now.dst self.now.round self.now.asked self.now.before self.now.last }
    {
        let (sent, missed) = self.rounds.totals(self.dst);
        match self.rounds.count(self.dst) {
            Some(count) => [
                count.demanded,
                count.acknowledged,
                count.in_flight(),
                count.pending(),
                count.lost,
                sent,
                missed,
            ],
            None => [0, 0, 0, 0, 0, sent, missed],
        }
    }
}

/// Plays a row, and looks at all that it shows.
fn play_row(rt: &impl Abort, alloc: Global, row: &Row) -> Result<(), Fail> {
    let mut caller = Caller::open(alloc, 0)?;
    let mut shown = Shown::new(alloc);
    for round in 0..row.rounds {
        let written = caller.play(rt, what_comes(row.comes, round), RawList::new(alloc))?;
        shown.add_batch(round, &written.batch, caller.last)?;
        shown.add_sent(round, &written.sent)?;
    }
    assert_eq!(rt; shown.entries.as_slice(), row.entries);
    assert_eq!(rt; shown.slots.as_slice(), row.slots);
    assert_eq!(rt; shown.sent.as_slice(), row.sent);
    assert_eq!(rt; caller.counts(), row.counts);
    Ok(())
}

#[test]
fn rows_are_played(rt: HostRuntime) -> Result<(), Fail> {
    let alloc = rt.alloc();
    for row in ROWS.iter() {
        play_row(&rt, alloc, row)?;
    }
    Ok(())
}

/// The packets of which all but the last are refused.
fn forged(alloc: Global) -> Result<RawList, NoMemory> {
    let mut raw = RawList::new(alloc);
    let mut place: u32 = 0;
    for (bytes, _) in REFUSED.iter() {
        raw.push(place, bytes)?;
        place = place.saturating_add(1);
    }
    raw.push(place, &TAKEN)?;
    Ok(raw)
}

/// Whether these packets were refused, each with its number.
fn are_refused(refused: &RefusedList, packets: &[(&[u8], u8)]) -> bool {
    if refused.len() != packets.len() {
        return false;
    }
    for (at, (_, number)) in packets.iter().enumerate() {
        let (place, found) = refused.get(at);
        if place as usize != at || found != *number {
            return false;
        }
    }
    true
}

/// Plays so many rounds in which nothing comes and nothing is sent.
fn play_quietly(
    rt: &impl Abort,
    alloc: Global,
    caller: &mut Caller,
    rounds: u32,
) -> Result<(), NoMemory>
    requires { HasPlayedRounds caller.old.rounds caller.old.dst caller.old.round caller.old.asked caller.old.before caller.old.last }
    ensures { OnOk result (HasPlayedRounds caller.new.rounds caller.new.dst caller.new.round caller.new.asked caller.new.before caller.new.last) }
{
    for _ in 0..rounds {
        let written = caller.play(rt, QUIET, RawList::new(alloc))?;
        assert!(rt; written.sent.is_empty());
    }
    Ok(())
}

// Bytes that come to endpoint 1 of two, which asks for nothing, after its own request of the round.
#[test]
fn forged_packets_are_told_or_taken(rt: HostRuntime) -> Result<(), Fail> {
    let alloc = rt.alloc();
    let mut caller = Caller::open(alloc, 1)?;
    play_quietly(&rt, alloc, &mut caller, 2)?;
    let written = caller.play(&rt, QUIET, forged(alloc)?)?;
    assert!(rt; are_refused(&written.refused, &REFUSED));
    let entry = written.batch.find(Flow { src: 1, dst: 0 });
    assert!(rt;
        matches!(
            entry,
            Some(Entry {
                opens: true,
                clear: false,
                add: 200_000_000,
                ..
            })
        )
    );
    // It is told slots, acknowledges them and sends in none.
    play_quietly(&rt, alloc, &mut caller, 4)?;
    assert_eq!(rt; caller.counts(), [200_000_000, 3, 2, 199_999_995, 0, 0, 0]);
    Ok(())
}

const LONG: u32 = 10_000;

/// What comes in a round of a long run, whose last 200 rounds are quiet.
fn long_outside(round: u32) -> Outside {
    if round >= LONG - 200 {
        return QUIET;
    }
    Outside {
        version: if round % 1000 == 999 {
            1 + (round / 1000 % 2) as u8
        } else {
            0
        },
        ask: if round % 3 == 0 { 1 + round % 2 } else { 0 },
        up: fate(round % 7, round % 11, round % 13),
        down: fate(round % 11, round % 13, round % 7),
    }
}

/// A packet is lost, comes late, or comes twice.
fn fate(lost: u32, late: u32, twice: u32) -> Option<Fate> {
    if lost == 3 {
        Some(Fate::Lose)
    } else if late == 5 {
        Some(Fate::Hold((1 + twice % 6) as u8))
    } else if twice == 0 {
        Some(Fate::Twice)
    } else {
        None
    }
}

/// Whether the ledger of a flow balances, and no more is sent than was asked for.
fn balances(counts: [u32; 7], asked: u32) -> bool {
    let [demanded, acknowledged, flight, pending, _, sent, _] = counts;
    u64::from(demanded) == u64::from(acknowledged) + u64::from(flight) + u64::from(pending)
        && sent <= asked
}

/// What was asked for since the last boot, once this comes.
fn asked_after(asked: u32, outside: Outside) -> u32 {
    let before = if outside.version > 0 { 0 } else { asked };
    before.saturating_add(outside.ask)
}

#[test]
fn a_long_run_balances(rt: HostRuntime) -> Result<(), Fail> {
    let alloc = rt.alloc();
    let mut caller = Caller::open(alloc, 0)?;
    let mut asked: u32 = 0;
    for round in 0..LONG {
        let outside = long_outside(round);
        asked = asked_after(asked, outside);
        caller.play(&rt, outside, RawList::new(alloc))?;
        assert!(rt; balances(caller.counts(), asked));
    }
    let [demanded, acknowledged, _, _, lost, sent, missed] = caller.counts();
    assert!(rt; lost > 0 && missed > 0);
    assert_eq!(rt; (sent, acknowledged), (asked, demanded));
    Ok(())
}
