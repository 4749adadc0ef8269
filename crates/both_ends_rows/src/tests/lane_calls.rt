//! The rows as a lane alone reads and tells them: an endpoint of two, with batches of one slot and windows of one round. A batch has
//! a slot of the endpoint's flow exactly where the flow is owed one.
ghost use Rattle.std.specs.Prelude.{◌≡◌, ◌<◌, ◌≤◌, ◌+◌, ◌-◌, [], ◌∷◌, List, Some, slice_get, true, false, IfOk, OnOk};
ghost use Rattle.flow_ledger.specs.FlowCount.{pending};
ghost use Rattle.endpoint_history.specs.Lane.{LaneHistory};
ghost use Rattle.endpoint_history.specs.Counts.{Allocation, allocated, owed};
ghost use Rattle.arbiter_lane.specs.Standing.{LaneStandsFor};
ghost use Rattle.arbiter_lane.specs.declared.line.LaneLine.{LaneLine as LineOf};
ghost use Rattle.both_ends_rows.specs.Callers.{IsServed};

use super::{Packets, REFUSED, ROWS, Row, Shown, TAKEN, is_as_listed, request, told};
use arbiter_lane::{Lane, NoMemory, UpRefused, conditions_suffice};
use greedy_rules::{Batch, Entry, Flow, Limits};
use std::alloc::{AllocError, Global};
use std::process::Abort;
use std::test::Fail;

/// A lane with what its caller keeps: the flow's destination, the round, whether its packet was made, and whether the last two
/// batches have a slot.
#[derive(Drop)]
struct Caller {
    lane: Lane,
    dst: u16,
    round: u32,
    before: bool,
    last: bool,
}

/// Whether the flow is owed a slot.
fn is_owed(lane: &Lane, dst: u16) -> bool
    requires { dst < lane.now.endpoints }
    ensures pending { result ≡ true → (line : LineOf) → slice_get lane.now.lines dst ≡ Some line → 1 ≤ pending line.count }
    ensures owed { result ≡ true → (history : LaneHistory) (allocations : List Allocation) →
        LaneStandsFor lane.now history allocations →
        allocated history allocations dst + 1 ≤ owed lane.now.g history dst }
{
    match lane.count(dst) {
        Some(count) => count.pending() > 0,
        None => false,
    }
}

impl Caller {
    fn open(alloc: Global, endpoint: u16) -> Result<Caller, NoMemory>
        requires { endpoint < 2 }
        ensures { IfOk result (λ caller. IsServed caller.lane caller.dst caller.round 0 caller.before caller.last) }
    {
        Ok(Caller {
            lane: Lane::open(alloc, endpoint, 2, 1, 1)?,
            dst: 1 - endpoint,
            round: 0,
            before: false,
            last: false,
        })
    }

    /// Makes the packet of the round, which is as listed.
    fn tell(&mut self, rt: &impl Abort, down: &[(u32, &[u8])])
        requires { IsServed self.old.lane self.old.dst self.old.round 0 self.old.before self.old.last }
        ensures round { self.new.round ≡ self.old.round }
        ensures served { IsServed self.new.lane self.new.dst self.new.round 1 self.new.before self.new.last }
    {
        assert!(rt; self.round < 99_999);
        conditions_suffice();
        let mut buf = [0; 2048];
        let told = told(self.dst, self.before);
        let length = self
            .lane
            .make_down(self.round, &told, &mut buf)
            .unwrap_or(0);
        assert!(rt; is_as_listed(down, self.round, &buf[..length]));
    }

    /// Reads a packet.
    fn read(&mut self, bytes: &[u8]) -> Result<(), UpRefused>
        requires { IsServed self.old.lane self.old.dst self.old.round 1 self.old.before self.old.last }
        ensures { IsServed self.new.lane self.new.dst self.new.round 1 self.new.before self.new.last }
    {
        self.lane.take_up(self.round, bytes)
    }

    /// Records the round, and counts the slot of its batch, where the flow is owed one.
    fn record(&mut self, rt: &impl Abort, alloc: Global) -> Result<Batch, NoMemory>
        requires { IsServed self.old.lane self.old.dst self.old.round 1 self.old.before self.old.last }
        ensures { OnOk result (IsServed self.new.lane self.new.dst self.new.round 0 self.new.before self.new.last) }
    {
        assert!(rt; self.round < 99_999);
        let mut batch = Batch::with_limits(alloc, Limits { hosts: 2, cores: 2 });
        self.lane.record(self.round, &mut batch)?;
        self.round += 1;
        self.before = self.last;
        self.last = false;
        self.count_slot();
        Ok(batch)
    }

    fn count_slot(&mut self)
        requires played { IsServed self.old.lane self.old.dst self.old.round 0 self.old.before false }
        requires some { 0 < self.old.round }
        requires last { self.old.last ≡ false }
        ensures { IsServed self.new.lane self.new.dst self.new.round 0 self.new.before self.new.last }
    {
        if is_owed(&self.lane, self.dst) {
            self.lane.allocated(self.dst, self.round - 1, 1);
            self.last = true;
        }
    }

    /// Reads the resets of this round.
    fn read_resets(&mut self, rt: &impl Abort, row: &Row)
        requires { IsServed self.old.lane self.old.dst self.old.round 1 self.old.before self.old.last }
        ensures { IsServed self.new.lane self.new.dst self.new.round 1 self.new.before self.new.last }
    {
        for (round, epoch) in row.resets {
            self.read_reset(rt, *round, &reset(row.version, *epoch));
        }
    }

    /// Reads a reset, if it comes in this round.
    fn read_reset(&mut self, rt: &impl Abort, round: u32, bytes: &[u8])
        requires { IsServed self.old.lane self.old.dst self.old.round 1 self.old.before self.old.last }
        ensures { IsServed self.new.lane self.new.dst self.new.round 1 self.new.before self.new.last }
    {
        if round == self.round {
            assert_eq!(rt; self.read(bytes), Ok(()));
        }
    }

    /// Reads the requests of this round.
    fn read_requests(&mut self, rt: &impl Abort, alloc: Global, row: &Row) -> Result<(), AllocError>
        requires { IsServed self.old.lane self.old.dst self.old.round 1 self.old.before self.old.last }
        ensures { OnOk result (IsServed self.new.lane self.new.dst self.new.round 1 self.new.before self.new.last) }
    {
        for packets in row.requests {
            self.read_request(rt, alloc, row, packets)?;
        }
        Ok(())
    }

    /// Reads what comes in this round of these.
    fn read_request(
        &mut self,
        rt: &impl Abort,
        alloc: Global,
        row: &Row,
        packets: &Packets,
    ) -> Result<(), AllocError>
        requires { IsServed self.old.lane self.old.dst self.old.round 1 self.old.before self.old.last }
        ensures { IsServed self.new.lane self.new.dst self.new.round 1 self.new.before self.new.last }
    {
        if packets.come_in(self.round) {
            let bytes = request(alloc, row, packets, self.round)?;
            assert_eq!(rt; number_of(self.read(&bytes)), packets.refused);
        }
        Ok(())
    }

    /// Demanded, acknowledged, in flight, pending and lost.
    fn counts(&self) -> [u32; 5]
        requires { IsServed self.now.lane self.now.dst self.now.round 0 self.now.before self.now.last }
    {
        match self.lane.count(self.dst) {
            Some(count) => [
                count.demanded,
                count.acknowledged,
                count.in_flight(),
                count.pending(),
                count.lost,
            ],
            None => [0; 5],
        }
    }
}

/// The bytes of a reset of endpoint 0.
fn reset(version: u8, epoch: u32) -> [u8; 8] {
    let [first, second, third, fourth] = epoch.to_be_bytes();
    [version, 2, 0, 0, first, second, third, fourth]
}

/// The number of a refusal, 0 for none.
fn number_of(answer: Result<(), UpRefused>) -> u8 {
    match answer {
        Ok(()) => 0,
        Err(UpRefused::Frame(frame)) => frame.number(),
        Err(UpRefused::Unsynced) => 21,
        Err(UpRefused::OldEpoch) => 22,
        Err(UpRefused::OldSeq) => 23,
        Err(UpRefused::Repeat) => 24,
        Err(UpRefused::NotMine) => 25,
        Err(UpRefused::OtherVersion) => 26,
    }
}

/// Plays a lane's side of a row, and looks at what it records and counts.
fn play_row(rt: &impl Abort, alloc: Global, row: &Row) -> Result<(), Fail> {
    let mut caller = Caller::open(alloc, 0)?;
    let mut shown = Shown::new(alloc);
    for round in 0..row.rounds {
        caller.tell(rt, row.down);
        caller.read_resets(rt, row);
        caller.read_requests(rt, alloc, row)?;
        let batch = caller.record(rt, alloc)?;
        shown.add_batch(round, &batch, caller.last)?;
    }
    assert_eq!(rt; shown.entries.as_slice(), row.entries);
    assert_eq!(rt; shown.slots.as_slice(), row.slots);
    assert_eq!(rt; caller.counts().as_slice(), &row.counts[..5]);
    Ok(())
}

#[test]
fn rows_are_served(rt: HostRuntime) -> Result<(), Fail> {
    let alloc = rt.alloc();
    for row in ROWS.iter() {
        play_row(&rt, alloc, row)?;
    }
    Ok(())
}

/// Reads packets one after the other, each with the number of its answer.
fn read_all(rt: &impl Abort, caller: &mut Caller, packets: &[(&[u8], u8)])
    requires { IsServed caller.old.lane caller.old.dst caller.old.round 1 caller.old.before caller.old.last }
    ensures { IsServed caller.new.lane caller.new.dst caller.new.round 1 caller.new.before caller.new.last }
{
    for (bytes, refused) in packets {
        assert_eq!(rt; number_of(caller.read(bytes)), *refused, "{bytes:?}");
    }
}

// Endpoint 1 of two, which asks for nothing: its reset, two requests, and what comes after the second.
#[test]
fn forged_packets_are_refused_or_taken(rt: HostRuntime) -> Result<(), Fail> {
    let alloc = rt.alloc();
    let mut caller = Caller::open(alloc, 1)?;
    caller.tell(&rt, &[]);
    read_all(&rt, &mut caller, &[(&[1, 2, 0, 1, 0, 0, 0, 1], 0)]);
    caller.record(&rt, alloc)?;
    caller.tell(&rt, &[]);
    read_all(&rt, &mut caller, &[(&OWN_REQUESTS[0], 0)]);
    caller.record(&rt, alloc)?;
    caller.tell(&rt, &[]);
    read_all(&rt, &mut caller, &[(&OWN_REQUESTS[1], 0)]);
    read_all(&rt, &mut caller, &REFUSED);
    read_all(&rt, &mut caller, &[(&TAKEN, 0)]);
    let batch = caller.record(&rt, alloc)?;
    let entry = Entry {
        flow: Flow { src: 1, dst: 0 },
        opens: true,
        clear: false,
        add: 200_000_000,
    };
    assert_eq!(rt; (batch.len(), batch.find(entry.flow)), (1, Some(entry)));
    assert_eq!(rt; caller.counts(), [200_000_000, 0, 1, 199_999_999, 0]);
    assert_eq!(rt; caller.lane.epoch(), 1);
    Ok(())
}

const OWN_REQUESTS: [[u8; 26]; 2] = [
    [
        1, 1, 0, 1, 0, 0, 0, 1, 0, 0, 0, 1, 0, 0, 0, 1, 0, 0, 0, 0, 0, 0, 0, 0, 0, 0,
    ],
    [
        1, 1, 0, 1, 0, 0, 0, 1, 0, 0, 0, 2, 0, 0, 0, 2, 0, 0, 0, 0, 0, 0, 0, 1, 0, 0,
    ],
];
