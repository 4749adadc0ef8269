//! The rows as an agent alone hears and makes them: endpoint 0 of two, with batches of one slot and windows of one round.
ghost use Rattle.std.specs.Prelude.{◌≡◌, ◌≢◌, [], true, None, IfOk, OnOk};
ghost use Rattle.fcp_framing.specs.Fields.{down_of};
ghost use Rattle.fcp_framing.specs.Refusals.{first_refusal, refuses_down};
ghost use Rattle.both_ends_rows.specs.Callers.{IsHeard, MayBeHeard};

use super::{Outside, Packets, ROWS, Row, Shown, allocation, is_as_listed, what_comes};
use arrayvec::ArrayVec;
use endpoint_agent::{Agent, DownRefused, NoMemory, Sent};
use fcp_framing::{Down, decode_down};
use std::alloc::Global;
use std::process::Abort;
use std::test::Fail;

/// An agent with what its caller keeps: the round, its epoch, what was asked for since the last boot, and the batch and the number of
/// the packet that told a slot last.
#[derive(Drop)]
struct Caller {
    agent: Agent,
    round: u32,
    epoch: u32,
    asked: u32,
    batch: u32,
    number: u32,
}

impl Caller {
    fn open(alloc: Global) -> Result<Caller, NoMemory>
        ensures { IfOk result (λ caller. IsHeard caller.agent caller.round caller.epoch caller.asked caller.batch caller.number) }
    {
        Ok(Caller {
            agent: Agent::open(alloc, 0, 2, 1, 1)?,
            round: 0,
            epoch: 1,
            asked: 0,
            batch: 0,
            number: 0,
        })
    }

    /// Boots where a version is given, and asks.
    fn begin(&mut self, rt: &impl Abort, outside: Outside)
        requires { IsHeard self.old.agent self.old.round self.old.epoch self.old.asked self.old.batch self.old.number }
        ensures { IsHeard self.new.agent self.new.round self.new.epoch self.new.asked self.new.batch self.new.number }
    {
        if outside.version > 0 {
            self.boot(rt, outside.version);
        }
        self.ask(rt, outside.ask);
    }

    fn boot(&mut self, rt: &impl Abort, version: u8)
        requires { IsHeard self.old.agent self.old.round self.old.epoch self.old.asked self.old.batch self.old.number }
        ensures { IsHeard self.new.agent self.new.round self.new.epoch self.new.asked self.new.batch self.new.number }
    {
        assert!(rt; (version == 1 || version == 2) && self.epoch < 99_999);
        self.agent.boot(version);
        self.epoch += 1;
        self.asked = 0;
    }

    fn ask(&mut self, rt: &impl Abort, slots: u32)
        requires { IsHeard self.old.agent self.old.round self.old.epoch self.old.asked self.old.batch self.old.number }
        ensures { IsHeard self.new.agent self.new.round self.new.epoch self.new.asked self.new.batch self.new.number }
    {
        assert!(rt; slots <= 100_000_000 && self.asked <= 100_000_000 - slots);
        self.agent.ask(1, slots);
        self.asked += slots;
    }

    /// Whether the agent may hear an allocation: it is for endpoint 0, and tells slots two rounds after their batch or later, of a
    /// later batch than those before or under the number of the last one.
    fn may_hear(&self, down: &Down) -> bool
        ensures { result ≡ true → MayBeHeard self.now.round self.now.batch self.now.number down.now }
    {
        let is_next = down.batch > self.batch
            || down.batch == self.batch && down.seq == self.number;
        let is_late = self.round >= 2 && down.batch <= self.round - 2;
        let is_timely = down.told.is_empty() || is_next && is_late;
        down.dst == 0 && is_timely && self.round < 99_999
    }

    /// Reads an allocation that the agent may hear.
    fn read(&self, rt: &impl Abort, bytes: &[u8]) -> Down
        ensures spelled { first_refusal (refuses_down 2 1 bytes.now) ≡ None }
        ensures read { result ≡ down_of bytes.now }
        ensures may { MayBeHeard self.now.round self.now.batch self.now.number result }
    {
        let mut down = Down::default();
        assert!(rt; decode_down(bytes, 2, 1, &mut down).is_ok());
        assert!(rt; self.may_hear(&down));
        down
    }

    /// The batch and the number of the packet that told a slot last, this one with it.
    fn last_told(&self, down: &Down) -> (u32, u32)
        ensures this { down.now.told.items ≢ [] → (result.0 ≡ down.now.batch) × (result.1 ≡ down.now.seq) }
        ensures other { down.now.told.items ≡ [] → (result.0 ≡ self.now.batch) × (result.1 ≡ self.now.number) }
    {
        if down.told.is_empty() {
            (self.batch, self.number)
        } else {
            (down.batch, down.seq)
        }
    }

    /// Hears an allocation.
    fn hear(&mut self, rt: &impl Abort, bytes: &[u8]) -> Result<(), DownRefused>
        requires { IsHeard self.old.agent self.old.round self.old.epoch self.old.asked self.old.batch self.old.number }
        ensures { IsHeard self.new.agent self.new.round self.new.epoch self.new.asked self.new.batch self.new.number }
    {
        let down = self.read(rt, bytes);
        let (batch, number) = self.last_told(&down);
        self.batch = batch;
        self.number = number;
        self.agent.take_down(self.round, bytes)
    }

    /// Hears what comes in this round of these.
    fn hear_one(
        &mut self,
        rt: &impl Abort,
        alloc: Global,
        row: &Row,
        packets: &Packets,
    ) -> Result<(), NoMemory>
        requires { IsHeard self.old.agent self.old.round self.old.epoch self.old.asked self.old.batch self.old.number }
        ensures { IsHeard self.new.agent self.new.round self.new.epoch self.new.asked self.new.batch self.new.number }
    {
        if packets.come_in(self.round) {
            let bytes = allocation(alloc, row, packets, self.round)?;
            let answer = self.hear(rt, &bytes);
            assert_eq!(rt; number_of(answer), packets.refused);
        }
        Ok(())
    }

    /// Hears all that comes in this round.
    fn hear_all(&mut self, rt: &impl Abort, alloc: Global, row: &Row) -> Result<(), NoMemory>
        requires { IsHeard self.old.agent self.old.round self.old.epoch self.old.asked self.old.batch self.old.number }
        ensures { OnOk result (IsHeard self.new.agent self.new.round self.new.epoch self.new.asked self.new.batch self.new.number) }
    {
        for packets in row.allocations {
            self.hear_one(rt, alloc, row, packets)?;
        }
        Ok(())
    }

    /// Ends the round: makes its packet, which is as listed, and sends.
    fn end(&mut self, rt: &impl Abort, row: &Row) -> ArrayVec<Sent, 64>
        requires { IsHeard self.old.agent self.old.round self.old.epoch self.old.asked self.old.batch self.old.number }
        ensures { IsHeard self.new.agent self.new.round self.new.epoch self.new.asked self.new.batch self.new.number }
    {
        assert!(rt; self.round < 99_999);
        let mut up = [0; 2048];
        let length = self.agent.make_up(&mut up);
        assert!(rt; is_as_listed(row.up, self.round, &up[..length]));
        let mut sent = ArrayVec::new();
        self.agent.send_due(self.round, &mut sent);
        self.round += 1;
        sent
    }
}

/// The number of a refusal, 0 for none.
fn number_of(answer: Result<(), DownRefused>) -> u8 {
    match answer {
        Ok(()) => 0,
        Err(DownRefused::Frame(frame)) => frame.number(),
        Err(DownRefused::NotMine) => 31,
        Err(DownRefused::OtherEpoch) => 32,
        Err(DownRefused::OldSeq) => 33,
        Err(DownRefused::Repeat) => 34,
        Err(DownRefused::OtherVersion) => 35,
    }
}

/// Plays an agent's side of a row, and looks at what it sends and counts.
fn play_row(rt: &impl Abort, alloc: Global, row: &Row) -> Result<(), Fail> {
    let mut caller = Caller::open(alloc)?;
    let mut shown = Shown::new(alloc);
    for round in 0..row.rounds {
        caller.begin(rt, what_comes(row.comes, round));
        caller.hear_all(rt, alloc, row)?;
        let sent = caller.end(rt, row);
        shown.add_sent(round, &sent)?;
    }
    assert_eq!(rt; shown.sent.as_slice(), row.sent);
    assert_eq!(rt; caller.agent.totals(1), (row.counts[5], row.counts[6]));
    Ok(())
}

#[test]
fn rows_are_heard(rt: HostRuntime) -> Result<(), Fail> {
    let alloc = rt.alloc();
    for row in ROWS.iter() {
        play_row(&rt, alloc, row)?;
    }
    Ok(())
}
