//! What the desk keeps for one endpoint.
ghost use Rattle.std.specs.Prelude.{◌≡◌, ◌≢◌, ◌<◌, ◌≤◌, ◌+◌, ℕ, [], ◌∷◌, ◌++◌, length, List, IfOk, OnOk, Some, slice_get, vec_capacity, vec_len};
ghost use Rattle.std.specs.Result.{result_err};
ghost use Rattle.greedy_rules.specs.Batches.{IsAboveLast};
ghost use Rattle.rtrb.specs.Ring.{received, known_items, consumer_capacity, SameConsumer};
ghost use Rattle.front_desk.specs.declared.progress.Progress.TheVariants as progress_of;
ghost use Rattle.front_desk.specs.State.{opened_line, opened_seat, IsSeatOf, MayTakeMore, RingName};
ghost use Rattle.front_desk.specs.Answers.{answer_number, answers_of, entries_of};
ghost use Rattle.front_desk.specs.Standing.{HasRead, IsDeskLine, state_of};

use crate::NoMemory;
use crate::packet::Packet;
use crate::progress::Progress;
use crate::seat::Seat;
use arbiter_lane::{Lane, UpRefused};
use arrayvec::ArrayVec;
use greedy_rules::Batch;
use rtrb::{Consumer, RingBuffer};
use std::alloc::Global;

/// An endpoint's lane, the end of its ring that gives the packets, and what the lane answered to each, as numbers.
#[derive(Drop)]
pub(crate) struct Line {
    lane: Lane,
    ring: Consumer<Packet>,
    answers: Vec<u8>,
    progress: Progress,
}

impl Line {
    /// The line of an endpoint in round 0, with the seat of its ring.
    pub(crate) fn open(
        alloc: Global,
        endpoint: u16,
        endpoints: u16,
        b: u8,
        g: u8,
        room: u32,
    ) -> Result<(Line, Seat), NoMemory>
        requires endpoint { endpoint < endpoints }
        requires endpoints { endpoints ≤ 256 }
        requires some_slot { 1 ≤ b }
        requires most_slots { b ≤ 64 }
        requires some_round { 1 ≤ g }
        requires most_rounds { g ≤ 16 }
        ensures line { IfOk result (λ opened. IsDeskLine endpoint endpoints opened.0) }
        ensures state { IfOk result (λ opened. (ring : RingName) × (state_of opened.0 ≡ opened_line room b g ring) × (opened.1 ≡ opened_seat room endpoint ring)) }
    {
        let (producer, consumer) = RingBuffer::new(alloc, room as usize)?;
        let line = Line {
            lane: lane_in_round_0(alloc, endpoint, endpoints, b, g)?,
            ring: consumer,
            answers: Vec::with_capacity(alloc, room as usize)?,
            progress: Progress::Open,
        };
        Ok((line, Seat::new(endpoint, producer)))
    }

    /// Takes what is seen in the ring of an open line.
    pub(crate) fn poll(&mut self, round: u32)
        requires round { round ≡ 0 }
        requires line { (endpoint : ℕ) × (endpoints : ℕ) × IsDeskLine endpoint endpoints self.old }
        ensures line { (endpoint endpoints : ℕ) → IsDeskLine endpoint endpoints self.old → IsDeskLine endpoint endpoints self.new }
        ensures polled { MayTakeMore (state_of self.old) (state_of self.new) }
    {
        if self.progress == Progress::Open {
            take_seen(&mut self.ring, &mut self.lane, &mut self.answers, round);
        }
    }

    /// Takes all that is left of its seat, into which nothing more is put.
    pub(crate) fn close(&mut self, round: u32, seat: Seat)
        requires round { round ≡ 0 }
        requires line { (endpoint : ℕ) × (endpoints : ℕ) × IsDeskLine endpoint endpoints self.old }
        requires seat { IsSeatOf seat (state_of self.old) }
        requires progress { self.old.progress ≡ progress_of.Open }
        ensures line { (endpoint endpoints : ℕ) → IsDeskLine endpoint endpoints self.old → IsDeskLine endpoint endpoints self.new }
        ensures closed { state_of self.new ≡ record (state_of self.old) { taken = seat.put; progress = progress_of.Closed } }
        ensures front { (rest : List (List ℕ)) × (received self.old.ring ++ rest ≡ seat.put) }
    {
        let mut seat = seat;
        let left = seat.count_left(&mut self.ring);
        take_rest(
            &mut self.ring,
            left,
            &mut self.lane,
            &mut self.answers,
            round,
        );
        self.progress = Progress::Closed;
    }

    /// Records what the packets of a closed line demand.
    pub(crate) fn record(&mut self, round: u32, batch: &mut Batch) -> Result<(), NoMemory>
        requires round { round ≡ 0 }
        requires progress { self.old.progress ≡ progress_of.Closed }
        requires line { (endpoint : ℕ) × (endpoints : ℕ) × IsDeskLine endpoint endpoints self.old × IsAboveLast batch.old.entries (record { src = endpoint; dst = 0 }) }
        ensures line { (endpoint endpoints : ℕ) → IsDeskLine endpoint endpoints self.old → IsDeskLine endpoint endpoints self.new }
        ensures recorded { OnOk result (state_of self.new ≡ record (state_of self.old) { progress = progress_of.Recorded }) }
        ensures entries { OnOk result ((endpoint endpoints : ℕ) → IsDeskLine endpoint endpoints self.old →
            batch.new.entries ≡ batch.old.entries ++ entries_of endpoint endpoints self.old.lane.g (received self.old.ring)) }
        ensures limits { batch.new.limits ≡ batch.old.limits }
    {
        self.progress = Progress::Recorded;
        self.lane.record(round, batch)
    }

    /// How many packets were taken.
    pub(crate) fn taken(&self) -> usize
        requires { (endpoint : ℕ) × (endpoints : ℕ) × IsDeskLine endpoint endpoints self.now }
        ensures { result ≡ length (received self.now.ring) }
    {
        self.answers.len()
    }

    /// What the packet at this place was answered: 0 where it was accepted, else the number of its refusal.
    pub(crate) fn answer(&self, at: usize) -> u8
        requires line { (endpoint : ℕ) × (endpoints : ℕ) × IsDeskLine endpoint endpoints self.now }
        requires taken { at < length (received self.now.ring) }
        ensures { (endpoint endpoints : ℕ) → IsDeskLine endpoint endpoints self.now → slice_get (answers_of endpoint endpoints (received self.now.ring)) at ≡ Some result }
    {
        self.answers[at]
    }
}

/// The lane of an endpoint whose packet of round 0 was made, which tells nothing.
fn lane_in_round_0(
    alloc: Global,
    endpoint: u16,
    endpoints: u16,
    b: u8,
    g: u8,
) -> Result<Lane, NoMemory>
    requires endpoint { endpoint < endpoints }
    requires endpoints { endpoints ≤ 256 }
    requires some_slot { 1 ≤ b }
    requires most_slots { b ≤ 64 }
    requires some_round { 1 ≤ g }
    requires most_rounds { g ≤ 16 }
    ensures reads { IfOk result (λ lane. HasRead endpoint endpoints lane [] []) }
    ensures b { IfOk result (λ lane. lane.b ≡ b) }
    ensures g { IfOk result (λ lane. lane.g ≡ g) }
{
    let mut lane = Lane::open(alloc, endpoint, endpoints, b, g)?;
    let mut buf = [0; 2048];
    let _none_before_a_reset = lane.make_down(0, &ArrayVec::new(), &mut buf);
    Ok(lane)
}

/// Takes packets out of a ring until none is seen, or as many were taken as are ever put, and has the lane read each.
fn take_seen(ring: &mut Consumer<Packet>, lane: &mut Lane, answers: &mut Vec<u8>, round: u32)
    requires round { round ≡ 0 }
    requires read { (endpoint : ℕ) × (endpoints : ℕ) × HasRead endpoint endpoints lane.old (received ring.old) answers.old.items }
    requires room { consumer_capacity ring.old ≤ vec_capacity answers.old }
    ensures ring { SameConsumer ring.old ring.new }
    ensures taken { (more : List (List ℕ)) × (received ring.old ++ more ≡ received ring.new) }
    ensures read { (endpoint endpoints : ℕ) → HasRead endpoint endpoints lane.old (received ring.old) answers.old.items →
        HasRead endpoint endpoints lane.new (received ring.new) answers.new.items }
    ensures b { lane.new.b ≡ lane.old.b }
    ensures g { lane.new.g ≡ lane.old.g }
    ensures room { vec_capacity answers.new ≡ vec_capacity answers.old }
{
    for _ in answers.len()..ring.capacity() {
        match ring.pop() {
            Ok(packet) => read(lane, answers, round, &packet),
            Err(_) => return,
        }
    }
}

/// Takes so many packets that are left in a ring, and has the lane read each.
fn take_rest(
    ring: &mut Consumer<Packet>,
    left: usize,
    lane: &mut Lane,
    answers: &mut Vec<u8>,
    round: u32,
)
    requires round { round ≡ 0 }
    requires read { (endpoint : ℕ) × (endpoints : ℕ) × HasRead endpoint endpoints lane.old (received ring.old) answers.old.items }
    requires left { left ≡ length (known_items ring.old) }
    requires room { length (received ring.old ++ known_items ring.old) ≤ vec_capacity answers.old }
    ensures ring { SameConsumer ring.old ring.new }
    ensures taken { received ring.new ≡ received ring.old ++ known_items ring.old }
    ensures read { (endpoint endpoints : ℕ) → HasRead endpoint endpoints lane.old (received ring.old) answers.old.items →
        HasRead endpoint endpoints lane.new (received ring.new) answers.new.items }
    ensures b { lane.new.b ≡ lane.old.b }
    ensures g { lane.new.g ≡ lane.old.g }
    ensures room { vec_capacity answers.new ≡ vec_capacity answers.old }
{
    for _ in 0..left {
        let packet = ring.pop_known();
        read(lane, answers, round, &packet);
    }
}

/// Has the lane read a packet, and keeps what it answers.
fn read(lane: &mut Lane, answers: &mut Vec<u8>, round: u32, packet: &Packet)
    requires round { round ≡ 0 }
    requires read { (endpoint : ℕ) × (endpoints : ℕ) × (taken : List (List ℕ)) × HasRead endpoint endpoints lane.old taken answers.old.items }
    requires room { vec_len answers.old < vec_capacity answers.old }
    ensures read { (endpoint endpoints : ℕ) (taken : List (List ℕ)) → HasRead endpoint endpoints lane.old taken answers.old.items →
        HasRead endpoint endpoints lane.new (taken ++ packet.now ∷ []) answers.new.items }
    ensures b { lane.new.b ≡ lane.old.b }
    ensures g { lane.new.g ≡ lane.old.g }
    ensures room { vec_capacity answers.new ≡ vec_capacity answers.old }
    ensures one { vec_len answers.new ≡ vec_len answers.old + 1 }
{
    let answer = lane.take_up(round, packet.bytes());
    answers.push_reserved(number_of(answer));
}

/// 0 where a packet was accepted, else the number of its refusal: 1 to 12 for bytes that spell no packet, 21 to 26 for the others.
fn number_of(answer: Result<(), UpRefused>) -> u8
    ensures { result ≡ answer_number (result_err answer) }
{
    match answer {
        Ok(()) => 0,
        Err(UpRefused::Frame(frame)) => frame.number(),
        Err(UpRefused::Unsynced) => 21,
        Err(UpRefused::OldEpoch) => 22,
        Err(UpRefused::OldSeq) => 23,
        Err(UpRefused::Repeat) => 24,
        Err(UpRefused::NotMine) => 25,
        Err(UpRefused::OtherVersion) => 26,
    }
}
