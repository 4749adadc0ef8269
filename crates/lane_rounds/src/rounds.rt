//! One endpoint's rounds.
ghost use Rattle.std.specs.Prelude.{◌≡◌, ◌<◌, ◌≤◌, ◌+◌, ◌^◌, ◌++◌, ◌↔◌, true, false, ℕ, List, [], ◌∷◌, map, take, replicate, slice_get, IfOk, OnOk, OnErr, IfSome, IsSome, Some};
ghost use Rattle.greedy_rules.specs.Batches.{IsAboveLast};
ghost use Rattle.flow_ledger.specs.FlowCount.{pending};
ghost use Rattle.loss_world.specs.Arrivals.{Departure};
ghost use Rattle.loss_world.specs.History.{WorldCall, Departs, asked_of, WorldStandsFor};
ghost use Rattle.loss_world.specs.InTransit.{due_in};
ghost use Rattle.fcp_framing.specs.Spelling.{down_bytes, SpellsDown};
ghost use Rattle.fcp_framing.specs.Versions.{IsVersion};
ghost use Rattle.endpoint_history.specs.Packets.{DownPacket, UpPacket};
ghost use Rattle.endpoint_history.specs.Agent.{AgentHistory, Asks, Boots, MakesUp, packet_up, missed};
ghost use Rattle.endpoint_history.specs.Sending.{sends};
ghost use Rattle.endpoint_history.specs.Lane.{LaneHistory, MakesDown, packet_down};
ghost use Rattle.endpoint_history.specs.Counts.{Allocation, recorded, acknowledged, lost, allocated};
ghost use Rattle.endpoint_history.specs.Entries.{had};
ghost use Rattle.endpoint_history.specs.Rounds.{Round, entries_by, sent_by, NamedByNoRaw};
ghost use Rattle.endpoint_history.specs.Unharmed.{IsUnharmed};
ghost use Rattle.endpoint_history.specs.Steps.{agent_of, lane_of};
ghost use Rattle.endpoint_agent.specs.Lines.{slots_sent};
ghost use Rattle.endpoint_agent.specs.Standing as agents;
ghost use Rattle.arbiter_lane.specs.declared.line.LaneLine.{LaneLine as LineOf};
ghost use Rattle.arbiter_lane.specs.State.{IsSameLane, MayMakeDown, MayOpenLane};
ghost use Rattle.arbiter_lane.specs.Standing as lanes;
ghost use Rattle.arbiter_lane.specs.Refusals.{up_refusal};
ghost use Rattle.lane_rounds.specs.Outside.{round_with, packets_in};
ghost use Rattle.lane_rounds.specs.Refused.{refused_by, refused_in, with_raw, with_arrival, numbered_refusal};
ghost use Rattle.lane_rounds.specs.State.{MayAsk, with_each};
ghost use Rattle.lane_rounds.specs.Standing.{RoundsStandFor, HasCarried, IsDownOf, IsUpOf, spell_down, spell_up, played_by};
ghost use Rattle.lane_rounds.specs.Rounds.{MayPlayRound, HasRoundMore, GivesRound};
ghost use Rattle.lane_rounds.specs.Parts.{IsSameAgent, IsReadDown, IsReadUp, Each, MayHear, hearing, reading, handed, with_at_hand, with_packet_at_hand};

use crate::NoMemory;
use crate::events::{Events, RawPacket, RefusedList};
use crate::refusal::number_of;
use ack_window::each_number_is_taken_once;
use arbiter_lane::Lane;
use arrayvec::ArrayVec;
use endpoint_agent::{Agent, Sent};
use endpoint_history::{
    allocations_are_in_order, counts_are_bounded, no_loss_or_boot_harms, packets_are_framed_alike,
    rounds_are_calls, rounds_are_read_in_order,
};
use fcp_framing::{Down, Told, what_is_encoded_is_read_back};
use flow_ledger::FlowCount;
use greedy_rules::Batch;
use loss_world::{Fate, World, arrivals_are_given_in_order, packets_pass_at_once};
use std::alloc::Global;
use std::marker::Model;

/// One endpoint's agent, its lane, and both directions of the world between them. What clauses say of it holds for every list of
/// rounds for which it stands, and there is one, until a call wants for memory.
#[derive(Drop)]
pub struct LaneRounds {
    agent: Agent,
    lane: Lane,
    down: World,
    up: World,
    is_whole: bool,
    /// What was read ahead last: it is kept so that it is read, and means nothing.
    ahead: u32,
    /// The bytes of the packet that was made or arrived last, and what is left of those before.
    buf: [u8; 2048],
}

impl Model for LaneRounds {
    ghost use Rattle.std.specs.Prelude.{◌≡◌, true};
    ghost use Rattle.lane_rounds.specs.State.{RoundsState, AreOfOne};
    ghost use Rattle.lane_rounds.specs.Standing.{HasRounds};

    ghost Value = { RoundsState };

    ghost view = { λ r. record { agent = r.agent; lane = r.lane; down = r.down; up = r.up; is_whole = r.is_whole } };

    ghost invariant = { λ r. r.is_whole ≡ true → AreOfOne r.agent r.lane × HasRounds (record { agent = r.agent; lane = r.lane; down = r.down; up = r.up; is_whole = r.is_whole }) };
}

impl LaneRounds {
    /// The rounds of one endpoint of so many, with batches of `b` slots and windows of `g` rounds, before the first.
    pub fn open(
        alloc: Global,
        endpoint: u16,
        endpoints: u16,
        b: u8,
        g: u8,
    ) -> Result<LaneRounds, NoMemory>
        requires { MayOpenLane endpoint endpoints b g }
        ensures endpoint { IfOk result (λ rounds. rounds.lane.endpoint ≡ endpoint) }
        ensures endpoints { IfOk result (λ rounds. rounds.lane.endpoints ≡ endpoints) }
        ensures b { IfOk result (λ rounds. rounds.lane.b ≡ b) }
        ensures g { IfOk result (λ rounds. rounds.lane.g ≡ g) }
        ensures whole { IfOk result (λ rounds. rounds.is_whole ≡ true) }
        ensures stands { IfOk result (λ rounds. RoundsStandFor rounds [] []) }
    {
        Ok(LaneRounds {
            agent: Agent::open(alloc, endpoint, endpoints, b, g)?,
            lane: Lane::open(alloc, endpoint, endpoints, b, g)?,
            down: World::open(alloc)?,
            up: World::open(alloc)?,
            is_whole: true,
            ahead: 0,
            buf: [0; 2048],
        })
    }

    /// Does one round: boots and asks; the lane's packet, and what arrives of these; the agent's packet, what arrives of these,
    /// and the raw packets; the batch; the slots that are due. `told` are the endpoint's slots of the batch of two windows before.
    /// After `NoMemory` it is only to be dropped, like the batch and the list of refusals; no slot is sent in then.
    pub fn round(
        &mut self,
        round: u32,
        events: &Events,
        told: &ArrayVec<Told, 64>,
        batch: &mut Batch,
        sent: &mut ArrayVec<Sent, 64>,
        refused: &mut RefusedList,
    ) -> Result<(), NoMemory>
        requires may { MayPlayRound self.old round events.now told.now.items batch.old.entries }
        requires empty { sent.old.items ≡ [] }
        ensures played { OnOk result (HasRoundMore self.old round (round_with self.old.lane.endpoint self.old.lane.endpoints events.now told.now.items) self.new) }
        ensures gives { OnOk result (GivesRound self.old events.now told.now.items batch.old.entries batch.new.entries (slots_sent sent.new.items) refused.old refused.new) }
        ensures limits { batch.new.limits ≡ batch.old.limits }
        // No slot is used in a round whose batch isn't recorded.
        ensures unsent { OnErr result (sent.new.items ≡ sent.old.items) }
    {
        no_loss_or_boot_harms();
        counts_are_bounded();
        rounds_are_calls();
        rounds_are_read_in_order();
        packets_are_framed_alike();
        what_is_encoded_is_read_back();
        allocations_are_in_order();
        each_number_is_taken_once();
        arrivals_are_given_in_order();
        self.is_whole = false;
        let buf = &mut self.buf;
        boot_all(&mut self.agent, events.boots, events.version);
        ask_all(&mut self.agent, events.asks.as_slice());
        let mut packet = Down::default();
        let down = post_down(
            &mut self.lane,
            &mut self.down,
            round,
            events.down,
            told,
            &mut packet,
            buf,
        )?;
        hear(&mut self.agent, &mut self.down, round, down, &packet, buf);
        let up = post_up(&mut self.agent, &mut self.up, round, events.up, buf)?;
        read(&mut self.lane, &mut self.up, round, up, buf);
        read_raw(&mut self.lane, round, events.raw.as_slice(), refused)?;
        self.lane.record(round, batch)?;
        self.agent.send_due(round, sent);
        self.is_whole = true;
        Ok(())
    }

    /// Reads what is kept of the flows of these slots, of each without waiting for another, so that memory brings all of them at once
    /// before they are counted and rounds come to them. Nothing but speed rests on it.
    pub fn read_ahead(&mut self, told: &[Told])
        ensures { self.new ≡ self.old }
    {
        let mut read = 0;
        for one in told {
            read ^= self.agent.read_ahead(one.dst) ^ self.lane.read_ahead(one.dst);
        }
        self.ahead = read;
    }

    /// Counts `n` slots of the flow to `dst` in a batch that is published. A batch below the last reset is passed over.
    pub fn allocated(&mut self, dst: u16, batch: u32, n: u32)
        requires whole { self.old.is_whole ≡ true }
        requires destination { dst < self.old.lane.endpoints }
        requires recorded { batch < self.old.lane.round }
        requires pending { self.old.lane.last_reset ≤ batch → (line : LineOf) → slice_get self.old.lane.lines dst ≡ Some line → n ≤ pending line.count }
        ensures frame { self.new ≡ record self.old { lane = record self.old.lane { lines = self.new.lane.lines } } }
        ensures stands { (rounds : List Round) (allocations : List Allocation) →
            RoundsStandFor self.old rounds allocations →
            RoundsStandFor self.new rounds (record { dst = dst; batch = batch; slots = n } ∷ allocations) }
    {
        self.lane.allocated(dst, batch, n);
    }

    /// The counts of the flow to `dst` since the last reset, None where no batch has it.
    pub fn count(&self, dst: u16) -> Option<FlowCount>
        requires { dst < self.now.lane.endpoints }
        ensures opened { (rounds : List Round) (allocations : List Allocation) →
            RoundsStandFor self.now rounds allocations →
            (IsSome result ↔ (had self.now.lane.g (lane_of (played_by self.now rounds).steps) dst ≡ true)) }
        ensures counts { IfSome result (λ count. (rounds : List Round) (allocations : List Allocation) →
            RoundsStandFor self.now rounds allocations →
            (count.demanded ≡ recorded (lane_of (played_by self.now rounds).steps) dst)
            × (count.allocated ≡ allocated (lane_of (played_by self.now rounds).steps) allocations dst)
            × (count.acknowledged ≡ acknowledged self.now.lane.g (lane_of (played_by self.now rounds).steps) dst)
            × (count.lost ≡ lost self.now.lane.g (lane_of (played_by self.now rounds).steps) dst)) }
        ensures told { (rounds : List Round) (allocations : List Allocation) →
            RoundsStandFor self.now rounds allocations →
            lanes.FlowIsWithinLedger self.now.lane.g (lane_of (played_by self.now rounds).steps) allocations dst }
    {
        self.lane.count(dst)
    }

    /// How many slots towards `dst` were sent in, and how many were missed, in the present boot.
    pub fn totals(&self, dst: u16) -> (u32, u32)
        requires whole { self.now.is_whole ≡ true }
        requires destination { dst < self.now.lane.endpoints }
        ensures sent { (rounds : List Round) (allocations : List Allocation) →
            RoundsStandFor self.now rounds allocations →
            result.0 ≡ sends self.now.lane.b self.now.lane.g (agent_of (played_by self.now rounds).steps) dst }
        ensures missed { (rounds : List Round) (allocations : List Allocation) →
            RoundsStandFor self.now rounds allocations →
            result.1 ≡ missed self.now.lane.g (agent_of (played_by self.now rounds).steps) dst }
    {
        self.agent.totals(dst)
    }
}

/// Boots so often in this version.
fn boot_all(agent: &mut Agent, boots: u32, version: u8)
    requires version { 0 < boots → IsVersion version }
    requires epochs { agent.old.epoch + boots < 2 ^ 32 }
    ensures same { IsSameAgent agent.old agent.new }
    ensures stands { (calls : AgentHistory) →
        agents.AgentStandsFor agent.old calls →
        agents.AgentStandsFor agent.new (with_each Boots (replicate boots version) calls) }
{
    for _ in 0..boots {
        agent.boot(version);
    }
}

/// Asks for slots, one ask after the other.
fn ask_all(agent: &mut Agent, asks: &[(u16, u32)])
    requires may_ask { (calls : AgentHistory) × agents.AgentStandsFor agent.old calls × MayAsk agent.old.me agent.old.endpoints calls asks.now }
    ensures same { IsSameAgent agent.old agent.new }
    ensures stands { (calls : AgentHistory) →
        agents.AgentStandsFor agent.old calls →
        agents.AgentStandsFor agent.new (with_each (λ (a : ℕ × ℕ). Asks a.0 a.1) asks.now calls) }
{
    for (dst, n) in asks {
        agent.ask(*dst, *n);
    }
}

/// Makes the downward packet of the round, if there is one, and hands it over. One that would arrive at once is at hand: it is not
/// spelled. Answers whether there is such a one.
fn post_down(
    lane: &mut Lane,
    world: &mut World,
    round: u32,
    fate: Option<Fate>,
    told: &ArrayVec<Told, 64>,
    packet: &mut Down,
    buf: &mut [u8; 2048],
) -> Result<bool, NoMemory>
    requires { MayMakeDown lane.old round told.now.items }
    ensures frame { lane.new ≡ record lane.old { sent = lane.new.sent; lines = lane.new.lines; is_made = true } }
    ensures stands { OnOk result ((history : LaneHistory) (allocations : List Allocation) →
        lanes.LaneStandsFor lane.old history allocations →
        lanes.LaneStandsFor lane.new (MakesDown round told.now.items ∷ history) allocations) }
    ensures spelled { (history : LaneHistory) (allocations : List Allocation) →
        lanes.LaneStandsFor lane.old history allocations →
        IfSome (packet_down lane.old.g history round told.now.items) (IsDownOf lane.old.endpoint lane.old.endpoints lane.old.b) }
    ensures rules { IfOk result (λ at_hand. at_hand ≡ true → SpellsDown lane.old.endpoints lane.old.b (down_bytes packet.new) packet.new) }
    ensures alone { IfOk result (λ at_hand. at_hand ≡ true → world.new.flights ≡ []) }
    ensures carried { IfOk result (λ at_hand. (history : LaneHistory) (allocations : List Allocation) (departures : List Departure) →
        lanes.LaneStandsFor lane.old history allocations →
        HasCarried world.old round departures →
        HasCarried (with_packet_at_hand round at_hand packet.new world.new) round (departures ++ handed (spell_down lane.old.endpoint) round fate (packet_down lane.old.g history round told.now.items))) }
{
    rounds_are_read_in_order();
    packets_pass_at_once();
    if world.passes_at_once(fate) {
        return Ok(lane.fill_down(round, told, packet));
    }
    send_down(lane, world, round, fate, told, buf)?;
    Ok(false)
}

/// Makes the bytes of the downward packet of the round, if there is one, and sends them.
fn send_down(
    lane: &mut Lane,
    world: &mut World,
    round: u32,
    fate: Option<Fate>,
    told: &ArrayVec<Told, 64>,
    buf: &mut [u8; 2048],
) -> Result<(), NoMemory>
    requires { MayMakeDown lane.old round told.now.items }
    ensures frame { lane.new ≡ record lane.old { sent = lane.new.sent; lines = lane.new.lines; is_made = true } }
    ensures stands { (history : LaneHistory) (allocations : List Allocation) →
        lanes.LaneStandsFor lane.old history allocations →
        lanes.LaneStandsFor lane.new (MakesDown round told.now.items ∷ history) allocations }
    ensures spelled { (history : LaneHistory) (allocations : List Allocation) →
        lanes.LaneStandsFor lane.old history allocations →
        IfSome (packet_down lane.old.g history round told.now.items) (IsDownOf lane.old.endpoint lane.old.endpoints lane.old.b) }
    ensures carried { OnOk result ((history : LaneHistory) (allocations : List Allocation) (departures : List Departure) →
        lanes.LaneStandsFor lane.old history allocations →
        HasCarried world.old round departures →
        HasCarried world.new round (departures ++ handed (spell_down lane.old.endpoint) round fate (packet_down lane.old.g history round told.now.items))) }
{
    rounds_are_read_in_order();
    match lane.make_down(round, told, buf) {
        Some(length) => {
            world.send(round, fate, &buf[..length])?;
            Ok(())
        }
        None => Ok(()),
    }
}

/// Hands the front of what was made to the world, unless it would arrive at once: then it is at hand where it lies, and its
/// length is answered.
fn hand_over(
    world: &mut World,
    round: u32,
    fate: Option<Fate>,
    made: &[u8; 2048],
    length: usize,
) -> Result<Option<usize>, NoMemory>
    requires { length ≤ 2048 }
    ensures within { IfOk result (λ at_hand. IfSome at_hand (λ length. length ≤ 2048)) }
    ensures alone { IfOk result (λ at_hand. IsSome at_hand → world.new.flights ≡ []) }
    ensures stands { IfOk result (λ at_hand. (history : List WorldCall) →
        WorldStandsFor world.old history →
        asked_of history ≤ round →
        WorldStandsFor (with_at_hand round at_hand made.now world.new) (Departs (record { round = round; fate = fate; bytes = take length made.now }) ∷ history)) }
{
    packets_pass_at_once();
    if world.passes_at_once(fate) {
        return Ok(Some(length));
    }
    world.send(round, fate, &made[..length])?;
    Ok(None)
}

/// Takes what arrives at the agent in this round: the packet, where it is at hand, which then is all, or else what the world has.
fn hear(
    agent: &mut Agent,
    world: &mut World,
    round: u32,
    at_hand: bool,
    packet: &Down,
    buf: &mut [u8; 2048],
)
    requires round { round ≡ agent.old.round }
    requires rounds { round < 100000 }
    requires rules { at_hand ≡ true → SpellsDown agent.old.endpoints agent.old.b (down_bytes packet.now) packet.now }
    requires alone { at_hand ≡ true → world.old.flights ≡ [] }
    requires may_hear { (calls : AgentHistory) × (packets : List DownPacket) × agents.AgentStandsFor agent.old calls
        × (due_in (with_packet_at_hand round at_hand packet.now world.old).flights round ≡ map (spell_down agent.old.me) packets)
        × Each (IsReadDown agent.old.me agent.old.endpoints agent.old.b) packets
        × MayHear agent.old.g round calls packets }
    ensures same { IsSameAgent agent.old agent.new }
    ensures stands { (calls : AgentHistory) (packets : List DownPacket) →
        agents.AgentStandsFor agent.old calls →
        due_in (with_packet_at_hand round at_hand packet.now world.old).flights round ≡ map (spell_down agent.old.me) packets →
        Each (IsReadDown agent.old.me agent.old.endpoints agent.old.b) packets →
        agents.AgentStandsFor agent.new (hearing round packets calls) }
    ensures carried { (departures : List Departure) →
        HasCarried (with_packet_at_hand round at_hand packet.now world.old) round departures →
        HasCarried world.new (round + 1) departures }
{
    packets_pass_at_once();
    what_is_encoded_is_read_back();
    if at_hand {
        let _ = agent.take_allocation(round, packet);
        return;
    }
    hear_all(agent, world, round, buf);
}

/// Takes what of the world's arrives at the agent in this round.
fn hear_all(agent: &mut Agent, world: &mut World, round: u32, buf: &mut [u8; 2048])
    requires round { round ≡ agent.old.round }
    requires rounds { round < 100000 }
    requires may_hear { (calls : AgentHistory) × (packets : List DownPacket) × agents.AgentStandsFor agent.old calls
        × (due_in world.old.flights round ≡ map (spell_down agent.old.me) packets)
        × Each (IsReadDown agent.old.me agent.old.endpoints agent.old.b) packets
        × MayHear agent.old.g round calls packets }
    ensures same { IsSameAgent agent.old agent.new }
    ensures stands { (calls : AgentHistory) (packets : List DownPacket) →
        agents.AgentStandsFor agent.old calls →
        due_in world.old.flights round ≡ map (spell_down agent.old.me) packets →
        Each (IsReadDown agent.old.me agent.old.endpoints agent.old.b) packets →
        agents.AgentStandsFor agent.new (hearing round packets calls) }
    ensures carried { (departures : List Departure) →
        HasCarried world.old round departures →
        HasCarried world.new (round + 1) departures }
{
    while let Some(length) = world.arrive(round, buf) {
        let _ = agent.take_down(round, &buf[..length]);
    }
}

/// Makes the upward packet of the round, and hands it over. Answers its length where it is at hand.
fn post_up(
    agent: &mut Agent,
    world: &mut World,
    round: u32,
    fate: Option<Fate>,
    buf: &mut [u8; 2048],
) -> Result<Option<usize>, NoMemory>
    requires once { agent.old.is_made ≡ false }
    ensures frame { agent.new ≡ record agent.old { sent = agent.new.sent; named = agent.new.named; is_made = true } }
    ensures stands { (calls : AgentHistory) →
        agents.AgentStandsFor agent.old calls →
        agents.AgentStandsFor agent.new (MakesUp ∷ calls) }
    ensures spelled { (calls : AgentHistory) →
        agents.AgentStandsFor agent.old calls →
        IsUpOf agent.old.me agent.old.endpoints (packet_up agent.old.endpoints agent.old.g calls) }
    ensures within { IfOk result (λ at_hand. IfSome at_hand (λ length. length ≤ 2048)) }
    ensures alone { IfOk result (λ at_hand. IsSome at_hand → world.new.flights ≡ []) }
    ensures carried { IfOk result (λ at_hand. (calls : AgentHistory) (departures : List Departure) →
        agents.AgentStandsFor agent.old calls →
        HasCarried world.old round departures →
        HasCarried (with_at_hand round at_hand buf.new world.new) round (departures ++ handed (spell_up agent.old.me) round fate (Some (packet_up agent.old.endpoints agent.old.g calls)))) }
{
    rounds_are_read_in_order();
    let length = agent.make_up(buf);
    hand_over(world, round, fate, buf, length)
}

/// Takes what arrives at the lane in this round: what is at hand, which then is all, or else what the world has.
fn read(
    lane: &mut Lane,
    world: &mut World,
    round: u32,
    at_hand: Option<usize>,
    buf: &mut [u8; 2048],
)
    requires round { round ≡ lane.old.round }
    requires within { IfSome at_hand (λ length. length ≤ 2048) }
    requires alone { IsSome at_hand → world.old.flights ≡ [] }
    ensures same { IsSameLane lane.old lane.new }
    ensures stands { (history : LaneHistory) (allocations : List Allocation) (packets : List UpPacket) →
        lanes.LaneStandsFor lane.old history allocations →
        due_in (with_at_hand round at_hand buf.old world.old).flights round ≡ map (spell_up lane.old.endpoint) packets →
        Each (IsReadUp lane.old.endpoint lane.old.endpoints) packets →
        lanes.LaneStandsFor lane.new (reading round packets history) allocations }
    ensures carried { (departures : List Departure) →
        HasCarried (with_at_hand round at_hand buf.old world.old) round departures →
        HasCarried world.new (round + 1) departures }
{
    packets_pass_at_once();
    match at_hand {
        Some(length) => {
            let bytes = &buf[..length];
            let _ = lane.take_up(round, bytes);
        }
        None => read_all(lane, world, round, buf),
    }
}

/// Takes what of the world's arrives at the lane in this round.
fn read_all(lane: &mut Lane, world: &mut World, round: u32, buf: &mut [u8; 2048])
    requires round { round ≡ lane.old.round }
    ensures same { IsSameLane lane.old lane.new }
    ensures stands { (history : LaneHistory) (allocations : List Allocation) (packets : List UpPacket) →
        lanes.LaneStandsFor lane.old history allocations →
        due_in world.old.flights round ≡ map (spell_up lane.old.endpoint) packets →
        Each (IsReadUp lane.old.endpoint lane.old.endpoints) packets →
        lanes.LaneStandsFor lane.new (reading round packets history) allocations }
    ensures carried { (departures : List Departure) →
        HasCarried world.old round departures →
        HasCarried world.new (round + 1) departures }
{
    while let Some(length) = world.arrive(round, buf) {
        let _ = lane.take_up(round, &buf[..length]);
    }
}

/// Takes raw packets, one after the other, and tells those that are refused.
fn read_raw(
    lane: &mut Lane,
    round: u32,
    raw: &[RawPacket],
    refused: &mut RefusedList,
) -> Result<(), NoMemory>
    requires round { round ≡ lane.old.round }
    ensures same { IsSameLane lane.old lane.new }
    ensures stands { OnOk result ((history : LaneHistory) (allocations : List Allocation) →
        lanes.LaneStandsFor lane.old history allocations →
        lanes.LaneStandsFor lane.new (with_raw lane.old.endpoint lane.old.endpoints round raw.now history) allocations) }
    ensures refused { OnOk result ((history : LaneHistory) (allocations : List Allocation) →
        lanes.LaneStandsFor lane.old history allocations →
        refused.new ≡ refused.old ++ refused_in lane.old.endpoint lane.old.endpoints round raw.now history) }
{
    for packet in raw {
        read_one(lane, round, packet, refused)?;
    }
    Ok(())
}

/// Takes a raw packet, and tells it where it is refused.
fn read_one(
    lane: &mut Lane,
    round: u32,
    packet: &RawPacket,
    refused: &mut RefusedList,
) -> Result<(), NoMemory>
    requires round { round ≡ lane.old.round }
    ensures same { IsSameLane lane.old lane.new }
    ensures stands { (history : LaneHistory) (allocations : List Allocation) →
        lanes.LaneStandsFor lane.old history allocations →
        lanes.LaneStandsFor lane.new (with_arrival lane.old.endpoint lane.old.endpoints round packet.now.bytes history) allocations }
    ensures refused { OnOk result ((history : LaneHistory) (allocations : List Allocation) →
        lanes.LaneStandsFor lane.old history allocations →
        refused.new ≡ refused.old ++ numbered_refusal packet.now.place (up_refusal lane.old.endpoint lane.old.endpoints history packet.now.bytes)) }
{
    match lane.take_up(round, packet.bytes()) {
        Ok(()) => Ok(()),
        Err(refusal) => refused.push(packet.place(), number_of(refusal)),
    }
}
