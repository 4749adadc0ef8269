//! A round as it is played, endpoint after endpoint.
ghost use Rattle.std.specs.Prelude.{◌≡◌, ◌<◌, ◌≤◌, ℕ, ◌+◌, ◌++◌, take, IfOk, OnOk};
ghost use Rattle.greedy_rules.specs.Batches.{IsAboveLast};
ghost use Rattle.clos_topology.specs.Network.{endpoints_of};
ghost use Rattle.clos_topology.specs.NetSlots.{SlotCores};
ghost use Rattle.replay_rounds.specs.Standing.{LaneStands};
ghost use Rattle.replay_rounds.specs.Collecting.{blank_round, named_in, published_by, setting_by, with_behind, with_endpoint, LieBelow, MayBeTold};

use crate::NoMemory;
use crate::departures::DeparturesBySlot;
use crate::handed::{Near, fill_events, fill_told};
use crate::laws::rounds_may_be_played;
use crate::played::Departure;
use crate::raw::RawRound;
use arrayvec::ArrayVec;
use fcp_framing::Told;
use greedy_rules::{Batch, Limits};
use lane_rounds::{AskList, Events, LaneRounds, RawList, RefusedList, Sent};
use slot_publisher::Publisher;
use std::alloc::Global;
use std::marker::Model;
use trace_text::Trace;

/// What an endpoint is handed in a round, and what it gives: memory that is kept from one round to the next.
#[derive(Drop)]
pub(crate) struct Buffers {
    events: Events,
    told: ArrayVec<Told, 64>,
    sent: ArrayVec<Sent, 64>,
    refused: RefusedList,
}

impl Buffers {
    pub(crate) fn new(alloc: Global) -> Buffers {
        Buffers {
            events: Events {
                boots: 0,
                version: 1,
                asks: AskList::new(alloc),
                up: None,
                down: None,
                raw: RawList::new(alloc),
            },
            told: ArrayVec::new(),
            sent: ArrayVec::new(),
            refused: RefusedList::new(alloc),
        }
    }
}

/// A round with what some endpoints that follow each other give in it.
#[derive(Drop)]
pub(crate) struct RoundInPlay {
    round: u32,
    batch: Batch,
    // The places of the raw packets that are refused, each with the number of its refusal.
    refused: Vec<(u32, u8)>,
    departures: DeparturesBySlot,
    near: Near,
}

impl Model for RoundInPlay {
    ghost use Rattle.replay_rounds.specs.Collecting.{RoundPart};

    ghost Value = { RoundPart };

    ghost view = { λ r. record {
      round = r.round;
      batch = r.batch;
      refused = r.refused.items;
      departures = r.departures;
    } };
}

impl RoundInPlay {
    /// Before the first of at most so many endpoints.
    pub(crate) fn open(
        alloc: Global,
        trace: &Trace,
        round: u32,
        endpoints: usize,
    ) -> Result<RoundInPlay, NoMemory>
        ensures { IfOk result (λ part. part ≡ blank_round trace.now round) }
    {
        let net = trace.net();
        let limits = Limits {
            hosts: net.hosts(),
            cores: net.cores(),
        };
        Ok(RoundInPlay {
            round,
            batch: Batch::with_limits(alloc, limits),
            refused: Vec::new(alloc),
            departures: DeparturesBySlot::open(alloc, endpoints)?,
            near: Near::default(),
        })
    }

    /// Plays it for one endpoint more, which is above those before.
    pub(crate) fn play(
        &mut self,
        lane: &mut LaneRounds,
        endpoint: u16,
        trace: &Trace,
        publisher: &Publisher,
        g: u8,
        raw: &RawRound,
        buffers: &mut Buffers,
    ) -> Result<(), NoMemory>
        requires may { (cores : SlotCores) × MayBeTold trace.now g cores publisher.now self.old.round
            × LaneStands (setting_by trace.now g cores publisher.now) self.old.round (published_by publisher.now) endpoint lane.old }
        requires endpoint { endpoint < endpoints_of trace.now.net }
        requires named { raw.now.named ≡ named_in trace.now self.old.round }
        requires above { IsAboveLast self.old.batch.entries (record { src = endpoint; dst = 0 }) }
        ensures lane { OnOk result ((cores : SlotCores) →
            MayBeTold trace.now g cores publisher.now self.old.round →
            LaneStands (setting_by trace.now g cores publisher.now) self.old.round (published_by publisher.now) endpoint lane.old →
            LaneStands (setting_by trace.now g cores publisher.now) (self.old.round + 1) (published_by publisher.now) endpoint lane.new) }
        ensures part { OnOk result ((cores : SlotCores) →
            MayBeTold trace.now g cores publisher.now self.old.round →
            LaneStands (setting_by trace.now g cores publisher.now) self.old.round (published_by publisher.now) endpoint lane.old →
            self.new ≡ with_endpoint (setting_by trace.now g cores publisher.now) trace.now endpoint self.old) }
    {
        rounds_may_be_played();
        fill_events(
            &mut buffers.events,
            trace,
            self.round,
            endpoint,
            raw.named(),
            &mut self.near,
        )?;
        fill_told(&mut buffers.told, publisher, g, self.round, endpoint);
        buffers.sent.clear();
        buffers.refused.clear();
        lane.round(
            self.round,
            &buffers.events,
            &buffers.told,
            &mut self.batch,
            &mut buffers.sent,
            &mut buffers.refused,
        )?;
        self.departures.note_sent(endpoint, &buffers.sent)?;
        note_refused(&mut self.refused, &buffers.refused)?;
        Ok(())
    }

    /// Appends what endpoints behind these give in the same round.
    pub(crate) fn append(&mut self, behind: &RoundInPlay) -> Result<(), NoMemory>
        requires { LieBelow self.old.batch.entries behind.now.batch.entries }
        ensures { OnOk result (self.new ≡ with_behind behind.now self.old) }
    {
        append_entries(&mut self.batch, &behind.batch)?;
        self.refused.extend_from_slice(&behind.refused)?;
        self.departures.append(&behind.departures)?;
        Ok(())
    }

    /// The places of the raw packets that are refused, each with the number of its refusal.
    pub(crate) fn refused(&self) -> &[(u32, u8)]
        ensures { result.now ≡ self.now.refused }
    {
        &self.refused
    }

    /// What it records, and what is sent in it.
    pub(crate) fn into_parts(self) -> Result<(Batch, Vec<Departure>), NoMemory>
        ensures batch { IfOk result (λ parts. parts.0 ≡ self.batch) }
        ensures departures { IfOk result (λ parts. parts.1.items ≡ self.departures) }
    {
        let RoundInPlay {
            batch,
            departures,
            ..
        } = self;
        Ok((batch, departures.into_list()?))
    }
}

/// Appends the places and numbers of what is refused.
fn note_refused(list: &mut Vec<(u32, u8)>, refused: &RefusedList) -> Result<(), NoMemory>
    ensures { OnOk result (list.new.items ≡ list.old.items ++ refused.now) }
{
    for at in 0..refused.len() {
        list.push(refused.get(at))?;
    }
    Ok(())
}

/// Appends the entries of a batch.
fn append_entries(batch: &mut Batch, behind: &Batch) -> Result<(), NoMemory>
    requires { LieBelow batch.old.entries behind.now.entries }
    ensures entries { OnOk result (batch.new.entries ≡ batch.old.entries ++ behind.now.entries) }
    ensures limits { OnOk result (batch.new.limits ≡ batch.old.limits) }
{
    // Both rise.
    let _entries = batch.len();
    for at in 0..behind.len() {
        batch.push(behind.entry(at))?;
    }
    Ok(())
}
