//! The agent of one endpoint.
ghost use Rattle.std.specs.Prelude.{◌≡◌, ◌≢◌, ◌<◌, ◌≤◌, ◌+◌, ◌*◌, ◌%◌, ◌^◌, ◌==◌, ◌⊎◌, true, false, count_by, nat_le, [], ◌∷◌, List, ℕ, take, drop, length, slice_set, All, IfOk, IfSome, if◌then◌else◌};
ghost use Rattle.std.specs.Result.{result_err};
ghost use Rattle.ack_window.specs.Sends.{Event, Sends, Reads, decided_by};
ghost use Rattle.ack_window.specs.Versions.{reorder_of, span_of};
ghost use Rattle.ack_window.specs.Windows.{HasDone, MaySend};
ghost use Rattle.fcp_framing.specs.declared.packet.Told.{Told as ToldSlot};
ghost use Rattle.fcp_framing.specs.Fields.{down_of};
ghost use Rattle.fcp_framing.specs.Spelling.{up_bytes, IsAllocation, SpellsUp};
ghost use Rattle.fcp_framing.specs.Versions.{IsVersion};
ghost use Rattle.endpoint_history.specs.Packets.{down_packet, framed_up, slots_to};
ghost use Rattle.endpoint_history.specs.Agent.{AgentHistory, Boots, Asks, TakesDown, MakesUp, SendsDue, takes, packet_up, missed};
ghost use Rattle.endpoint_history.specs.Sending.{Slot, sends, sent_in, sent_of};
ghost use Rattle.endpoint_agent.specs.Carrying.{greatest_shown};
ghost use Rattle.endpoint_agent.specs.Lines.{slots_sent, with_missed, with_sent, unconfirmed_in, slots_from_first, left_in};
ghost use Rattle.endpoint_agent.specs.declared.lines.FlowLine.{FlowLine as FlowLineItem};
ghost use Rattle.endpoint_agent.specs.Refusals.{refusal_of, refusal_of_packet, IsOwn};
ghost use Rattle.endpoint_agent.specs.Standing.{AgentStandsFor};
ghost use Rattle.endpoint_agent.specs.State.{line_at, batch_place, UnconfirmedAreMarked};
ghost use Rattle.endpoint_agent.specs.Timely.{MayTake};
ghost use Rattle.line_marks.specs.Places.{is_marked};

use crate::lines::{FlowLine, Sent, mark_all, miss_all, name_unconfirmed, send_all};
use crate::waiting::{Waiting, open_places};
use crate::{DownRefused, NoMemory};
use ack_window::{Decided, SendWindow, TakeWindow, Taken, senders_go_on_by_step};
use arrayvec::ArrayVec;
use endpoint_history::{agents_count_slots, requests_name_unconfirmed_totals};
use fcp_framing::{Demand, Down, Up, decode_down, encode_req, encode_reset};
use line_marks::Marks;
use std::alloc::Global;
use std::marker::Model;

/// The version of the first boot.
const FIRST_VERSION: u8 = 1;

/// One endpoint's side of the control protocol. Clauses see its connection, a line for each destination, the slots that wait, and
/// the rounds that it counts; what they say of it holds for every list of calls for which it stands, and there is one.
#[derive(Drop)]
pub struct Agent {
    me: u16,
    endpoints: u16,
    b: u8,
    g: u8,
    epoch: u32,
    version: u8,
    arrived: TakeWindow,
    sent: SendWindow<()>,
    has_begun: bool,
    /// The greatest number of a request that was acknowledged, 0 for none.
    acknowledged: u32,
    /// The newest request. Its number is 0 before the first.
    request: Up,
    lines: Vec<FlowLine>,
    /// The flows whose total an acknowledged request may lack: all that do, and maybe others.
    unconfirmed: Marks,
    /// The slots that wait, of three batches at most: batch k has the place k % 3.
    waiting: [Waiting; 3],
    round: u32,
    is_made: bool,
    /// What the acknowledgement of the packet that arrived last decides.
    acks: ArrayVec<Decided<()>, 129>,
}

impl Model for Agent {
    ghost use Rattle.std.specs.Prelude.{◌≡◌, false};
    ghost use Rattle.endpoint_agent.specs.State.{AgentState, IsSound, AgentIsKept};
    ghost use Rattle.endpoint_agent.specs.Standing.{HasHistory};

    ghost Value = { AgentState };

    ghost view = { λ agent. record {
      me = agent.me;
      endpoints = agent.endpoints;
      b = agent.b;
      g = agent.g;
      epoch = agent.epoch;
      version = agent.version;
      arrived = agent.arrived;
      sent = agent.sent;
      has_begun = agent.has_begun;
      acknowledged = agent.acknowledged;
      named = agent.request.demands.items;
      lines = agent.lines.items;
      waiting = agent.waiting;
      round = agent.round;
      is_made = agent.is_made;
    } };

    ghost invariant = { λ agent.
        let state : AgentState = record {
          me = agent.me;
          endpoints = agent.endpoints;
          b = agent.b;
          g = agent.g;
          epoch = agent.epoch;
          version = agent.version;
          arrived = agent.arrived;
          sent = agent.sent;
          has_begun = agent.has_begun;
          acknowledged = agent.acknowledged;
          named = agent.request.demands.items;
          lines = agent.lines.items;
          waiting = agent.waiting;
          round = agent.round;
          is_made = agent.is_made;
        } in
        IsSound state × HasHistory state × AgentIsKept agent.request.seq agent.unconfirmed state };
}

impl Agent {
    /// The agent of endpoint `me` in a network of so many endpoints, with `b` slots in a batch and `g` rounds in a window. Its first
    /// boot has epoch 1 and version 1. No later call takes memory.
    pub fn open(alloc: Global, me: u16, endpoints: u16, b: u8, g: u8) -> Result<Agent, NoMemory>
        requires own { me < endpoints }
        requires endpoints { endpoints ≤ 256 }
        ensures me { IfOk result (λ agent. agent.me ≡ me) }
        ensures endpoints { IfOk result (λ agent. agent.endpoints ≡ endpoints) }
        ensures b { IfOk result (λ agent. agent.b ≡ b) }
        ensures g { IfOk result (λ agent. agent.g ≡ g) }
        ensures is_made { IfOk result (λ agent. agent.is_made ≡ false) }
        ensures stands { IfOk result (λ agent. AgentStandsFor agent []) }
    {
        let sent = SendWindow::open(alloc, FIRST_VERSION)?;
        let lines = vec![in alloc; FlowLine::default(); endpoints as usize]?;
        Ok(Agent {
            me,
            endpoints,
            b,
            g,
            epoch: 1,
            version: FIRST_VERSION,
            arrived: TakeWindow::new(FIRST_VERSION),
            sent,
            has_begun: false,
            acknowledged: 0,
            request: Up::default(),
            lines,
            unconfirmed: Marks::new(),
            waiting: open_places(),
            round: 0,
            is_made: false,
            acks: ArrayVec::new(),
        })
    }

    /// Boots in this version, 1 or 2: forgets all flows, totals and waiting slots, and begins the next epoch.
    pub fn boot(&mut self, version: u8)
        requires version { IsVersion version }
        requires epochs { self.old.epoch + 1 < 2 ^ 32 }
        ensures frame { self.new ≡ record self.old {
          epoch = self.old.epoch + 1;
          version = version;
          arrived = self.new.arrived;
          sent = self.new.sent;
          has_begun = false;
          acknowledged = 0;
          named = [];
          lines = self.new.lines;
          waiting = self.new.waiting;
        } }
        ensures stands { (calls : AgentHistory) →
            AgentStandsFor self.old calls →
            AgentStandsFor self.new (Boots version ∷ calls) }
    {
        self.epoch += 1;
        self.version = version;
        self.arrived = TakeWindow::new(version);
        self.sent.restart(version);
        self.has_begun = false;
        self.acknowledged = 0;
        self.request.seq = 0;
        self.request.demands.clear();
        self.lines.fill(FlowLine::default());
        self.unconfirmed.clear_all();
        forget(&mut self.waiting);
    }

    /// Asks for so many slots more towards another endpoint: at most 100,000,000 of a flow in each boot.
    pub fn ask(&mut self, dst: u16, n: u32)
        requires other { dst ≢ self.old.me }
        requires destination { dst < self.old.endpoints }
        requires most { (line_at self.old.lines dst).asked + n ≤ 100000000 }
        ensures frame { self.new ≡ record self.old { lines = self.new.lines } }
        ensures stands { (calls : AgentHistory) →
            AgentStandsFor self.old calls →
            AgentStandsFor self.new (Asks dst n ∷ calls) }
    {
        if n > 0 {
            let line = &mut self.lines[dst as usize];
            line.asked += n;
            line.carried_from = self.request.seq + 1;
            self.unconfirmed.set(dst as usize);
        }
    }

    /// Takes what arrives in this round. After `OldSeq` and `Repeat` the acknowledgement was read; any other refusal leaves the
    /// agent as it was. Allocations that name slots come two windows after their batch or later, and no two of a boot name slots
    /// of one batch, as a lane makes them.
    pub fn take_down(&mut self, round: u32, bytes: &[u8]) -> Result<(), DownRefused>
        requires round { round ≡ self.old.round }
        requires rounds { round < 100000 }
        requires may_take { (calls : AgentHistory) × AgentStandsFor self.old calls
            × (IsOwn self.old.me self.old.endpoints self.old.b bytes.now → takes calls (down_packet (down_of bytes.now)) ≡ true → MayTake self.old.g calls round (down_packet (down_of bytes.now))) }
        ensures answer { (calls : AgentHistory) →
            AgentStandsFor self.old calls →
            result_err result ≡ refusal_of self.old.me self.old.endpoints self.old.b calls bytes.now }
        ensures unchanged { IfSome (result_err result) (λ refusal.
            refusal ≢ DownRefused.OldSeq → refusal ≢ DownRefused.Repeat → self.new ≡ self.old) }
        ensures kept { IfSome (result_err result) (λ refusal. self.new ≡ record self.old { sent = self.new.sent; acknowledged = self.new.acknowledged }) }
        ensures frame { self.new ≡ record self.old {
          arrived = self.new.arrived;
          sent = self.new.sent;
          has_begun = self.new.has_begun;
          acknowledged = self.new.acknowledged;
          lines = self.new.lines;
          waiting = self.new.waiting;
        } }
        ensures stands { IsOwn self.old.me self.old.endpoints self.old.b bytes.now →
            (calls : AgentHistory) →
            AgentStandsFor self.old calls →
            AgentStandsFor self.new (TakesDown round (down_packet (down_of bytes.now)) ∷ calls) }
    {
        let mut down = Down::default();
        if let Err(refusal) = decode_down(bytes, self.endpoints, self.b, &mut down) {
            return Err(DownRefused::Frame(refusal));
        }
        if down.dst != self.me {
            return Err(DownRefused::NotMine);
        }
        self.take_allocation(round, &down)
    }

    /// Takes an allocation for this endpoint that arrives in this round, as [`take_down`](Agent::take_down) takes the bytes that spell it.
    pub fn take_allocation(&mut self, round: u32, down: &Down) -> Result<(), DownRefused>
        requires round { round ≡ self.old.round }
        requires rounds { round < 100000 }
        requires rules { IsAllocation self.old.endpoints self.old.b down.now }
        requires own { down.now.dst ≡ self.old.me }
        requires may_take { (calls : AgentHistory) × AgentStandsFor self.old calls
            × (takes calls (down_packet down.now) ≡ true → MayTake self.old.g calls round (down_packet down.now)) }
        ensures answer { (calls : AgentHistory) →
            AgentStandsFor self.old calls →
            result_err result ≡ refusal_of_packet self.old.me calls down.now }
        ensures unchanged { IfSome (result_err result) (λ refusal.
            refusal ≢ DownRefused.OldSeq → refusal ≢ DownRefused.Repeat → self.new ≡ self.old) }
        ensures kept { IfSome (result_err result) (λ refusal. self.new ≡ record self.old { sent = self.new.sent; acknowledged = self.new.acknowledged }) }
        ensures frame { self.new ≡ record self.old {
          arrived = self.new.arrived;
          sent = self.new.sent;
          has_begun = self.new.has_begun;
          acknowledged = self.new.acknowledged;
          lines = self.new.lines;
          waiting = self.new.waiting;
        } }
        ensures stands { (calls : AgentHistory) →
            AgentStandsFor self.old calls →
            AgentStandsFor self.new (TakesDown round (down_packet down.now) ∷ calls) }
    {
        if down.epoch != self.epoch {
            return Err(DownRefused::OtherEpoch);
        }
        if down.version != self.version {
            return Err(DownRefused::OtherVersion);
        }
        agents_count_slots();
        self.acknowledged = read_ack(down, &mut self.sent, &mut self.acks, self.acknowledged);
        match self.arrived.take(down.seq) {
            Taken::Fresh => {
                self.has_begun = true;
                let next = self.request.seq + 1;
                take_slots(
                    &mut self.lines,
                    &mut self.unconfirmed,
                    &mut self.waiting,
                    self.g,
                    round,
                    down,
                    next,
                );
                Ok(())
            }
            Taken::Old => Err(DownRefused::OldSeq),
            Taken::Repeat => Err(DownRefused::Repeat),
        }
    }

    /// Makes the upward packet of this round at the front of `buf`, and answers its length: a reset until an allocation was taken,
    /// then a request. Where no new number may be sent, the newest request goes again.
    pub fn make_up(&mut self, buf: &mut [u8; 2048]) -> usize
        requires once { self.old.is_made ≡ false }
        ensures packet { (calls : AgentHistory) →
            AgentStandsFor self.old calls →
            take result buf.new ≡ up_bytes (framed_up self.old.me (packet_up self.old.endpoints self.old.g calls)) }
        ensures spelled { (calls : AgentHistory) →
            AgentStandsFor self.old calls →
            SpellsUp self.old.endpoints (take result buf.new) (framed_up self.old.me (packet_up self.old.endpoints self.old.g calls)) }
        ensures within { result ≤ 2048 }
        ensures rest { drop result buf.new ≡ drop result buf.old }
        ensures frame { self.new ≡ record self.old { sent = self.new.sent; named = self.new.named; is_made = true } }
        ensures stands { (calls : AgentHistory) →
            AgentStandsFor self.old calls →
            AgentStandsFor self.new (MakesUp ∷ calls) }
    {
        agents_count_slots();
        requests_name_unconfirmed_totals();
        self.is_made = true;
        if !self.has_begun {
            return encode_reset(self.version, self.me, self.epoch, buf);
        }
        renew(
            &mut self.sent,
            &mut self.request,
            &self.lines,
            self.acknowledged,
            &mut self.unconfirmed,
        );
        let (high, mask) = self.arrived.ack();
        self.request.version = self.version;
        self.request.reset = false;
        self.request.src = self.me;
        self.request.epoch = self.epoch;
        self.request.high = high;
        self.request.mask = mask;
        encode_req(&self.request, buf)
    }

    /// Ends the round, and appends the slots that are sent in, rising.
    pub fn send_due(&mut self, round: u32, into: &mut ArrayVec<Sent, 64>)
        requires round { round ≡ self.old.round }
        requires rounds { round < 100000 }
        requires empty { into.old.items ≡ [] }
        ensures sends { (calls : AgentHistory) →
            AgentStandsFor self.old calls →
            slots_sent into.new.items ≡ sent_in self.old.b self.old.g calls round }
        ensures frame { self.new ≡ record self.old { lines = self.new.lines; waiting = self.new.waiting; round = round + 1; is_made = false } }
        ensures stands { (calls : AgentHistory) →
            AgentStandsFor self.old calls →
            AgentStandsFor self.new (SendsDue round ∷ calls) }
    {
        self.round = round + 1;
        self.is_made = false;
        let wait = 2 * u32::from(self.g) + 2;
        if round < wait {
            return;
        }
        let batch = round - wait;
        let first_slot = batch * u32::from(self.b) + 1;
        send_batch(&mut self.lines, &mut self.waiting, batch, first_slot, into);
    }

    /// Reads what is kept of the flow to `dst`, so that memory brings it near. What it answers means nothing.
    pub fn read_ahead(&self, dst: u16) -> u32 {
        match self.lines.get(dst as usize) {
            Some(line) => line.sent,
            None => 0,
        }
    }

    /// How many slots towards `dst` were sent in, and how many were missed, in this boot.
    pub fn totals(&self, dst: u16) -> (u32, u32)
        requires { dst < self.now.endpoints }
        ensures sent { (calls : AgentHistory) →
            AgentStandsFor self.now calls →
            result.0 ≡ sends self.now.b self.now.g calls dst }
        ensures missed { (calls : AgentHistory) →
            AgentStandsFor self.now calls →
            result.1 ≡ missed self.now.g calls dst }
    {
        let line = &self.lines[dst as usize];
        (line.sent, line.missed)
    }
}

/// Forgets the slots that wait.
fn forget(waiting: &mut [Waiting; 3])
    requires { length waiting.old ≡ 3 }
    ensures { waiting.new ≡ [] ∷ [] ∷ [] ∷ [] }
{
    waiting[0].clear();
    waiting[1].clear();
    waiting[2].clear();
}

/// Reads what a packet acknowledges, and answers the greatest number that is acknowledged by now. What it decides is `found`.
fn read_ack(
    down: &Down,
    sent: &mut SendWindow<()>,
    found: &mut ArrayVec<Decided<()>, 129>,
    acknowledged: u32,
) -> u32
    ensures acknowledged { (events : List (Event (Unit {0}))) →
        HasDone sent.old events →
        result ≡ greatest_shown acknowledged (decided_by (reorder_of sent.old.version) (span_of sent.old.version) events (record { high = down.now.high; mask = down.now.mask })) }
    ensures newest { sent.new.outstanding.newest ≡ sent.old.outstanding.newest }
    ensures version { sent.new.version ≡ sent.old.version }
    ensures stands { (events : List (Event (Unit {0}))) →
        HasDone sent.old events →
        HasDone sent.new (Reads (record { high = down.now.high; mask = down.now.mask }) ∷ events) }
{
    senders_go_on_by_step::<()>();
    if let Some(only) = sent.take_only(down.high) {
        return greater_of(acknowledged, &only);
    }
    found.clear();
    sent.read_ack(down.high, down.mask, found);
    greatest_of(acknowledged, found.as_slice())
}

/// The greater of a number and one that is found acknowledged.
fn greater_of(so_far: u32, decided: &Decided<()>) -> u32
    ensures { result ≡ greatest_shown so_far (decided.now ∷ []) }
{
    if decided.lost {
        so_far
    } else {
        so_far.max(decided.number)
    }
}

/// The greatest of a number and those that are found acknowledged.
fn greatest_of(so_far: u32, found: &[Decided<()>]) -> u32
    ensures { result ≡ greatest_shown so_far found.now }
{
    let mut greatest = so_far;
    for decided in found {
        if !decided.lost {
            greatest = greatest.max(decided.number);
        }
    }
    greatest
}

/// Where a new number may be sent, sends it with the flows that no request up to `acknowledged` confirms.
fn renew(
    sent: &mut SendWindow<()>,
    request: &mut Up,
    lines: &[FlowLine],
    acknowledged: u32,
    unconfirmed: &mut Marks,
)
    requires numbers_left { sent.old.outstanding.newest + 1 < 2 ^ 32 }
    requires most { length lines.now ≤ 256 }
    requires totals { All (λ (line : FlowLineItem). line.asked + line.missed ≤ 200000000) lines.now }
    requires own { (me : ℕ) × (me < length lines.now) × ((line_at lines.now me).carried_from ≡ 0) }
    requires marked { UnconfirmedAreMarked acknowledged unconfirmed.old lines.now }
    ensures again { ¬ MaySend sent.old → (sent.new ≡ sent.old) × (request.new ≡ request.old) }
    ensures number { MaySend sent.old → (request.new.seq ≡ sent.old.outstanding.newest + 1) × (sent.new.outstanding.newest ≡ sent.old.outstanding.newest + 1) }
    ensures version { sent.new.version ≡ sent.old.version }
    ensures named { MaySend sent.old → request.new.demands.items ≡ unconfirmed_in acknowledged (length lines.now) lines.now }
    ensures marked { UnconfirmedAreMarked acknowledged unconfirmed.new lines.now }
    ensures stands { MaySend sent.old → (events : List (Event (Unit {0}))) →
        HasDone sent.old events →
        HasDone sent.new (Sends tt ∷ events) }
{
    if sent.may_send() {
        request.seq = sent.push(());
        clear(&mut request.demands);
        name_unconfirmed(lines, acknowledged, unconfirmed, &mut request.demands);
    }
}

/// Empties the list, which seldom names more than one flow.
fn clear(demands: &mut ArrayVec<Demand, 255>)
    ensures { demands.new.items ≡ [] }
{
    let _ = demands.pop();
    demands.clear();
}

/// Lets the slots of a packet wait where they are in time, and counts them as missed where they are not. `next` is the number of
/// the next request.
fn take_slots(
    lines: &mut [FlowLine],
    unconfirmed: &mut Marks,
    waiting: &mut [Waiting; 3],
    g: u8,
    round: u32,
    down: &Down,
    next: u32,
)
    requires few { length lines.old ≤ 256 }
    requires destinations { All (λ (t : ToldSlot). t.dst < length lines.old) down.now.told.items }
    requires late { down.now.told.items ≢ [] → down.now.batch ≤ round }
    requires rounds { round < 100000 }
    requires room { All (λ line. line.missed + length down.now.told.items < 2 ^ 32) lines.old }
    ensures length { length lines.new ≡ length lines.old }
    ensures lines { (dst : ℕ) → line_at lines.new dst
        ≡ with_missed next (if nat_le round (down.now.batch + 2 * g + 2) then 0 else slots_to dst down.now.told.items) (line_at lines.old dst) }
    ensures waiting { down.now.told.items ≢ [] → round ≤ down.now.batch + 2 * g + 2 → waiting.new ≡ slice_set waiting.old (down.now.batch % 3) down.now.told.items }
    ensures others { (down.now.told.items ≡ []) ⊎ (down.now.batch + 2 * g + 2 < round) → waiting.new ≡ waiting.old }
    ensures marked { (dst : ℕ) → is_marked unconfirmed.new dst ≡ false →
        (is_marked unconfirmed.old dst ≡ false) × ((if nat_le round (down.now.batch + 2 * g + 2) then 0 else slots_to dst down.now.told.items) ≡ 0) }
{
    if down.told.is_empty() {
        return;
    }
    if round <= down.batch + 2 * u32::from(g) + 2 {
        waiting[(down.batch % 3) as usize].put(down.told.as_slice());
        return;
    }
    miss_all(lines, down.told.as_slice(), next);
    mark_all(unconfirmed, down.told.as_slice());
}

/// Sends in the slots of a batch that wait, and forgets them.
fn send_batch(
    lines: &mut [FlowLine],
    waiting: &mut [Waiting; 3],
    batch: u32,
    first_slot: u32,
    into: &mut ArrayVec<Sent, 64>,
)
    requires three { length waiting.old ≡ 3 }
    requires destinations { All (λ (t : ToldSlot). t.dst < length lines.old) (batch_place waiting.old batch) }
    requires slots { first_slot + 256 ≤ 2 ^ 32 }
    requires empty { into.old.items ≡ [] }
    ensures length { length lines.new ≡ length lines.old }
    ensures sent { slots_sent into.new.items ≡ sent_of (left_in lines.old) (slots_from_first first_slot (batch_place waiting.old batch)) }
    ensures counted { (dst : ℕ) → line_at lines.new dst
        ≡ with_sent (count_by (λ (s : Slot). s.dst == dst) (sent_of (left_in lines.old) (slots_from_first first_slot (batch_place waiting.old batch)))) (line_at lines.old dst) }
    ensures waiting { waiting.new ≡ slice_set waiting.old (batch % 3) [] }
{
    let told = &mut waiting[(batch % 3) as usize];
    send_all(lines, told.as_slice(), first_slot, into);
    told.clear();
}
