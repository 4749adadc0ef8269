//! The lane of one endpoint.
ghost use Rattle.std.specs.Prelude.{◌≡◌, ◌≢◌, ◌<◌, ◌≤◌, ◌↔◌, ℕ, ◌+◌, ◌*◌, ◌-◌, ◌++◌, ◌^◌, true, false, List, [], ◌∷◌, length, take, drop, IfOk, OnOk, OnErr, IfSome, IsSome, IsNone, unwrap_or, Some, None, All, slice_get, ◌⊎◌, if◌then◌else◌};
ghost use Rattle.std.specs.List.{filter_map, range_with_len};
ghost use Rattle.std.specs.Option.{option_map};
ghost use Rattle.std.specs.Result.{result_err};
ghost use Rattle.greedy_rules.specs.Batches.{IsAboveLast};
ghost use Rattle.flow_ledger.specs.FlowCount.{pending};
ghost use Rattle.fcp_framing.specs.declared.packet.Demand.{Demand as DemandItem};
ghost use Rattle.fcp_framing.specs.declared.packet.Told.{Told as ToldSlot};
ghost use Rattle.ack_window.specs.declared.send_window.Unresolved.{Unresolved as UnresolvedNumber};
ghost use Rattle.fcp_framing.specs.Spelling.{down_bytes, FitsDown, IsMask, SpellsDown};
ghost use Rattle.fcp_framing.specs.Fields.{up_of};
ghost use Rattle.fcp_framing.specs.Versions.{IsVersion, mask_bits};
ghost use Rattle.ack_window.specs.Arrivals.{receive_verdict, is_fresh};
ghost use Rattle.ack_window.specs.Sends.{Event, Sends, Reads, newest_content, decided_by};
ghost use Rattle.ack_window.specs.Versions.{reorder_of, span_of};
ghost use Rattle.ack_window.specs.Windows.{HasHeard, HasDone, MaySend, Sender};
ghost use Rattle.endpoint_history.specs.Packets.{Telling as TellingOf, Resets, slots_to, up_packet, framed_down};
ghost use Rattle.endpoint_history.specs.Lane.{LaneHistory, MakesDown, TakesUp, Records, packet_down};
ghost use Rattle.endpoint_history.specs.Confirmed.{total_named};
ghost use Rattle.endpoint_history.specs.Counts.{Allocation, recorded, acknowledged, lost, allocated};
ghost use Rattle.endpoint_history.specs.Entries.{had, next_entry};
ghost use Rattle.arbiter_lane.specs.State.{AreInFlight, IsSameLane, MayMakeDown, MayOpenLane, unresolved_to};
ghost use Rattle.arbiter_lane.specs.Standing.{LaneStandsFor, FlowIsWithinLedger};
ghost use Rattle.arbiter_lane.specs.Refusals.{up_refusal, up_refusal_of_number, IsOwnUp};
ghost use Rattle.arbiter_lane.specs.declared.line.LaneLine.{LaneLine as LineOf};
ghost use Rattle.arbiter_lane.specs.Lines.{Become, LosesSlots, Hears, HasStartedAgain, slots_shown, slots_lost};
ghost use Rattle.arbiter_lane.specs.Parts.{packet_with, slots_to_tell, acknowledgement_in, RisenAreMarked};

use crate::line::LaneLine;
use crate::refusal::UpRefused;
use crate::telling::tell;
use crate::tellings::Tellings;
use crate::{NoMemory, flows};
use ack_window::{TakeWindow, Taken};
use arrayvec::ArrayVec;
use endpoint_history::lanes_count_slots;
use fcp_framing::{Down, Told, Up, decode_up, encode_alloc};
use flow_ledger::FlowCount;
use greedy_rules::Batch;
use line_marks::Marks;
use std::alloc::Global;
use std::marker::Model;

/// The version of a connection before its first reset.
const FIRST_VERSION: u8 = 1;

/// The arbiter's side for one endpoint. Clauses see its connection, a line for each destination, and the rounds that it counts;
/// what they say of it holds for every list of calls for which it stands, and there is one.
#[derive(Drop)]
pub struct Lane {
    endpoint: u16,
    endpoints: u16,
    b: u8,
    g: u8,
    epoch: u32,
    version: u8,
    last_reset: u32,
    arrived: TakeWindow,
    sent: Tellings,
    lines: Vec<LaneLine>,
    /// The lines that have risen since their entries were counted last: all of these, and maybe others.
    risen: Marks,
    round: u32,
    is_made: bool,
    is_reset: bool,
    /// The packet that arrived last.
    up: Up,
}

impl Model for Lane {
    ghost use Rattle.std.specs.Prelude.{◌≡◌, []};
    ghost use Rattle.arbiter_lane.specs.State.{LaneState, IsSoundLane};
    ghost use Rattle.arbiter_lane.specs.Standing.{HasLaneHistory};
    ghost use Rattle.arbiter_lane.specs.Parts.{RisenAreMarked};

    ghost Value = { LaneState };

    ghost view = { λ lane. record {
      endpoint = lane.endpoint;
      endpoints = lane.endpoints;
      b = lane.b;
      g = lane.g;
      epoch = lane.epoch;
      version = lane.version;
      last_reset = lane.last_reset;
      arrived = lane.arrived;
      sent = lane.sent;
      lines = lane.lines.items;
      round = lane.round;
      is_made = lane.is_made;
      is_reset = lane.is_reset;
    } };

    ghost invariant = { λ lane.
        let state : LaneState = record {
          endpoint = lane.endpoint;
          endpoints = lane.endpoints;
          b = lane.b;
          g = lane.g;
          epoch = lane.epoch;
          version = lane.version;
          last_reset = lane.last_reset;
          arrived = lane.arrived;
          sent = lane.sent;
          lines = lane.lines.items;
          round = lane.round;
          is_made = lane.is_made;
          is_reset = lane.is_reset;
        } in
        IsSoundLane state × HasLaneHistory state × RisenAreMarked lane.risen lane.lines.items };
}

impl Lane {
    /// A lane for one endpoint of so many, with batches of `b` slots and windows of `g` rounds. After it only
    /// [`record`](Lane::record) takes memory.
    pub fn open(
        alloc: Global,
        endpoint: u16,
        endpoints: u16,
        b: u8,
        g: u8,
    ) -> Result<Lane, NoMemory>
        requires { MayOpenLane endpoint endpoints b g }
        ensures endpoint { IfOk result (λ lane. lane.endpoint ≡ endpoint) }
        ensures endpoints { IfOk result (λ lane. lane.endpoints ≡ endpoints) }
        ensures b { IfOk result (λ lane. lane.b ≡ b) }
        ensures g { IfOk result (λ lane. lane.g ≡ g) }
        ensures is_made { IfOk result (λ lane. lane.is_made ≡ false) }
        ensures stands { IfOk result (λ lane. LaneStandsFor lane [] []) }
    {
        Ok(Lane {
            endpoint,
            endpoints,
            b,
            g,
            epoch: 0,
            version: FIRST_VERSION,
            last_reset: 0,
            arrived: TakeWindow::new(FIRST_VERSION),
            sent: Tellings::open(alloc, FIRST_VERSION)?,
            lines: vec![in alloc; LaneLine::new(); endpoints as usize]?,
            risen: Marks::new(),
            round: 0,
            is_made: false,
            is_reset: false,
            up: Up::default(),
        })
    }

    /// Makes the allocation of this round at the front of `buf`, and answers its length, None where no reset has arrived. `told`
    /// are the endpoint's slots of the batch of two windows before.
    pub fn make_down(
        &mut self,
        round: u32,
        told: &ArrayVec<Told, 64>,
        buf: &mut [u8; 2048],
    ) -> Option<usize>
        // Each round's packet is made once and then the round is recorded, from round 0 on.
        requires { MayMakeDown self.old round told.now.items }
        ensures none { IsNone result ↔ (self.old.epoch ≡ 0) }
        ensures packet { (history : LaneHistory) (allocations : List Allocation) →
            LaneStandsFor self.old history allocations →
            option_map (λ length. take length buf.new) result ≡ option_map (λ packet. down_bytes (framed_down self.old.endpoint packet)) (packet_down self.old.g history round told.now.items) }
        ensures spelled { (history : LaneHistory) (allocations : List Allocation) →
            LaneStandsFor self.old history allocations →
            IfSome (packet_down self.old.g history round told.now.items) (λ packet. SpellsDown self.old.endpoints self.old.b (take (unwrap_or result 0) buf.new) (framed_down self.old.endpoint packet)) }
        ensures room { unwrap_or result 0 ≤ 2048 }
        ensures rest { drop (unwrap_or result 0) buf.new ≡ drop (unwrap_or result 0) buf.old }
        ensures frame { self.new ≡ record self.old { sent = self.new.sent; lines = self.new.lines; is_made = true } }
        ensures stands { (history : LaneHistory) (allocations : List Allocation) →
            LaneStandsFor self.old history allocations →
            LaneStandsFor self.new (MakesDown round told.now.items ∷ history) allocations }
    {
        let mut down = Down::default();
        if self.fill_down(round, told, &mut down) {
            return Some(encode_alloc(&down, buf));
        }
        None
    }

    /// Fills in the allocation of this round, whose bytes [`make_down`](Lane::make_down) makes, and answers whether there is one. It
    /// stands for that call.
    pub fn fill_down(&mut self, round: u32, told: &ArrayVec<Told, 64>, down: &mut Down) -> bool
        requires { MayMakeDown self.old round told.now.items }
        ensures none { result ≡ false ↔ (self.old.epoch ≡ 0) }
        ensures packet { (history : LaneHistory) (allocations : List Allocation) →
            LaneStandsFor self.old history allocations →
            option_map (framed_down self.old.endpoint) (packet_down self.old.g history round told.now.items) ≡ (if result then Some down.new else None) }
        ensures spelled { result ≡ true → SpellsDown self.old.endpoints self.old.b (down_bytes down.new) down.new }
        ensures frame { self.new ≡ record self.old { sent = self.new.sent; lines = self.new.lines; is_made = true } }
        ensures stands { (history : LaneHistory) (allocations : List Allocation) →
            LaneStandsFor self.old history allocations →
            LaneStandsFor self.new (MakesDown round told.now.items ∷ history) allocations }
    {
        lanes_count_slots();
        let told = self.slots_told(round, told);
        put_header(down, self.version, self.endpoint, self.epoch, &self.arrived);
        self.is_made = true;
        if self.epoch == 0 {
            return false;
        }
        let batch = round.saturating_sub(2 * u32::from(self.g));
        tell(
            &mut self.sent,
            &mut self.lines,
            &mut self.risen,
            batch,
            told,
            down,
        );
        numbers_fit(down);
        true
    }

    /// Takes what arrives in this round. After `OldSeq` and `Repeat` the acknowledgement was read; any other refusal leaves
    /// the lane as it was.
    pub fn take_up(&mut self, round: u32, bytes: &[u8]) -> Result<(), UpRefused>
        // It is called between the `make_down` and the `record` of its round; of the bytes nothing is asked.
        requires round { round ≡ self.old.round }
        ensures answer { (history : LaneHistory) (allocations : List Allocation) →
            LaneStandsFor self.old history allocations →
            result_err result ≡ up_refusal self.old.endpoint self.old.endpoints history bytes.now }
        ensures unchanged { IfSome (result_err result) (λ refusal.
            refusal ≢ UpRefused.OldSeq → refusal ≢ UpRefused.Repeat → self.new ≡ self.old) }
        ensures kept { IfSome (result_err result) (λ refusal.
            self.new ≡ record self.old { sent = self.new.sent; lines = self.new.lines }) }
        ensures same { IsSameLane self.old self.new }
        ensures stands { IsOwnUp self.old.endpoint self.old.endpoints bytes.now →
            (history : LaneHistory) (allocations : List Allocation) →
            LaneStandsFor self.old history allocations →
            LaneStandsFor self.new (TakesUp round (up_packet (up_of bytes.now)) ∷ history) allocations }
    {
        lanes_count_slots();
        if let Err(refusal) = decode_up(bytes, self.endpoints, &mut self.up) {
            return Err(UpRefused::Frame(refusal));
        }
        if self.up.src != self.endpoint {
            return Err(UpRefused::NotMine);
        }
        if self.up.epoch < self.epoch {
            return Err(UpRefused::OldEpoch);
        }
        if self.up.epoch > self.epoch {
            if !self.up.reset {
                return Err(UpRefused::Unsynced);
            }
            let epoch = self.up.epoch;
            let version = self.up.version;
            self.begin(epoch, version);
            return Ok(());
        }
        if self.up.version != self.version {
            return Err(UpRefused::OtherVersion);
        }
        if self.up.reset {
            return Ok(());
        }
        take_request(
            &self.up,
            &mut self.arrived,
            &mut self.sent,
            &mut self.lines,
            &mut self.risen,
        )
    }

    /// Records this round: appends the entries of the flows that have risen, or whose demand starts again. The last flow of
    /// `batch` has a lower source. After `NoMemory` lane and batch are only to be dropped.
    pub fn record(&mut self, round: u32, batch: &mut Batch) -> Result<(), NoMemory>
        // As in `make_down`.
        requires round { round ≡ self.old.round }
        requires rounds { round < 100000 }
        requires above { IsAboveLast batch.old.entries (record { src = self.old.endpoint; dst = 0 }) }
        ensures entries { OnOk result ((history : LaneHistory) (allocations : List Allocation) →
            LaneStandsFor self.old history allocations →
            batch.new.entries ≡ batch.old.entries ++ filter_map (next_entry self.old.endpoint self.old.g history) (range_with_len 0 self.old.endpoints)) }
        ensures limits { batch.new.limits ≡ batch.old.limits }
        ensures frame { OnOk result (self.new ≡ record self.old { lines = self.new.lines; is_reset = false; is_made = false; round = round + 1 }) }
        ensures stands { OnOk result ((history : LaneHistory) (allocations : List Allocation) →
            LaneStandsFor self.old history allocations →
            LaneStandsFor self.new (Records round ∷ history) allocations) }
        // Of no flow more is told than is owed.
        ensures told { OnOk result ((history : LaneHistory) (allocations : List Allocation) →
            LaneStandsFor self.new history allocations →
            (dst : ℕ) → dst < self.new.endpoints → FlowIsWithinLedger self.new.g history allocations dst) }
    {
        lanes_count_slots();
        flows::record(
            &mut self.lines,
            &mut self.risen,
            self.endpoint,
            self.is_reset,
            batch,
        )?;
        self.is_reset = false;
        self.is_made = false;
        self.round = round + 1;
        Ok(())
    }

    /// Counts `n` slots of the flow to `dst` in a batch that is published. A batch below the last reset is passed over.
    pub fn allocated(&mut self, dst: u16, batch: u32, n: u32)
        requires destination { dst < self.old.endpoints }
        // The batch was recorded: so many were.
        requires recorded { batch < self.old.round }
        // Of a batch that is not passed over no more slots are allocated than are pending.
        requires pending { self.old.last_reset ≤ batch → (line : LineOf) → slice_get self.old.lines dst ≡ Some line → n ≤ pending line.count }
        ensures frame { self.new ≡ record self.old { lines = self.new.lines } }
        ensures stands { (history : LaneHistory) (allocations : List Allocation) →
            LaneStandsFor self.old history allocations →
            LaneStandsFor self.new history (record { dst = dst; batch = batch; slots = n } ∷ allocations) }
    {
        if batch >= self.last_reset {
            self.lines[dst as usize].count.allocate(n);
        }
    }

    /// Reads what is kept of the flow to `dst`, so that memory brings it near. What it answers means nothing.
    pub fn read_ahead(&self, dst: u16) -> u32 {
        match self.lines.get(dst as usize) {
            Some(line) => line.entered,
            None => 0,
        }
    }

    /// The counts of the flow to `dst` since the last reset, None where no batch has it.
    pub fn count(&self, dst: u16) -> Option<FlowCount>
        requires { dst < self.now.endpoints }
        ensures opened { (history : LaneHistory) (allocations : List Allocation) →
            LaneStandsFor self.now history allocations →
            (IsSome result ↔ (had self.now.g history dst ≡ true)) }
        ensures line { (line : LineOf) → slice_get self.now.lines dst ≡ Some line → IfSome result (λ count. count ≡ line.count) }
        ensures counts { IfSome result (λ count. (history : LaneHistory) (allocations : List Allocation) →
            LaneStandsFor self.now history allocations →
            (count.demanded ≡ recorded history dst) × (count.allocated ≡ allocated history allocations dst)
            × (count.acknowledged ≡ acknowledged self.now.g history dst) × (count.lost ≡ lost self.now.g history dst)) }
        ensures told { (history : LaneHistory) (allocations : List Allocation) →
            LaneStandsFor self.now history allocations →
            FlowIsWithinLedger self.now.g history allocations dst }
    {
        lanes_count_slots();
        let line = &self.lines[dst as usize];
        if line.opened { Some(line.count) } else { None }
    }

    /// The epoch of the last reset, 0 where none has arrived.
    pub fn epoch(&self) -> u32
        ensures { result ≡ self.now.epoch }
    {
        self.epoch
    }

    /// The slots that are told: none of a batch that was recorded before the last reset.
    fn slots_told<'a>(&self, round: u32, told: &'a ArrayVec<Told, 64>) -> &'a [Told]
        ensures slots { result.now ≡ slots_to_tell self.now round told.now.items }
        ensures few { length result.now ≤ 64 }
    {
        let windows = 2 * u32::from(self.g);
        if round >= windows && round - windows >= self.last_reset {
            told.as_slice()
        } else {
            &[]
        }
    }

    /// Begins the connection of a reset of a greater epoch.
    fn begin(&mut self, epoch: u32, version: u8)
        requires epoch { self.old.epoch < epoch }
        requires version { IsVersion version }
        ensures frame { self.new ≡ record self.old {
          epoch = epoch;
          version = version;
          last_reset = self.old.round;
          arrived = self.new.arrived;
          sent = self.new.sent;
          lines = self.new.lines;
          is_reset = true;
        } }
        ensures stands { (history : LaneHistory) (allocations : List Allocation) →
            LaneStandsFor self.old history allocations →
            LaneStandsFor self.new (TakesUp self.old.round (Resets epoch version) ∷ history) allocations }
    {
        lanes_count_slots();
        self.epoch = epoch;
        self.version = version;
        self.last_reset = self.round;
        self.is_reset = true;
        self.arrived = TakeWindow::new(version);
        self.sent.restart(version);
        flows::restart(&mut self.lines);
        self.risen.clear_all();
    }
}

/// Makes it an allocation of the connection as it is. Its number and what it tells are as they were.
fn put_header(down: &mut Down, version: u8, endpoint: u16, epoch: u32, arrived: &TakeWindow)
    requires { arrived.now.version ≡ version }
    ensures header { down.new ≡ record {
      version = version;
      dst = endpoint;
      epoch = epoch;
      seq = down.old.seq;
      high = arrived.now.told.high;
      mask = arrived.now.told.mask;
      batch = down.old.batch;
      told = down.old.told;
    } }
    ensures mask { IsMask arrived.now.told.high arrived.now.told.mask }
    ensures width { arrived.now.told.mask < 2 ^ mask_bits version }
{
    let (high, mask) = arrived.ack();
    down.version = version;
    down.dst = endpoint;
    down.epoch = epoch;
    down.high = high;
    down.mask = mask;
}

/// The numbers of an allocation have 32 bits.
fn numbers_fit(down: &Down)
    ensures { FitsDown down.now }
{
    let _epoch = down.epoch;
    let _seq = down.seq;
    let _high = down.high;
    let _batch = down.batch;
}

/// Takes a request of the connection: reads its acknowledgement, and where its number is fresh raises the demands that it names.
/// Answers what the number is refused for.
fn take_request(
    up: &Up,
    arrived: &mut TakeWindow,
    sent: &mut Tellings,
    lines: &mut [LaneLine],
    risen: &mut Marks,
) -> Result<(), UpRefused>
    requires number { 1 ≤ up.now.seq }
    requires few { length lines.old ≤ 256 }
    requires stands { (events : List (Event TellingOf)) × HasDone sent.old events }
    requires destinations { All (λ (number : UnresolvedNumber TellingOf). All (λ (slot : ToldSlot). slot.dst < length lines.old) number.content.told) sent.old.outstanding.unresolved }
    requires named { All (λ (demand : DemandItem). demand.dst < length lines.old) up.now.demands.items }
    requires in_flight { AreInFlight (λ dst. unresolved_to dst sent.old) lines.old }
    ensures answer { (numbers : List ℕ) →
        HasHeard arrived.old numbers →
        result_err result ≡ up_refusal_of_number (receive_verdict (reorder_of arrived.old.version) numbers up.now.seq) }
    ensures refused { IfSome (result_err result) (λ refusal. (refusal ≡ UpRefused.OldSeq) ⊎ (refusal ≡ UpRefused.Repeat)) }
    ensures unheard { IfSome (result_err result) (λ refusal. arrived.new ≡ arrived.old) }
    ensures arrived { (numbers : List ℕ) →
        HasHeard arrived.old numbers →
        HasHeard arrived.new (up.now.seq ∷ numbers) }
    ensures arrived_version { arrived.new.version ≡ arrived.old.version }
    ensures lines { (numbers : List ℕ) (events : List (Event TellingOf)) →
        HasHeard arrived.old numbers →
        HasDone sent.old events →
        Become (λ dst. Hears
        (slots_shown (decided_by (reorder_of sent.old.version) (span_of sent.old.version) events (acknowledgement_in up.now)) dst)
        (slots_lost (decided_by (reorder_of sent.old.version) (span_of sent.old.version) events (acknowledgement_in up.now)) dst)
        (if is_fresh (receive_verdict (reorder_of arrived.old.version) numbers up.now.seq) then total_named dst up.now.demands.items else 0)) lines.old lines.new }
    ensures sent { (events : List (Event TellingOf)) →
        HasDone sent.old events →
        HasDone sent.new (Reads (acknowledgement_in up.now) ∷ events) }
    ensures newest { sent.new.outstanding.newest ≡ sent.old.outstanding.newest }
    ensures version { sent.new.version ≡ sent.old.version }
    ensures marked { RisenAreMarked risen.old lines.old → RisenAreMarked risen.new lines.new }
{
    sent.read_ack(up.high, up.mask, lines, risen);
    match arrived.take(up.seq) {
        Taken::Fresh => {
            flows::raise(lines, risen, up.demands.as_slice());
            Ok(())
        }
        Taken::Repeat => Err(UpRefused::Repeat),
        Taken::Old => Err(UpRefused::OldSeq),
    }
}
