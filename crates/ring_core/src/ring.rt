ghost use Rattle.std.specs.Prelude.{◌≡◌, ◌<◌, ◌≤◌, ◌+◌, ◌-◌, ◌*◌, ◌^◌, ◌↔◌, ℕ, List, [], ◌++◌, length, take, drop, replicate, IsTrue, true, IfOk, All, Some, MatchOption, slice_get, ◌==◌, nat_le, if◌then◌else◌};
ghost use Rattle.greedy_rules.specs.Batches.{DemandBatch};
ghost use Rattle.greedy_rules.specs.Recorded.{MayBeApplied};
ghost use Rattle.greedy_rules.specs.Schedule.{first_slot, schedule_from, rest_from};
ghost use Rattle.slot_batches.specs.NextList.{IsListBefore};
ghost use Rattle.slot_batches.specs.Pieces.{part_of, piece_count, piece_at, pieces};
ghost use Rattle.ring_core.specs.States.{EdgeState, WorkerState};
ghost use Rattle.ring_core.specs.Windows.{Window, window_of, turns_of, worker_after};
ghost use Rattle.ring_core.specs.Played.{window_named};
ghost use Rattle.ring_core.specs.Workers.{Plays, IsWorker, MayBegin, HasBegunWith, IsSameWorker};
ghost use Rattle.ring_core.specs.declared.turn.Turn.TheVariants.{Moved};
ghost use Rattle.ring_core.specs.Streams.{items_of};
ghost use Rattle.ring_core.specs.Turns.{TurnAnswers};
ghost use Rattle.ring_core.specs.Edges.{room_at, AllHold, StreamsAreShort, OthersStay, IsFoundEmpty, IsFoundFull, ends_between};
ghost use Rattle.ring_core.specs.Wholes.{room_for, StandsBefore};
ghost use Rattle.ring_core.specs.Openings.{crew_openings};
ghost use Rattle.ring_core.specs.Cores.{IsAtRest, MayStart, IsRing, IsSameRing, IsFinished, IsGoing, HoldsTheLastList, HasJustBegun, HasRoomForTwo, AreCrewed, IsPlaying, AnswersIn, CanMove, OthersWait, window_in};

use crate::edge::{Edge, ListLink, PlayedWindow};
use crate::turn::Turn;
use crate::whole::Whole;
use crate::worker::{Worker, count_pieces};
use greedy_rules::{Batch, DemandList, Flow, Item, SlotTable, flows_fit_pairs};
use item_chain::Chain;
use no_memory::NoMemory;
use slot_batches::every_batch_leaves_a_list;
use std::alloc::Global;
use std::marker::Model;
use std::snapshot::Snapshot;

// What the nodes hold at first.
const BLANK: Item = Item {
    flow: Flow { src: 0, dst: 0 },
    need: 0,
    last: 0,
};

/// A ring of workers over edges of fixed room, of which any may take the next turn.
#[derive(Drop)]
pub struct RingCore {
    alloc: Global,
    workers: u16,
    endpoints: u16,
    batches: u16,
    b: u8,
    room: u32,
    // The window: the list that it found names it, beside the batches that each call is given.
    list: Snapshot<DemandList>,
    first_batch: u32,
    stages: usize,
    // A list that lies whole; contracts see its pieces among those of the edges.
    whole: Whole,
    edges: Vec<Edge>,
    crew: Vec<Worker>,
    // Nodes that no stage and no piece has.
    spare: Chain<Item>,
}

impl Model for RingCore {
    ghost use Rattle.std.specs.Prelude.{◌≤◌, ◌<◌, ◌-◌, ◌*◌, ◌^◌, length};
    ghost use Rattle.ring_core.specs.States.{RingState};
    ghost use Rattle.ring_core.specs.Wholes.{with_list, room_for, whole_nodes, MayBeSent};

    ghost Value = { RingState };

    ghost view = { λ r. record { workers = r.workers; endpoints = r.endpoints; batches = r.batches; b = r.b; room = r.room; list = r.list.value.items; first_batch = r.first_batch; stages = r.stages; edges = with_list r.whole.stage r.workers r.whole.list.items r.edges.items; crew = r.crew.items; spare = length r.spare - whole_nodes r.whole.stage r.whole.list.items } };

    ghost invariant = { λ r. (r.endpoints * r.endpoints ≤ room_for r.whole.list) × (r.endpoints * r.endpoints ≤ room_for r.whole.left) × MayBeSent r.whole.stage r.workers r.whole.list.items r.edges.items × (whole_nodes r.whole.stage r.whole.list.items ≤ length r.spare) × (length r.spare < 2 ^ 32) };
}

impl RingCore {
    /// So many workers, over edges with room for so many pieces, for windows of at most so many batches of `b` slots each. But
    /// for `open` no call takes memory.
    pub fn open(
        alloc: Global,
        workers: u16,
        endpoints: u16,
        batches: u16,
        b: u8,
        room: u32,
    ) -> Result<RingCore, NoMemory>
        requires workers { 0 < workers }
        requires endpoints { endpoints ≤ 256 }
        requires b { (0 < b) × (b ≤ 64) }
        ensures rest { IfOk result IsAtRest }
        ensures workers { IfOk result (λ core. core.workers ≡ workers) }
        ensures endpoints { IfOk result (λ core. core.endpoints ≡ endpoints) }
        ensures batches { IfOk result (λ core. core.batches ≡ batches) }
        ensures b { IfOk result (λ core. core.b ≡ b) }
        ensures room { IfOk result (λ core. core.room ≡ room) }
    {
        let pairs = endpoints as usize * (endpoints as usize).saturating_sub(1);
        let mut spare = Chain::new(alloc);
        spare.fill(pairs, BLANK)?;
        let none = DemandList::open(alloc, 0)?;
        let whole = Whole::open(alloc, endpoints)?;
        let edges = open_edges(alloc, workers, room)?;
        let crew = open_crew(alloc, workers, endpoints, batches, b)?;
        Ok(RingCore {
            alloc,
            workers,
            endpoints,
            batches,
            b,
            room,
            list: Snapshot::of(&none),
            first_batch: 0,
            stages: 0,
            whole,
            edges,
            crew,
            spare,
        })
    }

    /// Begins a window of these batches, the first of number `first_batch`, and takes its list over, which has at most an item for
    /// each flow.
    pub fn begin(&mut self, list: &mut DemandList, first_batch: u32, batches: &[Batch])
        requires rest { IsAtRest self.old }
        requires may { MayStart self.old first_batch batches.now list.old.items }
        ensures playing { IsPlaying batches.now self.new }
        ensures window { window_in batches.now self.new ≡ window_of list.old.items batches.now first_batch self.old.b self.old.workers }
        ensures begun { HasJustBegun self.new }
        ensures same { IsSameRing self.old self.new }
        ensures list { list.new.items ≡ [] }
        ensures spare { list.new.spare ≡ list.old.spare + length list.old.items }
    {
        every_batch_leaves_a_list();
        flows_fit_pairs();
        self.list = Snapshot::of(list);
        self.first_batch = first_batch;
        self.stages = batches.len();
        let pieces = self
            .whole
            .take_over(self.alloc, list, &mut self.edges, &mut self.spare);
        begin_crew(
            &mut self.crew,
            first_batch,
            batches,
            pieces,
            &mut self.spare,
        );
        list.clear();
    }

    /// Whether every stage of the window has ended. The edge into the worker of the last list then holds its pieces, and the
    /// others are empty.
    pub fn finished(&self) -> bool
        ensures ended { IsTrue result ↔ IsFinished self.now }
        ensures last { (batches : List DemandBatch) → IsPlaying batches self.now → IsTrue result → HoldsTheLastList batches self.now }
    {
        for worker in &self.crew {
            if !worker.has_ended(self.stages) {
                return false;
            }
        }
        true
    }

    /// A turn of this worker.
    pub fn step(&mut self, batches: &[Batch], worker: u16) -> Turn
        requires playing { IsPlaying batches.now self.old }
        requires worker { worker < self.old.workers }
        ensures playing { IsPlaying batches.now self.new }
        ensures window { window_in batches.now self.new ≡ window_in batches.now self.old }
        ensures answer { AnswersIn batches.now self.old self.new worker result }
        ensures others { OthersWait worker self.old self.new }
        ensures moves { CanMove batches.now self.old worker → result ≡ Moved }
    {
        let before = worker as usize;
        let after = self.worker_after(worker) as usize;
        self.whole
            .send(self.alloc, self.workers, &mut self.edges, &mut self.spare);
        let window = PlayedWindow {
            list: &self.list,
            batches,
            first_batch: self.first_batch,
            b: self.b,
            workers: self.workers,
        };
        turn_at(
            &mut self.crew[before],
            window,
            &mut self.edges,
            before,
            after,
        )
    }

    /// A worker whose next turn moves a piece: the one of the earliest stage that has not ended.
    pub fn movable(&self) -> u16
        requires going { IsGoing self.now }
        requires room { (batches : List DemandBatch) × IsPlaying batches self.now × HasRoomForTwo batches self.now }
        ensures worker { result < self.now.workers }
        ensures moves { (batches : List DemandBatch) → IsPlaying batches self.now → HasRoomForTwo batches self.now → CanMove batches self.now result }
    {
        let mut least = 0;
        for number in 1..self.workers {
            if self.crew[number as usize].is_behind(&self.crew[least as usize]) {
                least = number;
            }
        }
        least
    }

    /// Plays the window to its end, stage after stage: the worker of each takes all pieces of its list in a row, and hands on all
    /// of those that it leaves, as so many turns would. Answers how many turns these are: as many as the stages take up and give
    /// pieces.
    pub fn run_out(&mut self, batches: &[Batch]) -> u64
        requires playing { IsPlaying batches.now self.old }
        requires begun { HasJustBegun self.old }
        requires room { HasRoomForTwo batches.now self.old }
        ensures playing { IsPlaying batches.now self.new }
        ensures window { window_in batches.now self.new ≡ window_in batches.now self.old }
        ensures finished { IsFinished self.new }
        ensures turns { result ≡ turns_of (window_in batches.now self.old) }
        ensures same { IsSameRing self.old self.new }
    {
        every_batch_leaves_a_list();
        flows_fit_pairs();
        if self.stages == 0 {
            return 0;
        }
        self.whole.lift(&mut self.edges[0], &mut self.spare);
        let turns = play_stages(
            &mut self.crew,
            &mut self.edges,
            &mut self.whole,
            batches,
            &mut self.spare,
        );
        self.whole.stage = Some(self.stages as u32);
        turns
    }

    /// The worker after this one.
    fn worker_after(&self, worker: u16) -> u16
        requires { worker < self.now.workers }
        ensures value { result ≡ worker_after self.now.workers worker }
        ensures within { result < self.now.workers }
    {
        let workers = self.workers;
        if worker + 1 == workers { 0 } else { worker + 1 }
    }

    /// Takes the list that is left out of the ring, and copies the slots: slot i of stage s, both counted from 0, to place
    /// `s * b + i` of `out`, whose other places are emptied.
    pub fn take(&mut self, list: &mut DemandList, out: &mut SlotTable)
        requires finished { IsFinished self.old }
        requires room { (batches : List DemandBatch) × IsPlaying batches self.old × (length (rest_from self.old.b self.old.first_batch self.old.list batches) ≤ length list.old.items + list.old.spare) }
        requires places { self.old.stages * self.old.b ≤ length out.old.slots }
        requires serves { self.old.endpoints ≤ out.old.endpoints }
        ensures list { (batches : List DemandBatch) → IsPlaying batches self.old → list.new.items ≡ rest_from self.old.b self.old.first_batch self.old.list batches }
        ensures spare { length list.new.items + list.new.spare ≡ length list.old.items + list.old.spare }
        ensures slots { (batches : List DemandBatch) →
            IsPlaying batches self.old →
            out.new.slots ≡ schedule_from self.old.b self.old.first_batch self.old.list batches ++ replicate (length out.old.slots - self.old.stages * self.old.b) [] }
        ensures endpoints { out.new.endpoints ≡ out.old.endpoints }
        ensures rest { IsAtRest self.new }
        ensures same { IsSameRing self.old self.new }
    {
        out.clear();
        self.take_behind(0, list, out);
    }

    /// As `take`, but behind the slots of so many batches that came before, which stay as they are: slot i of stage s stands at
    /// place `(passed + s) * b + i`. The places behind theirs are empty.
    pub fn take_behind(&mut self, passed: u16, list: &mut DemandList, out: &mut SlotTable)
        // Five conditions that a caller can break one by one, and a line for each thing that the call leaves.
        requires finished { IsFinished self.old }
        requires room { (batches : List DemandBatch) × IsPlaying batches self.old × (length (rest_from self.old.b self.old.first_batch self.old.list batches) ≤ length list.old.items + list.old.spare) }
        requires places { (passed + self.old.stages) * self.old.b ≤ length out.old.slots }
        requires empty { drop (passed * self.old.b) out.old.slots ≡ replicate (length out.old.slots - passed * self.old.b) [] }
        requires serves { self.old.endpoints ≤ out.old.endpoints }
        ensures list { (batches : List DemandBatch) → IsPlaying batches self.old → list.new.items ≡ rest_from self.old.b self.old.first_batch self.old.list batches }
        ensures spare { length list.new.items + list.new.spare ≡ length list.old.items + list.old.spare }
        ensures slots { (batches : List DemandBatch) →
            IsPlaying batches self.old →
            out.new.slots ≡ (take (passed * self.old.b) out.old.slots ++ schedule_from self.old.b self.old.first_batch self.old.list batches) ++ replicate (length out.old.slots - (passed + self.old.stages) * self.old.b) [] }
        ensures endpoints { out.new.endpoints ≡ out.old.endpoints }
        ensures rest { IsAtRest self.new }
        ensures same { IsSameRing self.old self.new }
    {
        self.copy_slots(passed, out);
        let last = self.stages % self.edges.len();
        self.whole
            .hand_over(&mut self.edges[last], list, &mut self.spare);
        restart_edges(&mut self.edges);
    }

    /// Copies the slots of every stage behind those of so many batches, into places that are empty.
    fn copy_slots(&self, passed: u16, out: &mut SlotTable)
        requires finished { IsFinished self.now }
        requires playing { (batches : List DemandBatch) × IsPlaying batches self.now }
        requires empty { drop (passed * self.now.b) out.old.slots ≡ replicate (length out.old.slots - passed * self.now.b) [] }
        requires places { (passed + self.now.stages) * self.now.b ≤ length out.old.slots }
        requires serves { self.now.endpoints ≤ out.old.endpoints }
        ensures slots { (batches : List DemandBatch) →
            IsPlaying batches self.now →
            out.new.slots ≡ (take (passed * self.now.b) out.old.slots ++ schedule_from self.now.b self.now.first_batch self.now.list batches) ++ replicate (length out.old.slots - (passed + self.now.stages) * self.now.b) [] }
        ensures endpoints { out.new.endpoints ≡ out.old.endpoints }
    {
        let _places = out.slots();
        for stage in 0..self.stages {
            let worker = &self.crew[stage % self.crew.len()];
            let place = (passed as usize + stage) * self.b as usize;
            out.copy(worker.slots(stage as u32), place as u16);
        }
    }
}

/// An edge into each of so many workers.
fn open_edges(alloc: Global, workers: u16, room: u32) -> Result<Vec<Edge>, NoMemory>
    ensures count { IfOk result (λ edges. length edges.items ≡ workers) }
    ensures rooms { IfOk result (λ edges. All (λ edge. edge.room ≡ room) edges.items) }
    ensures empty { IfOk result (λ edges. All (λ edge. (edge.pieces ≡ []) × (edge.taken ≡ 0) × (edge.sent ≡ 0)) edges.items) }
{
    let mut edges = Vec::with_capacity(alloc, workers as usize)?;
    for _ in 0..workers {
        edges.push(Edge::open(alloc, room as usize)?)?;
    }
    Ok(edges)
}

/// The workers of a ring, by their numbers, none of which has a node.
pub fn open_crew(
    alloc: Global,
    workers: u16,
    endpoints: u16,
    batches: u16,
    b: u8,
) -> Result<Vec<Worker>, NoMemory>
    requires endpoints { endpoints ≤ 256 }
    requires b { (0 < b) × (b ≤ 64) }
    ensures count { IfOk result (λ crew. length crew.items ≡ workers) }
    ensures each { IfOk result (λ crew. AreCrewed workers endpoints batches b crew.items) }
    ensures none { IfOk result (λ crew. All (λ worker. All (λ stage. stage.nodes ≡ 0) worker.stages) crew.items) }
{
    let mut crew = Vec::with_capacity(alloc, workers as usize)?;
    for number in 0..workers {
        crew.push(Worker::open(alloc, number, workers, endpoints, batches, b)?)?;
    }
    Ok(crew)
}

/// The positions of every edge begin at 0 again.
fn restart_edges(edges: &mut [Edge])
    requires empty { (number : ℕ) (edge : EdgeState) → slice_get edges.old number ≡ Some edge → edge.pieces ≡ [] }
    ensures count { length edges.new ≡ length edges.old }
    ensures empty { (number : ℕ) (edge : EdgeState) → slice_get edges.new number ≡ Some edge → (edge.pieces ≡ []) × (edge.taken ≡ 0) × (edge.sent ≡ 0) }
    ensures rooms { (number : ℕ) → room_at edges.new number ≡ room_at edges.old number }
{
    for edge in edges {
        edge.restart();
    }
}

/// Plays every stage, each at once, and answers how many pieces they took up and gave. The list that is left lies whole, and the
/// nodes of the stages are spare again.
fn play_stages(
    crew: &mut [Worker],
    edges: &mut [Edge],
    whole: &mut Whole,
    batches: &[Batch],
    spare: &mut Chain<Item>,
) -> u64
    requires stands { (endpoints most : ℕ) × (window : Window) × StandsBefore endpoints most batches.now window 0 crew.old edges.old whole.old.list.items × (endpoints * endpoints ≤ room_for whole.old.list) × (endpoints * endpoints ≤ room_for whole.old.left) × StreamsAreShort window }
    requires fits { length spare.old < 2 ^ 32 }
    ensures stands { (endpoints most : ℕ) (window : Window) →
        StandsBefore endpoints most batches.now window 0 crew.old edges.old whole.old.list.items →
        StandsBefore endpoints most batches.now window (length batches.now) crew.new edges.new whole.new.list.items × (result ≡ turns_of window) }
    ensures rooms { (number : ℕ) → room_at edges.new number ≡ room_at edges.old number }
    ensures nodes { length spare.new + length whole.old.list.items ≡ length spare.old + length whole.new.list.items }
    ensures list { (pairs : ℕ) → pairs ≤ room_for whole.old.list → pairs ≤ room_for whole.old.left → (pairs ≤ room_for whole.new.list) × (pairs ≤ room_for whole.new.left) }
{
    every_batch_leaves_a_list();
    flows_fit_pairs();
    let mut turns = 0;
    for stage in 0..batches.len() {
        let number = stage % crew.len();
        let taken = count_pieces(whole.list.items());
        edges[number].pass(taken);
        whole.serve(&mut crew[number], batches, spare);
        let sent = count_pieces(whole.list.items());
        turns += u64::from(taken) + u64::from(sent);
    }
    turns
}

/// Begins the window with every worker; `pieces` were sent into the edge into worker 0, which is the last one's.
fn begin_crew(
    crew: &mut [Worker],
    first_batch: u32,
    batches: &[Batch],
    pieces: u32,
    spare: &mut Chain<Item>,
)
    requires none { (number : ℕ) (worker : WorkerState) → slice_get crew.old number ≡ Some worker → All (λ stage. stage.nodes ≡ 0) worker.stages }
    requires nodes { crew_openings batches.now crew.old ≤ length spare.old }
    requires workers { (number : ℕ) (worker : WorkerState) → slice_get crew.old number ≡ Some worker → IsWorker worker × MayBegin worker first_batch batches.now }
    ensures count { length crew.new ≡ length crew.old }
    ensures begun { (number : ℕ) (old new : WorkerState) →
        slice_get crew.old number ≡ Some old →
        slice_get crew.new number ≡ Some new →
        HasBegunWith first_batch batches.now (if nat_le old.workers (old.number + 1) then pieces else 0) old new }
    ensures nodes { length spare.new + crew_openings batches.now crew.old ≡ length spare.old }
{
    for worker in crew {
        let sent = worker.sent_before(pieces);
        worker.begin(first_batch, batches, sent, spare);
    }
}

/// A turn of a worker of the ring, over the edges before and after it: a piece that is refused stays with the worker.
fn turn_at(
    worker: &mut Worker,
    window: PlayedWindow,
    edges: &mut [Edge],
    before: usize,
    after: usize,
) -> Turn
    requires before { before < length edges.old }
    requires after { after < length edges.old }
    requires short { StreamsAreShort (window_named window) }
    requires holds { AllHold (window_named window) edges.old }
    requires plays { Plays window.batches.now (ends_between (window_named window) edges.old before after) worker.old }
    ensures holds { AllHold (window_named window.entry) edges.new }
    ensures plays { Plays window.entry.batches.now (ends_between (window_named window.entry) edges.new before after) worker.new }
    ensures answer { TurnAnswers window.entry.batches.now worker.old (ends_between (window_named window.entry) edges.old before after) (ends_between (window_named window.entry) edges.new before after) (IsFoundEmpty edges.new before) (IsFoundFull edges.new after) result }
    ensures others { OthersStay before after edges.old edges.new }
    ensures worker { IsSameWorker worker.old worker.new }
{
    let mut link = ListLink {
        window,
        edges,
        before,
        after,
    };
    worker.turn(window.batches, &mut link)
}
