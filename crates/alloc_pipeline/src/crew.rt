ghost use Rattle.std.specs.Prelude.{◌≡◌, ◌≤◌, ◌+◌, ◌-◌, ◌*◌, ◌<◌, ◌^◌, ℕ, [], ◌++◌, length, map, take, drop, replicate, All, IfOk, vec_capacity};
ghost use Rattle.crossbeam_queue.specs.Passes.{ruled_capacity};
ghost use Rattle.greedy_rules.specs.Schedule.{schedule_from, rest_from};
ghost use Rattle.ring_core.specs.Windows.{Window, window_of};
ghost use Rattle.alloc_pipeline.specs.Ring.{IsRingSize as MayBeOpened, moved_by};
ghost use Rattle.alloc_pipeline.specs.Starts.{AllResting};
ghost use Rattle.alloc_pipeline.specs.Crews.{CrewIsReady, CrewMayPlay, AllPlayedOut, HavePlayedOut, IsSameCrew, moved_of};

use crate::edge;
use crate::player::Player;
use crate::rejoin::play_window;
use crate::resting::Resting;
use crate::rule::{EdgePass, EdgeQueue};
use crate::start::{Opening, start};
use fp_edge::Gate;
use greedy_rules::{Batch, DemandList, Flow, Item, SlotTable, flows_fit_pairs};
use item_chain::Chain;
use no_memory::NoMemory;
use ring_core::{Worker, count_pieces, open_crew};
use slot_batches::every_batch_leaves_a_list;
use std::alloc::Global;
use std::mem;
use std::snapshot::Snapshot;
use std::sync::Wait;
use std::thread::Threads;

// Room in each edge for twice the pieces of the longest list.
const ROOM: usize = 2040;

// From so many pieces on a ring of two workers starts a thread, which takes half of the work.
const THREADS_FROM: u32 = 3;

// In a larger ring a thread takes less: so many pieces pay for each.
const PIECES_A_THREAD: u32 = 64;

// What the nodes hold at first.
const BLANK: Item = Item {
    flow: Flow { src: 0, dst: 0 },
    need: 0,
    last: 0,
};

/// The workers of a ring with their edges, and the memory of their windows.
#[derive(Drop)]
pub(crate) struct Crew {
    alloc: Global,
    pub(crate) count: u16,
    pub(crate) endpoints: u16,
    pub(crate) batches: u16,
    pub(crate) b: u8,
    // Edge k is the one into worker k.
    pub(crate) queues: Vec<EdgeQueue>,
    pub(crate) resting: Resting,
    // Where a window runs, each worker is here with its passes.
    pub(crate) players: Vec<Player>,
    // The batches of the last window, for contracts alone.
    pub(crate) window: Vec<Snapshot<Batch>>,
}

impl Crew {
    pub(crate) fn open(
        alloc: Global,
        workers: u16,
        endpoints: u16,
        batches: u16,
        b: u8,
    ) -> Result<Crew, NoMemory>
        requires sizes { MayBeOpened workers endpoints batches b }
        ensures ready { IfOk result CrewIsReady }
        ensures count { IfOk result (λ crew. crew.count ≡ workers) }
        ensures endpoints { IfOk result (λ crew. crew.endpoints ≡ endpoints) }
        ensures batches { IfOk result (λ crew. crew.batches ≡ batches) }
        ensures b { IfOk result (λ crew. crew.b ≡ b) }
        ensures moved { IfOk result (λ crew. moved_of crew.resting.passes.items ≡ replicate workers 0) }
    {
        let count = workers as usize;
        let pairs = endpoints as usize * (endpoints as usize).saturating_sub(1);
        let mut spare = Chain::new(alloc);
        spare.fill(pairs, BLANK)?;
        let (queues, passes) = open_edges(alloc, workers)?;
        let crew = open_crew(alloc, workers, endpoints, batches, b)?;
        Ok(Crew {
            alloc,
            count: workers,
            endpoints,
            batches,
            b,
            queues,
            resting: Resting {
                workers: crew,
                passes,
                spare,
            },
            players: Vec::with_capacity(alloc, count)?,
            window: Vec::with_capacity(alloc, batches as usize)?,
        })
    }

    /// Plays a window: its list goes through the edges in pieces, worker after worker, and what its batches leave comes back.
    pub(crate) fn play<R: Threads + Wait + Sync, G: Gate + Sync>(
        &mut self,
        rt: &R,
        gate: &G,
        list: &mut DemandList,
        first_batch: u32,
        batches: &[Batch],
    )
        requires ready { CrewIsReady self.old }
        requires may { CrewMayPlay self.old first_batch batches.now list.old.items }
        requires room { length (rest_from self.old.b first_batch list.old.items batches.now) ≤ length list.old.items + list.old.spare }
        ensures ready { CrewIsReady self.new }
        ensures same { IsSameCrew self.old self.new }
        ensures list { list.new.items ≡ rest_from self.old.b first_batch list.old.items batches.now }
        ensures spare { length list.new.items + list.new.spare ≡ length list.old.items + list.old.spare }
        ensures moved { moved_of self.new.resting.passes.items ≡ moved_by (window_of list.old.items batches.now first_batch self.old.b self.old.count) 0 (moved_of self.old.resting.passes.items) }
        ensures played { AllPlayedOut (window_of list.old.items batches.now first_batch self.old.b self.old.count) self.new.resting.workers.items }
    {
        every_batch_leaves_a_list();
        flows_fit_pairs();
        name_batches(&mut self.window, batches);
        let threads = count_threads(self.count, count_pieces(list.items()), batches.len());
        let opening = Opening {
            list,
            batches: &self.window,
            first_batch,
            b: self.b,
            workers: self.count,
        };
        start(
            rt,
            self.alloc,
            &self.queues,
            &opening,
            batches,
            &mut self.resting,
            &mut self.players,
        );
        list.clear();
        let players = mem::replace(&mut self.players, Vec::new(self.alloc));
        self.players = play_window(
            rt,
            gate,
            &self.queues,
            batches,
            threads,
            players,
            list,
            &mut self.resting,
        );
    }
}

/// An edge into each of so many workers, with its whole pass.
fn open_edges(alloc: Global, workers: u16) -> Result<(Vec<EdgeQueue>, Vec<EdgePass>), NoMemory>
    ensures queues { IfOk result (λ edges. length edges.0.items ≡ workers) }
    ensures rooms { IfOk result (λ edges. All (λ queue. ruled_capacity queue ≡ 2040) edges.0.items) }
    ensures passes { IfOk result (λ edges. length edges.1.items ≡ workers) }
    ensures resting { IfOk result (λ edges. AllResting edges.0.items 0 edges.1.items) }
    ensures moved { IfOk result (λ edges. moved_of edges.1.items ≡ replicate workers 0) }
{
    let mut queues = Vec::with_capacity(alloc, workers as usize)?;
    let mut passes = Vec::with_capacity(alloc, workers as usize)?;
    for _ in 0..workers {
        let (queue, pass) = edge::open(alloc, ROOM)?;
        queues.push(queue)?;
        passes.push(pass)?;
    }
    Ok((queues, passes))
}

/// How many of these workers get threads of their own where a list of so many pieces goes through so many batches, if there are so
/// many beside the caller's. One batch is the work of one worker.
fn count_threads(workers: u16, pieces: u32, batches: usize) -> u32 {
    if pieces < THREADS_FROM || batches < 2 {
        return 0;
    }
    let paying = pieces / PIECES_A_THREAD;
    if workers == 2 { paying.max(1) } else { paying }
}

/// Names the batches of a window.
fn name_batches(window: &mut Vec<Snapshot<Batch>>, batches: &[Batch])
    requires room { length batches.now ≤ vec_capacity window.old }
    ensures batches { map (λ batch. batch.value) window.new.items ≡ batches.now }
    ensures capacity { vec_capacity window.new ≡ vec_capacity window.old }
{
    window.clear();
    for batch in batches {
        window.push_reserved(Snapshot::of(batch));
    }
}

/// Copies the slots of every stage of a window that was played behind those of so many batches, into places that are empty: slot i
/// of stage s to place `(passed + s) * b + i` of the table.
pub(crate) fn copy_slots(workers: &[Worker], b: u8, stages: usize, passed: u16, out: &mut SlotTable)
    requires played { (endpoints most : ℕ) × (window : Window) × HavePlayedOut endpoints most b stages window workers.now × (endpoints ≤ out.old.endpoints) }
    requires places { (passed + stages) * b ≤ length out.old.slots }
    requires empty { drop (passed * b) out.old.slots ≡ replicate (length out.old.slots - passed * b) [] }
    requires few { stages < 2 ^ 16 }
    ensures slots { (endpoints most : ℕ) → (window : Window) →
        HavePlayedOut endpoints most b stages window workers.now →
        out.new.slots ≡ (take (passed * b) out.old.slots ++ schedule_from b window.first_batch window.list window.batches) ++ replicate (length out.old.slots - (passed + stages) * b) [] }
    ensures endpoints { out.new.endpoints ≡ out.old.endpoints }
{
    let _places = out.slots();
    for stage in 0..stages {
        let worker = &workers[stage % workers.len()];
        let place = (passed as usize + stage) * b as usize;
        out.copy(worker.slots(stage as u32), place as u16);
    }
}
