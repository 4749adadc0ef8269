ghost use Rattle.std.specs.Prelude.{◌≡◌, ◌<◌, ◌≤◌, ◌+◌, ◌*◌, ◌^◌, ℕ, List, [], ◌++◌, length, IfOk, Some, None, slice_get};
ghost use Rattle.greedy_rules.specs.Batches.{DemandBatch};
ghost use Rattle.slot_batches.specs.Pieces.{part_of, piece_count, pieces};
ghost use Rattle.ring_core.specs.States.{EdgeState};
ghost use Rattle.ring_core.specs.Windows.{Window, list_before_stage, worker_of};
ghost use Rattle.ring_core.specs.Streams.{items_of};
ghost use Rattle.ring_core.specs.Edges.{room_at};
ghost use Rattle.ring_core.specs.Workers.{IsSameWorker};
ghost use Rattle.ring_core.specs.Wholes.{with_list, lying_in, room_for, whole_nodes, MayBeSent, StartsStage, HasFirst};

use crate::edge::Edge;
use crate::worker::{Worker, count_pieces};
use greedy_rules::{Batch, DemandList, Item};
use item_chain::Chain;
use no_memory::NoMemory;
use slot_batches::Piece;
use std::alloc::Global;
use std::mem;

/// The list before a stage as it stands, where there is one that was not sent in pieces, and a list for what its batch leaves.
#[derive(Drop)]
pub(crate) struct Whole {
    pub(crate) stage: Option<u32>,
    pub(crate) list: DemandList,
    pub(crate) left: DemandList,
}

impl Whole {
    /// With room for an item of each pair of endpoints. No later call takes memory.
    pub(crate) fn open(alloc: Global, endpoints: u16) -> Result<Whole, NoMemory>
        ensures none { IfOk result (λ whole. whole.stage ≡ None) }
        ensures list { IfOk result (λ whole. endpoints * endpoints ≤ room_for whole.list) }
        ensures left { IfOk result (λ whole. endpoints * endpoints ≤ room_for whole.left) }
    {
        let pairs = endpoints as usize * endpoints as usize;
        Ok(Whole {
            stage: None,
            list: DemandList::open(alloc, pairs)?,
            left: DemandList::open(alloc, pairs)?,
        })
    }

    /// Takes a window's list over, and answers how many pieces it has: it lies whole where both lists have as much room, and
    /// else its pieces are sent into the first edge.
    pub(crate) fn take_over(
        &mut self,
        alloc: Global,
        list: &mut DemandList,
        edges: &mut [Edge],
        spare: &mut Chain<Item>,
    ) -> u32
        requires few { length list.old.items ≤ 65536 }
        requires nodes { length list.old.items ≤ length spare.old }
        requires first { (edge : EdgeState) × (slice_get edges.old 0 ≡ Some edge) × (edge.pieces ≡ []) × (edge.taken ≡ 0) × (edge.sent ≡ 0) × (piece_count list.old.items ≤ edge.room) }
        ensures edges { (workers : ℕ) → 0 < workers → HasFirst list.old.items edges.old (with_list self.new.stage workers self.new.list.items edges.new) }
        ensures sent { (workers : ℕ) → 0 < workers → MayBeSent self.new.stage workers self.new.list.items edges.new }
        ensures room { room_for self.new.list ≡ room_for self.old.list }
        ensures left { self.new.left ≡ self.old.left }
        ensures list { (list.new.items ≡ []) × (room_for list.new ≡ room_for list.old) }
        ensures count { result ≡ piece_count list.old.items }
        ensures nodes { length spare.new + length list.old.items ≡ length spare.old + whole_nodes self.new.stage self.new.list.items }
        ensures fewer { length spare.new ≤ length spare.old }
    {
        let count = count_pieces(list.items());
        self.list.clear();
        if list.room() == self.list.room() {
            mem::swap(&mut self.list, list);
            self.stage = Some(0);
        } else {
            self.stage = None;
            give_list(alloc, &mut edges[0], 0, list, spare);
            list.clear();
        }
        count
    }

    /// Sends the pieces of the list that lies whole, if one does, into the edge into its stage's worker.
    pub(crate) fn send(
        &mut self,
        alloc: Global,
        workers: u16,
        edges: &mut [Edge],
        spare: &mut Chain<Item>,
    )
        requires nodes { whole_nodes self.old.stage self.old.list.items ≤ length spare.old }
        requires workers { (0 < workers) × (length edges.old ≡ workers) }
        requires may { MayBeSent self.old.stage workers self.old.list.items edges.old }
        requires short { (number : ℕ) (edge : EdgeState) → slice_get (with_list self.old.stage workers self.old.list.items edges.old) number ≡ Some edge → edge.sent < 2 ^ 32 }
        ensures edges { edges.new ≡ with_list self.old.stage workers self.old.list.items edges.old }
        ensures none { self.new ≡ record self.old { stage = None } }
        ensures nodes { length spare.new + whole_nodes self.old.stage self.old.list.items ≡ length spare.old }
    {
        if let Some(stage) = self.stage {
            let number = stage as usize % workers as usize;
            give_list(alloc, &mut edges[number], stage, &self.list, spare);
            self.stage = None;
        }
    }

    /// Makes the list whole that lies in the edge, where it does not lie whole; it is no longer among the pieces of the edges.
    pub(crate) fn lift(&mut self, edge: &mut Edge, spare: &mut Chain<Item>)
        requires room { length (lying_in self.old.stage self.old.list.items edge.old) ≤ room_for self.old.list }
        requires counts { edge.old.taken + length edge.old.pieces + 1 < 2 ^ 32 }
        requires fits { length spare.old + length (lying_in self.old.stage self.old.list.items edge.old) < 2 ^ 64 }
        ensures list { self.new.list.items ≡ lying_in self.old.stage self.old.list.items edge.old }
        ensures room { room_for self.new.list ≡ room_for self.old.list }
        ensures left { self.new.left ≡ self.old.left }
        ensures none { self.new.stage ≡ None }
        ensures edge { edge.new.room ≡ edge.old.room }
        ensures lifted { self.old.stage ≡ None → (edge.new.pieces ≡ []) × (edge.new.taken ≡ 0) × (edge.new.sent ≡ 0) }
        ensures stays { (stage : ℕ) → self.old.stage ≡ Some stage → edge.new ≡ edge.old }
        ensures nodes { length spare.new + whole_nodes self.old.stage self.old.list.items ≡ length spare.old + length self.new.list.items }
    {
        if self.stage.is_none() {
            self.list.clear();
            take_list(edge, &mut self.list, spare);
            edge.restart();
        }
        self.stage = None;
    }

    /// Lets the worker serve the list; then the one lies whole that its batch leaves.
    pub(crate) fn serve(&mut self, worker: &mut Worker, batches: &[Batch], spare: &mut Chain<Item>)
        requires starts { (window : Window) × StartsStage batches.now window worker.old × (self.old.list.items ≡ list_before_stage window worker.old.stage) }
        requires going { worker.old.stage < length batches.now }
        requires room { worker.old.endpoints * worker.old.endpoints ≤ room_for self.old.left }
        requires fits { length spare.old < 2 ^ 63 }
        ensures starts { (window : Window) →
            StartsStage batches.now window worker.old →
            self.old.list.items ≡ list_before_stage window worker.old.stage →
            StartsStage batches.now window worker.new × (self.new.list.items ≡ list_before_stage window (worker.old.stage + 1)) }
        ensures stage { worker.new.stage ≡ worker.old.stage + worker.old.workers }
        ensures worker { IsSameWorker worker.old worker.new }
        ensures list { room_for self.new.list ≡ room_for self.old.left }
        ensures left { room_for self.new.left ≡ room_for self.old.list }
        ensures nodes { length spare.new + length self.old.list.items ≡ length spare.old + length self.new.list.items }
    {
        self.left.clear();
        worker.serve_list(batches, self.list.items(), &mut self.left, spare);
        mem::swap(&mut self.list, &mut self.left);
    }

    /// Hands over the list that lies whole, or else the items of the edge's pieces, as a list with the room that this one had.
    pub(crate) fn hand_over(
        &mut self,
        edge: &mut Edge,
        list: &mut DemandList,
        spare: &mut Chain<Item>,
    )
        requires room { length (lying_in self.old.stage self.old.list.items edge.old) ≤ room_for list.old }
        requires counts { edge.old.taken + length edge.old.pieces + 1 < 2 ^ 32 }
        requires fits { length spare.old + length (lying_in self.old.stage self.old.list.items edge.old) < 2 ^ 64 }
        ensures items { list.new.items ≡ lying_in self.old.stage self.old.list.items edge.old }
        ensures spare { room_for list.new ≡ room_for list.old }
        ensures room { room_for self.new.list ≡ room_for self.old.list }
        ensures left { self.new.left ≡ self.old.left }
        ensures none { self.new.stage ≡ None }
        ensures edge { edge.new.room ≡ edge.old.room }
        ensures taken { self.old.stage ≡ None → edge.new.pieces ≡ [] }
        ensures stays { (stage : ℕ) → self.old.stage ≡ Some stage → edge.new ≡ edge.old }
        ensures nodes { length spare.new + whole_nodes self.old.stage self.old.list.items ≡ length spare.old + length list.new.items }
    {
        list.clear();
        if self.stage.is_none() {
            take_list(edge, list, spare);
        } else if self.list.room() == list.room() {
            mem::swap(&mut self.list, list);
        } else {
            list.append(self.list.items());
        }
        self.stage = None;
    }
}

/// Takes all pieces out of an edge, and appends their items to the list; their nodes are spare then.
fn take_list(edge: &mut Edge, list: &mut DemandList, spare: &mut Chain<Item>)
    requires room { length (items_of edge.old.pieces) ≤ list.old.spare }
    requires counts { edge.old.taken + length edge.old.pieces + 1 < 2 ^ 32 }
    requires fits { length spare.old + length (items_of edge.old.pieces) < 2 ^ 64 }
    ensures items { list.new.items ≡ list.old.items ++ items_of edge.old.pieces }
    ensures spare { length list.new.items + list.new.spare ≡ length list.old.items + list.old.spare }
    ensures empty { edge.new.pieces ≡ [] }
    ensures room { edge.new.room ≡ edge.old.room }
    ensures nodes { length spare.new ≡ length spare.old + length (items_of edge.old.pieces) }
{
    while let Some(piece) = edge.take() {
        piece.unload(list, spare);
    }
}

/// Sends the pieces of the list before a stage into an edge that is empty, and answers how many these are.
fn give_list(
    alloc: Global,
    edge: &mut Edge,
    stage: u32,
    list: &DemandList,
    spare: &mut Chain<Item>,
) -> u32
    requires few { length list.now.items ≤ 65536 }
    requires empty { edge.old.pieces ≡ [] }
    requires sent { edge.old.sent + piece_count list.now.items < 2 ^ 32 }
    requires room { piece_count list.now.items ≤ edge.old.room }
    requires nodes { length list.now.items ≤ length spare.old }
    ensures pieces { edge.new.pieces ≡ pieces stage list.now.items }
    ensures taken { edge.new.taken ≡ edge.old.taken }
    ensures sent { edge.new.sent ≡ edge.old.sent + piece_count list.now.items }
    ensures room { edge.new.room ≡ edge.old.room }
    ensures count { result ≡ piece_count list.now.items }
    ensures nodes { length spare.new + length list.now.items ≡ length spare.old }
{
    let items = list.items();
    let count = count_pieces(items);
    for place in 0..count as usize {
        let from = place * 64;
        let end = items.len() <= from + 64;
        let part = &items[from..items.len().min(from + 64)];
        edge.send(Piece::of(alloc, stage, from as u32, part, end, spare));
    }
    count
}
