//! A window begins: its mark goes through each edge, each worker takes up its batches, and gets its two passes.
ghost use Rattle.std.specs.Prelude.{◌≡◌, ◌<◌, ◌≤◌, ◌+◌, [], length, false, vec_len, vec_capacity};
ghost use Rattle.crossbeam_queue.specs.Passes.{view, IsPassOf, ruled_capacity};
ghost use Rattle.alloc_pipeline.specs.declared.parcel.Kind.TheVariants.{Whole};
ghost use Rattle.alloc_pipeline.specs.Rules.{giving, taking};
ghost use Rattle.alloc_pipeline.specs.Joined.{edge_at};
ghost use Rattle.alloc_pipeline.specs.Starts.{named, MayLink, AreLinked, MayBeStarted, AreStarted};

use crate::edge;
use crate::ends::give_list;
use crate::parcel::Mark;
use crate::player::Player;
use crate::resting::Resting;
use crate::rule::{EdgePass, EdgeQueue};
use greedy_rules::{Batch, DemandList};
use ring_core::count_pieces;
use std::alloc::Global;
use std::snapshot::Snapshot;
use std::sync::Wait;

/// A window, as its marks name it.
#[derive(Drop)]
pub(crate) struct Opening<'a> {
    pub(crate) list: &'a DemandList,
    pub(crate) batches: &'a Vec<Snapshot<Batch>>,
    pub(crate) first_batch: u32,
    pub(crate) b: u8,
    pub(crate) workers: u16,
}

impl<'a> Opening<'a> {
    /// Begins the window on the edge into this worker: its pass becomes the giving one, and the taking one comes beside it.
    fn begin<R: Wait>(
        &self,
        rt: &R,
        queue: &EdgeQueue,
        pass: &mut EdgePass,
        worker: u16,
    ) -> EdgePass
        requires queue { IsPassOf queue.now pass.old }
        requires room { 0 < ruled_capacity queue.now }
        requires whole { ((view pass.old).kind ≡ Whole) × ((view pass.old).marked ≡ false) }
        ensures queue { IsPassOf queue.now pass.new }
        ensures new_queue { IsPassOf queue.now result }
        ensures giving { view pass.new ≡ giving (edge_at (named self.now) worker) 0 (view pass.old).moved }
        ensures taking { view result ≡ taking (edge_at (named self.now) worker) 0 }
    {
        let mark = Mark {
            list: Snapshot::of(self.list),
            batches: Snapshot::of(self.batches),
            first_batch: self.first_batch,
            b: self.b,
            workers: self.workers,
            worker,
        };
        edge::begin(rt, queue, pass, mark);
        edge::split(queue, pass)
    }
}

/// Links the first workers of a ring, by their numbers: each takes up its batches, and gives into the edge after it. `first` takes
/// from the edge into worker 0. Answers the pass that takes from the edge after the last of them.
fn link_first<R: Wait>(
    rt: &R,
    queues: &[EdgeQueue],
    window: &Opening,
    batches: &[Batch],
    resting: &mut Resting,
    first: EdgePass,
    players: &mut Vec<Player>,
) -> EdgePass
    requires may { MayLink queues.now (named window.now) batches.now resting.old.workers.items resting.old.passes.items (length resting.old.spare) first }
    requires none { players.old.items ≡ [] }
    requires room { vec_len resting.old.workers ≤ vec_capacity players.old }
    ensures linked { AreLinked queues.now (named window.now) batches.now resting.old.workers.items resting.old.passes.items (length resting.old.spare) (length resting.new.spare) players.new.items result }
    ensures crew { (resting.new.workers.items ≡ []) × (vec_capacity resting.new.workers ≡ vec_capacity resting.old.workers) }
    ensures passes { (resting.new.passes.items ≡ []) × (vec_capacity resting.new.passes ≡ vec_capacity resting.old.passes) }
    ensures players { vec_capacity players.new ≡ vec_capacity players.old }
{
    let Some(mut worker) = resting.workers.pop() else {
        return first;
    };
    let Some(mut giving) = resting.passes.pop() else {
        unreachable!()
    };
    let number = resting.workers.len();
    let next = window.begin(rt, &queues[number + 1], &mut giving, number as u16 + 1);
    let taking = link_first(rt, queues, window, batches, resting, first, players);
    worker.begin(window.first_batch, batches, 0, &mut resting.spare);
    players.push_reserved(Player {
        number: number as u16,
        worker,
        taking,
        giving,
        ended: false,
    });
    next
}

/// Begins a window: its list goes into the edge into worker 0, and all workers are linked.
pub(crate) fn start<R: Wait>(
    rt: &R,
    alloc: Global,
    queues: &[EdgeQueue],
    window: &Opening,
    batches: &[Batch],
    resting: &mut Resting,
    players: &mut Vec<Player>,
)
    requires may { MayBeStarted queues.now (named window.now) batches.now resting.old.workers.items resting.old.passes.items (length resting.old.spare) }
    requires none { players.old.items ≡ [] }
    requires room { vec_len resting.old.workers ≤ vec_capacity players.old }
    ensures started { AreStarted queues.now (named window.now) batches.now resting.old.workers.items resting.old.passes.items (length resting.old.spare) (length resting.new.spare) players.new.items }
    ensures crew { (resting.new.workers.items ≡ []) × (vec_capacity resting.new.workers ≡ vec_capacity resting.old.workers) }
    ensures passes { (resting.new.passes.items ≡ []) × (vec_capacity resting.new.passes ≡ vec_capacity resting.old.passes) }
    ensures players { vec_capacity players.new ≡ vec_capacity players.old }
{
    let mut giving = resting.passes.remove(0);
    let first = window.begin(rt, &queues[0], &mut giving, 0);
    give_list(
        rt,
        alloc,
        &queues[0],
        &mut giving,
        window.list,
        &mut resting.spare,
    );
    let Some(mut worker) = resting.workers.pop() else {
        unreachable!()
    };
    let taking = link_first(rt, queues, window, batches, resting, first, players);
    let pieces = count_pieces(window.list.items());
    worker.begin(window.first_batch, batches, pieces, &mut resting.spare);
    players.push_reserved(Player {
        number: window.workers - 1,
        worker,
        taking,
        giving,
        ended: false,
    });
}
