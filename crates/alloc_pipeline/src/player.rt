//! A worker with its passes, and how it plays.
ghost use Rattle.std.specs.Prelude.{◌≡◌, IsTrue};
ghost use Rattle.crossbeam_queue.specs.Passes.{IsPassOf};
ghost use Rattle.ring_core.specs.Workers.{HasEnded};
ghost use Rattle.alloc_pipeline.specs.Players.{PlaysAt, Follows};

use crate::link::QueueLink;
use crate::rule::{EdgePass, EdgeQueue};
use fp_edge::Gate;
use greedy_rules::Batch;
use ring_core::{Turn, Worker};
use std::sync::Wait;
use std::sync::atomic::{AtomicBool, Ordering};
use std::thread;

/// A worker with its passes: the taking one of the edge before it, and the giving one of the edge after it.
#[derive(Drop)]
pub(crate) struct Player {
    pub(crate) number: u16,
    pub(crate) worker: Worker,
    pub(crate) taking: EdgePass,
    pub(crate) giving: EdgePass,
    pub(crate) ended: bool,
}

/// Plays until the worker has ended, or until a turn that moves nothing where it is told to stop.
pub(crate) fn play<R: Wait, G: Gate>(
    rt: &R,
    gate: &G,
    before: &EdgeQueue,
    after: &EdgeQueue,
    batches: &[Batch],
    stop: &AtomicBool,
    player: Player,
) -> Player
    requires passes { IsPassOf before.now player.taking × IsPassOf after.now player.giving }
    requires plays { PlaysAt batches.now player }
    ensures plays { PlaysAt batches.now result × Follows player result }
    ensures ended { IsTrue result.ended → HasEnded batches.now result.worker }
{
    let Player {
        number,
        mut worker,
        taking,
        giving,
        ended: _,
    } = player;
    let mut ended = false;
    let mut link = QueueLink {
        rt,
        gate,
        number,
        before,
        taking,
        after,
        giving,
    };
    for _ in rt.forever() {
        let turn = worker.turn(batches, &mut link);
        if let Turn::Done = turn {
            ended = true;
            break;
        }
        if let Turn::Moved = turn {
            continue;
        }
        if stop.load(Ordering::SeqCst) {
            break;
        }
        thread::yield_now();
    }
    let QueueLink {
        rt: _,
        gate: _,
        number: _,
        before: _,
        taking,
        after: _,
        giving,
    } = link;
    Player {
        number,
        worker,
        taking,
        giving,
        ended,
    }
}
