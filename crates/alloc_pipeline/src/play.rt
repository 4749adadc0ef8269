//! The workers at work: each in a thread of its own, and on the caller's.
ghost use Rattle.std.specs.Prelude.{◌≡◌, ◌<◌, ◌≤◌, length, vec_len, vec_capacity, IsTrue};
ghost use Rattle.crossbeam_queue.specs.Passes.{IsPassOf};
ghost use Rattle.ring_core.specs.Workers.{HasEnded};
ghost use Rattle.alloc_pipeline.specs.Players.{PlaysAt, Follows};
ghost use Rattle.alloc_pipeline.specs.Rings.{AllGoOn, AllLinked, AllEnded};

use crate::player::{Player, play};
use crate::rule::EdgeQueue;
use fp_edge::Gate;
use greedy_rules::Batch;
use std::snapshot::Snapshot;
use std::sync::Wait;
use std::sync::atomic::{AtomicBool, Ordering};
use std::thread;
use std::thread::{Promise, Scope, Threads};

/// That a player comes back in the same window, and ended where it says so.
#[derive(Drop)]
struct Played<'a> {
    batches: &'a [Batch],
    was: Snapshot<Player>,
}

impl<'a> Promise<Player> for Played<'a> {
    ghost use Rattle.std.specs.Prelude.{IsTrue};
    ghost use Rattle.ring_core.specs.Workers.{HasEnded};
    ghost use Rattle.alloc_pipeline.specs.Players.{PlaysAt, Follows};

    ghost kept_by = { λ p player. (PlaysAt p.batches.now player × Follows p.was.value player) × (IsTrue player.ended → HasEnded p.batches.now player.worker) };
}

/// Plays the last of the players in a thread of its own, and so the others while threads are left; at least the first one plays
/// on the caller's thread. Where a thread can't be started, all stop.
#[tactic(auto, using(crate::proofs::Crossing::player_send, crate::proofs::Crossing::parcel_send, greedy_rules::proofs::Crossing::batch_sync))]
fn play_all<'s, E, R: Threads + Wait + Sync, G: Gate + Sync>(
    scope: &Scope<'s, E>,
    rt: &'s R,
    gate: &'s G,
    queues: &'s [EdgeQueue],
    batches: &'s [Batch],
    stop: &'s AtomicBool,
    threads: u32,
    players: &mut Vec<Player>,
)
    requires linked { AllLinked queues.now batches.now players.old.items }
    ensures goes_on { AllGoOn queues.now batches.now players.old.items players.new.items }
    ensures len { vec_len players.new ≡ vec_len players.old }
    ensures room { vec_capacity players.new ≡ vec_capacity players.old }
{
    if threads == 0 || players.len() <= 1 {
        play_here(rt, gate, queues, batches, stop, players);
        return;
    }
    let Some(player) = players.pop() else {
        return;
    };
    let number = player.number as usize;
    let next = if number + 1 < queues.len() {
        number + 1
    } else {
        0
    };
    let before = &queues[number];
    let after = &queues[next];
    let promise = Played {
        batches,
        was: Snapshot::of(&player),
    };
    let work = move || -> Player
        requires { (IsPassOf before.now player.taking × IsPassOf after.now player.giving) × PlaysAt batches.now player }
        ensures { (PlaysAt batches.entry.now result × Follows player result) × (IsTrue result.ended → HasEnded batches.entry.now result.worker) }
    { play(rt, gate, before, after, batches, stop, player) };
    let player = match scope.spawn_with(promise, work) {
        Ok(child) => {
            play_all(scope, rt, gate, queues, batches, stop, threads - 1, players);
            child.join(rt)
        }
        Err(refused) => {
            stop.store(true, Ordering::SeqCst);
            (refused.value)()
        }
    };
    players.push_reserved(player);
}

/// Plays these on the caller's thread, round after round, until all have ended or all are to stop.
fn play_here<R: Wait, G: Gate>(
    rt: &R,
    gate: &G,
    queues: &[EdgeQueue],
    batches: &[Batch],
    stop: &AtomicBool,
    players: &mut Vec<Player>,
)
    requires linked { AllLinked queues.now batches.now players.old.items }
    ensures goes_on { AllGoOn queues.now batches.now players.old.items players.new.items }
    ensures len { vec_len players.new ≡ vec_len players.old }
    ensures room { vec_capacity players.new ≡ vec_capacity players.old }
{
    let once = AtomicBool::new(true);
    for _ in rt.forever() {
        if play_round(rt, gate, queues, batches, &once, players) {
            break;
        }
        if stop.load(Ordering::SeqCst) {
            break;
        }
        thread::yield_now();
    }
}

/// Plays each player until it has ended or a turn of it moves nothing. Answers whether all have ended.
fn play_round<R: Wait, G: Gate>(
    rt: &R,
    gate: &G,
    queues: &[EdgeQueue],
    batches: &[Batch],
    once: &AtomicBool,
    players: &mut Vec<Player>,
) -> bool
    requires linked { AllLinked queues.now batches.now players.old.items }
    ensures goes_on { AllGoOn queues.now batches.now players.old.items players.new.items }
    ensures ended { IsTrue result → AllEnded batches.now players.new.items }
    ensures len { vec_len players.new ≡ vec_len players.old }
    ensures room { vec_capacity players.new ≡ vec_capacity players.old }
{
    let Some(player) = players.pop() else {
        return true;
    };
    let number = player.number as usize;
    let next = if number + 1 < queues.len() {
        number + 1
    } else {
        0
    };
    let before = &queues[number];
    let after = &queues[next];
    let player = play(rt, gate, before, after, batches, once, player);
    let ended = player.ended;
    let rest = play_round(rt, gate, queues, batches, once, players);
    players.push_reserved(player);
    ended && rest
}

/// Plays all workers to their end, so many of them in threads of their own.
pub(crate) fn run<R: Threads + Wait + Sync, G: Gate + Sync>(
    rt: &R,
    gate: &G,
    queues: &[EdgeQueue],
    batches: &[Batch],
    threads: u32,
    players: Vec<Player>,
) -> Vec<Player>
    requires linked { AllLinked queues.now batches.now players.items }
    ensures goes_on { AllGoOn queues.now batches.now players.items result.items }
    ensures ended { AllEnded batches.now result.items }
    ensures room { vec_capacity result ≡ vec_capacity players }
{
    let stop = AtomicBool::new(false);
    let halt = &stop;
    let mut players = if threads > 0 {
        thread::scope(
            thread::scope_env(),
            rt,
            move |scope| -> Vec<Player>
                requires { AllLinked queues.now batches.now players.items }
                ensures { AllGoOn queues.entry.now batches.entry.now players.items result.items × (vec_capacity result ≡ vec_capacity players) }
            {
                let mut all = players;
                play_all(scope, rt, gate, queues, batches, halt, threads, &mut all);
                all
            },
        )
    } else {
        players
    };
    let once = AtomicBool::new(true);
    for _ in rt.forever() {
        if play_round(rt, gate, queues, batches, &once, &mut players) {
            break;
        }
    }
    players
}
