//! The path workers at work: in threads of their own, and on the caller's.
ghost use Rattle.std.specs.Prelude.{◌≡◌, ◌<◌, ◌≤◌, ◌++◌, ℕ, length, All, IsTrue, vec_len, vec_capacity};
ghost use Rattle.crossbeam_queue.specs.Passes.{view, IsPassOf};
ghost use Rattle.path_workers.specs.Jobs.{HandIsAtRest, slot_jobs, end_jobs};
ghost use Rattle.path_workers.specs.Painters.{numbers_of, MayPaint, MayAllPaint, HasPainted, HasRowsOf, HaveRows, has_row};
ghost use Rattle.path_workers.specs.Seats.{SeatMayPlay, SeatHasPlayed, StayPainted, HaveAllPlayed};

use crate::jobs;
use crate::jobs::{JobPass, JobQueue};
use crate::painter::Painter;
use fp_edge::Gate;
use greedy_rules::SlotTable;
use std::snapshot::Snapshot;
use std::sync::Wait;
use std::thread;
use std::thread::{Promise, Scope, Threads};

/// A path worker with its pass.
#[derive(Drop)]
pub(crate) struct Seat {
    pub(crate) painter: Painter,
    pub(crate) pass: JobPass,
}

/// That a seat comes back with a row for each slot that its pass has taken.
#[derive(Drop)]
struct Played<'a> {
    slots: &'a SlotTable,
    was: Snapshot<Seat>,
}

impl<'a> Promise<Seat> for Played<'a> {
    ghost use Rattle.path_workers.specs.Seats.{SeatHasPlayed};

    ghost kept_by = { λ p seat. SeatHasPlayed p.slots.now.slots p.was.value seat };
}

/// Takes jobs and colours the slots that they name, until one is an end.
fn work<R: Wait, G: Gate>(rt: &R, gate: &G, slots: &SlotTable, queue: &JobQueue, seat: Seat) -> Seat
    requires queue { IsPassOf queue.now seat.pass }
    requires may { SeatMayPlay slots.now.slots seat }
    ensures { SeatHasPlayed slots.now.slots seat result }
{
    let Seat {
        mut painter,
        mut pass,
    } = seat;
    for _ in rt.forever() {
        let Some(job) = jobs::take(queue, &mut pass) else {
            thread::yield_now();
            continue;
        };
        if !painter.take_up(gate, slots, job) {
            break;
        }
    }
    Seat { painter, pass }
}

/// Colours, with the pass that has every part, what no worker has taken.
pub(crate) fn finish<R: Wait, G: Gate>(
    rt: &R,
    gate: &G,
    slots: &SlotTable,
    queue: &JobQueue,
    painter: &mut Painter,
    pass: &mut JobPass,
)
    requires queue { IsPassOf queue.now pass.old }
    requires parts { (view pass.old).parts ≡ 17 }
    requires may { MayPaint slots.now.slots painter.old }
    ensures queue { IsPassOf queue.now pass.new }
    ensures rest { HandIsAtRest (view pass.new) }
    ensures put { (view pass.new).put ≡ (view pass.old).put }
    ensures painted { HasPainted painter.old.net (vec_len painter.old.places) slots.now.slots painter.new }
    ensures rows { HasRowsOf (length slots.now.slots) (view pass.old).taken (view pass.new).taken painter.new }
    ensures keeps { (slot : ℕ) → IsTrue (has_row slot painter.old) → IsTrue (has_row slot painter.new) }
    ensures number { painter.new.number ≡ painter.old.number }
{
    for _ in rt.forever() {
        let Some(job) = jobs::take_last(rt, queue, pass) else {
            break;
        };
        painter.take_up(gate, slots, job);
    }
}

/// Lets the last of the workers take jobs in a thread of its own, and so the others; the first one works on the caller's
/// thread, as do those that got no thread, once all jobs are put.
fn play_all<'s, E, R: Threads + Wait + Sync, G: Gate + Sync>(
    scope: &Scope<'s, E>,
    rt: &'s R,
    gate: &'s G,
    slots: &'s SlotTable,
    queue: &'s JobQueue,
    ends: u16,
    painters: &mut Vec<Painter>,
    pass: &mut JobPass,
)
    requires queue { IsPassOf queue.now pass.old }
    requires parts { vec_len painters.old < (view pass.old).parts }
    requires may { All (MayPaint slots.now.slots) painters.old.items }
    ensures queue { IsPassOf queue.now pass.new }
    ensures played { HaveAllPlayed slots.now.slots ends painters.old.items (view pass.old) painters.new.items (view pass.new) }
    ensures room { vec_capacity painters.new ≡ vec_capacity painters.old }
{
    let Some(painter) = painters.pop() else {
        jobs::put_all(rt, queue, pass, slots.slots(), ends);
        return;
    };
    let apart = painter.number > 0;
    let seat = Seat {
        painter,
        pass: jobs::split(queue, pass),
    };
    let seat = if apart {
        let promise = Played {
            slots,
            was: Snapshot::of(&seat),
        };
        let play = move || -> Seat
            requires { IsPassOf queue.now seat.pass × SeatMayPlay slots.now.slots seat }
            ensures { SeatHasPlayed slots.entry.now.slots seat result }
        { work(rt, gate, slots, queue, seat) };
        match scope.spawn_with(promise, play) {
            Ok(child) => {
                play_all(scope, rt, gate, slots, queue, ends, painters, pass);
                child.join(rt)
            }
            Err(refused) => {
                play_all(scope, rt, gate, slots, queue, ends, painters, pass);
                (refused.value)()
            }
        }
    } else {
        play_all(scope, rt, gate, slots, queue, ends, painters, pass);
        work(rt, gate, slots, queue, seat)
    };
    let Seat {
        painter,
        pass: done,
    } = seat;
    jobs::join(queue, pass, done);
    painters.push_reserved(painter);
}

/// Puts a job for each slot of the table, and then so many ends, and lets the workers take them in threads of their own. Without
/// `threads` none is started, and nobody takes any yet.
fn put_and_play<R: Threads + Wait + Sync, G: Gate + Sync>(
    rt: &R,
    gate: &G,
    slots: &SlotTable,
    queue: &JobQueue,
    threads: bool,
    ends: u16,
    painters: Vec<Painter>,
    pass: JobPass,
) -> (Vec<Painter>, JobPass)
    requires queue { IsPassOf queue.now pass }
    requires parts { vec_len painters < (view pass).parts }
    requires may { All (MayPaint slots.now.slots) painters.items }
    ensures queue { IsPassOf queue.now result.1 }
    ensures played { HaveAllPlayed slots.now.slots ends painters.items (view pass) result.0.items (view result.1) }
{
    if !threads {
        let mut whole = pass;
        jobs::put_all(rt, queue, &mut whole, slots.slots(), ends);
        return (painters, whole);
    }
    thread::scope(
        thread::scope_env(),
        rt,
        move |scope| -> (Vec<Painter>, JobPass)
            requires { IsPassOf queue.now pass × (vec_len painters < (view pass).parts) × All (MayPaint slots.now.slots) painters.items }
            ensures { IsPassOf queue.entry.now result.1 × HaveAllPlayed slots.entry.now.slots ends painters.items (view pass) result.0.items (view result.1) }
        {
            let mut all = painters;
            let mut whole = pass;
            play_all(scope, rt, gate, slots, queue, ends, &mut all, &mut whole);
            (all, whole)
        },
    )
}

/// Colours every slot of the table: each is a job, which one of the workers takes; after them come so many ends. Without
/// `threads` the first worker takes all on the caller's thread.
pub(crate) fn play<R: Threads + Wait + Sync, G: Gate + Sync>(
    rt: &R,
    gate: &G,
    slots: &SlotTable,
    queue: &JobQueue,
    threads: bool,
    ends: u16,
    painters: Vec<Painter>,
    pass: JobPass,
) -> (Vec<Painter>, JobPass)
    requires queue { IsPassOf queue.now pass }
    requires rest { HandIsAtRest (view pass) }
    requires some { 0 < vec_len painters }
    requires few { vec_len painters ≤ 16 }
    requires may { MayAllPaint slots.now.slots painters.items }
    ensures queue { IsPassOf queue.now result.1 }
    ensures rest { HandIsAtRest (view result.1) }
    ensures put { (view result.1).put ≡ (view pass).put ++ slot_jobs (length slots.now.slots) ++ end_jobs ends }
    ensures rows { HaveRows (length slots.now.slots) result.0.items }
    ensures painted { StayPainted slots.now.slots painters.items result.0.items }
    ensures len { vec_len result.0 ≡ vec_len painters }
    ensures numbers { numbers_of result.0.items ≡ numbers_of painters.items }
{
    let (mut painters, mut pass) = put_and_play(
        rt, gate, slots, queue, threads, ends, painters, pass,
    );
    finish(rt, gate, slots, queue, &mut painters[0], &mut pass);
    (painters, pass)
}
