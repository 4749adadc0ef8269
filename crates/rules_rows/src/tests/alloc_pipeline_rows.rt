ghost use Rattle.std.specs.Prelude.{◌<◌, ◌≤◌};

use super::ring_core_rows::{check_list, check_slots, window};
use alloc_pipeline::Ring;
use fp_edge::{Gate, OpenGate};
use greedy_rules::{
    DemandList, SlotTable, flows_fit_pairs, recorded_batches_may_be_applied, schedules_go_on,
};
use std::alloc::Global;
use std::process::Abort;
use std::sync::Wait;
use std::sync::atomic::{AtomicBool, AtomicU32, Ordering};
use std::test::Fail;
use std::thread::{self, Threads};

/// So many turns a worker that is held waits for the other.
const TURNS: u32 = 10_000_000;

/// Holds the first two workers of the second window until both have come: worker 0 with the last of the list's three pieces, and
/// worker 1 with the first piece of the list after it.
#[derive(Drop)]
struct Meeting {
    windows: AtomicU32,
    first: AtomicBool,
    second: AtomicBool,
    // One has waited for all its turns, and the other didn't come.
    alone: AtomicBool,
}

impl Meeting {
    fn new() -> Meeting {
        Meeting {
            windows: AtomicU32::new(0),
            first: AtomicBool::new(false),
            second: AtomicBool::new(false),
            alone: AtomicBool::new(false),
        }
    }

    fn hold(&self, here: &AtomicBool, there: &AtomicBool) {
        here.store(true, Ordering::SeqCst);
        for _ in 0..TURNS {
            if there.load(Ordering::SeqCst) {
                return;
            }
            thread::yield_now();
        }
        self.alone.store(true, Ordering::SeqCst);
    }
}

impl Gate for Meeting {
    fn enter(&self, worker: u16, stage: u32, piece: u32) {
        if (worker, stage, piece) == (0, 0, 0) {
            self.windows.fetch_add(1, Ordering::SeqCst);
        }
        if self.windows.load(Ordering::SeqCst) < 2 {
            return;
        }
        match (worker, stage, piece) {
            (0, 0, 2) => self.hold(&self.first, &self.second),
            (1, 1, 0) => self.hold(&self.second, &self.first),
            _ => {}
        }
    }

    fn paint(&self, _worker: u16, _slot: u32) {}
}

// Two windows of eight batches of eight slots: the first finds an empty list, the second one of three pieces.
fn two_windows<R: Abort + Threads + Wait + Sync, G: Gate + Sync>(
    rt: &R,
    alloc: Global,
    workers: u16,
    gate: &G,
) -> Result<(), Fail>
    requires { (0 < workers) × (workers ≤ 16) }
{
    let batches = window(alloc, 16)?;
    let mut ring = Ring::open(alloc, workers, 132, 8, 8)?;
    let mut list = DemandList::open(alloc, 65536)?;
    let mut out = SlotTable::open(alloc, 64, 132)?;
    recorded_batches_may_be_applied();
    schedules_go_on();
    flows_fit_pairs();
    ring.allocate(rt, gate, &mut list, 0, &batches[..8], &mut out);
    check_slots(rt, &out, 0, 64);
    check_list(rt, &list, 64);
    ring.allocate(rt, gate, &mut list, 8, &batches[8..], &mut out);
    check_slots(rt, &out, 64, 64);
    check_list(rt, &list, 128);
    Ok(())
}

#[test]
fn any_number_of_workers_gives_the_slots_of_one(rt: HostRuntime) -> Result<(), Fail> {
    two_windows(&rt, rt.alloc(), 1, &OpenGate)?;
    two_windows(&rt, rt.alloc(), 2, &OpenGate)?;
    two_windows(&rt, rt.alloc(), 3, &OpenGate)?;
    two_windows(&rt, rt.alloc(), 16, &OpenGate)
}

// Two workers run at once: where one thread plays both, in whatever order of turns, it never leaves the first that is held.
#[test]
fn workers_run_at_once(rt: HostRuntime) -> Result<(), Fail> {
    let gate = Meeting::new();
    two_windows(&rt, rt.alloc(), 2, &gate)?;
    assert_eq!(rt; gate.windows.load(Ordering::SeqCst), 2);
    assert!(rt;
        gate.first.load(Ordering::SeqCst) && gate.second.load(Ordering::SeqCst),
        "nobody was held"
    );
    assert!(rt; !gate.alone.load(Ordering::SeqCst), "one was held alone");
    Ok(())
}
