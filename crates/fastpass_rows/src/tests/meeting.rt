use super::racks::many_to_one;
use super::{run_on, sink, source};
use fastpass_run::run;
use fp_edge::Gate;
use std::alloc::Global;
use std::process::Abort;
use std::sync::Wait;
use std::sync::atomic::{AtomicBool, AtomicU32, AtomicU64, Ordering};
use std::test::Fail;
use std::thread::{self, Threads};

/// So many turns a path worker waits for others.
const TURNS: u32 = 10_000_000;

/// Holds each path worker that takes up its first slot, until as many have come as are awaited.
#[derive(Drop)]
struct Meeting {
    awaited: u32,
    // A bit for the number of each that has come.
    came: AtomicU64,
    // One has waited for all its turns, and too few came.
    alone: AtomicBool,
}

impl Meeting {
    fn new(awaited: u32) -> Meeting {
        Meeting {
            awaited,
            came: AtomicU64::new(0),
            alone: AtomicBool::new(false),
        }
    }

    fn all_came(&self) -> bool {
        self.came.load(Ordering::SeqCst).count_ones() >= self.awaited
    }

    fn wait(&self) {
        for _ in 0..TURNS {
            if self.all_came() {
                return;
            }
            thread::yield_now();
        }
        self.alone.store(true, Ordering::SeqCst);
    }
}

impl Gate for Meeting {
    fn enter(&self, _worker: u16, _stage: u32, _piece: u32) {}

    fn paint(&self, worker: u16, _slot: u32) {
        let me = 1u64 << u32::from(worker % 64);
        let before = self.came.fetch_or(me, Ordering::SeqCst);
        if before & me == 0 {
            self.wait();
        }
    }
}

fn meet<R: Abort + Threads + Wait + Sync>(
    rt: &R,
    alloc: Global,
    words: &[&'static str],
    awaited: u32,
) -> Result<(), Fail> {
    let trace = many_to_one(alloc)?;
    let mut src = source(alloc, &trace)?;
    let mut out = sink(alloc)?;
    let mut notes = sink(alloc)?;
    let gate = Meeting::new(awaited);
    let status = run(rt, alloc, words, &mut src, &mut out, &mut notes, &gate);
    assert_eq!(rt; status, 0);
    assert!(rt; gate.all_came(), "too few path workers took up a slot");
    assert!(rt; !gate.alone.load(Ordering::SeqCst), "too few came in time");
    let open = run_on(rt, alloc, words, &trace)?;
    assert!(rt; out.held() == open.out.held());
    assert!(rt; notes.held().is_empty());
    Ok(())
}

// As many path workers run at once as the words say. Where one thread plays them all, in whatever order, nobody else comes while the
// first one is held.
#[test]
fn path_workers_run_at_once(rt: HostRuntime) -> Result<(), Fail> {
    meet(&rt, rt.alloc(), &["plan", "--paths", "2"], 2)?;
    meet(&rt, rt.alloc(), &["plan", "--paths", "3"], 3)?;
    meet(
        &rt,
        rt.alloc(),
        &["plan", "--workers", "2", "--paths", "2"],
        2,
    )?;
    meet(
        &rt,
        rt.alloc(),
        &["replay", "--window", "16", "--paths", "3"],
        3,
    )
}

/// In the second window the first worker, which has taken up its third piece, waits until the second one has taken up its first,
/// and the second until the first.
#[derive(Drop)]
struct Handshake {
    // How many windows the first worker has begun.
    begun: AtomicU32,
    third_piece: AtomicBool,
    next_stage: AtomicBool,
    // One has waited for all its turns.
    alone: AtomicBool,
}

impl Handshake {
    fn new() -> Handshake {
        Handshake {
            begun: AtomicU32::new(0),
            third_piece: AtomicBool::new(false),
            next_stage: AtomicBool::new(false),
            alone: AtomicBool::new(false),
        }
    }

    fn is_second_window(&self) -> bool {
        self.begun.load(Ordering::SeqCst) == 2
    }

    fn meet(&self, came: &AtomicBool, awaited: &AtomicBool) {
        came.store(true, Ordering::SeqCst);
        for _ in 0..TURNS {
            if awaited.load(Ordering::SeqCst) {
                return;
            }
            thread::yield_now();
        }
        self.alone.store(true, Ordering::SeqCst);
    }
}

impl Gate for Handshake {
    fn enter(&self, worker: u16, stage: u32, piece: u32) {
        match (worker, stage, piece) {
            (0, 0, 0) => {
                self.begun.fetch_add(1, Ordering::SeqCst);
            }
            (0, 0, 2) if self.is_second_window() => {
                self.meet(&self.third_piece, &self.next_stage);
            }
            (1, 1, 0) if self.is_second_window() => {
                self.meet(&self.next_stage, &self.third_piece);
            }
            _ => {}
        }
    }

    fn paint(&self, _worker: u16, _slot: u32) {}
}

// Two workers run at once: before its third piece the first one needs nothing of the second. Where one thread plays both, in whatever
// order of turns, it never leaves the first of the two calls that wait.
#[test]
fn workers_run_at_once(rt: HostRuntime) -> Result<(), Fail> {
    let alloc = rt.alloc();
    let words = ["plan", "--workers", "2"];
    let trace = many_to_one(alloc)?;
    let mut src = source(alloc, &trace)?;
    let mut out = sink(alloc)?;
    let mut notes = sink(alloc)?;
    let gate = Handshake::new();
    let status = run(&rt, alloc, &words, &mut src, &mut out, &mut notes, &gate);
    assert_eq!(rt; status, 0);
    assert!(rt; gate.begun.load(Ordering::SeqCst) >= 2);
    assert!(rt;
        gate.third_piece.load(Ordering::SeqCst),
        "the first worker took up no third piece"
    );
    assert!(rt;
        gate.next_stage.load(Ordering::SeqCst),
        "the second worker took up no piece"
    );
    assert!(rt;
        !gate.alone.load(Ordering::SeqCst),
        "one waited for all its turns"
    );
    let open = run_on(&rt, alloc, &words, &trace)?;
    assert!(rt; out.held() == open.out.held());
    assert!(rt; notes.held().is_empty());
    Ok(())
}
