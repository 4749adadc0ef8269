ghost use Rattle.std.specs.Prelude.{◌≤◌};

use fastpass_run::run;
use fp_edge::{MemSink, MemSource, OpenGate};
use std::alloc::{AllocError, Global};
use std::process::Abort;
use std::sync::Wait;
use std::test::Fail;
use std::thread::Threads;

mod audits;
mod commands;
mod makes;
mod meeting;
mod pieces;
mod racks;
mod reader;
mod replays;

const PIECE: usize = 65_536;

const THREE_FLOWS: &[u8] = b"net,1,4,1\nask,0,0,1,1\nask,0,0,2,1\nask,0,3,1,1\nend,1\n";

const THREE_FLOWS_PLANNED: &[u8] =
    b"batch,0,0,1,0,1\nbatch,0,0,2,0,1\nbatch,0,3,1,0,1\nslot,1,0,1,-\nslot,2,0,2,-\nslot,2,3,1,-\nflow,0,1,1,1,0\nflow,0,2,1,1,0\nflow,3,1,1,1,0\nend,1\n";

/// How a run ended, and what its sinks got.
#[derive(Drop)]
struct Came {
    status: u8,
    out: MemSink,
    notes: MemSink,
}

fn copied(alloc: Global, bytes: &[u8]) -> Result<Vec<u8>, AllocError> {
    let mut copy = Vec::new(alloc);
    copy.extend_from_slice(bytes)?;
    Ok(copy)
}

fn sink(alloc: Global) -> Result<MemSink, Fail> {
    Ok(MemSink::new(alloc, 1_000_000, PIECE, Vec::new(alloc))?)
}

fn source(alloc: Global, trace: &[u8]) -> Result<MemSource, AllocError> {
    Ok(MemSource::new(copied(alloc, trace)?, PIECE, Vec::new(alloc)))
}

/// A source that gives at most ten bytes a read, and whose read of this number fails.
fn failing_source(alloc: Global, trace: &[u8], call: u32) -> Result<MemSource, AllocError> {
    let mut failing = Vec::new(alloc);
    failing.push(call)?;
    Ok(MemSource::new(copied(alloc, trace)?, 10, failing))
}

/// A sink that takes at most this many bytes a write, and whose write of this number fails.
fn failing_sink(alloc: Global, most: usize, call: u32) -> Result<MemSink, Fail>
    requires { 1 ≤ most }
{
    let mut failing = Vec::new(alloc);
    failing.push(call)?;
    Ok(MemSink::new(alloc, 1_000_000, most, failing)?)
}

fn run_with<R: Threads + Wait + Sync>(
    rt: &R,
    alloc: Global,
    words: &[&str],
    mut src: MemSource,
    mut out: MemSink,
    mut notes: MemSink,
) -> Came {
    let status = run(rt, alloc, words, &mut src, &mut out, &mut notes, &OpenGate);
    Came { status, out, notes }
}

fn run_on<R: Threads + Wait + Sync>(
    rt: &R,
    alloc: Global,
    words: &[&str],
    trace: &[u8],
) -> Result<Came, Fail> {
    Ok(run_with(
        rt,
        alloc,
        words,
        source(alloc, trace)?,
        sink(alloc)?,
        sink(alloc)?,
    ))
}

// What is written where the words name no number of workers; with these it is the same.
fn run_with_any_workers<R: Abort + Threads + Wait + Sync>(
    rt: &R,
    alloc: Global,
    words: &[&'static str],
    trace: &[u8],
) -> Result<Came, Fail> {
    let came = run_on(rt, alloc, words, trace)?;
    for (workers, paths) in [("1", "2"), ("2", "16"), ("3", "1"), ("16", "3")] {
        let mut told = Vec::new(alloc);
        told.extend_from_slice(words)?;
        told.extend_from_slice(&["--workers", workers, "--paths", paths])?;
        let same = run_on(rt, alloc, &told, trace)?;
        assert_eq!(rt; same.status, came.status);
        assert!(rt;
            same.out.held() == came.out.held(),
            "with {workers} workers and {paths} path workers"
        );
        assert!(rt; same.notes.held() == came.notes.held());
    }
    Ok(came)
}

#[test]
fn plans_are_written_whole(rt: HostRuntime) -> Result<(), Fail> {
    let cases: [(&[&str], &[u8], &[u8]); 6] = [
        (&["plan", "--batch", "2"], THREE_FLOWS, THREE_FLOWS_PLANNED),
        // The windows are no matter.
        (
            &["plan", "--window", "1", "--batch", "2"],
            THREE_FLOWS,
            THREE_FLOWS_PLANNED,
        ),
        // Nothing is asked for.
        (&["plan"], b"net,1,2,1\nend,1\n", b"end,1\n"),
        (
            &["plan", "--batch", "1"],
            b"net,1,2,1\nask,0,0,1,1\nend,1\n",
            b"batch,0,0,1,0,1\nslot,1,0,1,-\nflow,0,1,1,1,0\nend,1\n",
        ),
        // Two flows of one source take turns.
        (
            &["plan", "--batch", "2"],
            b"net,1,4,1\nask,0,0,1,4\nask,0,0,2,4\nend,4\n",
            b"batch,0,0,1,0,4\nbatch,0,0,2,0,4\nslot,1,0,1,-\nslot,2,0,1,-\nslot,3,0,2,-\nslot,4,0,2,-\nslot,5,0,1,-\nslot,6,0,1,-\nslot,7,0,2,-\nslot,8,0,2,-\nflow,0,1,4,4,0\nflow,0,2,4,4,0\nend,4\n",
        ),
        // A later ask, of a flow that was never served, goes first.
        (
            &["plan", "--batch", "2"],
            b"net,1,4,1\nask,0,0,1,4\nask,0,0,2,4\nask,1,0,3,1\nend,5\n",
            b"batch,0,0,1,0,4\nbatch,0,0,2,0,4\nslot,1,0,1,-\nslot,2,0,1,-\nbatch,1,0,3,0,1\nslot,3,0,2,-\nslot,4,0,2,-\nslot,5,0,3,-\nslot,6,0,1,-\nslot,7,0,2,-\nslot,8,0,2,-\nslot,9,0,1,-\nflow,0,1,4,4,0\nflow,0,2,4,4,0\nflow,0,3,1,1,0\nend,5\n",
        ),
    ];
    for (words, trace, text) in cases.iter() {
        let came = run_with_any_workers(&rt, rt.alloc(), words, trace)?;
        assert_eq!(rt; came.status, 0);
        assert!(rt; came.out.held() == *text);
        assert!(rt; came.notes.held().is_empty());
    }
    Ok(())
}

// A batch of 64 slots, and the one slot more that the next round has, or that is left pending.
#[test]
fn a_batch_of_64_slots_leaves_the_rest(rt: HostRuntime) -> Result<(), Fail> {
    let cases: [(&[u8], u32, &[u8]); 3] = [
        (
            b"net,1,2,1\nask,0,0,1,64\nend,1\n",
            64,
            b"flow,0,1,64,64,0\nend,1\n",
        ),
        (
            b"net,1,2,1\nask,0,0,1,65\nend,1\n",
            64,
            b"flow,0,1,65,64,1\nend,1\n",
        ),
        (
            b"net,1,2,1\nask,0,0,1,65\nend,2\n",
            65,
            b"flow,0,1,65,65,0\nend,2\n",
        ),
    ];
    for (trace, slots, end) in cases.iter() {
        let came = run_with_any_workers(&rt, rt.alloc(), &["plan", "--batch", "64"], trace)?;
        assert_eq!(rt; came.status, 0);
        let mut lines = came.out.held().split(|byte| *byte == b'\n').skip(1);
        for slot in 1..=*slots {
            let line = format!(in rt.alloc(); "slot,{slot},0,1,-")?;
            assert!(rt; lines.next() == Some(line.as_bytes()));
        }
        assert!(rt; came.out.held().ends_with(end));
    }
    Ok(())
}

#[test]
fn other_words_are_refused(rt: HostRuntime) -> Result<(), Fail> {
    let cases: [&[&str]; 25] = [
        &[],
        &["plan", "--batch", "0"],
        &["plan", "--batch", "65"],
        &["plan", "--batch", "2", "--batch", "2"],
        &["plan", "--batch"],
        &["plan", "--batch=2"],
        &["plan", "--batch", "02"],
        &["plans"],
        &["replays"],
        &["--batch", "2", "replay"],
        &["plan", "--window", "0"],
        &["replay", "--window", "17"],
        &["replay", "--window", "2", "--batch", "2", "--window", "2"],
        &["plan", "--paths", "0"],
        &["plan", "--paths", "17"],
        &["plan", "--paths", "2", "--batch", "2", "--paths", "2"],
        &["plan", "--workers", "0"],
        &["plan", "--workers", "17"],
        &["replay", "--workers", "2", "--workers", "2"],
        &["make"],
        &["make", "07"],
        &["make", "+7"],
        &["make", "4294967296"],
        &["make", "--batch", "2"],
        &["make", "7", "--batch", "0"],
    ];
    for words in cases.iter() {
        let came = run_on(&rt, rt.alloc(), words, THREE_FLOWS)?;
        assert_eq!(rt; came.status, 1);
        assert!(rt; came.notes.held() == b"words\n".as_slice());
        assert!(rt; came.out.held().is_empty());
    }
    Ok(())
}

#[test]
fn faulty_traces_tell_row_and_fault(rt: HostRuntime) -> Result<(), Fail> {
    let cases: [(&[u8], &[u8]); 17] = [
        (b"", b"row,1,1\n"),
        (b"ask,0,0,1,1\n", b"row,1,1\n"),
        (b"net,1,2,1\ntask,0,0,1,1\n", b"row,2,2\n"),
        (b"net,1,2,1\nask,0,0,1\n", b"row,2,3\n"),
        (b"net,1,2,1\nask,0,0,1,007\n", b"row,2,4\n"),
        (b"net,65,1,64\n", b"row,1,5\n"),
        (b"net,64,64,64\n", b"row,1,5\n"),
        (b"net,1,2,1\nask,0,0,2,1\n", b"row,2,5\n"),
        (b"net,1,2,1\nask,0,0,1,0\n", b"row,2,5\n"),
        (b"net,1,2,1\nask,0,1,1,1\n", b"row,2,6\n"),
        (
            b"net,1,2,1\nask,3,0,1,1\nask,2,0,1,1\nend,4\n",
            b"row,3,7\n",
        ),
        (b"net,1,2,1\nask,3,0,1,1\nend,3\n", b"row,3,7\n"),
        (b"net,1,2,1\nend,1\nask,0,0,1,1\n", b"row,3,7\n"),
        (
            b"net,1,2,1\nask,0,0,1,100000000\nask,0,0,1,1\nend,1\n",
            b"row,3,8\n",
        ),
        (b"net,1,2,1\n", b"row,2,9\n"),
        (b"net,1,2,1\nlose,0,0,up\n", b"row,2,10\n"),
        (b"net,2,3,2\n", b"row,2,9\n"),
    ];
    for (trace, note) in cases.iter() {
        let came = run_on(&rt, rt.alloc(), &["plan"], trace)?;
        assert_eq!(rt; came.status, 2);
        assert!(rt; came.notes.held() == *note);
        assert!(rt; came.out.held().is_empty());
    }
    Ok(())
}

// A write that fails is the last, whichever of the 35 it is: before it each took 4 bytes of the 138.
#[test]
fn a_failed_write_leaves_a_front(rt: HostRuntime) -> Result<(), Fail> {
    let alloc = rt.alloc();
    for call in 0..35u32 {
        let words = ["plan", "--batch", "2"];
        let came = run_with(
            &rt,
            alloc,
            &words,
            source(alloc, THREE_FLOWS)?,
            failing_sink(alloc, 4, call)?,
            sink(alloc)?,
        );
        assert_eq!(rt; came.status, 4);
        assert!(rt; came.notes.held() == b"write\n".as_slice());
        assert_eq!(rt; came.out.held().len(), call as usize * 4);
        assert!(rt; THREE_FLOWS_PLANNED.starts_with(came.out.held()));
    }
    Ok(())
}

// Texts of more than three pieces, each given away where no line more fits: a write that fails is the last here too.
#[test]
fn a_failed_write_amid_a_text_leaves_a_front(rt: HostRuntime) -> Result<(), Fail> {
    let alloc = rt.alloc();
    let cases: [(&str, &[u8]); 2] = [
        (
            "plan",
            b"net,1,4,1\nask,0,0,1,4000\nask,0,1,0,4000\nask,0,2,3,4000\nask,0,3,2,4000\nend,63\n",
        ),
        (
            "replay",
            b"net,1,4,1\nask,0,0,1,2000\nask,0,1,0,2000\nask,0,2,3,2000\nask,0,3,2,2000\nend,63\n",
        ),
    ];
    for (command, trace) in cases.iter() {
        let words = [*command, "--batch", "64"];
        let whole = run_on(&rt, alloc, &words, trace)?;
        assert_eq!(rt; whole.status, 0);
        for call in 0..3u32 {
            let came = run_with(
                &rt,
                alloc,
                &words,
                source(alloc, trace)?,
                failing_sink(alloc, PIECE, call)?,
                sink(alloc)?,
            );
            assert_eq!(rt; came.status, 4);
            assert!(rt; came.notes.held() == b"write\n".as_slice());
            assert_eq!(rt; came.out.held().len().div_ceil(PIECE), call as usize);
            assert!(rt; whole.out.held().starts_with(came.out.held()));
        }
    }
    Ok(())
}

// The trace has 52 bytes: six reads of at most 10, and the one that finds its end.
#[test]
fn a_failed_read_writes_nothing(rt: HostRuntime) -> Result<(), Fail> {
    let alloc = rt.alloc();
    for call in 0..7u32 {
        let src = failing_source(alloc, THREE_FLOWS, call)?;
        let words = ["plan", "--batch", "2"];
        let came = run_with(&rt, alloc, &words, src, sink(alloc)?, sink(alloc)?);
        assert_eq!(rt; came.status, 3);
        assert!(rt; came.notes.held() == b"read\n".as_slice());
        assert!(rt; came.out.held().is_empty());
    }
    Ok(())
}

// As many bytes as the limit are judged, and one more is too many.
#[test]
fn an_input_above_the_limit_is_refused(rt: HostRuntime) -> Result<(), Fail> {
    let alloc = rt.alloc();
    let cases: [(usize, u8, &[u8]); 2] = [(67_108_864, 2, b"row,1,1\n"), (67_108_865, 6, b"big\n")];
    for (size, status, note) in cases.iter() {
        let bytes = vec![in alloc; b'x'; *size]?;
        let src = MemSource::new(bytes, PIECE, Vec::new(alloc));
        let came = run_with(&rt, alloc, &["plan"], src, sink(alloc)?, sink(alloc)?);
        assert_eq!(rt; came.status, *status);
        assert!(rt; came.notes.held() == *note);
        assert!(rt; came.out.held().is_empty());
    }
    Ok(())
}

// A write of a note that fails is the last, whichever it is, and changes no status: before it each took a byte.
#[test]
fn a_fault_of_the_notes_changes_no_status(rt: HostRuntime) -> Result<(), Fail> {
    let alloc = rt.alloc();
    let cases: [(&[&str], u8, &[u8]); 2] = [(&[], 1, b"words\n"), (&["plan"], 2, b"row,1,1\n")];
    for (words, status, note) in cases.iter() {
        for call in 0..6u32 {
            let came = run_with(
                &rt,
                alloc,
                words,
                source(alloc, b"")?,
                sink(alloc)?,
                failing_sink(alloc, 1, call)?,
            );
            assert_eq!(rt; came.status, *status);
            assert_eq!(rt; came.notes.held().len(), call as usize);
            assert!(rt; note.starts_with(came.notes.held()));
        }
    }
    Ok(())
}
