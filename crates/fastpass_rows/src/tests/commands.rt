// Plans by need, desks and takeovers, from the bytes of their rows to the bytes of their texts.
use super::{
    THREE_FLOWS, THREE_FLOWS_PLANNED, failing_sink, run_on, run_with, run_with_any_workers, sink,
    source,
};
use std::test::Fail;

/// A node takes over from another, which then publishes what is left of its lease.
const TAKEOVER: &[u8] =
    b"pair,2,1,2\nask,0,1,3\nrequest,0\ngrant,0\ntake,0,1\ntell,0,0\npublish,0\nrequest,1\ngrant,2\ntake,1,3\npublish,0\nhear,0,0\ntell,0,1\nhear,0,1\npublish,1\nhear,0,2\npublish,0\nend\n";

const TAKEOVER_TEXT: &[u8] =
    b"granted,1,0,1,0\npublished,0,0\nbatch,0,0,1,0,3\nslot,1,0,1,-\ngranted,3,1,2,2\npublished,0,1\nslot,2,0,1,-\nsent,1,0,1\nrefused,14,stale\npublished,1,2\nbatch,2,0,1,0,2\nslot,3,0,1,-\nsent,3,0,1\nrefused,17,nolease\ntotal,0,1,3,2\nend,18\n";

#[test]
fn takeovers_are_written_whole(rt: HostRuntime) -> Result<(), Fail> {
    let cases: [(&[u8], &[u8]); 3] = [
        (TAKEOVER, TAKEOVER_TEXT),
        // A grant of an earlier boot is not taken.
        (
            b"pair,2,1,2\nask,0,1,1\nrequest,0\ngrant,0\ntake,0,1\ncrash,0\ntake,0,1\npublish,0\nend\n",
            b"granted,1,0,1,0\nrefused,7,oldboot\nrefused,8,nolease\ntotal,0,1,1,0\nend,9\n",
        ),
        // Nothing happens.
        (b"pair,2,1,1\nend\n", b"end,2\n"),
    ];
    for (script, text) in cases.iter() {
        let came = run_on(&rt, rt.alloc(), &["takeover"], script)?;
        assert_eq!(rt; came.status, 0);
        assert!(rt; came.out.held() == *text);
        assert!(rt; came.notes.held().is_empty());
    }
    Ok(())
}

#[test]
fn faulty_scripts_tell_row_and_fault(rt: HostRuntime) -> Result<(), Fail> {
    let cases: [(&[u8], &[u8]); 11] = [
        (b"", b"row,1,1\n"),
        (b"net,1,2,1\nend,1\n", b"row,1,1\n"),
        (b"pair,2,1,2\nboot,0,0\nend\n", b"row,2,2\n"),
        (b"pair,2,1,2\nask,0,1\nend\n", b"row,2,3\n"),
        (b"pair,2,1,2\nask,0,1,01\nend\n", b"row,2,4\n"),
        (b"pair,65,1,2\nend\n", b"row,1,5\n"),
        (b"pair,2,1,2\nrequest,2\nend\n", b"row,2,5\n"),
        (b"pair,2,1,2\nask,1,1,1\nend\n", b"row,2,6\n"),
        (b"pair,2,1,2\nend\ncrash,0\n", b"row,3,7\n"),
        (
            b"pair,2,1,2\nask,0,1,100000000\nask,0,1,1\nend\n",
            b"row,3,8\n",
        ),
        (b"pair,2,1,2\n", b"row,2,9\n"),
    ];
    for (script, note) in cases.iter() {
        let came = run_on(&rt, rt.alloc(), &["takeover"], script)?;
        assert_eq!(rt; came.status, 2);
        assert!(rt; came.notes.held() == *note);
        assert!(rt; came.out.held().is_empty());
    }
    Ok(())
}

#[test]
fn plans_by_need_are_written_whole(rt: HostRuntime) -> Result<(), Fail> {
    let few_and_many: &[u8] = b"net,1,4,1\nask,0,0,1,3\nask,0,0,2,1\nend,2\n";
    let cases: [(&[&str], &[u8], &[u8]); 4] = [
        (
            &["plan", "--batch", "2", "--policy", "fewest"],
            few_and_many,
            b"batch,0,0,1,0,3\nbatch,0,0,2,0,1\nslot,1,0,2,-\nslot,2,0,1,-\nslot,3,0,1,-\nslot,4,0,1,-\nflow,0,1,3,3,0\nflow,0,2,1,1,0\nend,2\n",
        ),
        (
            &["plan", "--policy", "last", "--batch", "2"],
            few_and_many,
            b"batch,0,0,1,0,3\nbatch,0,0,2,0,1\nslot,1,0,1,-\nslot,2,0,1,-\nslot,3,0,2,-\nslot,4,0,1,-\nflow,0,1,3,3,0\nflow,0,2,1,1,0\nend,2\n",
        ),
        // Of equal needs the one that goes first stays first, and one is left over.
        (
            &["plan", "--batch", "1", "--policy", "fewest"],
            b"net,1,4,1\nask,0,0,1,2\nask,0,0,2,2\nend,3\n",
            b"batch,0,0,1,0,2\nbatch,0,0,2,0,2\nslot,1,0,1,-\nslot,2,0,1,-\nslot,3,0,2,-\nflow,0,1,2,2,0\nflow,0,2,2,1,1\nend,3\n",
        ),
        (
            &["plan", "--policy", "last", "--batch", "2"],
            THREE_FLOWS,
            THREE_FLOWS_PLANNED,
        ),
    ];
    for (words, trace, text) in cases.iter() {
        let came = run_with_any_workers(&rt, rt.alloc(), words, trace)?;
        assert_eq!(rt; came.status, 0);
        assert!(rt; came.out.held() == *text);
        assert!(rt; came.notes.held().is_empty());
    }
    Ok(())
}

/// Packets for two endpoints: a reset, a request of one slot, one that is too short, and one that is another's.
const PUTS: &[u8] =
    b"net,1,2,1\nput,0,0102000000000001\nput,1,0102\nput,0,0101000000000001000000010000000000000000000000000001000100000001\nput,1,0102000000000001\nend,1\n";

#[test]
fn packets_are_received(rt: HostRuntime) -> Result<(), Fail> {
    let cases: [(&[u8], &[u8]); 3] = [
        (
            PUTS,
            b"answer,0,0,ok\nanswer,0,1,ok\nanswer,1,0,short\nanswer,1,1,notmine\nbatch,0,0,1,0,1\nend,1\n",
        ),
        // The last one comes first.
        (
            b"net,1,2,1\nput,1,0102000000000001\nput,0,0102000000000001\nput,1,0102\nput,0,0101000000000001000000010000000000000000000000000001000100000001\nend,1\n",
            b"answer,0,0,ok\nanswer,0,1,ok\nanswer,1,0,notmine\nanswer,1,1,short\nbatch,0,0,1,0,1\nend,1\n",
        ),
        (b"net,1,2,1\nend,1\n", b"end,1\n"),
    ];
    for (rows, text) in cases.iter() {
        let came = run_on(&rt, rt.alloc(), &["receive"], rows)?;
        assert_eq!(rt; came.status, 0);
        assert!(rt; came.out.held() == *text);
        assert!(rt; came.notes.held().is_empty());
    }
    Ok(())
}

#[test]
fn faulty_puts_tell_row_and_fault(rt: HostRuntime) -> Result<(), Fail> {
    let cases: [(&[&str], &[u8], &[u8]); 6] = [
        (
            &["receive"],
            b"net,1,2,1\nask,0,0,1,1\nend,1\n",
            b"row,2,10\n",
        ),
        (&["plan"], b"net,1,2,1\nput,0,\nend,1\n", b"row,2,10\n"),
        (&["replay"], b"net,1,2,1\nput,0,\nend,1\n", b"row,2,10\n"),
        (&["receive"], b"net,1,2,1\nput,2,\nend,1\n", b"row,2,5\n"),
        (&["receive"], b"net,1,2,1\nput,0,0\nend,1\n", b"row,2,4\n"),
        (&["receive"], b"net,1,2,1\nend,2\n", b"row,2,5\n"),
    ];
    for (words, rows, note) in cases.iter() {
        let came = run_on(&rt, rt.alloc(), words, rows)?;
        assert_eq!(rt; came.status, 2);
        assert!(rt; came.notes.held() == *note);
        assert!(rt; came.out.held().is_empty());
    }
    Ok(())
}

#[test]
fn other_pairs_are_refused(rt: HostRuntime) -> Result<(), Fail> {
    let cases: [&[&str]; 9] = [
        &["plan", "--policy"],
        &["plan", "--policy", "most"],
        &["plan", "--policy", "last", "--policy", "last"],
        &["replay", "--policy", "last"],
        &["make", "7", "--policy", "fewest"],
        &[
            "audit", "--racks", "1", "--hosts", "4", "--cores", "1", "--policy", "last",
        ],
        &["receive", "--batch", "2"],
        &["takeover", "--batch", "2"],
        &["takeover", "takeover"],
    ];
    for words in cases.iter() {
        let came = run_on(&rt, rt.alloc(), words, THREE_FLOWS)?;
        assert_eq!(rt; came.status, 1);
        assert!(rt; came.notes.held() == b"words\n".as_slice());
        assert!(rt; came.out.held().is_empty());
    }
    Ok(())
}

// A write that fails leaves a front of each text.
#[test]
fn a_failed_write_leaves_a_front_of_each(rt: HostRuntime) -> Result<(), Fail> {
    let alloc = rt.alloc();
    let cases: [(&[&str], &[u8]); 3] = [
        (&["plan", "--policy", "fewest"], THREE_FLOWS),
        (&["receive"], PUTS),
        (&["takeover"], TAKEOVER),
    ];
    for (words, rows) in cases.iter() {
        let whole = run_on(&rt, alloc, words, rows)?;
        assert_eq!(rt; whole.status, 0);
        for call in 0..12u32 {
            let came = run_with(
                &rt,
                alloc,
                words,
                source(alloc, rows)?,
                failing_sink(alloc, 4, call)?,
                sink(alloc)?,
            );
            assert_eq!(rt; came.status, 4);
            assert!(rt; came.notes.held() == b"write\n".as_slice());
            assert_eq!(rt; came.out.held().len(), call as usize * 4);
            assert!(rt; whole.out.held().starts_with(came.out.held()));
        }
    }
    Ok(())
}
