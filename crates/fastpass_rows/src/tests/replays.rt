use super::{failing_sink, failing_source, run_on, run_with, run_with_any_workers, sink, source};
use std::test::Fail;

const ONE_BY_ONE: &[&str] = &["replay", "--batch", "1", "--window", "1"];

const ONE_ASK: &[u8] = b"net,2,1,1\nask,0,0,1,1\nend,7\n";

/// A slot asked for in round 0, told in round 3 and sent in round 5.
const SENT: &[u8] = b"batch,1,0,1,0,1\nslot,2,0,1,0\nsent,2,0,1\ncount,0,1,1,1,0,0,0,1,0\nend,7\n";

/// The allocation that told it never came in time to be read: it is told anew.
const LOST: &[u8] =
    b"batch,1,0,1,0,1\nslot,2,0,1,0\nbatch,8,0,1,0,1\nslot,9,0,1,0\nsent,9,0,1\ncount,0,1,1,1,0,0,1,1,0\nend,14\n";

/// After 70 rounds of silence the number that told the slot is found lost.
const FOUND_LOST: &[u8] =
    b"batch,1,0,1,0,1\nslot,2,0,1,0\nbatch,73,0,1,0,1\nslot,74,0,1,0\nsent,74,0,1\ncount,0,1,1,1,0,0,1,1,0\nend,90\n";

#[test]
fn replays_are_written_whole(rt: HostRuntime) -> Result<(), Fail> {
    let cases: [(&[u8], &[u8]); 12] = [
        (ONE_ASK, SENT),
        (b"net,2,1,1\nask,0,0,1,1\nlose,3,0,down\nend,14\n", LOST),
        // Two rounds late is in time, three are not: the slot is asked for again.
        (b"net,2,1,1\nask,0,0,1,1\nhold,3,0,down,2\nend,7\n", SENT),
        (
            b"net,2,1,1\nask,0,0,1,1\nhold,3,0,down,3\nend,12\n",
            b"batch,1,0,1,0,1\nslot,2,0,1,0\nbatch,6,0,1,0,1\nslot,7,0,1,0\nsent,7,0,1\ncount,0,1,2,2,0,0,0,1,1\nend,12\n",
        ),
        // What comes twice counts once, and what is too old not at all.
        (
            b"net,2,1,1\nask,0,0,1,1\ntwice,1,0,up\ntwice,3,0,down\nend,7\n",
            SENT,
        ),
        (b"net,2,1,1\nask,0,0,1,1\nhold,3,0,down,6\nend,14\n", LOST),
        // A boot clears what is left, and a request from before it is refused.
        (
            b"net,2,1,1\nask,0,0,1,5\nhold,3,0,up,3\nboot,4,0\nask,4,0,1,1\nend,11\n",
            b"batch,1,0,1,0,5\nslot,2,0,1,0\nslot,3,0,1,0\nbatch,4,0,1,1,0\nslot,4,0,1,0\nbatch,5,0,1,0,1\nslot,6,0,1,0\nsent,6,0,1\ncount,0,1,1,1,0,0,0,1,0\nend,11\n",
        ),
        // A boot in round 0, of either version, changes nothing.
        (b"net,2,1,1\nboot,0,0\nask,0,0,1,1\nend,7\n", SENT),
        (b"net,2,1,1\nboot,0,0,2\nask,0,0,1,1\nend,7\n", SENT),
        // In version 2 a number is found lost only where 17 greater ones were taken.
        (
            b"net,2,1,1\nboot,0,0,2\nask,0,0,1,1\nlose,3,0,down\nend,26\n",
            b"batch,1,0,1,0,1\nslot,2,0,1,0\nbatch,20,0,1,0,1\nslot,21,0,1,0\nsent,21,0,1\ncount,0,1,1,1,0,0,1,1,0\nend,26\n",
        ),
        // Raw packets are refused by name, in the order of rows, before the slots of the round before.
        (
            b"net,2,1,1\nask,0,0,1,1\nraw,2,0102\nraw,2,0202000100000001\nraw,2,0104000100000001\nraw,2,0102000200000001\nraw,2,010200010000000100\nraw,2,0102000100000000\nraw,2,0101000100000002000000010000000000000000000000000000\nraw,2,010100010000000100000009000000000000000000000000000100000bebc201\nraw,2,0101000100000001000000090000000000000000000000010000\nend,7\n",
            b"batch,1,0,1,0,1\nrefused,2,short\nrefused,2,otherversion\nrefused,2,kind\nrefused,2,endpoint\nrefused,2,trailing\nrefused,2,epoch\nrefused,2,unsynced\nrefused,2,toomuch\nrefused,2,mask\nslot,2,0,1,0\nsent,2,0,1\ncount,0,1,1,1,0,0,0,1,0\nend,7\n",
        ),
        // A forged request asks for 200,000,000 slots; what its endpoint never asked for it doesn't send.
        (
            b"net,2,1,1\nask,0,0,1,1\nraw,2,010100010000000100000009000000000000000000000000000100000bebc200\nend,7\n",
            b"batch,1,0,1,0,1\nbatch,2,1,0,0,200000000\nslot,2,0,1,0\nslot,3,1,0,0\nslot,4,1,0,0\nsent,2,0,1\nslot,5,1,0,0\nslot,6,1,0,0\nslot,7,1,0,0\ncount,0,1,1,1,0,0,0,1,0\ncount,1,0,200000000,3,2,199999995,0,0,0\nend,7\n",
        ),
    ];
    for (trace, text) in cases.iter() {
        let came = run_with_any_workers(&rt, rt.alloc(), ONE_BY_ONE, trace)?;
        assert_eq!(rt; came.status, 0);
        assert!(rt; came.out.held() == *text);
        assert!(rt; came.notes.held().is_empty());
    }
    Ok(())
}

// Both ways are lost for 70 rounds: both ends say the same again and again once 64 numbers are open, and the slot is found lost when
// the next packet comes through.
#[test]
fn a_long_silence_is_told_apart_from_loss(rt: HostRuntime) -> Result<(), Fail> {
    let mut trace = Vec::new(rt.alloc());
    trace.extend_from_slice(b"net,2,1,1\nask,0,0,1,1\n")?;
    for round in 3..=72_u32 {
        let rows = format!(in rt.alloc(); "lose,{round},0,up\nlose,{round},0,down\n")?;
        trace.extend_from_slice(rows.as_bytes())?;
    }
    trace.extend_from_slice(b"end,90\n")?;
    let came = run_on(&rt, rt.alloc(), ONE_BY_ONE, &trace)?;
    assert_eq!(rt; came.status, 0);
    assert!(rt; came.out.held() == FOUND_LOST);
    Ok(())
}

// 300 raw packets of one round name one endpoint: its lane refuses each in turn, the last for another cause.
#[test]
fn many_raw_packets_name_one_endpoint(rt: HostRuntime) -> Result<(), Fail> {
    let mut trace = Vec::new(rt.alloc());
    trace.extend_from_slice(b"net,2,1,1\nask,0,0,1,1\n")?;
    for _ in 0..299 {
        trace.extend_from_slice(b"raw,2,0101000100000002000000010000000000000000000000000000\n")?;
    }
    trace.extend_from_slice(b"raw,2,0202000100000001\nend,7\n")?;
    let came = run_on(&rt, rt.alloc(), ONE_BY_ONE, &trace)?;
    assert_eq!(rt; came.status, 0);
    let mut lines = came.out.held().split(|byte| *byte == b'\n');
    assert!(rt; lines.next() == Some(b"batch,1,0,1,0,1".as_slice()));
    for _ in 0..299 {
        assert!(rt; lines.next() == Some(b"refused,2,unsynced".as_slice()));
    }
    assert!(rt; lines.next() == Some(b"refused,2,otherversion".as_slice()));
    assert!(rt; lines.next() == Some(b"slot,2,0,1,0".as_slice()));
    assert!(rt;
        came.out
            .held()
            .ends_with(b"\nsent,2,0,1\ncount,0,1,1,1,0,0,0,1,0\nend,7\n")
    );
    Ok(())
}

// What a plan has no rows for, a replay takes, but no packet has two fates.
#[test]
fn a_replay_takes_rows_that_a_plan_refuses(rt: HostRuntime) -> Result<(), Fail> {
    let trace = b"net,1,2,1\nlose,0,0,up\ntwice,0,0,up\nend,1\n";
    let cases: [(&str, &[u8]); 2] = [("plan", b"row,2,10\n"), ("replay", b"row,3,11\n")];
    for (command, note) in cases.iter() {
        let came = run_on(&rt, rt.alloc(), &[*command], trace)?;
        assert_eq!(rt; came.status, 2);
        assert!(rt; came.notes.held() == *note);
        assert!(rt; came.out.held().is_empty());
    }
    Ok(())
}

// Each read fails in turn, and then each write.
#[test]
fn a_fault_ends_a_replay(rt: HostRuntime) -> Result<(), Fail> {
    let alloc = rt.alloc();
    for call in 0..4u32 {
        let src = failing_source(alloc, ONE_ASK, call)?;
        let came = run_with(&rt, alloc, ONE_BY_ONE, src, sink(alloc)?, sink(alloc)?);
        assert_eq!(rt; came.status, 3);
        assert!(rt; came.notes.held() == b"read\n".as_slice());
        assert!(rt; came.out.held().is_empty());
    }
    for call in 0..10u32 {
        let came = run_with(
            &rt,
            alloc,
            ONE_BY_ONE,
            source(alloc, ONE_ASK)?,
            failing_sink(alloc, 7, call)?,
            sink(alloc)?,
        );
        assert_eq!(rt; came.status, 4);
        assert!(rt; came.notes.held() == b"write\n".as_slice());
        assert_eq!(rt; came.out.held().len(), call as usize * 7);
        assert!(rt; SENT.starts_with(came.out.held()));
    }
    Ok(())
}
