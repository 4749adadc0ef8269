use super::{failing_sink, failing_source, run_on, run_with, sink, source};
use report_text::{Line, read_line};
use std::test::Fail;

const SEVENTH: &[u8] = b"made,7,1897,20842,19991,812,39,537,19891,0\n";

// All that is demanded is acknowledged, in flight or pending.
fn balances(text: &[u8]) -> bool {
    for bytes in text.split(|byte| *byte == b'\n') {
        if let Some(
            Line::Made {
                demanded,
                acknowledged,
                flight,
                pending,
                ..
            },
        ) = read_line(bytes)
        {
            return u128::from(demanded)
                == u128::from(acknowledged) + u128::from(flight) + u128::from(pending);
        }
    }
    false
}

// A number gives the same line again, by any number of path workers. The sums are those of another program.
#[test]
fn made_replays_are_summed(rt: HostRuntime) -> Result<(), Fail> {
    let cases: [(&[&str], &[u8]); 6] = [
        (&["make", "7"], SEVENTH),
        (&["make", "7"], SEVENTH),
        (&["make", "7", "--paths", "16"], SEVENTH),
        (
            &["make", "7", "--window", "2", "--batch", "4"],
            b"made,7,1897,20842,20573,184,85,384,20490,0\n",
        ),
        (
            &["make", "0"],
            b"made,0,1878,21001,20164,817,20,370,20057,0\n",
        ),
        (
            &["make", "4294967295"],
            b"made,4294967295,1864,20624,19789,782,53,399,19680,0\n",
        ),
    ];
    for (words, text) in cases.iter() {
        let came = run_on(&rt, rt.alloc(), words, b"")?;
        assert_eq!(rt; came.status, 0);
        assert!(rt; came.out.held() == *text);
        assert!(rt; came.notes.held().is_empty());
        assert!(rt; balances(came.out.held()));
    }
    Ok(())
}

// What the source holds, and that its reads would fail, is no matter.
#[test]
fn a_made_replay_reads_nothing(rt: HostRuntime) -> Result<(), Fail> {
    let alloc = rt.alloc();
    let src = failing_source(alloc, b"net,1\n", 0)?;
    let came = run_with(&rt, alloc, &["make", "7"], src, sink(alloc)?, sink(alloc)?);
    assert_eq!(rt; came.status, 0);
    assert!(rt; came.out.held() == SEVENTH);
    Ok(())
}

// Each write fails in turn: before it each took 16 bytes.
#[test]
fn a_fault_ends_a_made_replay(rt: HostRuntime) -> Result<(), Fail> {
    let alloc = rt.alloc();
    for call in 0..3u32 {
        let came = run_with(
            &rt,
            alloc,
            &["make", "7"],
            source(alloc, b"")?,
            failing_sink(alloc, 16, call)?,
            sink(alloc)?,
        );
        assert_eq!(rt; came.status, 4);
        assert!(rt; came.notes.held() == b"write\n".as_slice());
        assert_eq!(rt; came.out.held().len(), call as usize * 16);
        assert!(rt; SEVENTH.starts_with(came.out.held()));
    }
    Ok(())
}
