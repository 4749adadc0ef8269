use super::{
    PIECE, THREE_FLOWS_PLANNED, failing_sink, failing_source, run_on, run_with, sink, source,
};
use fp_edge::MemSource;
use std::test::Fail;

const ONE_RACK: &[&str] = &[
    "audit", "--racks", "1", "--hosts", "4", "--cores", "1", "--batch", "2",
];

const THREE_RACKS: &[&str] = &[
    "audit", "--racks", "3", "--hosts", "2", "--cores", "2", "--batch", "1",
];

const TWO_RACKS: &[&str] = &[
    "audit", "--racks", "2", "--hosts", "1", "--cores", "1", "--batch", "1",
];

/// The plan of three flows without the last of its slots.
const WITHOUT_A_SLOT: &[u8] =
    b"batch,0,0,1,0,1\nbatch,0,0,2,0,1\nbatch,0,3,1,0,1\nslot,1,0,1,-\nslot,2,0,2,-\nflow,0,1,1,1,0\nflow,0,2,1,1,0\nflow,3,1,1,1,0\nend,1\n";

#[test]
fn good_texts_are_counted(rt: HostRuntime) -> Result<(), Fail> {
    let cases: [(&[&str], &[u8], &[u8]); 6] = [
        (ONE_RACK, THREE_FLOWS_PLANNED, b"ok,10\n"),
        // The pairs come in any order.
        (
            &[
                "audit", "--batch", "2", "--cores", "1", "--racks", "1", "--hosts", "4",
            ],
            THREE_FLOWS_PLANNED,
            b"ok,10\n",
        ),
        (
            THREE_RACKS,
            b"batch,0,0,2,0,1\nbatch,0,1,4,0,1\nbatch,0,2,0,0,1\nbatch,0,3,5,0,1\nslot,1,0,2,1\nslot,1,1,4,0\nslot,1,2,0,0\nslot,1,3,5,1\nflow,0,2,1,1,0\nflow,1,4,1,1,0\nflow,2,0,1,1,0\nflow,3,5,1,1,0\nend,1\n",
            b"ok,13\n",
        ),
        // A lost slot, asked for again.
        (
            TWO_RACKS,
            b"batch,1,0,1,0,1\nslot,2,0,1,0\nbatch,8,0,1,0,1\nslot,9,0,1,0\nsent,9,0,1\ncount,0,1,1,1,0,0,1,1,0\nend,14\n",
            b"ok,7\n",
        ),
        // A boot clears what is left.
        (
            TWO_RACKS,
            b"batch,1,0,1,0,5\nslot,2,0,1,0\nslot,3,0,1,0\nbatch,4,0,1,1,0\nslot,4,0,1,0\nbatch,5,0,1,0,1\nslot,6,0,1,0\nsent,6,0,1\ncount,0,1,1,1,0,0,0,1,0\nend,11\n",
            b"ok,10\n",
        ),
        // Batches of 8 slots, where no size is named.
        (
            &["audit", "--racks", "1", "--hosts", "2", "--cores", "1"],
            b"batch,0,0,1,0,9\nslot,1,0,1,-\nslot,2,0,1,-\nslot,3,0,1,-\nslot,4,0,1,-\nslot,5,0,1,-\nslot,6,0,1,-\nslot,7,0,1,-\nslot,8,0,1,-\nflow,0,1,9,8,1\nend,1\n",
            b"ok,11\n",
        ),
    ];
    for (words, text, told) in cases.iter() {
        let came = run_on(&rt, rt.alloc(), words, text)?;
        assert_eq!(rt; came.status, 0);
        assert!(rt; came.out.held() == *told);
        assert!(rt; came.notes.held().is_empty());
    }
    Ok(())
}

#[test]
fn the_first_bad_line_is_told(rt: HostRuntime) -> Result<(), Fail> {
    let cases: [(&[&str], &[u8], &[u8]); 8] = [
        // The first two packets share the link from rack 0 to core 0.
        (
            THREE_RACKS,
            b"batch,0,0,2,0,1\nbatch,0,1,4,0,1\nbatch,0,2,0,0,1\nbatch,0,3,5,0,1\nslot,1,0,2,0\nslot,1,1,4,0\nslot,1,2,0,0\nslot,1,3,5,1\nflow,0,2,1,1,0\nflow,1,4,1,1,0\nflow,2,0,1,1,0\nflow,3,5,1,1,0\nend,1\n",
            b"bad,6\n",
        ),
        (ONE_RACK, WITHOUT_A_SLOT, b"bad,9\n"),
        (ONE_RACK, b"", b"bad,1\n"),
        // No line, and what stands behind the last line feed.
        (ONE_RACK, b"batch,0,0,1,0,1\nslots\nend,1\n", b"bad,2\n"),
        (ONE_RACK, b"end,1\nend,1", b"bad,2\n"),
        // A line that cannot stand where it stands goes before one that is wrong.
        (
            ONE_RACK,
            b"slot,1,0,1,-\nbatch,0,0,0,0,1\nend,1\n",
            b"bad,2\n",
        ),
        // The same text, of fewer slots a batch, of another net.
        (
            &["audit", "--racks", "1", "--hosts", "4", "--cores", "1"],
            b"batch,0,0,1,0,2\nslot,1,0,1,-\nflow,0,1,2,1,1\nend,1\n",
            b"bad,3\n",
        ),
        (
            &[
                "audit", "--racks", "4", "--hosts", "1", "--cores", "1", "--batch", "2",
            ],
            THREE_FLOWS_PLANNED,
            b"bad,4\n",
        ),
    ];
    for (words, text, note) in cases.iter() {
        let came = run_on(&rt, rt.alloc(), words, text)?;
        assert_eq!(rt; came.status, 7);
        assert!(rt; came.notes.held() == *note);
        assert!(rt; came.out.held().is_empty());
    }
    Ok(())
}

#[test]
fn other_words_ask_for_no_audit(rt: HostRuntime) -> Result<(), Fail> {
    let cases: [&[&str]; 14] = [
        &["audit"],
        &["audit", "--racks", "1"],
        &["audit", "--racks", "1", "--hosts", "4"],
        &["audit", "--racks", "1", "--cores", "4", "--batch", "2"],
        &["audit", "--racks", "1", "--hosts", "4", "--cores"],
        &["audit", "--racks", "0", "--hosts", "4", "--cores", "1"],
        &["audit", "--racks", "65", "--hosts", "1", "--cores", "1"],
        &["audit", "--racks", "01", "--hosts", "4", "--cores", "1"],
        // No more than 256 endpoints.
        &["audit", "--racks", "5", "--hosts", "64", "--cores", "64"],
        &[
            "audit", "--racks", "1", "--hosts", "4", "--cores", "1", "--racks", "1",
        ],
        &[
            "audit", "--racks", "1", "--hosts", "4", "--cores", "1", "--batch", "65",
        ],
        // What a run is told is for no audit, and a net for no run.
        &[
            "audit", "--racks", "1", "--hosts", "4", "--cores", "1", "--window", "2",
        ],
        &["plan", "--racks", "1"],
        &["make", "7", "--cores", "1"],
    ];
    for words in cases.iter() {
        let came = run_on(&rt, rt.alloc(), words, THREE_FLOWS_PLANNED)?;
        assert_eq!(rt; came.status, 1);
        assert!(rt; came.notes.held() == b"words\n".as_slice());
        assert!(rt; came.out.held().is_empty());
    }
    Ok(())
}

// Each read fails in turn, and then each write: before it each took a byte. What is judged bad is not written.
#[test]
fn a_fault_ends_an_audit(rt: HostRuntime) -> Result<(), Fail> {
    let alloc = rt.alloc();
    for call in 0..15u32 {
        let src = failing_source(alloc, THREE_FLOWS_PLANNED, call)?;
        let came = run_with(&rt, alloc, ONE_RACK, src, sink(alloc)?, sink(alloc)?);
        assert_eq!(rt; came.status, 3);
        assert!(rt; came.notes.held() == b"read\n".as_slice());
        assert!(rt; came.out.held().is_empty());
    }
    for call in 0..6u32 {
        let came = run_with(
            &rt,
            alloc,
            ONE_RACK,
            source(alloc, THREE_FLOWS_PLANNED)?,
            failing_sink(alloc, 1, call)?,
            sink(alloc)?,
        );
        assert_eq!(rt; came.status, 4);
        assert!(rt; came.notes.held() == b"write\n".as_slice());
        assert_eq!(rt; came.out.held().len(), call as usize);
        assert!(rt; b"ok,10\n".starts_with(came.out.held()));
    }
    let came = run_with(
        &rt,
        alloc,
        ONE_RACK,
        source(alloc, WITHOUT_A_SLOT)?,
        failing_sink(alloc, 1, 0)?,
        sink(alloc)?,
    );
    assert_eq!(rt; came.status, 7);
    Ok(())
}

// As many bytes as the limit are judged, and one more is too many.
#[test]
fn a_text_above_the_limit_is_not_judged(rt: HostRuntime) -> Result<(), Fail> {
    let alloc = rt.alloc();
    let cases: [(usize, u8, &[u8]); 2] = [(67_108_864, 7, b"bad,1\n"), (67_108_865, 6, b"big\n")];
    for (size, status, note) in cases.iter() {
        let bytes = vec![in alloc; b'x'; *size]?;
        let src = MemSource::new(bytes, PIECE, Vec::new(alloc));
        let came = run_with(&rt, alloc, ONE_RACK, src, sink(alloc)?, sink(alloc)?);
        assert_eq!(rt; came.status, *status);
        assert!(rt; came.notes.held() == *note);
        assert!(rt; came.out.held().is_empty());
    }
    Ok(())
}

// A write of the note that fails is the last, and changes no status.
#[test]
fn a_fault_of_the_notes_changes_no_verdict(rt: HostRuntime) -> Result<(), Fail> {
    let alloc = rt.alloc();
    for call in 0..6u32 {
        let came = run_with(
            &rt,
            alloc,
            ONE_RACK,
            source(alloc, WITHOUT_A_SLOT)?,
            sink(alloc)?,
            failing_sink(alloc, 1, call)?,
        );
        assert_eq!(rt; came.status, 7);
        assert_eq!(rt; came.notes.held().len(), call as usize);
        assert!(rt; b"bad,9\n".starts_with(came.notes.held()));
    }
    Ok(())
}
