// A trace is read in pieces, and is the same wherever its reads cut it.
use super::{run_on, run_with, sink};
use fp_edge::MemSource;
use std::alloc::{AllocError, Global};
use std::test::Fail;

const TURNS: usize = 200;

// Reads of so many bytes, at most.
const SIZES: [usize; 5] = [1, 7, 4_095, 4_096, 16_384];

// A mark, a blank line and a net; then asks, some between quotes, behind each end of a line and blank lines; and what stands behind
// them.
fn trace_with(alloc: Global, behind: &[u8]) -> Result<Vec<u8>, AllocError> {
    let mut trace = Vec::new(alloc);
    trace.extend_from_slice(b"\xef\xbb\xbf\nnet,1,4,1\r\n")?;
    for _ in 0..TURNS {
        trace.extend_from_slice(b"ask,0,0,1,1\r\nask,0,0,2,1\n\n\"ask\",0,\"3\",1,1\r")?;
    }
    trace.extend_from_slice(behind)?;
    Ok(trace)
}

#[test]
fn a_trace_is_read_in_pieces_cut_anywhere(rt: HostRuntime) -> Result<(), Fail> {
    let alloc = rt.alloc();
    let cases: [(&[u8], &[u8]); 3] = [
        (
            b"end,9",
            b"net,1,4,1\nask,0,0,1,200\nask,0,0,2,200\nask,0,3,1,200\nend,9\n",
        ),
        // A quote within a field, and asks behind it.
        (
            b"ask,0,0,1,\"1\"0\nask,0,0,2,5\nend,9\n",
            b"net,1,4,1\nask,0,0,1,210\nask,0,0,2,205\nask,0,3,1,200\nend,9\n",
        ),
        // Blank lines of each kind.
        (
            b"\r\n\r\r\n\nend,9\r",
            b"net,1,4,1\nask,0,0,1,200\nask,0,0,2,200\nask,0,3,1,200\nend,9\n",
        ),
    ];
    for (behind, same) in cases.iter() {
        let whole = run_on(&rt, alloc, &["plan", "--batch", "8"], same)?;
        assert_eq!(rt; whole.status, 0);
        for size in SIZES {
            let src = MemSource::new(trace_with(alloc, behind)?, size, Vec::new(alloc));
            let words = ["plan", "--batch", "8"];
            let came = run_with(&rt, alloc, &words, src, sink(alloc)?, sink(alloc)?);
            assert_eq!(rt; came.status, 0);
            assert!(rt; came.out.held() == whole.out.held());
        }
    }
    Ok(())
}

#[test]
fn the_first_fault_is_told_once_all_is_read(rt: HostRuntime) -> Result<(), Fail> {
    let alloc = rt.alloc();
    let cases: [(&[u8], &[u8]); 3] = [
        // A flow to its source, and behind it another fault.
        (b"ask,0,2,2,1\nask,0,9,2,1\nend,9\n", b"row,602,6\n"),
        // A quote that stays open to the end.
        (b"ask,0,0,1,\"1\nend,9\n", b"row,602,4\n"),
        (b"", b"row,602,9\n"),
    ];
    for (behind, note) in cases.iter() {
        for size in SIZES {
            let src = MemSource::new(trace_with(alloc, behind)?, size, Vec::new(alloc));
            let came = run_with(&rt, alloc, &["plan"], src, sink(alloc)?, sink(alloc)?);
            assert_eq!(rt; came.status, 2);
            assert!(rt; came.notes.held() == *note);
            assert!(rt; came.out.held().is_empty());
        }
    }
    Ok(())
}

// A read that fails behind a faulty row is what is told, as the trace was not read to its end.
#[test]
fn a_failed_read_behind_a_fault_is_told(rt: HostRuntime) -> Result<(), Fail> {
    let alloc = rt.alloc();
    let mut failing = Vec::new(alloc);
    failing.push(1)?;
    let trace = trace_with(alloc, b"ask,0,2,2,1\n")?;
    let src = MemSource::new(trace, 16_384, failing);
    let came = run_with(&rt, alloc, &["plan"], src, sink(alloc)?, sink(alloc)?);
    assert_eq!(rt; came.status, 3);
    assert!(rt; came.notes.held() == b"read\n".as_slice());
    Ok(())
}
